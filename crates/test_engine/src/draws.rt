//! Drawn numbers.

use eco_meaning::Kind;
use rand_core::SeedableRng;
use rand_core::utils::NextWord;
use rand_pcg::Pcg32;

/// The words of the generator with this seed.
pub fn seeded(seed: u64) -> Pcg32 {
    Pcg32::seed_from_u64(seed)
}

/// The next number below the bound; 0 where the bound is 0.
pub fn below(draws: &mut Pcg32, bound: u64) -> u64 {
    u64::from(draws.next_word()) % bound.max(1)
}

/// The next number from the least to the greatest.
pub fn between(draws: &mut Pcg32, least: u64, greatest: u64) -> u64 {
    let more = below(draws, greatest.wrapping_sub(least).wrapping_add(1));
    least.wrapping_add(more)
}

/// The next kind of a gate; where it is changed, the kind of the complement.
pub fn kind(draws: &mut Pcg32, is_changed: bool) -> Kind {
    let number = below(draws, 8);
    numbered_kind(if is_changed { number ^ 1 } else { number })
}

/// The kind of this number.
fn numbered_kind(number: u64) -> Kind {
    match number {
        0 => Kind::And,
        1 => Kind::Nand,
        2 => Kind::Or,
        3 => Kind::Nor,
        4 => Kind::Xor,
        5 => Kind::Xnor,
        6 => Kind::Buf,
        _ => Kind::Not,
    }
}
