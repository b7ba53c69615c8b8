//! The generator SplitMix64.

use std::marker::Model;

/// What its state grows by.
const STEP: u64 = 0x9e37_79b9_7f4a_7c15;

/// The generator SplitMix64, whose value is its state: all bits of its numbers look random.
#[derive(Drop)]
pub struct SplitMix {
    state: u64,
}

impl Model for SplitMix {
    ghost use Rattle.std.specs.Prelude.{ℕ};

    ghost Value = { ℕ };

    ghost view = { λ draws. draws.state };
}

impl SplitMix {
    ghost use Rattle.std.specs.Prelude.{◌≡◌, ◌+◌, ◌^◌, ◌%◌};

    /// The generator with this seed.
    pub fn new(seed: u64) -> SplitMix
        ensures { result ≡ seed }
    {
        SplitMix { state: seed }
    }

    /// The next number.
    pub fn next(&mut self) -> u64
        ensures { self.new ≡ (self.old + 11400714819323198485) % 2 ^ 64 }
    {
        self.state = self.state.wrapping_add(STEP);
        mixed(self.state)
    }
}

/// The first number of the generator with this seed.
pub fn drawn_from(seed: u64) -> u64 {
    mixed(seed.wrapping_add(STEP))
}

/// A number that depends on each bit of the given one.
pub fn mixed(number: u64) -> u64 {
    let first = (number ^ (number >> 30)).wrapping_mul(0xbf58_476d_1ce4_e5b9);
    let second = (first ^ (first >> 27)).wrapping_mul(0x94d0_49bb_1331_11eb);
    second ^ (second >> 31)
}
