//! Known inputs that a set of columns doesn't tell apart. All of it is free: it says which rows are listed.

use crate::sights::Sight;
use eco_meaning::OutOfMemory;
use std::alloc::Global;

/// How many pairs are looked for at a time.
const MOST_MISSED: usize = 64;

/// How many inputs that agree are tried on either side for a pair with few turns that differ.
const NEAR: usize = 8;

/// The places of two seen inputs that a set of columns doesn't tell apart, the first among those that force the target to 1.
#[derive(Clone, Copy)]
pub(crate) struct Missed {
    pub(crate) one: usize,
    pub(crate) zero: usize,
}

/// The hash of an input's values in the paid signals and in a set's columns, the bit that the input forces, and its place.
type Print = (u64, bool, usize);

/// Pairs of inputs that agree on the paid signals and in the columns.
pub(crate) fn missed_pairs(
    alloc: Global,
    ones: &[Sight],
    zeros: &[Sight],
    columns: &[usize],
) -> Result<Vec<Missed>, OutOfMemory> {
    let mut prints = Vec::with_capacity(alloc, ones.len().saturating_add(zeros.len()))?;
    push_prints(&mut prints, ones, columns, true)?;
    push_prints(&mut prints, zeros, columns, false)?;
    prints.sort_unstable();
    let mut pairs = Vec::new(alloc);
    for place in 1..prints.len() {
        if pairs.len() < MOST_MISSED && is_border(prints.as_slice(), place) {
            if let Some(pair) = nearest(ones, zeros, columns, prints.as_slice(), place) {
                pairs.push(pair)?;
            }
        }
    }
    Ok(pairs)
}

/// Puts the prints of these inputs, which force the target to the bit, behind the others.
fn push_prints(
    prints: &mut Vec<Print>,
    sights: &[Sight],
    columns: &[usize],
    bit: bool,
) -> Result<(), OutOfMemory> {
    for (place, sight) in sights.iter().enumerate() {
        prints.push((hash_of(sight, columns), bit, place))?;
    }
    Ok(())
}

/// The hash of the values in the paid signals and in the columns.
fn hash_of(sight: &Sight, columns: &[usize]) -> u64 {
    let mut hash = 0xcbf2_9ce4_8422_2325;
    for bit in sight.paid.as_slice() {
        hash = mixed(hash, *bit);
    }
    for column in columns {
        hash = mixed(hash, bit_at(sight, *column));
    }
    hash
}

/// The hash with one bit more.
fn mixed(hash: u64, bit: bool) -> u64 {
    (hash ^ u64::from(bit)).wrapping_mul(0x0000_0100_0000_01b3)
}

/// The value in the column.
fn bit_at(sight: &Sight, column: usize) -> bool {
    sight.turns.as_slice().get(column).copied().unwrap_or(false)
}

/// Whether the prints before this place have the same hash and force another bit.
fn is_border(prints: &[Print], place: usize) -> bool {
    match (prints.get(place.saturating_sub(1)), prints.get(place)) {
        (Some(before), Some(here)) => before.0 == here.0 && !before.1 && here.1,
        _ => false,
    }
}

/// Two inputs that agree, and the number of turns that differ.
#[derive(Clone, Copy)]
struct Close {
    pair: Missed,
    distance: usize,
}

/// Of the inputs at the border two that agree and have the fewest turns that differ.
fn nearest(
    ones: &[Sight],
    zeros: &[Sight],
    columns: &[usize],
    prints: &[Print],
    border: usize,
) -> Option<Missed> {
    let mut best = None;
    for back in 1..NEAR {
        let zero = place_at(prints, border, border.checked_sub(back), false);
        if let Some(sight) = zero.and_then(|place| zeros.get(place)) {
            let close = nearest_one(ones, sight, zero.unwrap_or(0), columns, prints, border);
            best = closer(best, close);
        }
    }
    best.map(|close| close.pair)
}

/// Of the inputs behind the border that which agrees with the one before it and has the fewest turns that differ.
fn nearest_one(
    ones: &[Sight],
    sight: &Sight,
    zero: usize,
    columns: &[usize],
    prints: &[Print],
    border: usize,
) -> Option<Close> {
    let mut best = None;
    for ahead in 0..NEAR {
        if let Some(one) = place_at(prints, border, border.checked_add(ahead), true) {
            best = closer(best, compared(ones, one, sight, zero, columns));
        }
    }
    best
}

/// The input of this place, if it stands at the border with prints of the same hash, and forces the bit.
fn place_at(prints: &[Print], border: usize, at: Option<usize>, bit: bool) -> Option<usize> {
    let here = prints.get(border)?;
    let print = prints.get(at?)?;
    if print.0 == here.0 && print.1 == bit {
        Some(print.2)
    } else {
        None
    }
}

/// The two inputs, if they agree on the paid signals and in the columns.
fn compared(
    ones: &[Sight],
    one: usize,
    sight: &Sight,
    zero: usize,
    columns: &[usize],
) -> Option<Close> {
    let other = ones.get(one)?;
    if !agree(other, sight, columns) {
        return None;
    }
    let distance = distance(other.turns.as_slice(), sight.turns.as_slice());
    Some(Close {
        pair: Missed { one, zero },
        distance,
    })
}

/// Whether the inputs agree on the paid signals and in the columns.
fn agree(one: &Sight, zero: &Sight, columns: &[usize]) -> bool {
    if distance(one.paid.as_slice(), zero.paid.as_slice()) > 0 {
        return false;
    }
    for column in columns {
        if bit_at(one, *column) != bit_at(zero, *column) {
            return false;
        }
    }
    true
}

/// The number of places at which the lists of bits differ.
fn distance(first: &[bool], second: &[bool]) -> usize {
    let mut count: usize = 0;
    for (one, zero) in first.iter().zip(second) {
        if *one != *zero {
            count = count.saturating_add(1);
        }
    }
    count
}

/// The pair with fewer turns that differ.
fn closer(first: Option<Close>, second: Option<Close>) -> Option<Close> {
    match (first, second) {
        (Some(one), Some(other)) => Some(if other.distance < one.distance {
            other
        } else {
            one
        }),
        (Some(one), None) => Some(one),
        (None, other) => other,
    }
}
