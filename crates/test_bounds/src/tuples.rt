//! Tuples of two inputs.

use eco_meaning::Bits;
use std::alloc::Global;
use std::process::Abort;

/// The input of so many bits that are those of the number.
fn input(rt: &impl Abort, alloc: Global, count: u32, number: u64) -> Bits {
    let mut bits = Vec::new(alloc);
    for place in 0..count {
        bits.push(number.wrapping_shr(place) % 2 == 1)
            .expect(rt, "memory");
    }
    Bits::of(bits)
}

/// The tuple of two inputs.
fn two(rt: &impl Abort, alloc: Global, count: u32, one: u64, other: u64) -> Vec<Bits> {
    let mut tuple = Vec::new(alloc);
    tuple
        .push(input(rt, alloc, count, one))
        .expect(rt, "memory");
    tuple
        .push(input(rt, alloc, count, other))
        .expect(rt, "memory");
    tuple
}

/// All tuples of two inputs of so many bits, at most six.
pub fn all_pairs(rt: &impl Abort, alloc: Global, count: u32) -> Vec<Vec<Bits>> {
    let inputs = 1u64.wrapping_shl(count.min(6));
    let mut tuples = Vec::new(alloc);
    for one in 0..inputs {
        for other in 0..one {
            tuples
                .push(two(rt, alloc, count, one, other))
                .expect(rt, "memory");
        }
    }
    tuples
}

/// For each bit the tuple of the input whose bits are 0, and of the one in which it alone is 1.
pub fn unit_pairs(rt: &impl Abort, alloc: Global, count: u32) -> Vec<Vec<Bits>> {
    let mut tuples = Vec::new(alloc);
    for place in 0..count {
        let unit = 1u64.wrapping_shl(place);
        tuples
            .push(two(rt, alloc, count, 0, unit))
            .expect(rt, "memory");
    }
    tuples
}
