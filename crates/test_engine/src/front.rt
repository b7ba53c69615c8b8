//! Targets whose values are given by patches, and the target behind them.

use crate::bits::{has_bit, place_value};
use crate::draws::{below, seeded};
use eco_netlist::Netlist;
use rand_pcg::Pcg32;
use std::alloc::Global;
use std::process::Abort;

/// What a target follows: the input at this place, or 0 where there is none; or the complement of that.
#[derive(Clone, Copy)]
pub struct Source {
    pub place: u64,
    pub is_complement: bool,
}

/// A target by its number, what the targets before it follow, and the patch by which they do.
#[derive(Drop)]
pub struct Front {
    pub target: u64,
    pub sources: Vec<Source>,
    pub patch: Netlist,
}

impl Front {
    /// The values at the input of the targets before this one.
    pub fn before(&self, input: u64) -> u64 {
        let mut row = 0;
        for (place, source) in self.sources.iter().enumerate() {
            row |= place_value(bit_at(*source, input), place as u64);
        }
        row
    }
}

/// The value of the source at the input.
fn bit_at(source: Source, input: u64) -> bool {
    has_bit(input, source.place) != source.is_complement
}

/// Some sources, so many, of netlists with so many inputs.
pub fn drawn_sources(
    rt: &impl Abort,
    alloc: Global,
    seed: u64,
    inputs: u64,
    count: u64,
) -> Vec<Source> {
    let mut draws = seeded(seed.wrapping_add(7000));
    let mut sources = Vec::new(alloc);
    for _ in 0..count {
        sources
            .push(drawn_source(&mut draws, inputs))
            .expect(rt, "memory");
    }
    sources
}

/// The next source.
fn drawn_source(draws: &mut Pcg32, inputs: u64) -> Source {
    Source {
        place: below(draws, inputs.wrapping_add(1)),
        is_complement: below(draws, 2) == 1,
    }
}
