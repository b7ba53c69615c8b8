//! Looking through a trail for values that nothing gives yet.

use crate::network::Network;
use crate::reader::Gate;
use crate::signal::{Signal, truth_at};
use eco_learn::{Trail, Truth};
use eco_meaning::OutOfMemory;
use eco_trace::Lit;
use std::alloc::Global;

/// How far the trail was looked through. Behind level 0 each gate before this place has operands that give it its value, or
/// has none.
#[derive(Drop)]
pub(crate) struct Looking {
    place: usize,
    /// The place at which each level was opened.
    marks: Vec<usize>,
}

impl Looking {
    /// A search that has not begun.
    pub(crate) fn new(alloc: Global) -> Looking {
        Looking {
            place: 0,
            marks: Vec::new(alloc),
        }
    }

    /// A search begins.
    pub(crate) fn begin(&mut self) {
        self.place = 0;
        self.marks.clear();
    }

    /// The search is at this level: what was seen of higher ones is forgotten.
    pub(crate) fn settle(&mut self, level: usize) -> Result<(), OutOfMemory> {
        if let Some(mark) = self.marks.get(level).copied() {
            self.place = mark;
            self.marks.truncate(level);
        }
        for _ in self.marks.len()..level {
            self.marks.push(self.place)?;
        }
        Ok(())
    }

    /// The search opens a level.
    pub(crate) fn open(&mut self) -> Result<(), OutOfMemory> {
        self.marks.push(self.place)?;
        Ok(())
    }

    /// A literal that is to be decided next, so that a gate behind level 0 has its value from its operands; None where all
    /// have.
    pub(crate) fn next(&mut self, network: &Network, trail: &Trail) -> Option<Lit> {
        let from = self.place.max(trail.end(0));
        for place in from..trail.len() {
            self.place = place;
            let wanted = support(network, trail, trail.lit(place));
            if wanted.is_some() {
                return wanted;
            }
        }
        self.place = trail.len();
        None
    }
}

/// An open operand's literal that is to be decided, so that the gate of the literal's node has its value from its operands;
/// None where it has, or has none.
pub(crate) fn support(network: &Network, trail: &Trail, lit: Lit) -> Option<Lit> {
    let node = network.find(Signal::of(lit)).node;
    let gate = network.gate(node)?;
    let operands = network.operands(gate);
    if gate.is_xor {
        return first_open(trail, operands);
    }
    if is_false(trail, gate) {
        zero(trail, operands)
    } else {
        None
    }
}

fn is_false(trail: &Trail, gate: Gate) -> bool {
    matches!(truth_at(trail, gate.out), Truth::False)
}

/// The complement of the first operand that is open.
fn first_open(trail: &Trail, operands: &[Signal]) -> Option<Lit> {
    for operand in operands {
        if matches!(truth_at(trail, *operand), Truth::Open) {
            return Some(operand.lit().complement());
        }
    }
    None
}

/// The same, where no operand is false.
fn zero(trail: &Trail, operands: &[Signal]) -> Option<Lit> {
    for operand in operands {
        if matches!(truth_at(trail, *operand), Truth::False) {
            return None;
        }
    }
    first_open(trail, operands)
}
