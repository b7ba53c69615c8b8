//! Where an implementation is right.

use crate::bits::{lowest, one_at};
use crate::values::is_right;
use eco_query::Problem;
use std::alloc::Global;
use std::process::Abort;

/// For each input and each row of the targets' values whether the implementation is right.
#[derive(Drop)]
pub struct Table {
    inputs: u64,
    targets: u64,
    rights: Vec<bool>,
}

impl Table {
    /// The table of the problem.
    pub fn new(rt: &impl Abort, alloc: Global, problem: &Problem) -> Table {
        let inputs = problem.implementation().inputs().len() as u64;
        let targets = problem.implementation().targets().len() as u64;
        Table {
            inputs,
            targets,
            rights: rights(rt, alloc, problem, inputs, targets),
        }
    }

    /// The number of targets.
    pub fn targets(&self) -> u64 {
        self.targets
    }

    /// The number of targets behind the target of this number.
    pub fn behind(&self, target: u64) -> u64 {
        self.targets.saturating_sub(target).saturating_sub(1)
    }

    /// The number of inputs with different bits.
    pub fn input_count(&self) -> u64 {
        one_at(self.inputs)
    }

    /// The number of rows of the targets' values.
    pub fn row_count(&self) -> u64 {
        one_at(self.targets)
    }

    /// Whether the implementation is right at the input with this row.
    pub fn is_right(&self, input: u64, row: u64) -> bool {
        let place = input.wrapping_mul(self.row_count()).wrapping_add(row);
        self.rights.get(place as usize).copied().unwrap_or(false)
    }

    /// Whether the implementation is right at the input with some row that begins with these bits, so many of them.
    pub fn has_right(&self, input: u64, fixed: u64, count: u64) -> bool {
        (0..self.row_count()).any(|row| lowest(row, count) == fixed && self.is_right(input, row))
    }
}

/// For each input, row by row, whether the implementation is right.
fn rights(
    rt: &impl Abort,
    alloc: Global,
    problem: &Problem,
    inputs: u64,
    targets: u64,
) -> Vec<bool> {
    let mut rights = Vec::new(alloc);
    for place in 0..one_at(inputs.wrapping_add(targets)) {
        let input = place >> (targets % 64);
        let row = lowest(place, targets);
        rights
            .push(is_right(rt, alloc, problem, input, row))
            .expect(rt, "memory");
    }
    rights
}
