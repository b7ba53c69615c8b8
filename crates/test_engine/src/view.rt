//! What a loop over two inputs sees of a question for two inputs.

use crate::bits::{one_at, place_value};
use crate::front::Front;
use crate::table::Table;
use crate::values::{filled, value};
use eco_netlist::{NetId, Netlist};
use eco_query::Problem;
use std::alloc::Global;
use std::process::Abort;

/// For each input the values there of the targets before the asked one, and those of the base; and the listed values of the
/// targets behind it.
#[derive(Drop)]
pub struct View {
    target: u64,
    befores: Vec<u64>,
    bases: Vec<u64>,
    rests: Vec<u64>,
}

impl View {
    /// What is seen of the front's target with this base and these rests.
    pub fn new(
        rt: &impl Abort,
        alloc: Global,
        problem: &Problem,
        front: &Front,
        base: &[NetId],
        rests: Vec<u64>,
    ) -> View {
        let implementation = problem.implementation();
        let befores = befores(rt, alloc, implementation, front);
        let bases = bases(rt, alloc, implementation, base, befores.as_slice());
        View {
            target: front.target,
            befores,
            bases,
            rests,
        }
    }

    /// The values of the base.
    fn base(&self, input: u64) -> u64 {
        self.bases.get(input as usize).copied().unwrap_or(0)
    }

    /// The values of all targets at the input where the asked one has the bit and those behind it this rest.
    fn row(&self, input: u64, bit: bool, rest: u64) -> u64 {
        let before = self.befores.get(input as usize).copied().unwrap_or(0);
        let behind = rest << (self.target.wrapping_add(1) % 64);
        before | place_value(bit, self.target) | behind
    }

    /// Whether nothing is right at the input where the target has the other bit and those behind it have listed values.
    fn is_forced(&self, table: &Table, input: u64, bit: bool) -> bool {
        !self
            .rests
            .iter()
            .any(|rest| table.is_right(input, self.row(input, !bit, *rest)))
    }

    /// Whether the base has the same values at both inputs, of which the first forces 1 and the second 0.
    pub fn is_separated(&self, table: &Table, one: u64, zero: u64) -> bool {
        self.base(one) == self.base(zero)
            && self.is_forced(table, one, true)
            && self.is_forced(table, zero, false)
    }

    /// Whether there is a second input to the first one.
    fn has_second(&self, table: &Table, one: u64) -> bool {
        (0..table.input_count()).any(|zero| self.is_separated(table, one, zero))
    }

    /// Whether there are two such inputs.
    pub fn has_pair(&self, table: &Table) -> bool {
        (0..table.input_count()).any(|one| self.has_second(table, one))
    }
}

/// For each input the values there of the targets before the front's.
fn befores(rt: &impl Abort, alloc: Global, implementation: &Netlist, front: &Front) -> Vec<u64> {
    let mut befores = Vec::new(alloc);
    for input in 0..one_at(implementation.inputs().len() as u64) {
        befores.push(front.before(input)).expect(rt, "memory");
    }
    befores
}

/// For each input the values there of the base, where the first targets have these values.
fn bases(
    rt: &impl Abort,
    alloc: Global,
    implementation: &Netlist,
    base: &[NetId],
    befores: &[u64],
) -> Vec<u64> {
    let mut bases = Vec::new(alloc);
    for (input, before) in befores.iter().enumerate() {
        let values = values_of(rt, alloc, implementation, base, input as u64, *before);
        bases.push(values).expect(rt, "memory");
    }
    bases
}

/// The values of the nets at the input, where the targets have those of the row.
fn values_of(
    rt: &impl Abort,
    alloc: Global,
    netlist: &Netlist,
    nets: &[NetId],
    input: u64,
    row: u64,
) -> u64 {
    let values = filled(rt, alloc, netlist, netlist, input, row);
    let mut number = 0;
    for (place, net) in nets.iter().enumerate() {
        number |= place_value(value(values.as_slice(), Some(*net)), place as u64);
    }
    number
}
