//! References are guessed, and tried at every input.

ghost use Rattle.std.specs.Prelude.{◌≡◌, length};

use crate::problems::{Problem, Signals, no_signals};
use eco_aig::{Aig, Edge, OutOfMemory};
use eco_guess::{Hints, Opened, groups, guess};
use eco_meaning::Bits;
use std::alloc::Global;

/// A problem's two graphs: with its targets open, and with the implementation's inputs alone.
#[derive(Drop)]
pub(crate) struct Graphs {
    pub(crate) open: Aig,
    pub(crate) open_signals: Signals,
    pub(crate) plain: Aig,
    pub(crate) plain_signals: Signals,
}

/// What came of a guess.
#[derive(Clone, Copy, PartialEq, Eq)]
pub(crate) enum Outcome {
    /// Nothing was guessed.
    Nothing,
    /// The implementation is right at every input, and so many nodes were added.
    Right(u64),
    /// It isn't.
    Wrong,
}

/// The empty graphs.
pub(crate) fn no_graphs(alloc: Global) -> Result<Graphs, OutOfMemory> {
    let open = Aig::new(alloc)?;
    match Aig::new(alloc) {
        Ok(plain) => Ok(Graphs {
            open,
            open_signals: no_signals(alloc),
            plain,
            plain_signals: no_signals(alloc),
        }),
        Err(error) => {
            drop(open);
            Err(error)
        }
    }
}

impl Graphs {
    /// Builds both graphs of the problem.
    pub(crate) fn build(&mut self, problem: &Problem) -> Result<(), OutOfMemory> {
        self.open_signals.build(&mut self.open, problem, true)?;
        self.plain_signals.build(&mut self.plain, problem, false)
    }

    /// The groups of the targets.
    pub(crate) fn groups(&self, alloc: Global) -> Result<Vec<usize>, OutOfMemory> {
        groups(alloc, &opened(&self.open, &self.open_signals))
    }

    /// References of the targets of the group, where these nets are tried first.
    pub(crate) fn guess(
        &mut self,
        alloc: Global,
        group: &[usize],
        nets: &[Edge],
        seen: &[Bits],
    ) -> Result<Option<Vec<Edge>>, OutOfMemory> {
        let opened = opened(&self.open, &self.open_signals);
        let hints = Hints {
            inputs: self.plain_signals.inputs.as_slice(),
            nets,
            seen,
        };
        guess(alloc, &opened, group, &mut self.plain, &hints)
    }

    /// Guesses references of all targets, as one group, and tries them at every input. All signals are tried first.
    pub(crate) fn outcome(
        &mut self,
        alloc: Global,
        problem: &Problem,
    ) -> Result<Outcome, OutOfMemory> {
        self.build(problem)?;
        let group = numbers(alloc, problem.targets)?;
        let nets = Vec::from_slice(alloc, self.plain_signals.all.as_slice())?;
        let before = self.plain.nodes();
        match self.guess(alloc, group.as_slice(), nets.as_slice(), &[])? {
            None => Ok(Outcome::Nothing),
            Some(references) => {
                if self.are_right(alloc, problem, references.as_slice())? {
                    Ok(Outcome::Right(self.plain.nodes().saturating_sub(before)))
                } else {
                    Ok(Outcome::Wrong)
                }
            }
        }
    }

    /// Whether the implementation is right at every input if the targets have the values of these edges.
    fn are_right(
        &self,
        alloc: Global,
        problem: &Problem,
        references: &[Edge],
    ) -> Result<bool, OutOfMemory> {
        if references.len() != problem.targets {
            return Ok(false);
        }
        for row in 0..1_u64 << (problem.inputs % 64) {
            if !self.is_right(alloc, problem, references, row)? {
                return Ok(false);
            }
        }
        Ok(true)
    }

    /// The same at one input.
    fn is_right(
        &self,
        alloc: Global,
        problem: &Problem,
        references: &[Edge],
        row: u64,
    ) -> Result<bool, OutOfMemory> {
        let values = row_bits(alloc, &self.plain, row)?;
        let with_targets = target_bits(row, problem.inputs, references, values.as_slice());
        let bits = row_bits(alloc, &self.open, with_targets)?;
        let outputs = self.open_signals.outputs.iter();
        for (output, wanted) in outputs.zip(self.open_signals.wanted.iter()) {
            if edge_bit(bits.as_slice(), *output) != edge_bit(bits.as_slice(), *wanted) {
                return Ok(false);
            }
        }
        Ok(true)
    }
}

/// What is guessed about.
fn opened<'o>(graph: &'o Aig, signals: &'o Signals) -> Opened<'o> {
    Opened {
        graph,
        inputs: signals.inputs.as_slice(),
        targets: signals.targets.as_slice(),
        outputs: signals.outputs.as_slice(),
        wanted: signals.wanted.as_slice(),
        cared: Edge::ONE,
    }
}

/// The numbers below this one, in order.
pub(crate) fn numbers(alloc: Global, count: usize) -> Result<Vec<usize>, OutOfMemory> {
    let mut numbers = Vec::new(alloc);
    for number in 0..count {
        numbers.push(number)?;
    }
    Ok(numbers)
}

/// The row with the values of the references as bits behind those of the inputs.
fn target_bits(row: u64, inputs: usize, references: &[Edge], values: &[bool]) -> u64 {
    let mut bits = row;
    for (place, reference) in references.iter().enumerate() {
        if edge_bit(values, *reference) {
            bits = bits | 1_u64 << (inputs.saturating_add(place) % 64);
        }
    }
    bits
}

/// The edge's bit, where the nodes have these.
fn edge_bit(bits: &[bool], edge: Edge) -> bool {
    bits.get(edge.node as usize).copied().unwrap_or(false) != edge.complemented
}

/// The bits of the nodes where the inputs have the bits of the row, the first one the lowest.
fn row_bits(alloc: Global, graph: &Aig, row: u64) -> Result<Vec<bool>, OutOfMemory> {
    let mut bits = vec![in alloc; false; graph.nodes() as usize]?;
    set_inputs(bits.as_mut_slice(), graph.inputs(), row);
    if bits.len() as u64 == graph.nodes() {
        graph.fill(bits.as_mut_slice());
    }
    Ok(bits)
}

/// Sets the bits of the inputs to those of the row.
fn set_inputs(bits: &mut [bool], inputs: &[u64], row: u64) {
    for (place, input) in inputs.iter().enumerate() {
        if let Some(bit) = bits.get_mut(*input as usize) {
            *bit = (row >> (place % 64)) & 1 == 1;
        }
    }
}
