//! Groups of targets, and guesses that are made again with an input at which the first was wrong.

use crate::problems::Kind::{And, AndNot, Or, Xor};
use crate::problems::{Gate, Problem, edge_at, gate_of};
use crate::trying::{Graphs, no_graphs, numbers};
use eco_meaning::{Bits, OutOfMemory};
use std::alloc::Global;
use std::test::Fail;

/// Whether the groups of the problem's targets are these.
fn are_groups(
    alloc: Global,
    graphs: &mut Graphs,
    problem: &Problem,
    firsts: &[usize],
) -> Result<bool, OutOfMemory> {
    graphs.build(problem)?;
    let found = graphs.groups(alloc)?;
    Ok(found.as_slice() == firsts)
}

// Inputs a, b; targets 2 to 6. The outputs read 2 and 4, 4 and 5, and 3; no output reads what reads 3 and 6. So 2, 4 and 5 are
// a group, since others lead from 2 to 5.
#[test]
fn targets_that_reach_one_output(rt: HostRuntime) -> Result<(), Fail> {
    let problem = Problem {
        inputs: 2,
        targets: 5,
        gates: &[
            gate_of(And, 2, 4),
            gate_of(Xor, 4, 5),
            gate_of(Or, 3, 0),
            gate_of(And, 3, 6),
        ],
        outputs: &[7, 8, 9],
        wanted: &[0, 1, 0],
    };
    let mut graphs = no_graphs(rt.alloc())?;
    let found = are_groups(rt.alloc(), &mut graphs, &problem, &[0, 1, 0, 0, 4]);
    drop(graphs);
    assert!(rt; found?);
    Ok(())
}

/// How many inputs the rare conjunction has.
const RARE: usize = 40;

/// The gates of `b & ~c & d & ..`, a conjunction of all inputs but the first, every other one complemented, and last its exclusive
/// disjunction with the first input.
fn rare_gates(alloc: Global) -> Result<Vec<Gate>, OutOfMemory> {
    let mut gates = Vec::new(alloc);
    let mut last: usize = 1;
    for input in 2..=RARE {
        let kind = if input % 2 == 0 { AndNot } else { And };
        gates.push(gate_of(kind, last, input))?;
        // gates come behind the inputs and the target
        last = gates.len().saturating_add(RARE).saturating_add(1);
    }
    gates.push(gate_of(Xor, 0, last))?;
    Ok(gates)
}

/// The input at which that conjunction is 1, with the first bit 0.
fn rare_input(alloc: Global) -> Result<Bits, OutOfMemory> {
    let mut bits = Vec::new(alloc);
    for input in 0..RARE.saturating_add(1) {
        bits.push(input % 2 == 1)?;
    }
    Ok(Bits::of(bits))
}

/// What is guessed for a target that is the output and is to be the last gate, if the first input is tried first: whether it is
/// that input, and whether it is the gate.
fn guessed(
    alloc: Global,
    graphs: &mut Graphs,
    gates: &[Gate],
    seen: &[Bits],
) -> Result<(bool, bool), OutOfMemory> {
    let last = gates.len().saturating_add(RARE).saturating_add(1);
    let problem = Problem {
        inputs: RARE.saturating_add(1),
        targets: 1,
        gates,
        outputs: &[RARE.saturating_add(1)],
        wanted: &[last],
    };
    graphs.build(&problem)?;
    let first = edge_at(graphs.plain_signals.inputs.as_slice(), 0);
    let wanted = edge_at(graphs.plain_signals.wanted.as_slice(), 0);
    match graphs.guess(alloc, &[0], &[first], seen)? {
        None => Ok((false, false)),
        Some(edges) => Ok((
            edges.as_slice() == [first].as_slice(),
            edges.as_slice() == [wanted].as_slice(),
        )),
    }
}

/// The same over new graphs.
fn guessed_anew(alloc: Global, seen: &[Bits]) -> Result<(bool, bool), OutOfMemory> {
    let gates = rare_gates(alloc)?;
    let mut graphs = no_graphs(alloc)?;
    let found = guessed(alloc, &mut graphs, gates.as_slice(), seen);
    drop(graphs);
    found
}

// The conjunction is 1 at two of 2^41 inputs, so simulation takes the function for the first input. Told of one of the two it
// finds the net.
#[test]
fn a_guess_that_was_wrong(rt: HostRuntime) -> Result<(), Fail> {
    assert!(rt; guessed_anew(rt.alloc(), &[])? == (true, false));
    let seen = [rare_input(rt.alloc())?];
    assert!(rt; guessed_anew(rt.alloc(), &seen)? == (false, true));
    Ok(())
}

/// Whether nothing is guessed for so many targets.
fn is_passed_over(alloc: Global, graphs: &mut Graphs, targets: usize) -> Result<bool, OutOfMemory> {
    let problem = Problem {
        inputs: 1,
        targets,
        gates: &[],
        outputs: &[1],
        wanted: &[0],
    };
    graphs.build(&problem)?;
    let group = numbers(alloc, targets)?;
    let found = graphs.guess(alloc, group.as_slice(), &[], &[])?;
    Ok(found.is_none())
}

// The first target is the output and may be the input; the others change nothing. There are guesses of up to twelve targets.
#[test]
fn as_many_targets_as_can_be(rt: HostRuntime) -> Result<(), Fail> {
    let mut graphs = no_graphs(rt.alloc())?;
    let few = is_passed_over(rt.alloc(), &mut graphs, 3);
    drop(graphs);
    assert!(rt; !few?);
    let mut graphs = no_graphs(rt.alloc())?;
    let many = is_passed_over(rt.alloc(), &mut graphs, 13);
    drop(graphs);
    assert!(rt; many?);
    Ok(())
}
