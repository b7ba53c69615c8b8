//! Formulas whose answer is known: pigeons in holes, circles of two colours, and equality of two circuits.

use crate::formulas::{add, finished, lit};
use eco_trace::{Cnf, Lit, OutOfMemory};
use std::alloc::Global;

/// What a formula asks for.
#[derive(Clone, Copy)]
pub enum Puzzle {
    /// Each pigeon sits in a hole, and no two in one.
    Pigeons { pigeons: u64, holes: u64 },
    /// Neighbours in a circle of so many variables differ.
    Circle(u64),
    /// A gate of 16 inputs isn't the chain from the first to the one of this number.
    Chain(u64),
}

/// The formula of the puzzle.
pub fn formula_of(alloc: Global, puzzle: Puzzle) -> Result<Cnf, OutOfMemory> {
    match puzzle {
        Puzzle::Pigeons { pigeons, holes } => pigeons_in(alloc, pigeons, holes),
        Puzzle::Circle(vars) => circle(alloc, vars),
        Puzzle::Chain(last) => flat_and_chain_differ(alloc, 16, last),
    }
}

/// Each pigeon sits in a hole, and no two in one.
fn pigeons_in(alloc: Global, pigeons: u64, holes: u64) -> Result<Cnf, OutOfMemory> {
    let mut cnf = Cnf::new(alloc, pigeons.wrapping_mul(holes));
    let seated = seat(alloc, &mut cnf, pigeons, holes);
    finished(cnf, seated)
}

fn seat(alloc: Global, cnf: &mut Cnf, pigeons: u64, holes: u64) -> Result<(), OutOfMemory> {
    for pigeon in 0..pigeons {
        sits_somewhere(alloc, cnf, pigeon, holes)?;
    }
    for hole in 0..holes {
        for pigeon in 0..pigeons {
            sits_alone(alloc, cnf, pigeon, hole, holes)?;
        }
    }
    Ok(())
}

/// Neighbours in a circle of so many variables differ.
fn circle(alloc: Global, vars: u64) -> Result<Cnf, OutOfMemory> {
    let mut cnf = Cnf::new(alloc, vars);
    let closed = close(alloc, &mut cnf, vars);
    finished(cnf, closed)
}

fn close(alloc: Global, cnf: &mut Cnf, vars: u64) -> Result<(), OutOfMemory> {
    for number in 1..vars {
        differ(alloc, cnf, number, number.wrapping_add(1))?;
    }
    differ(alloc, cnf, vars, 1)
}

/// A gate that is the `and` of all inputs, and a chain of gates of two inputs each, from the first input to the one with
/// the number `last`: the two outputs differ.
fn flat_and_chain_differ(alloc: Global, inputs: u64, last: u64) -> Result<Cnf, OutOfMemory> {
    let mut cnf = Cnf::new(alloc, inputs.wrapping_add(last));
    let joined = join(alloc, &mut cnf, inputs, last);
    finished(cnf, joined)
}

fn join(alloc: Global, cnf: &mut Cnf, inputs: u64, last: u64) -> Result<(), OutOfMemory> {
    let flat = inputs.wrapping_add(1);
    flat_gate(alloc, cnf, flat, inputs)?;
    let end = gate_chain(alloc, cnf, flat, last)?;
    differ(alloc, cnf, flat, end)
}

/// The variable `out` is the `and` of all inputs.
fn flat_gate(alloc: Global, cnf: &mut Cnf, out: u64, inputs: u64) -> Result<(), OutOfMemory> {
    let mut all = Vec::new(alloc);
    for input in 0..inputs {
        all.push(input.wrapping_add(1))?;
    }
    and_gate(alloc, cnf, out, all.as_slice())
}

/// The end of a chain of gates whose variables come behind `flat`: from the first input to the one with the number `last`.
fn gate_chain(alloc: Global, cnf: &mut Cnf, flat: u64, last: u64) -> Result<u64, OutOfMemory> {
    let mut end = 1;
    for input in 1..last {
        let out = flat.wrapping_add(input);
        and_gate(alloc, cnf, out, &[end, input.wrapping_add(1)])?;
        end = out;
    }
    Ok(end)
}

/// The variable `out` is true where all of these are, and nowhere else: a clause for each, and one more.
fn and_gate(alloc: Global, cnf: &mut Cnf, out: u64, terms: &[u64]) -> Result<(), OutOfMemory> {
    for term in terms {
        let _ = add(alloc, cnf, &[lit(out, false), lit(*term, true)])?;
    }
    let lits = unless(alloc, out, terms)?;
    let _ = add(alloc, cnf, lits.as_slice())?;
    Ok(())
}

/// The variable `out`, and the complements of these.
fn unless(alloc: Global, out: u64, terms: &[u64]) -> Result<Vec<Lit>, OutOfMemory> {
    let mut lits = vec![in alloc; lit(out, true)]?;
    for term in terms {
        lits.push(lit(*term, false))?;
    }
    Ok(lits)
}

/// The two variables have different values.
fn differ(alloc: Global, cnf: &mut Cnf, one: u64, other: u64) -> Result<(), OutOfMemory> {
    let _ = add(alloc, cnf, &[lit(one, true), lit(other, true)])?;
    let _ = add(alloc, cnf, &[lit(one, false), lit(other, false)])?;
    Ok(())
}

/// The variable that says that the pigeon sits in the hole, both counted from 0.
fn sits(pigeon: u64, hole: u64, holes: u64) -> u64 {
    pigeon
        .wrapping_mul(holes)
        .wrapping_add(hole)
        .wrapping_add(1)
}

fn sits_somewhere(
    alloc: Global,
    cnf: &mut Cnf,
    pigeon: u64,
    holes: u64,
) -> Result<(), OutOfMemory> {
    let mut lits = Vec::new(alloc);
    for hole in 0..holes {
        lits.push(lit(sits(pigeon, hole, holes), true))?;
    }
    let _ = add(alloc, cnf, lits.as_slice())?;
    Ok(())
}

/// The pigeon isn't in the hole with one that came before it.
fn sits_alone(
    alloc: Global,
    cnf: &mut Cnf,
    pigeon: u64,
    hole: u64,
    holes: u64,
) -> Result<(), OutOfMemory> {
    let own = sits(pigeon, hole, holes);
    for earlier in 0..pigeon {
        let other = sits(earlier, hole, holes);
        let _ = add(alloc, cnf, &[lit(own, false), lit(other, false)])?;
    }
    Ok(())
}
