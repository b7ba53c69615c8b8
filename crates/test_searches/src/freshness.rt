//! Whether learnt clauses were news, by the definition: unit propagation over the clauses before, from the negations of
//! all literals but one.

ghost use Rattle.std.specs.Prelude.{◌≤◌, ◌<◌, length};
ghost use Rattle.eco_trace.specs.Resolution.{clauses_of};

use eco_trace::{Lit, NodeId, OutOfMemory, Trace};
use std::alloc::Global;

/// What unit propagation gets from a clause.
#[derive(Clone, Copy)]
enum Gain {
    /// Nothing.
    Nothing,
    /// This literal.
    Unit(Lit),
    /// The clause is wrong.
    Conflict,
}

/// Whether each learnt clause of the proof was news to the clauses before it.
pub fn is_fresh(alloc: Global, trace: &Trace, vars: u64) -> Result<bool, OutOfMemory> {
    for node in trace.originals()..trace.len() {
        if !is_news(alloc, trace, NodeId(node), vars)? {
            return Ok(false);
        }
    }
    Ok(true)
}

/// Whether the clause of the node was news to those before it.
fn is_news(alloc: Global, trace: &Trace, node: NodeId, vars: u64) -> Result<bool, OutOfMemory>
    requires { node.0 < length (clauses_of trace.now) }
{
    let clause = trace.clause(node);
    for lit in clause {
        let mut values = none_known(alloc, vars)?;
        for other in clause {
            if other != lit {
                set(&mut values, other.complement());
            }
        }
        if stays_open(trace, node, &mut values, *lit, vars) {
            return Ok(true);
        }
    }
    Ok(false)
}

fn none_known(alloc: Global, vars: u64) -> Result<Vec<u8>, OutOfMemory> {
    let mut values = Vec::new(alloc);
    values.push(0)?;
    for _var in 0..vars {
        values.push(0)?;
    }
    Ok(values)
}

/// A variable's value is 1 where its literal is true, 2 where that is false, 0 where neither is known.
fn set(values: &mut Vec<u8>, lit: Lit) {
    let place = lit.var.0 as usize;
    if place < values.len() {
        values[place] = if lit.positive { 1 } else { 2 };
    }
}

fn truth(values: &[u8], lit: Lit) -> u8 {
    match values.get(lit.var.0 as usize) {
        None => 0,
        Some(value) => {
            if *value == 0 || lit.positive {
                *value
            } else if *value == 1 {
                2
            } else {
                1
            }
        }
    }
}

/// Whether unit propagation over the clauses before the node meets no conflict, and gets nothing of the literal.
fn stays_open(trace: &Trace, node: NodeId, values: &mut Vec<u8>, lit: Lit, vars: u64) -> bool
    requires { node.0 < length (clauses_of trace.now) }
{
    for _round in 0..vars {
        for earlier in 0..node.0 {
            match gained(trace.clause(NodeId(earlier)), values.as_slice()) {
                Gain::Nothing => {}
                Gain::Unit(unit) => set(values, unit),
                Gain::Conflict => return false,
            }
        }
    }
    truth(values.as_slice(), lit) == 0
}

fn gained(clause: &[Lit], values: &[u8]) -> Gain {
    let mut open = None;
    let mut count = 0u64;
    for lit in clause {
        let value = truth(values, *lit);
        if value == 1 {
            return Gain::Nothing;
        }
        if value == 0 {
            open = Some(*lit);
            count = count.wrapping_add(1);
        }
    }
    match open {
        None => Gain::Conflict,
        Some(lit) => {
            if count == 1 {
                Gain::Unit(lit)
            } else {
                Gain::Nothing
            }
        }
    }
}
