//! Proofs looked at again: each as the steps that a file would have, given to the check.

ghost use Rattle.std.specs.Prelude.{◌<◌, length};
ghost use Rattle.eco_trace.specs.Resolution.{clauses_of};

use bumpalo::Bump;
use eco_check::{Step, check};
use eco_trace::{Cnf, Link, NodeId, OutOfMemory, Trace};
use std::alloc::Global;

/// Whether the check takes the proof's steps for a proof that the clauses have no model.
pub fn is_checked(alloc: Global, cnf: &Cnf, trace: &Trace) -> Result<bool, OutOfMemory> {
    let steps = steps_of(alloc, trace)?;
    let arena = Bump::new(alloc);
    let checked = check(alloc, cnf, steps.as_slice(), &arena);
    let is_checked = checked.is_ok();
    drop(checked);
    drop(arena);
    Ok(is_checked)
}

/// A step for each learnt clause. Ids count from 1, and nodes from 0.
fn steps_of(alloc: Global, trace: &Trace) -> Result<Vec<Step>, OutOfMemory> {
    let mut steps = Vec::new(alloc);
    for node in trace.originals()..trace.len() {
        steps.push(step_of(alloc, trace, NodeId(node))?)?;
    }
    Ok(steps)
}

/// The step of a learnt clause; of another clause one that isn't legal, as no id is 0.
fn step_of(alloc: Global, trace: &Trace, node: NodeId) -> Result<Step, OutOfMemory>
    requires { node.0 < length (clauses_of trace.now) }
{
    match trace.chain(node) {
        None => Ok(Step {
            start: 0,
            links: Vec::new(alloc),
        }),
        Some((start, links)) => {
            let links = pairs_of(alloc, links)?;
            let start = start.0.wrapping_add(1);
            Ok(Step { start, links })
        }
    }
}

fn pairs_of(alloc: Global, links: &[Link]) -> Result<Vec<(u64, u64)>, OutOfMemory> {
    let mut pairs = Vec::new(alloc);
    for link in links {
        pairs.push((link.pivot.0, link.with.0.wrapping_add(1)))?;
    }
    Ok(pairs)
}
