//! Interpolants of proofs, in the forms of `prove` and `recheck`.

ghost use Rattle.std.specs.Prelude.{◌≡◌, IfOk, length};

use bumpalo::Bump;
use eco_aig::{Aig, Edge};
use eco_check::{Step, check};
use eco_itp::{covers, interpolate};
use eco_meaning::OutOfMemory;
use eco_prooftext::{read_cnf, read_trace};
use eco_trace::{Cnf, NodeId, Trace, Var};
use std::alloc::Global;

/// A mark for each clause: all but the last one are of the first part.
fn marks(alloc: Global, count: u64) -> Result<Vec<bool>, OutOfMemory>
    ensures { IfOk result (λ side. length side.items ≡ count) }
{
    let mut side = vec![in alloc; true; count as usize]?;
    let count = side.len();
    if count > 0 {
        side[count - 1] = false;
    }
    Ok(side)
}

/// The first variable of the last clause that the proof begins with.
fn last_variable(trace: &Trace<'_>) -> Option<Var> {
    let count = trace.originals();
    if count == 0 {
        return None;
    }
    match trace.clause(NodeId(count - 1)).first() {
        Some(lit) => Some(lit.var),
        None => None,
    }
}

/// How many nodes the graph has when the interpolant is in it, if the proof ends in the empty clause and the parts share no other variable.
fn nodes_between(
    alloc: Global,
    trace: &Trace<'_>,
    side: &[bool],
    var: Var,
) -> Result<Option<u64>, OutOfMemory>
    requires { length side.now ≡ length trace.now.originals }
{
    let mut aig = Aig::new(alloc)?;
    let shared: [(Var, Edge); 1] = [(var, aig.input()?)];
    if !trace.ends_empty() || !covers(alloc, trace, side, &shared)? {
        return Ok(None);
    }
    let _edge = interpolate(alloc, trace, side, &shared, &mut aig)?;
    Ok(Some(aig.nodes()))
}

fn nodes_of(alloc: Global, trace: &Trace<'_>) -> Option<u64> {
    let var = last_variable(trace)?;
    let side = marks(alloc, trace.originals()).ok()?;
    let nodes = nodes_between(alloc, trace, side.as_slice(), var);
    drop(side);
    match nodes {
        Ok(nodes) => nodes,
        Err(_) => None,
    }
}

fn nodes_of_steps(alloc: Global, cnf: &Cnf, steps: &[Step]) -> Option<u64> {
    let arena = Bump::new(alloc);
    let nodes = match check(alloc, cnf, steps, &arena) {
        Ok(trace) => {
            let nodes = nodes_of(alloc, &trace);
            drop(trace);
            nodes
        }
        Err(_) => None,
    };
    drop(arena);
    nodes
}

fn nodes_of_text(alloc: Global, cnf: &Cnf, proof: &[u8]) -> Option<u64> {
    match read_trace(alloc, proof) {
        Ok(steps) => {
            let nodes = nodes_of_steps(alloc, cnf, steps.as_slice());
            drop(steps);
            nodes
        }
        Err(_) => None,
    }
}

/// How many nodes the graph of the interpolant has, the last clause being the second part; nothing if the texts are no clauses and no
/// proof from them, the last clause and the others share more than one variable, or memory runs out.
pub fn interpolant_nodes(alloc: Global, clauses: &[u8], proof: &[u8]) -> Option<u64> {
    match read_cnf(alloc, clauses) {
        Ok(cnf) => {
            let nodes = nodes_of_text(alloc, &cnf, proof);
            drop(cnf);
            nodes
        }
        Err(_) => None,
    }
}
