//! Which gates read the complements of their leaves, so that few complements need a gate.

use crate::groups::{list_readers, try_groups};
use crate::plan::{Plan, Shape, code, is_set, lower, number_at, raise, shape_at};
use eco_aig::{Aig, Edge};
use eco_meaning::OutOfMemory;
use std::alloc::Global;

/// How many times all gates are tried.
const PASSES: u64 = 8;

/// Settles which conjunctions read the complements of their leaves: `or` and `nor` in place of `nand` and `and`. Even passes go
/// upwards, odd ones downwards.
pub(crate) fn choose_signs(
    alloc: Global,
    plan: &mut Plan,
    aig: &Aig,
    roots: &[Edge],
) -> Result<(), OutOfMemory> {
    let nodes = aig.nodes() as usize;
    plan.turned = vec![in alloc; false; nodes]?;
    plan.wants = vec![in alloc; 0; nodes.saturating_mul(2)]?;
    want_edges(&mut plan.wants, roots);
    want_leaves(plan, aig);
    list_readers(alloc, plan, aig)?;
    let mut group = Vec::new(alloc);
    for pass in 0..PASSES {
        try_turns(plan, aig, pass);
        try_groups(plan, aig, pass, &mut group)?;
    }
    Ok(())
}

/// Counts a need for each of the edges.
fn want_edges(wants: &mut Vec<u64>, edges: &[Edge]) {
    for edge in edges {
        raise(wants, code(*edge));
    }
}

/// Counts the needs of the conjunctions.
fn want_leaves(plan: &mut Plan, aig: &Aig) {
    for node in 0..aig.nodes() {
        if plan.shape(node) == Shape::And {
            if let Some(leaves) = plan.leaves.get(node as usize) {
                want_edges(&mut plan.wants, leaves.as_slice());
            }
        }
    }
}

/// The node that is tried at this step of the pass.
pub(crate) fn node_at(aig: &Aig, pass: u64, step: u64) -> u64 {
    if pass % 2 == 0 {
        step
    } else {
        aig.nodes().saturating_sub(1).saturating_sub(step)
    }
}

/// Turns each conjunction where this spares complements, and where it costs none, so that others can be turned after it.
fn try_turns(plan: &mut Plan, aig: &Aig, pass: u64) {
    for step in 0..aig.nodes() {
        let node = node_at(aig, pass, step);
        if plan.shape(node) == Shape::And {
            let spared = turn(plan, node);
            if spared < 0 {
                let _ = turn(plan, node);
            }
        }
    }
}

/// Turns the conjunction, and answers how many complements fewer need a gate after that.
pub(crate) fn turn(plan: &mut Plan, node: u64) -> i64 {
    let is_turned = is_set(plan.turned.as_slice(), node);
    if let Some(turned) = plan.turned.get_mut(node as usize) {
        *turned = !is_turned;
    }
    match plan.leaves.get(node as usize) {
        None => 0,
        Some(leaves) => turn_wants(
            &mut plan.wants,
            plan.shapes.as_slice(),
            leaves.as_slice(),
            is_turned,
        ),
    }
}

/// Turns the needs for these edges, or for their complements if they are turned already, and answers how many complements fewer
/// need a gate after that.
fn turn_wants(wants: &mut Vec<u64>, shapes: &[Shape], edges: &[Edge], is_turned: bool) -> i64 {
    let mut spared: i64 = 0;
    for edge in edges {
        let old = if is_turned { edge.not() } else { *edge };
        let was_dear = is_dear(wants.as_slice(), shapes, old);
        lower(wants, code(old));
        raise(wants, code(old.not()));
        let is_now_dear = is_dear(wants.as_slice(), shapes, old);
        if was_dear && !is_now_dear {
            spared = spared.saturating_add(1);
        }
        if is_now_dear && !was_dear {
            spared = spared.saturating_sub(1);
        }
    }
    spared
}

/// Whether a complement of the edge's node needs a gate: both signs are needed, or the complement of an input is.
pub(crate) fn is_dear(wants: &[u64], shapes: &[Shape], edge: Edge) -> bool {
    let complement = if edge.complemented() {
        edge
    } else {
        edge.not()
    };
    number_at(wants, code(complement)) > 0
        && (shape_at(shapes, edge.node()) == Shape::Input
            || number_at(wants, code(complement.not())) > 0)
}
