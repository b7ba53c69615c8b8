//! The edges that the gates read.

use crate::plan::{Plan, is_set, number_at};
use crate::shapes::operands;
use eco_aig::{Aig, Edge};
use eco_meaning::OutOfMemory;
use std::alloc::Global;

/// Lists the leaves of each node that has a gate.
pub(crate) fn list_leaves(alloc: Global, plan: &mut Plan, aig: &Aig) -> Result<(), OutOfMemory> {
    let mut stack = Vec::new(alloc);
    for node in 0..aig.nodes() {
        let mut leaves = Vec::new(alloc);
        let mut is_odd = false;
        if plan.has_gate(node) {
            is_odd = walk(plan, aig, node, &mut stack, &mut leaves)?;
        }
        plan.leaves.push(leaves)?;
        plan.is_odd.push(is_odd)?;
    }
    Ok(())
}

/// Lists the leaves of the node, and answers whether the edges between them and the node have an odd number of complements.
fn walk(
    plan: &Plan,
    aig: &Aig,
    node: u64,
    stack: &mut Vec<Edge>,
    leaves: &mut Vec<Edge>,
) -> Result<bool, OutOfMemory> {
    let mut is_odd = false;
    push_operands(plan, aig, node, stack)?;
    for _ in 0..number_at(plan.sizes.as_slice(), node).saturating_mul(2) {
        let Some(edge) = stack.pop() else {
            break;
        };
        if is_set(plan.absorbed.as_slice(), edge.node()) {
            is_odd = is_odd != edge.complemented();
            push_operands(plan, aig, edge.node(), stack)?;
        } else {
            leaves.push(edge)?;
        }
    }
    Ok(is_odd)
}

/// Puts the node's operands on the stack, the first one on top.
fn push_operands(
    plan: &Plan,
    aig: &Aig,
    node: u64,
    stack: &mut Vec<Edge>,
) -> Result<(), OutOfMemory> {
    if let Some((first, second)) = operands(aig, node, plan.shape(node)) {
        stack.push(second)?;
        stack.push(first)?;
    }
    Ok(())
}
