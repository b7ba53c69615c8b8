//! Which nodes are conjunctions and which exclusive disjunctions, and which have no gate of their own.

use crate::plan::{Plan, Shape, is_set, number_at, raise, set};
use eco_aig::{Aig, Edge};
use eco_meaning::OutOfMemory;
use std::alloc::Global;

/// How many leaves a node has at most that has several readers and no gate.
const SHARED_LEAVES: u64 = 32;

/// Settles the shape of each node that the roots reach, and whether it has a gate.
pub(crate) fn shape_nodes(
    alloc: Global,
    plan: &mut Plan,
    aig: &Aig,
    roots: &[Edge],
) -> Result<(), OutOfMemory> {
    let nodes = aig.nodes() as usize;
    plan.shapes = vec![in alloc; Shape::Unread; nodes]?;
    plan.reads = vec![in alloc; 0; nodes]?;
    make_marks(alloc, plan, nodes)?;
    let mut all_reads = vec![in alloc; 0; nodes]?;
    count_reads(aig, &mut all_reads, roots);
    read_roots(plan, roots);
    shape_all(plan, aig, all_reads.as_slice());
    absorb_all(plan, aig);
    Ok(())
}

/// Makes the marks and sizes of so many nodes.
fn make_marks(alloc: Global, plan: &mut Plan, nodes: usize) -> Result<(), OutOfMemory> {
    plan.bars_and = vec![in alloc; false; nodes]?;
    plan.bars_xor = vec![in alloc; false; nodes]?;
    plan.sizes = vec![in alloc; 1; nodes]?;
    plan.absorbed = vec![in alloc; false; nodes]?;
    Ok(())
}

/// Counts how many nodes and roots read each node that the roots reach.
fn count_reads(aig: &Aig, reads: &mut Vec<u64>, roots: &[Edge]) {
    for root in roots {
        raise(reads, root.node());
    }
    for node in (0..aig.nodes()).rev() {
        if number_at(reads.as_slice(), node) > 0 {
            count_operands(aig, reads, node);
        }
    }
}

/// Counts the node as a reader of its operands.
fn count_operands(aig: &Aig, reads: &mut Vec<u64>, node: u64) {
    if let Some((first, second)) = aig.pair(node) {
        raise(reads, first.node());
        raise(reads, second.node());
    }
}

/// Counts the roots as readers.
fn read_roots(plan: &mut Plan, roots: &[Edge]) {
    for root in roots {
        raise(&mut plan.reads, root.node());
        set(&mut plan.bars_and, root.node());
        set(&mut plan.bars_xor, root.node());
    }
}

/// Settles the shapes, from the last node down, so that a node's readers are known before it.
fn shape_all(plan: &mut Plan, aig: &Aig, all_reads: &[u64]) {
    for node in (0..aig.nodes()).rev() {
        if number_at(plan.reads.as_slice(), node) > 0 {
            let shape = shape_of(plan, aig, all_reads, node);
            if let Some(place) = plan.shapes.get_mut(node as usize) {
                *place = shape;
            }
            read_operands(plan, aig, node, shape);
        }
    }
}

/// The shape that the node has.
fn shape_of(plan: &Plan, aig: &Aig, all_reads: &[u64], node: u64) -> Shape {
    match aig.pair(node) {
        None => Shape::Input,
        Some((first, second)) => {
            let is_dear = number_at(all_reads, first.node()) > 1
                && number_at(all_reads, second.node()) > 1
                && !is_set(plan.bars_and.as_slice(), node);
            if is_dear || aig.exclusive(node).is_none() {
                Shape::And
            } else {
                Shape::Xor
            }
        }
    }
}

/// The two edges that a node of the shape reads; none for an input.
pub(crate) fn operands(aig: &Aig, node: u64, shape: Shape) -> Option<(Edge, Edge)> {
    match shape {
        Shape::And => aig.pair(node),
        Shape::Xor => aig.exclusive(node),
        _ => None,
    }
}

/// Counts the node of this shape as a reader of its operands.
fn read_operands(plan: &mut Plan, aig: &Aig, node: u64, shape: Shape) {
    if let Some((first, second)) = operands(aig, node, shape) {
        read_by(plan, first, shape);
        read_by(plan, second, shape);
    }
}

/// Counts a gate of this shape as a reader of the edge.
fn read_by(plan: &mut Plan, edge: Edge, shape: Shape) {
    raise(&mut plan.reads, edge.node());
    if shape != Shape::And || edge.complemented() {
        set(&mut plan.bars_and, edge.node());
    }
    if shape != Shape::Xor {
        set(&mut plan.bars_xor, edge.node());
    }
}

/// Settles which nodes have no gate, and how many leaves each has, operands first.
fn absorb_all(plan: &mut Plan, aig: &Aig) {
    for node in 0..aig.nodes() {
        if let Some((first, second)) = operands(aig, node, plan.shape(node)) {
            let size = size_at(plan, first).saturating_add(size_at(plan, second));
            if let Some(place) = plan.sizes.get_mut(node as usize) {
                *place = size;
            }
            if is_absorbed(plan, node, size) {
                set(&mut plan.absorbed, node);
            }
        }
    }
}

/// How many leaves the edge brings to a gate that reads it.
fn size_at(plan: &Plan, edge: Edge) -> u64 {
    if is_set(plan.absorbed.as_slice(), edge.node()) {
        number_at(plan.sizes.as_slice(), edge.node())
    } else {
        1
    }
}

/// Whether the node's readers read its leaves in its place.
fn is_absorbed(plan: &Plan, node: u64, size: u64) -> bool {
    let is_barred = match plan.shape(node) {
        Shape::And => is_set(plan.bars_and.as_slice(), node),
        Shape::Xor => is_set(plan.bars_xor.as_slice(), node),
        _ => true,
    };
    !is_barred && (size <= SHARED_LEAVES || number_at(plan.reads.as_slice(), node) == 1)
}
