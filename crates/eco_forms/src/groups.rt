//! Conjunctions that are turned together, since they need the same sign of a node.

use crate::plan::{Plan, Shape, is_set, number_at};
use crate::signs::{is_dear, node_at, turn};
use eco_aig::{Aig, Edge};
use eco_meaning::OutOfMemory;
use std::alloc::Global;

/// How many conjunctions are turned together at most.
const MOST_GATES: usize = 8;

/// How many leaves they have together at most.
const MOST_LEAVES: u64 = 64;

/// A conjunction that reads a node.
#[derive(Clone, Copy)]
pub(crate) struct Reader {
    /// The number of the conjunction's node.
    gate: u64,
    /// Whether its leaf is the node's complement.
    complemented: bool,
}

/// Lists the conjunctions that read each node.
pub(crate) fn list_readers(alloc: Global, plan: &mut Plan, aig: &Aig) -> Result<(), OutOfMemory> {
    for _ in 0..aig.nodes() {
        plan.readers.push(Vec::new(alloc))?;
    }
    for gate in 0..aig.nodes() {
        if plan.shape(gate) == Shape::And {
            if let Some(leaves) = plan.leaves.get(gate as usize) {
                list_reader(&mut plan.readers, gate, leaves.as_slice())?;
            }
        }
    }
    Ok(())
}

/// Lists the conjunction with these leaves as a reader of their nodes.
fn list_reader(
    readers: &mut Vec<Vec<Reader>>,
    gate: u64,
    leaves: &[Edge],
) -> Result<(), OutOfMemory> {
    for leaf in leaves {
        if let Some(list) = readers.get_mut(leaf.node() as usize) {
            list.push(Reader {
                gate,
                complemented: leaf.complemented(),
            })?;
        }
    }
    Ok(())
}

/// At each node of which a complement needs a gate: turns all conjunctions that need one of its signs, if this spares
/// complements, or costs none.
pub(crate) fn try_groups(
    plan: &mut Plan,
    aig: &Aig,
    pass: u64,
    group: &mut Vec<u64>,
) -> Result<(), OutOfMemory> {
    for step in 0..aig.nodes() {
        let plain = Edge {
            node: node_at(aig, pass, step),
            complemented: false,
        };
        try_group(plan, plain, pass, group)?;
        try_group(plan, plain.not(), pass, group)?;
    }
    Ok(())
}

/// Turns all conjunctions that need the edge, if this spares complements. Where it costs none, they are turned too, but at every
/// third node.
fn try_group(
    plan: &mut Plan,
    edge: Edge,
    pass: u64,
    group: &mut Vec<u64>,
) -> Result<(), OutOfMemory> {
    if !is_dear(plan.wants.as_slice(), plan.shapes.as_slice(), edge) {
        return Ok(());
    }
    let leaves = gather(plan, edge, group)?;
    if group.len() > MOST_GATES || leaves > MOST_LEAVES {
        return Ok(());
    }
    let spared = turn_all(plan, group.as_slice());
    let is_third = edge.node().saturating_add(pass) % 3 == 0;
    if spared < 0 || (spared == 0 && is_third) {
        let _ = turn_all(plan, group.as_slice());
    }
    Ok(())
}

/// Gathers the conjunctions that need the edge, no more of them than one too many, and answers how many leaves they have.
fn gather(plan: &Plan, edge: Edge, group: &mut Vec<u64>) -> Result<u64, OutOfMemory> {
    let mut leaves: u64 = 0;
    group.clear();
    for reader in readers(plan, edge.node()) {
        if group.len() > MOST_GATES {
            break;
        }
        if needs(plan, *reader, edge) && group.last().copied() != Some(reader.gate) {
            leaves = leaves.saturating_add(number_at(plan.sizes.as_slice(), reader.gate));
            group.push(reader.gate)?;
        }
    }
    Ok(leaves)
}

/// The conjunctions that read the node.
fn readers(plan: &Plan, node: u64) -> &[Reader] {
    match plan.readers.get(node as usize) {
        None => &[],
        Some(readers) => readers.as_slice(),
    }
}

/// Whether the reader of the edge's node needs the edge's sign.
fn needs(plan: &Plan, reader: Reader, edge: Edge) -> bool {
    let is_turned = is_set(plan.turned.as_slice(), reader.gate);
    (reader.complemented != is_turned) == edge.complemented()
}

/// Turns the conjunctions, and answers how many complements fewer need a gate after that.
fn turn_all(plan: &mut Plan, group: &[u64]) -> i64 {
    let mut spared: i64 = 0;
    for gate in group {
        spared = spared.saturating_add(turn(plan, *gate));
    }
    spared
}
