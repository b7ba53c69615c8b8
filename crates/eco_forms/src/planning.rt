//! The lines of a patch, and how many there are.

use crate::leaves::list_leaves;
use crate::plan::Plan;
use crate::shapes::shape_nodes;
use crate::signs::choose_signs;
use crate::writing::{settle_drivers, write_lines};
use eco_aig::{Aig, Edge};
use eco_meaning::OutOfMemory;
use eco_splice::Line;
use std::alloc::Global;

/// Gates for the edges: one for each target, whose edges these are in order, and those that these read, each behind those that
/// it reads itself. There are as few as the form can do with. Time and memory are linear in the graph.
///
/// Exclusive disjunctions are recognised; conjunctions whose readers are all conjunctions, and exclusive disjunctions whose
/// readers are all such, are drawn into these; and each conjunction is written over its leaves or over their complements,
/// whichever needs fewer complements of nets. A net is driven by a target where that has its edge.
pub fn lines(alloc: Global, aig: &Aig, roots: &[Edge]) -> Result<Vec<Line>, OutOfMemory> {
    let mut plan = Plan::new(alloc);
    let lines = planned(alloc, &mut plan, aig, roots);
    drop(plan);
    lines
}

/// The number of gates that `lines` gives for the edges.
pub fn count(alloc: Global, aig: &Aig, roots: &[Edge]) -> Result<u64, OutOfMemory> {
    let lines = lines(alloc, aig, roots)?;
    Ok(lines.len() as u64)
}

/// Settles the plan for these edges, and writes its lines.
fn planned(
    alloc: Global,
    plan: &mut Plan,
    aig: &Aig,
    roots: &[Edge],
) -> Result<Vec<Line>, OutOfMemory> {
    shape_nodes(alloc, plan, aig, roots)?;
    list_leaves(alloc, plan, aig)?;
    choose_signs(alloc, plan, aig, roots)?;
    settle_drivers(alloc, plan, aig, roots)?;
    write_lines(alloc, plan, aig, roots)
}
