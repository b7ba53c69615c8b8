//! The choice between roots and those where another edge stands in place of the last one.

ghost use Rattle.std.specs.Prelude.{◌≡◌, ◌≤◌, ◌++◌, ◌∷◌, [], IfOk, IsTrue, All, length};
ghost use Rattle.eco_aig.specs.Graph.{IsEdge};
ghost use Rattle.eco_functions.specs.Improving.{AreChosen, ReachNoMoreThan, without_last};

use crate::sizes::{Sizes, sizes_of};
use eco_aig::{Aig, Edge};
use eco_forms::count;
use eco_meaning::OutOfMemory;
use std::alloc::Global;

/// The roots, with the edge in place of the last one where that is smaller: the roots then reach no more and-nodes, nor more
/// with the complements of operands, and their patch has fewer lines. Linear in the graph.
pub(crate) fn chosen(
    alloc: Global,
    aig: &Aig,
    roots: &[Edge],
    edge: Edge,
) -> Result<Vec<Edge>, OutOfMemory>
    requires roots { All (IsEdge aig.now) roots.now }
    requires some { 1 ≤ length roots.now }
    requires edge { IsEdge aig.now edge }
    ensures chosen { IfOk result (λ chosen. AreChosen aig.now roots.now edge chosen.items) }
{
    let replaced = with_last(alloc, roots, edge)?;
    if is_smaller(alloc, aig, replaced.as_slice(), roots)? {
        Ok(replaced)
    } else {
        Ok(roots.to_vec(alloc)?)
    }
}

// The edges, with this one in place of the last.
fn with_last(alloc: Global, edges: &[Edge], edge: Edge) -> Result<Vec<Edge>, OutOfMemory>
    requires some { 1 ≤ length edges.now }
    ensures replaced { IfOk result (λ replaced. replaced.items ≡ without_last edges.now ++ edge ∷ []) }
{
    let mut replaced = edges[..edges.len() - 1].to_vec(alloc)?;
    replaced.push(edge)?;
    Ok(replaced)
}

// Whether the edges reach no more than the others, and have fewer lines in a patch. The lines are a hint.
fn is_smaller(
    alloc: Global,
    aig: &Aig,
    edges: &[Edge],
    others: &[Edge],
) -> Result<bool, OutOfMemory>
    requires edges { All (IsEdge aig.now) edges.now }
    requires others { All (IsEdge aig.now) others.now }
    ensures smaller { IfOk result (λ is. IsTrue is → ReachNoMoreThan aig.now edges.now aig.now others.now) }
{
    if !reach_no_more(alloc, aig, edges, others)? {
        return Ok(false);
    }
    let few = count(alloc, aig, edges)?;
    let many = count(alloc, aig, others)?;
    Ok(few < many)
}

// Whether the edges reach no more than the others.
fn reach_no_more(
    alloc: Global,
    aig: &Aig,
    edges: &[Edge],
    others: &[Edge],
) -> Result<bool, OutOfMemory>
    requires edges { All (IsEdge aig.now) edges.now }
    requires others { All (IsEdge aig.now) others.now }
    ensures no_more { IfOk result (λ is. IsTrue is → ReachNoMoreThan aig.now edges.now aig.now others.now) }
{
    // it is a graph
    let _ = aig.nodes();
    let after = sizes_of(alloc, aig, edges)?;
    let before = sizes_of(alloc, aig, others)?;
    Ok(is_no_larger(&after, &before))
}

// Whether neither size is larger.
fn is_no_larger(after: &Sizes, before: &Sizes) -> bool
    ensures gates { IsTrue result → after.now.gates ≤ before.now.gates }
    ensures wires { IsTrue result → after.now.wires ≤ before.now.wires }
{
    after.gates <= before.gates && after.wires <= before.wires
}
