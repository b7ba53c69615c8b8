//! The nodes of a graph that edges reach.

ghost use Rattle.std.specs.Prelude.{◌≡◌, ◌<◌, false, IfOk, All, length, replicate};
ghost use Rattle.eco_aig.specs.Graph.{IsEdge};
ghost use Rattle.eco_aig.specs.Reached.{AreReached};
ghost use Rattle.eco_aig.specs.Marking.{with_marks, with_operands};

use crate::edge::Edge;
use crate::graph::Aig;
use eco_meaning::OutOfMemory;
use std::alloc::Global;

/// One bit for each node: whether some of the edges reaches it. Linear in the graph.
pub fn reached(alloc: Global, aig: &Aig, roots: &[Edge]) -> Result<Vec<bool>, OutOfMemory>
    requires { All (IsEdge aig.now) roots.now }
    ensures { IfOk result (λ marks. AreReached aig.now roots.now marks.items) }
{
    let nodes = aig.nodes();
    let mut marks = root_marks(alloc, nodes, roots)?;
    for node in (0..nodes).rev() {
        mark_operands(aig, node, &mut marks);
    }
    Ok(marks)
}

// One bit for each node: whether one of the edges goes to it.
fn root_marks(alloc: Global, nodes: u64, roots: &[Edge]) -> Result<Vec<bool>, OutOfMemory>
    requires { All (λ root. root.node < nodes) roots.now }
    ensures { IfOk result (λ marks. marks.items ≡ with_marks (replicate nodes false) roots.now) }
{
    let mut marks = vec![in alloc; false; nodes as usize]?;
    for root in roots {
        marks[root.node as usize] = true;
    }
    Ok(marks)
}

// Marks the operands of the node, where it has a mark itself.
fn mark_operands(aig: &Aig, node: u64, marks: &mut Vec<bool>)
    requires node { node < length aig.now }
    requires marks { length marks.old.items ≡ length aig.now }
    ensures { marks.new.items ≡ with_operands aig.now node marks.old.items }
{
    if !marks[node as usize] {
        return;
    }
    if let Some((first, second)) = aig.pair(node) {
        marks[first.node as usize] = true;
        marks[second.node as usize] = true;
    }
}
