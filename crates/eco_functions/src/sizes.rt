//! How much of a graph edges reach.

ghost use Rattle.std.specs.Prelude.{◌≡◌, IfOk, All, length};
ghost use Rattle.eco_aig.specs.Graph.{IsEdge};
ghost use Rattle.eco_functions.specs.Sizes.{AreSizes, nodes_among};

use eco_aig::{Aig, Edge, reached};
use eco_meaning::OutOfMemory;
use eco_splice::netted_edges;
use std::alloc::Global;

/// How much of a graph some edges reach.
#[derive(Drop)]
pub(crate) struct Sizes {
    /// The and-nodes that they reach.
    pub(crate) gates: u64,
    /// These, and the complements that are operands of them: what has a wire in the fixed form of their patch.
    pub(crate) wires: u64,
}

/// The sizes of what these edges reach. Linear in the graph.
pub(crate) fn sizes_of(alloc: Global, aig: &Aig, roots: &[Edge]) -> Result<Sizes, OutOfMemory>
    requires edges { All (IsEdge aig.now) roots.now }
    ensures sizes { IfOk result (AreSizes aig.now roots.now) }
{
    let marks = reached(alloc, aig, roots)?;
    let edges = netted_edges(alloc, aig, marks.as_slice())?;
    Ok(sizes_among(&edges.as_slice()[aig.inputs().len()..]))
}

// The sizes, from the edges that have a wire.
fn sizes_among(wired: &[Edge]) -> Sizes
    ensures gates { result.gates ≡ length (nodes_among wired.now) }
    ensures wires { result.wires ≡ length wired.now }
{
    let gates = wired.iter().filter(|edge| !edge.complemented).count();
    Sizes {
        gates: gates as u64,
        wires: wired.len() as u64,
    }
}
