//! A gate of a patch, over edges of a graph.

use eco_aig::Edge;
use eco_meaning::Kind;

/// A gate that is to have the value of an edge of a graph, over gates that have the values of others.
#[derive(Drop)]
pub struct Line {
    /// The edge whose value the gate has.
    pub edge: Edge,
    /// The gate's kind.
    pub kind: Kind,
    /// The edges whose values the gate reads, in order. An edge to the constant node is read as a constant.
    pub operands: Vec<Edge>,
    /// The target that the gate drives, counted from 0; where there is none, the gate has a wire.
    pub target: Option<u64>,
}
