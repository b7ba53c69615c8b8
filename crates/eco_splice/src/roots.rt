//! What a patch is made of, and what its nets are named by.

use eco_aig::{Aig, Edge};
use eco_netlist::{NetId, Netlist};
use std::alloc::Global;

/// Edges of a graph, the roots, as functions of base signals.
#[derive(Clone, Copy)]
pub struct Roots<'r> {
    /// The graph.
    pub aig: &'r Aig,
    /// The roots, one for each target that the patch drives.
    pub edges: &'r [Edge],
    /// The base signals, which stand for the graph's inputs in order.
    pub base: &'r [NetId],
}

/// What the nets of a patch are named by, beside its base signals.
#[derive(Clone, Copy)]
pub(crate) struct Frame<'f> {
    pub(crate) alloc: Global,
    /// The implementation.
    pub(crate) f: &'f Netlist,
    /// The targets that the patch drives.
    pub(crate) targets: &'f [NetId],
    /// The prefix of the patch's own wires.
    pub(crate) prefix: &'f [u8],
}
