//! What is guessed about, and what is known beside it.

use eco_aig::{Aig, Edge};
use eco_meaning::Bits;

/// An implementation whose targets are open, and what is asked of it, as edges of one graph whose inputs are those of the
/// implementation and its open targets.
#[derive(Clone, Copy)]
pub struct Opened<'o> {
    pub graph: &'o Aig,
    /// The edges of the implementation's inputs, in their order.
    pub inputs: &'o [Edge],
    /// The edges of its open targets, in their order.
    pub targets: &'o [Edge],
    /// The edges of its outputs, in their order.
    pub outputs: &'o [Edge],
    /// The edges of what the outputs are to be, in the same order.
    pub wanted: &'o [Edge],
    /// The edge that is 1 where the inputs are cared.
    pub cared: Edge,
}

/// What is known of the graph that references are edges of.
#[derive(Clone, Copy)]
pub struct Hints<'h> {
    /// The edges of the implementation's inputs in that graph, in their order.
    pub inputs: &'h [Edge],
    /// The edges of nets, those that are tried first: nets of the implementation and of the specification.
    pub nets: &'h [Edge],
    /// Inputs that are simulated first, as those at which an earlier guess was wrong; at most 1,024 of them are heeded.
    pub seen: &'h [Bits],
}
