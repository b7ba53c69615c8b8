//! What becomes of an entry that a walk comes to.

use eco_trace::NodeId;

/// What becomes of an entry.
#[derive(Clone, Copy)]
pub enum Visit {
    /// The walk goes on at this place of the list.
    Next(usize),
    /// Each literal of this clause is false.
    Wrong(NodeId),
}
