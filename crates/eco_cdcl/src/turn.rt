//! What the steps and turns of a search come to.

use eco_trace::NodeId;

/// What a step comes to: propagation, and a decision or a new beginning.
#[derive(Clone, Copy)]
pub enum Step {
    /// A literal was decided.
    Decided,
    /// The search began again from level 0.
    Restarted,
    /// All variables have values, and each clause holds.
    Done,
    /// Each literal of this clause is false.
    Conflict(NodeId),
}

/// What a turn comes to: steps up to a conflict, from which a clause is learnt.
#[derive(Clone, Copy)]
pub enum Turn {
    /// All variables have values, and each clause holds.
    Solved,
    /// The empty clause was learnt.
    Refuted,
    /// Another clause was learnt.
    Learns,
}

/// What all turns come to.
#[derive(Clone, Copy)]
pub enum Ending {
    /// All variables have values, and each clause holds.
    Model,
    /// The empty clause was learnt.
    Empty,
    /// As many clauses were learnt as the limit allows.
    Limit,
}
