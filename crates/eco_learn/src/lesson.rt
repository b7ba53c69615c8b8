//! What is learnt from a clause that is wrong.

use eco_trace::{Lit, NodeId};

/// A learnt clause that forces a literal as soon as the trail is cut back to a level.
#[derive(Clone, Copy, Drop)]
pub struct Assertion {
    /// The clause's node.
    pub node: NodeId,
    /// The literal that it forces.
    pub lit: Lit,
    /// A literal of the clause that becomes false last among the others; where there is no other, the one that is
    /// forced.
    pub other: Lit,
    /// The level at which the clause forces the literal: the lowest one.
    pub level: usize,
}

/// What is learnt from a clause that is wrong.
#[derive(Clone, Copy, Drop)]
pub enum Lesson {
    /// The empty clause: the clauses have no model.
    Refuted,
    /// A clause that forces a literal.
    Asserted(Assertion),
}
