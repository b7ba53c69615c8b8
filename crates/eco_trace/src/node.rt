//! The nodes of a proof and the links of its chains.

use crate::clause::Var;

/// The number of a clause in a proof, from 0 on: first the clauses that the proof begins with, then the learnt ones.
#[derive(Clone, Copy, PartialEq, Eq)]
pub struct NodeId(pub u64);

/// A link of a chain: the clause so far is resolved with the clause `with`, on the variable `pivot`.
#[derive(Clone, Copy, PartialEq, Eq)]
pub struct Link {
    pub pivot: Var,
    pub with: NodeId,
}
