//! The clause so far.

use crate::var_set::VarSet;
use eco_meaning::OutOfMemory;
use eco_trace::{Link, NodeId};
use std::alloc::Global;

/// The clause so far: its variables, and the chain that gives it, which begins with the clause of the node `start`.
#[derive(Drop)]
pub(crate) struct Chain {
    pub(crate) marks: VarSet,
    pub(crate) links: Vec<Link>,
    pub(crate) start: NodeId,
}

impl Chain {
    ghost use Rattle.std.specs.Prelude.{◌≡◌, ◌+◌, IfOk, length};

    /// A chain with no link yet, for clauses of the variables from 1 to `vars`. There is no memory for more than
    /// 2^31 - 1 of them.
    pub(crate) fn new(alloc: Global, vars: u64) -> Result<Chain, OutOfMemory>
        ensures { IfOk result (λ chain. length chain.marks ≡ vars + 1) }
    {
        let marks = VarSet::new(alloc, vars)?;
        Ok(Chain {
            marks,
            links: Vec::new(alloc),
            start: NodeId(0),
        })
    }
}
