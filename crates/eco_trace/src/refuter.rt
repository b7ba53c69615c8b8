//! Searches for a model or a refutation.

ghost use Rattle.std.specs.Prelude.{◌≤◌, IfOk};
ghost use Rattle.eco_trace.specs.Verdicts.{IsVerdict};

use crate::cnf::Cnf;
use crate::model::Model;
use crate::trace::Trace;
use bumpalo::Bump;
use eco_meaning::OutOfMemory;
use std::alloc::Global;

/// What a search finds.
#[derive(Drop)]
pub enum Verdict<'t> {
    /// The clauses have this model.
    Sat(Model),
    /// The clauses have none, as this proof shows: its last clause is empty, and it learns no more clauses than the limit allows.
    Unsat(Trace<'t>),
    /// As many clauses were learnt as the limit allows, and neither was found.
    Spent(Trace<'t>),
}

/// A search over clauses that leaves a proof in the arena.
pub trait Refuter {
    /// A model of the clauses with a value for each variable from 1 to the last; or a proof from them that ends in the empty
    /// clause, with at most `limit` learnt clauses; or, if `limit` clauses were learnt and none of them is empty, the proof
    /// so far, each of whose learnt clauses told unit propagation something new.
    fn refute<'t>(
        &mut self,
        alloc: Global,
        cnf: &Cnf,
        limit: u64,
        arena: &'t Bump,
    ) -> Result<Verdict<'t>, OutOfMemory>
        requires { 1 ≤ limit }
        ensures { IfOk result (IsVerdict cnf.now limit) };
}
