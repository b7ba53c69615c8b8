//! Asking the clauses of a question.

ghost use Rattle.std.specs.Prelude.{◌≡◌, ◌≤◌, IfOk};
ghost use Rattle.eco_pose.specs.Asking.{IsKept, IsSearched, IsVerdictOn};

use crate::posed::Posed;
use bumpalo::Bump;
use eco_meaning::OutOfMemory;
use eco_trace::{KeptTrace, Model, Refuter, Trace, Verdict};
use std::alloc::Global;

/// What a question is answered.
#[derive(Drop)]
pub enum Asked<'t> {
    /// It has no answer: the proof is of its clauses, and its last clause is empty.
    Never { posed: Posed, trace: Trace<'t> },
    /// It has one, which the readers of `posed` read from the model.
    Found { posed: Posed, model: Model },
}

/// Clauses on which the search gave up, and the proof from them that is as long as the limit allows.
#[derive(Drop)]
pub struct Abandoned {
    pub posed: Posed,
    pub trace: KeptTrace,
}

/// What the search makes of the clauses of a question.
#[derive(Drop)]
pub enum Searched<'t> {
    Answered(Asked<'t>),
    GivenUp(Abandoned),
}

/// Searches for a model or a refutation of a question's clauses, with at most `limit` learnt clauses.
pub fn search<'t, R: Refuter>(
    alloc: Global,
    posed: Posed,
    refuter: &mut R,
    limit: u64,
    arena: &'t Bump,
) -> Result<Searched<'t>, OutOfMemory>
    requires limit { 1 ≤ limit }
    ensures { IfOk result (IsSearched posed limit) }
{
    match refuter.refute(alloc, posed.cnf(), limit, arena) {
        Ok(verdict) => told(posed, verdict),
        Err(error) => {
            drop(posed);
            Err(error)
        }
    }
}

/// What the verdict says of the clauses. It fails where memory ran out for the proof that is kept.
fn told<'t>(posed: Posed, verdict: Verdict<'t>) -> Result<Searched<'t>, OutOfMemory>
    ensures { IfOk result (IsVerdictOn posed verdict.entry) }
{
    match verdict {
        Verdict::Sat(model) => Ok(Searched::Answered(Asked::Found { posed, model })),
        Verdict::Unsat(trace) => Ok(Searched::Answered(Asked::Never { posed, trace })),
        Verdict::Spent(trace) => given_up(posed, trace),
    }
}

/// The clauses with the proof that was too short.
fn given_up<'t>(posed: Posed, trace: Trace<'t>) -> Result<Searched<'t>, OutOfMemory>
    ensures { IfOk result (IsKept posed trace.entry) }
{
    let kept = trace.keep();
    drop(trace);
    match kept {
        Ok(trace) => {
            trace.is_sound();
            Ok(Searched::GivenUp(Abandoned { posed, trace }))
        }
        Err(error) => {
            drop(posed);
            Err(error)
        }
    }
}
