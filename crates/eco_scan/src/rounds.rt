//! The rounds of a search, in each of which it learns a clause or ends.

ghost use Rattle.std.specs.Prelude.{◌≡◌, ◌≤◌, All, IfOk, OnOk, length, IsTrue};
ghost use Rattle.eco_trace.specs.Freshness.{IsSatisfiedOrUnresolved};
ghost use Rattle.eco_trace.specs.Resolution.{clauses_of};
ghost use Rattle.eco_learn.specs.Reasons.{IsWrong};
ghost use Rattle.eco_scan.specs.Scanning.{IsReady, IsPropagated};
ghost use Rattle.eco_scan.specs.Rounds.{IsRound};

use crate::propagate::propagate;
use eco_learn::{Learner, Lesson, Trail};
use eco_meaning::OutOfMemory;
use eco_trace::{Model, NodeId, Trace};
use std::alloc::Global;

/// The outcome of a round.
#[derive(Drop)]
pub(crate) enum Round {
    /// The clauses have this model.
    Sat(Model),
    /// The empty clause was learnt.
    Unsat,
    /// Another clause was learnt.
    Learnt,
}

/// Learns from the node's clause, which is wrong, and goes on where what was learnt forces a literal.
fn learn_from(
    learner: &mut Learner,
    trail: &mut Trail,
    trace: &mut Trace,
    wrong: NodeId,
) -> Result<Round, OutOfMemory>
    requires room { learner.old.vars ≡ trail.old.vars }
    requires ready { IsReady (clauses_of trace.old) trail.old }
    requires wrong { IsWrong (clauses_of trace.old) trail.old.lits wrong }
    ensures room { learner.new.vars ≡ learner.old.vars }
    ensures vars { OnOk result (trail.new.vars ≡ trail.old.vars) }
    ensures round { IfOk result (IsRound trace.old trace.new trail.new) }
{
    trail.is_sound();
    trace.is_sound();
    match learner.learn(trail, trace, wrong)? {
        Lesson::Refuted => Ok(Round::Unsat),
        Lesson::Asserted(assertion) => {
            trail.cut(assertion.level);
            trail.is_sound();
            trail.imply(assertion.lit, assertion.node);
            Ok(Round::Learnt)
        }
    }
}

/// The model where all variables have truth values.
fn modelled(alloc: Global, trail: &Trail, trace: &Trace) -> Result<Round, OutOfMemory>
    requires ready { IsReady (clauses_of trace.now) trail.now }
    requires propagated { IsPropagated (clauses_of trace.now) trail.now None }
    ensures round { IfOk result (IsRound trace.now trace.now trail.now) }
{
    let _ = trace.len();
    let model = trail.model(alloc)?;
    Ok(Round::Sat(model))
}

/// One round.
pub(crate) fn play(
    alloc: Global,
    learner: &mut Learner,
    trail: &mut Trail,
    trace: &mut Trace,
) -> Result<Round, OutOfMemory>
    requires room { learner.old.vars ≡ trail.old.vars }
    requires ready { IsReady (clauses_of trace.old) trail.old }
    ensures room { learner.new.vars ≡ learner.old.vars }
    ensures vars { OnOk result (trail.new.vars ≡ trail.old.vars) }
    ensures round { IfOk result (IsRound trace.old trace.new trail.new) }
{
    match propagate(trail, trace)? {
        None => modelled(alloc, trail, trace),
        Some(wrong) => learn_from(learner, trail, trace, wrong),
    }
}
