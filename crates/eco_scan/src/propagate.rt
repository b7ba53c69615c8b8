//! Unit propagation and decisions, until all variables have truth values or a clause is wrong.

ghost use Rattle.std.specs.Prelude.{◌≡◌, ◌<◌, ◌≤◌, All, IfOk, OnOk, MatchBool, MatchOption, length};
ghost use Rattle.eco_trace.specs.Freshness.{IsSatisfiedOrUnresolved};
ghost use Rattle.eco_trace.specs.Resolution.{clauses_of};
ghost use Rattle.eco_learn.specs.Reasons.{IsWrong};
ghost use Rattle.eco_scan.specs.Scanning.{IsReady, IsVisited, ArePassed, IsTurn, IsPropagated};

use crate::judge::{Judgement, judge};
use eco_learn::Trail;
use eco_meaning::OutOfMemory;
use eco_trace::{Lit, NodeId, Trace};

/// The outcome of a turn.
#[derive(Clone, Copy)]
pub(crate) enum Turn {
    /// A literal more is known.
    Went,
    /// All variables have truth values.
    Whole,
    /// The node's clause is wrong.
    Failed(NodeId),
}

/// Takes the literal to be true that the node's clause forces, if it forces one; answers whether the clause is wrong.
fn visit(trail: &mut Trail, trace: &Trace, node: NodeId) -> bool
    requires ready { IsReady (clauses_of trace.now) trail.old }
    requires node { node.0 < length (clauses_of trace.now) }
    ensures ready { IsReady (clauses_of trace.now) trail.new }
    ensures vars { trail.new.vars ≡ trail.old.vars }
    ensures wrong { MatchBool result (IsWrong (clauses_of trace.now) trail.new.lits node)
        (IsVisited (clauses_of trace.now) trail.old trail.new node) }
{
    trail.is_sound();
    match judge(trail, trace.clause(node)) {
        Judgement::Wrong => true,
        Judgement::Unforced => false,
        Judgement::Forces(lit) => {
            trail.imply(lit, node);
            false
        }
    }
}

/// Goes over all clauses once, and answers the first one that is wrong.
fn pass(trail: &mut Trail, trace: &Trace) -> Option<NodeId>
    requires ready { IsReady (clauses_of trace.now) trail.old }
    ensures ready { IsReady (clauses_of trace.now) trail.new }
    ensures vars { trail.new.vars ≡ trail.old.vars }
    ensures wrong { MatchOption result (ArePassed (clauses_of trace.now) trail.old trail.new (length (clauses_of trace.now)))
        (λ node. IsWrong (clauses_of trace.now) trail.new.lits node) }
{
    for node in 0..trace.len() {
        if visit(trail, trace, NodeId(node)) {
            return Some(NodeId(node));
        }
    }
    None
}

/// Decides a variable, where unit propagation gets nothing from any clause.
fn decide(trail: &mut Trail, trace: &Trace) -> Result<Turn, OutOfMemory>
    requires ready { IsReady (clauses_of trace.now) trail.old }
    requires unforced { All (IsSatisfiedOrUnresolved trail.old.lits) (clauses_of trace.now) }
    ensures ready { OnOk result (IsReady (clauses_of trace.now) trail.new) }
    ensures vars { OnOk result (trail.new.vars ≡ trail.old.vars) }
    ensures turn { IfOk result (IsTurn (clauses_of trace.now) trail.old trail.new) }
{
    let _ = trace.len();
    trail.is_sound();
    match trail.open() {
        None => Ok(Turn::Whole),
        Some(var) => {
            trail.decide(Lit {
                var,
                positive: false,
            })?;
            trail.is_sound();
            Ok(Turn::Went)
        }
    }
}

/// Goes over all clauses, and decides a variable if that gave nothing.
fn advance(trail: &mut Trail, trace: &Trace) -> Result<Turn, OutOfMemory>
    requires ready { IsReady (clauses_of trace.now) trail.old }
    ensures ready { OnOk result (IsReady (clauses_of trace.now) trail.new) }
    ensures vars { OnOk result (trail.new.vars ≡ trail.old.vars) }
    ensures turn { IfOk result (IsTurn (clauses_of trace.now) trail.old trail.new) }
{
    let before = trail.len();
    match pass(trail, trace) {
        Some(node) => Ok(Turn::Failed(node)),
        None => {
            trail.is_sound();
            if before < trail.len() {
                Ok(Turn::Went)
            } else {
                decide(trail, trace)
            }
        }
    }
}

/// Goes on until all variables have truth values, or a clause is wrong, which is answered.
pub(crate) fn propagate(trail: &mut Trail, trace: &Trace) -> Result<Option<NodeId>, OutOfMemory>
    requires ready { IsReady (clauses_of trace.now) trail.old }
    ensures ready { OnOk result (IsReady (clauses_of trace.now) trail.new) }
    ensures vars { OnOk result (trail.new.vars ≡ trail.old.vars) }
    ensures propagated { IfOk result (IsPropagated (clauses_of trace.now) trail.new) }
{
    'turns: loop {
        match advance(trail, trace)? {
            Turn::Went => (),
            Turn::Whole => return Ok(None),
            Turn::Failed(node) => return Ok(Some(node)),
        }
    }
}
