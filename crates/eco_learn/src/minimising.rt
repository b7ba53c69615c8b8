//! Leaving literals out of a clause that is learnt.

ghost use Rattle.std.specs.Prelude.{◌≡◌, ◌↔◌, ◌+◌, ◌<◌, All, IsTrue, length};
ghost use Rattle.eco_learn.specs.Marks.{IsIn};

use crate::chain::Chain;
use crate::choosing::chosen;
use crate::trail::Trail;
use crate::var_set::VarSet;
use eco_meaning::OutOfMemory;
use eco_trace::{Lit, NodeId, Trace};

impl Chain {
    ghost use Rattle.std.specs.Prelude.{◌≡◌, ◌≢◌, OnOk, Some, length};
    ghost use Rattle.eco_trace.specs.Resolution.{clauses_of};
    ghost use Rattle.eco_learn.specs.Reasons.{IsJustified, IsReasonAt};
    ghost use Rattle.eco_learn.specs.Marks.{IsSeenAt, IsWalked};
    ghost use Rattle.eco_learn.specs.Chains.{IsChainSoFar};

    /// Resolves the clause so far with the reasons of its literals, but for the one at a place, wherever the reason's
    /// other literals are in the clause too, so that it loses the one and gets no other. Those that became false last
    /// are tried first.
    pub(crate) fn minimise(
        &mut self,
        places: &mut Vec<usize>,
        trail: &Trail,
        trace: &Trace,
        place: usize,
    ) -> Result<(), OutOfMemory>
        requires justified { IsJustified (clauses_of trace.now) trail.now }
        requires so_far { IsChainSoFar (clauses_of trace.now) trail.now self.old }
        requires walked { IsWalked trail.now self.old.marks (Some place) }
        ensures so_far { OnOk result (IsChainSoFar (clauses_of trace.now) trail.now self.new) }
        ensures walked { OnOk result (IsWalked trail.now self.new.marks (Some place)) }
        ensures start { self.new.start ≡ self.old.start }
        ensures long { length self.new.marks ≡ length self.old.marks }
    {
        note_places(&self.marks, places, trail)?;
        places.sort_unstable();
        for other in places.as_slice().iter().rev() {
            self.leave_out(trail, trace, place, *other)?;
        }
        Ok(())
    }

    /// Resolves the clause so far with the reason of the literal at the other place, if the clause loses that one and
    /// gets no other.
    fn leave_out(
        &mut self,
        trail: &Trail,
        trace: &Trace,
        place: usize,
        other: usize,
    ) -> Result<(), OutOfMemory>
        requires justified { IsJustified (clauses_of trace.now) trail.now }
        requires so_far { IsChainSoFar (clauses_of trace.now) trail.now self.old }
        requires walked { IsWalked trail.now self.old.marks (Some place) }
        ensures so_far { OnOk result (IsChainSoFar (clauses_of trace.now) trail.now self.new) }
        ensures walked { OnOk result (IsWalked trail.now self.new.marks (Some place)) }
        ensures start { self.new.start ≡ self.old.start }
        ensures long { length self.new.marks ≡ length self.old.marks }
    {
        trail.is_sound();
        if other == place || trail.len() <= other || !self.marks.has(trail.lit(other).var) {
            return Ok(());
        }
        match trail.reason(other) {
            None => Ok(()),
            Some(node) => self.leave_out_by(trail, trace, place, other, node),
        }
    }

    /// The same by the reason's node.
    fn leave_out_by(
        &mut self,
        trail: &Trail,
        trace: &Trace,
        place: usize,
        other: usize,
        node: NodeId,
    ) -> Result<(), OutOfMemory>
        requires reason { IsReasonAt (clauses_of trace.now) trail.now.lits other node }
        requires apart { other ≢ place }
        requires seen { IsSeenAt trail.now.lits self.old.marks other }
        requires so_far { IsChainSoFar (clauses_of trace.now) trail.now self.old }
        requires walked { IsWalked trail.now self.old.marks (Some place) }
        ensures so_far { OnOk result (IsChainSoFar (clauses_of trace.now) trail.now self.new) }
        ensures walked { OnOk result (IsWalked trail.now self.new.marks (Some place)) }
        ensures start { self.new.start ≡ self.old.start }
        ensures long { length self.new.marks ≡ length self.old.marks }
    {
        trail.is_sound();
        if !covers(&self.marks, trace.clause(node)) {
            return Ok(());
        }
        self.resolve(trail, trace, other, node)
    }
}

/// Notes the places of the literals that are in the clause so far.
fn note_places(marks: &VarSet, places: &mut Vec<usize>, trail: &Trail) -> Result<(), OutOfMemory>
    requires room { length marks.now ≡ trail.now.vars + 1 }
{
    places.clear();
    for lit in marks.found() {
        note_place(marks, *lit, places, trail)?;
    }
    Ok(())
}

fn note_place(
    marks: &VarSet,
    lit: Lit,
    places: &mut Vec<usize>,
    trail: &Trail,
) -> Result<(), OutOfMemory>
    requires room { length marks.now ≡ trail.now.vars + 1 }
{
    match chosen(marks, trail, lit.var) {
        None => Ok(()),
        Some(lit) => {
            places.push(trail.place(lit.complement()))?;
            Ok(())
        }
    }
}

/// Whether all variables of the clause are in the set.
fn covers(marks: &VarSet, clause: &[Lit]) -> bool
    requires within { All (λ l. l.var.0 < length marks.now) clause.now }
    ensures { IsTrue result ↔ All (λ l. IsIn marks.now l.var.0) clause.now }
{
    clause.iter().all(|lit| is_marked(marks, *lit))
}

/// Whether the literal's variable is in the set.
fn is_marked(marks: &VarSet, lit: Lit) -> bool
    requires { lit.var.0 < length marks.now }
    ensures { IsTrue result ↔ IsIn marks.now lit.var.0 }
{
    marks.has(lit.var)
}
