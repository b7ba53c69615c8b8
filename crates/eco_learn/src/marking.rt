//! Marks on a trail: the variables of the clause so far.

ghost use Rattle.std.specs.Prelude.{◌≡◌, ◌+◌, ◌<◌, ◌≤◌, All, MatchOption, OnOk, length};
ghost use Rattle.eco_learn.specs.Marks.{HasGot, IsSeenAt, AreUnseen};

use crate::chain::Chain;
use crate::trail::Trail;
use crate::var_set::VarSet;
use eco_meaning::OutOfMemory;
use eco_trace::{Link, Lit, NodeId, Trace};

/// Puts the variables of the clause into the set.
pub(crate) fn mark(marks: &mut VarSet, clause: &[Lit]) -> Result<(), OutOfMemory>
    requires within { All (λ l. l.var.0 < length marks.old) clause.now }
    ensures got { OnOk result (HasGot marks.old clause.now marks.new) }
    ensures long { length marks.new ≡ length marks.old }
{
    for lit in clause {
        marks.insert(*lit)?;
    }
    Ok(())
}

/// The last place, from one up to another, of a literal whose variable is in the set.
pub(crate) fn last_seen(marks: &VarSet, lits: &[Lit], from: usize, end: usize) -> Option<usize>
    requires within { All (λ l. l.var.0 < length marks.now) lits.now }
    requires end { end ≤ length lits.now }
    ensures { MatchOption result (AreUnseen lits.now marks.now from end) (λ place.
        (from ≤ place) × (place < end) × IsSeenAt lits.now marks.now place × AreUnseen lits.now marks.now (place + 1) end) }
{
    let mut place = end;
    while from < place {
        place -= 1;
        if marks.has(lits[place].var) {
            return Some(place);
        }
    }
    None
}

impl Chain {
    ghost use Rattle.std.specs.Prelude.{◌≡◌, ◌+◌, ◌<◌, ◌≤◌, ℕ, IfOk, OnOk, length};
    ghost use Rattle.eco_trace.specs.Resolution.{clauses_of};
    ghost use Rattle.eco_learn.specs.Reasons.{IsJustified, IsReasonAt, IsWrong, AreForced};
    ghost use Rattle.eco_learn.specs.Marks.{IsSeenAt, AreUnseen, IsStep, IsPoint, IsWalked};
    ghost use Rattle.eco_learn.specs.Chains.{IsChainSoFar};

    /// Resolves the clause so far with the node's clause, which forces the literal at the place.
    pub(crate) fn resolve(
        &mut self,
        trail: &Trail,
        trace: &Trace,
        place: usize,
        node: NodeId,
    ) -> Result<(), OutOfMemory>
        requires so_far { IsChainSoFar (clauses_of trace.now) trail.now self.old }
        requires reason { IsReasonAt (clauses_of trace.now) trail.now.lits place node }
        requires seen { IsSeenAt trail.now.lits self.old.marks place }
        ensures so_far { OnOk result (IsChainSoFar (clauses_of trace.now) trail.now self.new) }
        ensures step { OnOk result
            (IsStep (clauses_of trace.now) trail.now.lits place node self.old.marks self.new.marks) }
        ensures start { self.new.start ≡ self.old.start }
        ensures long { length self.new.marks ≡ length self.old.marks }
    {
        trail.is_sound();
        let lit = trail.lit(place);
        mark(&mut self.marks, trace.clause(node))?;
        self.marks.remove(lit.var);
        self.links.push(Link {
            pivot: lit.var,
            with: node,
        })?;
        Ok(())
    }

    /// Resolves the clause so far with the reason of the literal at the place.
    fn resolve_at(&mut self, trail: &Trail, trace: &Trace, place: usize) -> Result<(), OutOfMemory>
        requires justified { IsJustified (clauses_of trace.now) trail.now }
        requires forced { AreForced trail.now place (place + 1) }
        requires so_far { IsChainSoFar (clauses_of trace.now) trail.now self.old }
        requires seen { IsSeenAt trail.now.lits self.old.marks place }
        ensures so_far { OnOk result (IsChainSoFar (clauses_of trace.now) trail.now self.new) }
        ensures behind { AreUnseen trail.now.lits self.old.marks (place + 1) (length trail.now.lits)
            → OnOk result (AreUnseen trail.now.lits self.new.marks place (length trail.now.lits)) }
        ensures before { (other : ℕ) → other < place → IsSeenAt trail.now.lits self.old.marks other
            → OnOk result (IsSeenAt trail.now.lits self.new.marks other) }
        ensures start { self.new.start ≡ self.old.start }
        ensures long { length self.new.marks ≡ length self.old.marks }
    {
        trail.is_sound();
        match trail.reason(place) {
            None => unreachable!(),
            Some(node) => self.resolve(trail, trace, place, node),
        }
    }

    /// Resolves the clause so far until nothing is left of it.
    fn walk_down(&mut self, trail: &Trail, trace: &Trace, last: usize) -> Result<(), OutOfMemory>
        requires justified { IsJustified (clauses_of trace.now) trail.now }
        requires forced { AreForced trail.now 0 (last + 1) }
        requires so_far { IsChainSoFar (clauses_of trace.now) trail.now self.old }
        requires last { last < length trail.now.lits }
        requires behind { AreUnseen trail.now.lits self.old.marks (last + 1) (length trail.now.lits) }
        ensures so_far { OnOk result (IsChainSoFar (clauses_of trace.now) trail.now self.new) }
        ensures gone { OnOk result (AreUnseen trail.now.lits self.new.marks 0 (length trail.now.lits)) }
        ensures start { self.new.start ≡ self.old.start }
        ensures long { length self.new.marks ≡ length self.old.marks }
    {
        trail.is_sound();
        let mut end = last + 1;
        while let Some(place) = last_seen(&self.marks, trail.lits(), 0, end) {
            self.resolve_at(trail, trace, place)?;
            end = place;
        }
        Ok(())
    }

    /// Resolves the clause so far until one literal is left of those from the first place on, and answers its place.
    fn walk_to_point(
        &mut self,
        trail: &Trail,
        trace: &Trace,
        first: usize,
        last: usize,
    ) -> Result<usize, OutOfMemory>
        requires justified { IsJustified (clauses_of trace.now) trail.now }
        requires forced { AreForced trail.now (first + 1) (last + 1) }
        requires first { first ≤ last }
        requires so_far { IsChainSoFar (clauses_of trace.now) trail.now self.old }
        requires seen { IsSeenAt trail.now.lits self.old.marks last }
        requires behind { AreUnseen trail.now.lits self.old.marks (last + 1) (length trail.now.lits) }
        ensures so_far { OnOk result (IsChainSoFar (clauses_of trace.now) trail.now self.new) }
        ensures point { IfOk result (IsPoint trail.now self.new.marks first) }
        ensures start { self.new.start ≡ self.old.start }
        ensures long { length self.new.marks ≡ length self.old.marks }
    {
        trail.is_sound();
        let mut place = last;
        while let Some(other) = last_seen(&self.marks, trail.lits(), first, place) {
            self.resolve_at(trail, trace, place)?;
            match last_seen(&self.marks, trail.lits(), other, place) {
                None => unreachable!(),
                Some(next) => place = next,
            }
        }
        Ok(place)
    }

    /// Begins with a clause that is wrong, and resolves it until nothing is left of it, if all its literals are of
    /// level 0, or else until one literal is left of its highest level, whose place is answered.
    pub(crate) fn walk(
        &mut self,
        trail: &Trail,
        trace: &Trace,
        wrong: NodeId,
    ) -> Result<Option<usize>, OutOfMemory>
        requires room { length self.old.marks ≡ trail.now.vars + 1 }
        requires justified { IsJustified (clauses_of trace.now) trail.now }
        requires wrong { IsWrong (clauses_of trace.now) trail.now.lits wrong }
        ensures so_far { OnOk result (IsChainSoFar (clauses_of trace.now) trail.now self.new) }
        ensures walked { IfOk result (IsWalked trail.now self.new.marks) }
        ensures start { self.new.start ≡ wrong }
        ensures room { length self.new.marks ≡ length self.old.marks }
    {
        trail.is_sound();
        self.start = wrong;
        self.links.clear();
        self.marks.clear();
        mark(&mut self.marks, trace.clause(wrong))?;
        match last_seen(&self.marks, trail.lits(), 0, trail.len()) {
            None => Ok(None),
            Some(last) => self.walk_from(trail, trace, last),
        }
    }

    /// The same from the last place with a marked literal.
    fn walk_from(
        &mut self,
        trail: &Trail,
        trace: &Trace,
        last: usize,
    ) -> Result<Option<usize>, OutOfMemory>
        requires justified { IsJustified (clauses_of trace.now) trail.now }
        requires so_far { IsChainSoFar (clauses_of trace.now) trail.now self.old }
        requires last { last < length trail.now.lits }
        requires seen { IsSeenAt trail.now.lits self.old.marks last }
        requires behind { AreUnseen trail.now.lits self.old.marks (last + 1) (length trail.now.lits) }
        ensures so_far { OnOk result (IsChainSoFar (clauses_of trace.now) trail.now self.new) }
        ensures walked { IfOk result (IsWalked trail.now self.new.marks) }
        ensures start { self.new.start ≡ self.old.start }
        ensures room { length self.new.marks ≡ length self.old.marks }
    {
        trail.is_sound();
        let level = trail.level_at(last);
        if level == 0 {
            self.walk_down(trail, trace, last)?;
            Ok(None)
        } else {
            let first = trail.end(level - 1);
            let place = self.walk_to_point(trail, trace, first, last)?;
            Ok(Some(place))
        }
    }
}
