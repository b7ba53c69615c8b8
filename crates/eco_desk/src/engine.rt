//! What questions of a problem are asked with.

use crate::desk::Desk;
use crate::left::{left_rectify, left_separate};
use bumpalo::Bump;
use eco_meaning::{Bits, OutOfMemory};
use eco_netlist::{NetId, Netlist};
use eco_pose::{Asked, Problem, Searched, Unfinished, ask_fix, search};
use eco_trace::Refuter;
use std::alloc::Global;
use std::marker::Model;

/// A problem with its desk, the search that is asked, and how many clauses it may learn for a question. It is turned to one
/// target at a time, the targets before it following patches.
#[derive(Drop)]
pub struct Engine<'p, R> {
    alloc: Global,
    problem: &'p Problem,
    desk: Desk,
    /// The search.
    pub search: &'p mut R,
    limit: u64,
}

impl<'p, R> Model for Engine<'p, R> {
    ghost use Rattle.std.specs.Prelude.{◌≡◌, ◌≤◌};
    ghost use Rattle.eco_desk.specs.Desks.{IsDeskOf, limit_of};
    ghost use Rattle.eco_desk.specs.Engines.{EngineValue, turned_to};

    ghost Value = { EngineValue };

    ghost view = { λ engine. record {
      problem = engine.problem.now;
      limit = engine.limit;
      turned = turned_to engine.desk;
    } };

    ghost invariant = { λ engine. IsDeskOf engine.problem.now engine.desk × (1 ≤ engine.limit) × (limit_of engine.desk ≡ engine.limit) };
}

impl<'p, R: Refuter> Engine<'p, R> {
    ghost use Rattle.std.specs.Prelude.{◌≡◌, ◌≤◌, ℕ, List, length, None, Some, IfOk, IfErr, OnOk};
    ghost use Rattle.eco_meaning.specs.Circuit.{AreTargets, names};
    ghost use Rattle.eco_meaning.specs.Patch.{splice_of};
    ghost use Rattle.eco_netlist.specs.Netlists.{AreNets, names_at};
    ghost use Rattle.eco_query.specs.Problem.{HasTargetNumber};
    ghost use Rattle.eco_pose.specs.declared.question.Question.TheVariants as questions;
    ghost use Rattle.eco_pose.specs.Questions.{AreDistinct, AreRowsOf, AtTarget, IsAskable, IsOfProblem};
    ghost use Rattle.eco_pose.specs.Stuck.{IsAnswered, IsUnfinished, NoneCompared};
    ghost use Rattle.eco_desk.specs.Desks.{AreBefore};
    ghost use Rattle.eco_desk.specs.Engines.{IsEngineOf, Turned};

    /// The engine of the problem, turned to no target. Each question has this limit, also one that compares two nodes of its
    /// graph.
    pub fn new(
        alloc: Global,
        problem: &'p Problem,
        search: &'p mut R,
        limit: u64,
    ) -> Result<Self, OutOfMemory>
        requires limit { 1 ≤ limit }
        ensures { IfOk result (λ engine. engine ≡ record { problem = problem.now; limit = limit; turned = None }) }
    {
        let desk = Desk::new(alloc, problem, limit)?;
        Ok(Engine {
            alloc,
            problem,
            desk,
            search,
            limit,
        })
    }

    /// What allocates for it.
    pub fn allocator(&self) -> Global {
        self.alloc
    }

    /// The problem.
    pub fn problem(&self) -> &'p Problem
        ensures { result.now ≡ self.now.problem }
    {
        self.problem
    }

    /// How many clauses the search may learn for a question.
    pub fn limit(&self) -> u64
        ensures limit { result ≡ self.now.limit }
        ensures one { 1 ≤ self.now.limit }
    {
        self.limit
    }

    /// Turns it to the target of this number, where the patches drive the targets before it. What was found equal before is
    /// kept. Where memory runs out, it stays turned to what it was.
    pub fn turn(&mut self, i: u64, patches: &Netlist) -> Result<(), OutOfMemory>
        requires number { HasTargetNumber self.old.problem.implementation i }
        requires before { AtTarget self.old.problem.implementation i (AreBefore self.old.problem.implementation patches.now) }
        ensures same { IsEngineOf self.old.problem self.old.limit self.new }
        ensures turned { OnOk result (self.new.turned ≡ Some (record { number = i; patches = patches.now })) }
        ensures failed { IfErr result (λ _. self.new ≡ self.old) }
    {
        self.desk.turn(self.problem, i, patches)
    }

    /// The implementation with the patches that it is turned to.
    pub fn spliced(&self) -> &Netlist
        requires turned { (turned : Turned) × (self.now.turned ≡ Some turned) }
        ensures { (turned : Turned) → self.now.turned ≡ Some turned →
            result.now ≡ splice_of self.now.problem.implementation turned.patches }
    {
        self.desk.spliced()
    }

    /// Asks for an input at which the implementation is right with none of these values of its targets.
    pub fn ask_rectify<'t>(
        &mut self,
        values: &[Bits],
        arena: &'t Bump,
    ) -> Result<Asked<'t>, Unfinished>
        requires rows { (targets : List (List ℕ)) → AreTargets self.old.problem.implementation targets → AreRowsOf targets values.now }
        requires distinct { AreDistinct values.now }
        ensures answer { IfOk result (IsAnswered self.old.problem (questions.Rectify values.now)) }
        ensures unfinished { IfErr result (IsUnfinished self.old.problem NoneCompared self.old.limit) }
        ensures stays { self.new ≡ self.old }
    {
        let posed = self.desk.pose_rectify(self.problem, values)?;
        match search(self.alloc, posed, self.search, self.limit, arena)? {
            Searched::Answered(asked) => Ok(asked),
            Searched::GivenUp(left) => Err(left_rectify(self.alloc, values, left)),
        }
    }

    /// Asks for two inputs with equal values of the base, at which the targets before this one follow the patches: at the
    /// first, this target at 0 is right with none of the rests, at the second this target at 1. It is turned to the target and
    /// its patches.
    pub fn ask_separate<'t>(
        &mut self,
        target: u64,
        patches: &Netlist,
        base: &[NetId],
        rest: &[Bits],
        arena: &'t Bump,
    ) -> Result<Asked<'t>, Unfinished>
        requires turned { self.old.turned ≡ Some (record { number = target; patches = patches.now }) }
        requires askable { IsAskable self.old.problem.implementation (questions.Separate target patches.now base.now rest.now) }
        requires of_problem { IsOfProblem self.old.problem NoneCompared (questions.Separate target patches.now base.now rest.now) }
        ensures answer { IfOk result (IsAnswered self.old.problem (questions.Separate target patches.now base.now rest.now)) }
        ensures unfinished { IfErr result (IsUnfinished self.old.problem NoneCompared self.old.limit) }
        ensures stays { self.new ≡ self.old }
    {
        let posed = self.desk.pose_separate(self.problem, base, rest)?;
        match search(self.alloc, posed, self.search, self.limit, arena)? {
            Searched::Answered(asked) => Ok(asked),
            Searched::GivenUp(left) => Err(left_separate(
                self.alloc, target, patches, base, rest, left,
            )),
        }
    }

    /// Asks for values of the targets that begin with the fixed ones and are right at the input.
    pub fn ask_fix<'t>(
        &mut self,
        input: &Bits,
        fixed: &Bits,
        arena: &'t Bump,
    ) -> Result<Asked<'t>, Unfinished>
        requires input { length input.now ≡ length self.old.problem.implementation.inputs }
        requires fixed { (targets : List (List ℕ)) → AreTargets self.old.problem.implementation targets → length fixed.now ≤ length targets }
        ensures answer { IfOk result (IsAnswered self.old.problem (questions.Fix input.now fixed.now)) }
        ensures unfinished { IfErr result (IsUnfinished self.old.problem NoneCompared self.old.limit) }
        ensures stays { self.new ≡ self.old }
    {
        ask_fix(
            self.alloc,
            self.problem,
            input,
            fixed,
            self.search,
            self.limit,
            arena,
        )
    }
}
