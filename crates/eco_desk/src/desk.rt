//! A problem's graph, and the questions that are posed over it.

ghost use Rattle.std.specs.Prelude.{◌≡◌, ◌≤◌, ℕ, List, None, Some, IfOk, IfErr, OnOk, length};
ghost use Rattle.eco_meaning.specs.Circuit.{Circuit, AreTargets};
ghost use Rattle.eco_laws.specs.Asked.{IsMissed};
ghost use Rattle.eco_query.specs.Problem.{HasTargetNumber};
ghost use Rattle.eco_pose.specs.declared.question.Question.TheVariants as questions;
ghost use Rattle.eco_pose.specs.Questions.{AreRowsOf, AtTarget, IsAskable};
ghost use Rattle.eco_pose.specs.Answers.{AsksFor};
ghost use Rattle.eco_pose.specs.Shapes.{IsEncodedOnce};
ghost use Rattle.eco_pose.specs.Stuck.{IsPosed};
ghost use Rattle.eco_desk.specs.declared.turned.Turn.{Turn};
ghost use Rattle.eco_desk.specs.Desks.{AreBefore, IsDeskOf, limit_of};
ghost use Rattle.eco_desk.specs.Engines.{turned_to};

use crate::encoding::pose_missed;
use crate::known_rows::{KnownRow, row_edges};
use crate::separating::pose_turned;
use crate::sizes::has_few;
use crate::swept::SweptBoard;
use crate::turned::Turn;
use eco_meaning::{Bits, OutOfMemory};
use eco_netlist::{NetId, Netlist};
use eco_pose::{Posed, Problem, pose_rectify};
use std::alloc::Global;
use std::mem::replace;

/// Where questions of a problem are posed. It is turned to one target at a time, the targets before it following patches.
#[derive(Drop)]
pub(crate) struct Desk {
    alloc: Global,
    swept: SweptBoard,
    known: Vec<KnownRow>,
    turn: Option<Turn>,
}

impl Desk {
    /// The desk of the problem, turned to no target. The limit is the most clauses that may be learnt where two nodes of its graph
    /// are compared.
    pub(crate) fn new(alloc: Global, problem: &Problem, limit: u64) -> Result<Desk, OutOfMemory>
        requires limit { 1 ≤ limit }
        ensures desk { IfOk result (IsDeskOf problem.now) }
        ensures limit { IfOk result (λ desk. limit_of desk ≡ limit) }
        ensures turned { IfOk result (λ desk. turned_to desk ≡ None) }
    {
        let swept = SweptBoard::new(alloc, problem, limit)?;
        Ok(Desk {
            alloc,
            swept,
            known: Vec::new(alloc),
            turn: None,
        })
    }

    /// Turns the desk to the target of this number, where the patches drive the targets before it. What was found equal
    /// before is kept. Where memory runs out, it stays turned to what it was.
    pub(crate) fn turn(
        &mut self,
        problem: &Problem,
        i: u64,
        patches: &Netlist,
    ) -> Result<(), OutOfMemory>
        requires desk { IsDeskOf problem.now self.old }
        requires number { HasTargetNumber problem.now.implementation i }
        requires before { AtTarget problem.now.implementation i (AreBefore problem.now.implementation patches.now) }
        ensures desk { IsDeskOf problem.now self.new }
        ensures limit { limit_of self.new ≡ limit_of self.old }
        ensures turned { OnOk result (turned_to self.new ≡ Some (record { number = i; patches = patches.now })) }
        ensures failed { IfErr result (λ _. turned_to self.new ≡ turned_to self.old) }
    {
        let turn = Turn::new(&mut self.swept, problem.implementation(), i, patches)?;
        drop(replace(&mut self.turn, Some(turn)));
        Ok(())
    }

    /// The implementation with the patches that the desk is turned to.
    pub(crate) fn spliced(&self) -> &Netlist
        requires turned { (turn : Turn) × (self.now.turn ≡ Some turn) }
        ensures spliced { (turn : Turn) → self.now.turn ≡ Some turn → result.now ≡ turn.spliced }
    {
        match &self.turn {
            None => unreachable!(),
            Some(turn) => &turn.spliced,
        }
    }

    /// Clauses that ask for an input at which the implementation is right with none of these values of its targets.
    pub(crate) fn pose_rectify(
        &mut self,
        problem: &Problem,
        values: &[Bits],
    ) -> Result<Posed, OutOfMemory>
        requires desk { IsDeskOf problem.now self.old }
        requires rows { (targets : List (List ℕ)) → AreTargets problem.now.implementation targets →
            AreRowsOf targets values.now }
        ensures posed { IfOk result (IsPosed problem.now (questions.Rectify values.now)) }
        ensures desk { IsDeskOf problem.now self.new }
        ensures limit { limit_of self.new ≡ limit_of self.old }
        ensures turned { turned_to self.new ≡ turned_to self.old }
    {
        let posed = self.swept_rectify(problem, values)?;
        if has_few(problem, values.len(), None, &posed) {
            Ok(posed)
        } else {
            drop(posed);
            pose_rectify(self.alloc, problem, values)
        }
    }

    /// The same over the desk's graph, which may have too many variables.
    fn swept_rectify(&mut self, problem: &Problem, values: &[Bits]) -> Result<Posed, OutOfMemory>
        requires desk { IsDeskOf problem.now self.old }
        requires rows { (targets : List (List ℕ)) → AreTargets problem.now.implementation targets →
            AreRowsOf targets values.now }
        ensures asks { IfOk result (λ posed. (targets : List (List ℕ)) → AreTargets problem.now.implementation targets →
            AsksFor (IsMissed problem.now.implementation problem.now.goal targets values.now) posed.first posed.clauses.clauses) }
        ensures shape { IfOk result (λ posed. IsEncodedOnce posed posed.first) }
        ensures reads { IfOk result (λ posed. length posed.first ≡ length problem.now.implementation.inputs) }
        ensures desk { IsDeskOf problem.now self.new }
        ensures limit { limit_of self.new ≡ limit_of self.old }
        ensures turned { turned_to self.new ≡ turned_to self.old }
    {
        let f = problem.implementation();
        let wrong = row_edges(&mut self.swept, f, &mut self.known, values)?;
        // it is a graph
        let _ = self.swept.board.graph.nodes();
        pose_missed(
            self.alloc,
            &self.swept.board.graph,
            self.swept.board.inputs.as_slice(),
            wrong.as_slice(),
        )
    }

    /// Clauses that ask for two inputs with equal values of the base, of the target that the desk is turned to.
    pub(crate) fn pose_separate(
        &mut self,
        problem: &Problem,
        base: &[NetId],
        rest: &[Bits],
    ) -> Result<Posed, OutOfMemory>
        requires desk { IsDeskOf problem.now self.old }
        requires askable { (i : ℕ) × (patches : Circuit) × (turned_to self.old ≡ Some (record { number = i; patches = patches })) ×
            IsAskable problem.now.implementation (questions.Separate i patches base.now rest.now) }
        ensures posed { IfOk result (λ posed. (i : ℕ) (patches : Circuit) →
            turned_to self.old ≡ Some (record { number = i; patches = patches }) →
            IsPosed problem.now (questions.Separate i patches base.now rest.now) posed) }
        ensures desk { IsDeskOf problem.now self.new }
        ensures limit { limit_of self.new ≡ limit_of self.old }
        ensures turned { turned_to self.new ≡ turned_to self.old }
    {
        match &mut self.turn {
            None => unreachable!(),
            Some(turn) => pose_turned(&mut self.swept, turn, problem, base, rest),
        }
    }
}
