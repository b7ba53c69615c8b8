//! A target that an engine is turned to.

ghost use Rattle.std.specs.Prelude.{◌≡◌, [], IfOk, IfErr};
ghost use Rattle.eco_meaning.specs.Circuit.{names};
ghost use Rattle.eco_netlist.specs.Netlists.{AreNets, names_at};
ghost use Rattle.eco_query.specs.Problem.{HasTargetNumber};
ghost use Rattle.eco_pose.specs.Questions.{AtTarget};
ghost use Rattle.eco_base.specs.Chosen.{IsReadyToChoose};
ghost use Rattle.eco_base.specs.Targets.{IsTurnedTo, target_value};

use crate::choosing::{Chosen, chosen_at};
use crate::conflicting::conflict_at;
use crate::known::Known;
use crate::separating::Pair;
use crate::stage::{Stage, stage_of};
use crate::walking::{Plan, rows_at, walk_on};
use bumpalo::Bump;
use eco_desk::Engine;
use eco_meaning::{Bits, OutOfMemory};
use eco_netlist::{NetId, Netlist};
use eco_pose::Unfinished;
use eco_query::Problem;
use eco_trace::Refuter;
use std::marker::Model;
use std::mem::replace;

/// An engine that is turned to a target of its problem, where patches drive the targets before it and some signals are paid.
#[derive(Drop)]
pub struct Target<'a, R> {
    /// The engine. Whoever lends it out has it turned to the target when it comes back.
    pub engine: Engine<'a, R>,
    stage: Stage<'a>,
}

impl<'a, R> Model for Target<'a, R> {
    ghost use Rattle.eco_base.specs.Targets.{IsTurnedTo, TargetValue, target_value};

    ghost Value = { TargetValue };

    ghost view = { λ target. target_value target.engine target.stage };

    ghost invariant = { λ target. IsTurnedTo target.engine target.stage };
}

impl<'a, R: Refuter> Target<'a, R> {
    ghost use Rattle.std.specs.Prelude.{◌≡◌, ℕ, [], IfOk, IfErr, IfSome, OnOk, All, length};
    ghost use Rattle.eco_meaning.specs.Circuit.{names};
    ghost use Rattle.eco_meaning.specs.Cost.{AreTurns};
    ghost use Rattle.eco_netlist.specs.Netlists.{AreNets, names_at};
    ghost use Rattle.eco_query.specs.Problem.{HasTargetNumber};
    ghost use Rattle.eco_pose.specs.Questions.{AtTarget};
    ghost use Rattle.eco_pose.specs.Stuck.{IsUnfinished, NoneCompared};
    ghost use Rattle.eco_desk.specs.Engines.{IsEngineOf};
    ghost use Rattle.eco_base.specs.Chosen.{IsChosen, IsReadyToChoose};
    ghost use Rattle.eco_base.specs.Conflicts.{IsConflictFound};
    ghost use Rattle.eco_base.specs.Targets.{AreReadableAt, named_in, paid_of};
    ghost use Rattle.eco_base.specs.Walks.{AreKnownFor, AreRowsAt, IsWalked};

    /// The target of this number, to which the engine is turned, where the patches drive the targets before it. The engine is let go
    /// where memory runs out: it is for the first target that is turned to, `turn` for any other.
    pub fn of(
        engine: Engine<'a, R>,
        i: u64,
        patches: &Netlist,
        paid: &[NetId],
    ) -> Result<Self, OutOfMemory>
        requires number { HasTargetNumber engine.problem.implementation i }
        requires nets { AreNets (names engine.problem.implementation) paid.now }
        requires ready { AtTarget engine.problem.implementation i
            (IsReadyToChoose engine.problem patches.now (names_at (names engine.problem.implementation) paid.now)) }
        requires first { i ≡ 0 → patches.now.gates ≡ [] }
        ensures { IfOk result (λ target. target ≡ record {
          problem = engine.entry.problem;
          limit = engine.entry.limit;
          number = i;
          patches = patches.now;
          paid = paid.now;
        }) }
    {
        let mut engine = engine;
        match turned(&mut engine, i, patches, paid) {
            Ok(stage) => Ok(Target { engine, stage }),
            Err(error) => {
                drop(engine);
                Err(error)
            }
        }
    }

    /// Turns to the target of this number, where the patches drive the targets before it. Where memory runs out, it stays what it was.
    pub fn turn(&mut self, i: u64, patches: &Netlist, paid: &[NetId]) -> Result<(), OutOfMemory>
        requires number { HasTargetNumber self.old.problem.implementation i }
        requires nets { AreNets (names self.old.problem.implementation) paid.now }
        requires ready { AtTarget self.old.problem.implementation i
            (IsReadyToChoose self.old.problem patches.now (names_at (names self.old.problem.implementation) paid.now)) }
        requires first { i ≡ 0 → patches.now.gates ≡ [] }
        ensures turned { OnOk result (self.new ≡ record {
          problem = self.old.problem;
          limit = self.old.limit;
          number = i;
          patches = patches.now;
          paid = paid.now;
        }) }
        ensures failed { IfErr result (λ _. self.new ≡ self.old) }
    {
        let stage = turned(&mut self.engine, i, patches, paid)?;
        drop(replace(&mut self.stage, stage));
        Ok(())
    }

    /// The engine, turned to whatever target.
    pub fn into_engine(self) -> Engine<'a, R>
        ensures { IsEngineOf self.entry.problem self.entry.limit result }
    {
        self.engine
    }

    /// The problem.
    pub fn problem(&self) -> &'a Problem
        ensures { result.now ≡ self.now.problem }
    {
        self.stage.problem
    }

    /// The number of the target, counted from 0.
    pub fn number(&self) -> u64
        ensures number { result ≡ self.now.number }
        ensures target { HasTargetNumber self.now.problem.implementation self.now.number }
    {
        self.stage.number
    }

    /// The signals that are paid.
    pub fn paid(&self) -> &[NetId]
        ensures paid { result.now ≡ self.now.paid }
        ensures nets { AreNets (names self.now.problem.implementation) self.now.paid }
        ensures readable { AreReadableAt self.now self.now.paid }
    {
        let (paid, _) = self.stage.columns.as_slice().split_at(self.stage.paid);
        paid
    }

    /// The other signals that the target's function may read, in the order of their turns.
    pub fn turns(&self) -> &[NetId]
        ensures nets { AreNets (names self.now.problem.implementation) result.now }
        ensures turns { AtTarget self.now.problem.implementation self.now.number (λ before target behind.
            AreTurns self.now.problem.implementation self.now.problem.weights self.now.problem.input_weight before
            (paid_of self.now) (named_in self.now result.now)) }
    {
        let (_, turns) = self.stage.columns.as_slice().split_at(self.stage.paid);
        turns
    }

    /// The base of the target, as the function `choose` finds it.
    pub fn choose<'t>(&mut self, arena: &'t Bump) -> Result<Chosen<'t>, Unfinished>
        ensures chosen { IfOk result (IsChosen self.old.problem self.old.number self.old.patches (paid_of self.old)) }
        ensures unfinished { IfErr result (IsUnfinished self.old.problem NoneCompared self.old.limit) }
        ensures stays { self.new ≡ self.old }
    {
        chosen_at(&self.stage, &mut self.engine, arena)
    }

    /// The base of the target, as `choose` finds it, but in the order of turns of the walk; `None` if it takes more steps. It begins
    /// with what is known of inputs, and what it finds is known behind it, also where it fails.
    pub fn walk<'t>(
        &mut self,
        walk: Plan<'_>,
        known: &mut Known,
        arena: &'t Bump,
    ) -> Result<Option<Chosen<'t>>, Unfinished>
        requires last { AreNets (names self.old.problem.implementation) walk.last.now }
        requires known { AreKnownFor self.old.problem self.old.number self.old.patches known.old }
        ensures walked { IfOk result (λ chosen. IfSome chosen
            (IsWalked self.old.problem self.old.number self.old.patches (paid_of self.old) (named_in self.old walk.entry.last.now))) }
        ensures known { AreKnownFor self.old.problem self.old.number self.old.patches known.new }
        ensures unfinished { IfErr result (IsUnfinished self.old.problem NoneCompared self.old.limit) }
        ensures stays { self.new ≡ self.old }
    {
        walk_on(&mut self.stage, &mut self.engine, walk, known, arena)
    }

    /// Two inputs that show that these signals don't suffice for the target, or `None` if they do. Fails where the search gives up on
    /// a question, or for want of memory.
    pub fn conflict(&mut self, base: &[NetId]) -> Result<Option<Pair>, Unfinished>
        requires nets { AreNets (names self.old.problem.implementation) base.now }
        requires readable { AreReadableAt self.old base.now }
        ensures conflict { IfOk result
            (IsConflictFound self.old.problem self.old.number self.old.patches (named_in self.old base.now)) }
        ensures unfinished { IfErr result (IsUnfinished self.old.problem NoneCompared self.old.limit) }
        ensures stays { self.new ≡ self.old }
    {
        conflict_at(&self.stage, &mut self.engine, base)
    }

    /// The values of signals that the target's function may read at each of the inputs, in any map that the patches leave there.
    pub fn rows(&self, signals: &[NetId], inputs: &[Bits]) -> Result<Vec<Bits>, OutOfMemory>
        requires nets { AreNets (names self.now.problem.implementation) signals.now }
        requires readable { AreReadableAt self.now signals.now }
        requires inputs { All (λ x. length x ≡ length self.now.problem.implementation.inputs) inputs.now }
        ensures { IfOk result (λ rows. AreRowsAt self.now.problem self.now.number self.now.patches (named_in self.now signals.now)
            inputs.now rows.items) }
    {
        rows_at(self.stage.alloc, self.engine.spliced(), signals, inputs)
    }
}

/// The stage of the target of this number, to which the engine is turned. Where memory runs out, the engine stays turned to what it
/// was.
fn turned<'a, R: Refuter>(
    engine: &mut Engine<'a, R>,
    i: u64,
    patches: &Netlist,
    paid: &[NetId],
) -> Result<Stage<'a>, OutOfMemory>
    requires number { HasTargetNumber engine.old.problem.implementation i }
    requires nets { AreNets (names engine.old.problem.implementation) paid.now }
    requires ready { AtTarget engine.old.problem.implementation i
        (IsReadyToChoose engine.old.problem patches.now (names_at (names engine.old.problem.implementation) paid.now)) }
    requires first { i ≡ 0 → patches.now.gates ≡ [] }
    ensures turned { IfOk result (IsTurnedTo engine.new) }
    ensures value { IfOk result (λ stage. target_value engine.new stage ≡ record {
      problem = engine.old.problem;
      limit = engine.old.limit;
      number = i;
      patches = patches.now;
      paid = paid.now;
    }) }
    ensures failed { IfErr result (λ _. engine.new ≡ engine.old) }
{
    let stage = stage_of(engine.allocator(), engine.problem(), i, patches, paid)?;
    match engine.turn(i, patches) {
        Ok(()) => Ok(stage),
        Err(error) => {
            drop(stage);
            Err(error)
        }
    }
}
