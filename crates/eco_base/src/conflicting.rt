//! Two inputs that show that signals don't suffice for a target.

ghost use Rattle.std.specs.Prelude.{◌≡◌, List, IfOk, IfErr};
ghost use Rattle.eco_meaning.specs.Circuit.{names};
ghost use Rattle.eco_gates.specs.declared.gate.NetId.{NetId};
ghost use Rattle.eco_netlist.specs.Netlists.{AreNets};
ghost use Rattle.eco_pose.specs.Stuck.{IsUnfinished, NoneCompared};
ghost use Rattle.eco_base.specs.declared.stage.Stage.{Stage};
ghost use Rattle.eco_base.specs.Scenes.{AtScene, IsStage, IsEngineAt};
ghost use Rattle.eco_base.specs.Asking.{AreReadableHere, AreRests, IsOutcome, names_here};
ghost use Rattle.eco_base.specs.Conflicts.{IsConflictFound, IsFound};

use crate::judging::{Outcome, question};
use crate::separating::Pair;
use crate::stage::Stage;
use bumpalo::Bump;
use eco_desk::Engine;
use eco_meaning::{Bits, OutOfMemory};
use eco_netlist::NetId;
use eco_pose::Unfinished;
use eco_trace::Refuter;

/// What is found of signals with the rests that are listed.
#[derive(Drop)]
pub(crate) enum Found {
    /// They suffice, or these two inputs show that they don't.
    Settled(Option<Pair>),
    /// It isn't known yet: one more rest is listed.
    Listed,
}

/// Two inputs that show that these signals don't suffice for the stage's target, or `None` if they do.
pub(crate) fn conflict_at<R: Refuter>(
    stage: &Stage<'_>,
    engine: &mut Engine<'_, R>,
    base: &[NetId],
) -> Result<Option<Pair>, Unfinished>
    requires stage { IsStage stage.now }
    requires engine { IsEngineAt stage.now engine.old }
    requires nets { AreNets (names stage.now.problem.now.implementation) base.now }
    requires readable { AtScene stage.now (λ s. AreReadableHere s (names_here stage.now base.now)) }
    ensures conflict { IfOk result (IsConflictFound stage.now.problem.now stage.now.number stage.now.patches
        (names_here stage.now base.now)) }
    ensures unfinished { IfErr result (IsUnfinished engine.old.problem NoneCompared engine.old.limit) }
    ensures stays { engine.new ≡ engine.old }
{
    let mut rests = Vec::new(stage.alloc);
    settle(stage, engine, base, &mut rests)
}

/// Asks until it is known whether the signals suffice.
fn settle<R: Refuter>(
    stage: &Stage<'_>,
    engine: &mut Engine<'_, R>,
    base: &[NetId],
    rests: &mut Vec<Bits>,
) -> Result<Option<Pair>, Unfinished>
    requires stage { IsStage stage.now }
    requires engine { IsEngineAt stage.now engine.old }
    requires nets { AreNets (names stage.now.problem.now.implementation) base.now }
    requires readable { AtScene stage.now (λ s. AreReadableHere s (names_here stage.now base.now)) }
    requires rests { AtScene stage.now (λ s. AreRests s rests.old.items) }
    ensures conflict { IfOk result (IsConflictFound stage.now.problem.now stage.now.number stage.now.patches
        (names_here stage.now base.now)) }
    ensures unfinished { IfErr result (IsUnfinished engine.old.problem NoneCompared engine.old.limit) }
    ensures stays { engine.new ≡ engine.old }
{
    'asks: loop {
        match ask_listed(stage, engine, base, rests)? {
            Found::Listed => {}
            Found::Settled(found) => return Ok(found),
        }
    }
}

/// Asks with the rests that are listed, and lists one more where that isn't enough.
fn ask_listed<R: Refuter>(
    stage: &Stage<'_>,
    engine: &mut Engine<'_, R>,
    base: &[NetId],
    rests: &mut Vec<Bits>,
) -> Result<Found, Unfinished>
    requires stage { IsStage stage.now }
    requires engine { IsEngineAt stage.now engine.old }
    requires nets { AreNets (names stage.now.problem.now.implementation) base.now }
    requires readable { AtScene stage.now (λ s. AreReadableHere s (names_here stage.now base.now)) }
    requires rests { AtScene stage.now (λ s. AreRests s rests.old.items) }
    ensures found { IfOk result (IsFound stage.now base.now rests.old.items rests.new.items) }
    ensures unfinished { IfErr result (IsUnfinished engine.old.problem NoneCompared engine.old.limit) }
    ensures stays { engine.new ≡ engine.old }
{
    let arena = Bump::new(stage.alloc);
    let outcome = question(stage, engine, base, rests.as_slice(), &arena)?;
    Ok(take_in(rests, outcome)?)
}

/// What the outcome says of the signals that were asked about, or one more rest.
fn take_in(rests: &mut Vec<Bits>, outcome: Outcome<'_>) -> Result<Found, OutOfMemory>
    ensures { (stage : Stage) (base : List NetId) → IsStage stage → AtScene stage (λ s. AreRests s rests.old.items)
        → IsOutcome stage rests.old.items base outcome.entry → IfOk result (IsFound stage base rests.old.items rests.new.items) }
{
    match outcome {
        Outcome::Never(refutation) => {
            drop(refutation);
            Ok(Found::Settled(None))
        }
        Outcome::Conflict(pair) => Ok(Found::Settled(Some(pair))),
        Outcome::Further(rest) => {
            rests.push(rest)?;
            Ok(Found::Listed)
        }
    }
}
