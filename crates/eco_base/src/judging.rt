//! Questions whether some signals suffice.

ghost use Rattle.std.specs.Prelude.{◌≡◌, ℕ, Bool, List, IfOk, IfErr, length};
ghost use Rattle.eco_meaning.specs.Circuit.{names};
ghost use Rattle.eco_gates.specs.declared.gate.NetId.{NetId};
ghost use Rattle.eco_netlist.specs.Netlists.{AreNets};
ghost use Rattle.eco_pose.specs.Stuck.{IsUnfinished, NoneCompared};
ghost use Rattle.eco_base.specs.Scenes.{AtScene, IsStage, IsEngineAt, IsSeparatedHere};
ghost use Rattle.eco_base.specs.Asking.{AreReadableHere, AreRests, IsJudged, IsOutcome, names_here};

use crate::resting::find_rest;
use crate::separating::{Pair, Refutation, pair_of};
use crate::stage::Stage;
use bumpalo::Bump;
use eco_desk::Engine;
use eco_meaning::Bits;
use eco_netlist::NetId;
use eco_pose::{Asked, Unfinished};
use eco_trace::Refuter;

/// What a question whether signals suffice is answered.
#[derive(Drop)]
pub(crate) enum Outcome<'t> {
    /// They do.
    Never(Refutation<'t>),
    /// They don't: the first input forces the target to 1, the second to 0, and the signals agree.
    Conflict(Pair),
    /// It isn't known yet: this rest isn't listed.
    Further(Bits),
}

/// Whether the signals suffice, or a rest that isn't listed.
pub(crate) fn question<'t, R: Refuter>(
    stage: &Stage<'_>,
    engine: &mut Engine<'_, R>,
    base: &[NetId],
    rests: &[Bits],
    arena: &'t Bump,
) -> Result<Outcome<'t>, Unfinished>
    requires stage { IsStage stage.now }
    requires engine { IsEngineAt stage.now engine.old }
    requires nets { AreNets (names stage.now.problem.now.implementation) base.now }
    requires base { AtScene stage.now (λ s. AreReadableHere s (names_here stage.now base.now)) }
    requires rests { AtScene stage.now (λ s. AreRests s rests.now) }
    ensures outcome { IfOk result (IsOutcome stage.now rests.now base.now) }
    ensures unfinished { IfErr result (IsUnfinished engine.old.problem NoneCompared engine.old.limit) }
    ensures stays { engine.new ≡ engine.old }
{
    match engine.ask_separate(stage.number, &stage.patches, base, rests, arena)? {
        Asked::Never { posed, trace } => {
            let _ = trace.ends_empty();
            Ok(Outcome::Never(Refutation { posed, trace }))
        }
        Asked::Found { posed, model } => {
            let pair = pair_of(&posed, &model);
            drop(posed);
            drop(model);
            judge(stage, engine, pair?)
        }
    }
}

/// Whether the two inputs, which are separated as far as the rests tell, are a conflict, or a rest that shows that they may not be.
fn judge<'t, R: Refuter>(
    stage: &Stage<'_>,
    engine: &mut Engine<'_, R>,
    pair: Pair,
) -> Result<Outcome<'t>, Unfinished>
    requires stage { IsStage stage.now }
    requires engine { IsEngineAt stage.now engine.old }
    requires one { length pair.one ≡ length stage.now.problem.now.implementation.inputs }
    requires zero { length pair.zero ≡ length stage.now.problem.now.implementation.inputs }
    ensures outcome { (rests : List (List Bool)) (base : List NetId) → AtScene stage.now (λ s. IsSeparatedHere s rests (names_here stage.now base) pair.one pair.zero)
        → IfOk result (IsOutcome stage.now rests base) }
    ensures unfinished { IfErr result (IsUnfinished engine.old.problem NoneCompared engine.old.limit) }
    ensures stays { engine.new ≡ engine.old }
{
    match further_rest(stage, engine, &pair)? {
        Some(rest) => Ok(Outcome::Further(rest)),
        None => Ok(Outcome::Conflict(pair)),
    }
}

/// A rest that helps at one of the inputs, if there is one: where the inputs are separated it isn't listed.
fn further_rest<R: Refuter>(
    stage: &Stage<'_>,
    engine: &mut Engine<'_, R>,
    pair: &Pair,
) -> Result<Option<Bits>, Unfinished>
    requires stage { IsStage stage.now }
    requires engine { IsEngineAt stage.now engine.old }
    requires one { length pair.now.one ≡ length stage.now.problem.now.implementation.inputs }
    requires zero { length pair.now.zero ≡ length stage.now.problem.now.implementation.inputs }
    ensures rest { (rests : List (List Bool)) (base : List (List ℕ)) → AtScene stage.now (λ s. IsSeparatedHere s rests base pair.now.one pair.now.zero)
        → IfOk result (IsJudged stage.now rests base pair.now) }
    ensures unfinished { IfErr result (IsUnfinished engine.old.problem NoneCompared engine.old.limit) }
    ensures stays { engine.new ≡ engine.old }
{
    match find_rest(stage, engine, &pair.one, true)? {
        Some(rest) => Ok(Some(rest)),
        None => find_rest(stage, engine, &pair.zero, false),
    }
}
