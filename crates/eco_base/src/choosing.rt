//! Choosing the base of a target.

ghost use Rattle.std.specs.Prelude.{◌≡◌, [], Some, IfOk, IfErr, take};
ghost use Rattle.eco_meaning.specs.Circuit.{names};
ghost use Rattle.eco_netlist.specs.Netlists.{AreNets, names_at};
ghost use Rattle.eco_query.specs.Problem.{HasTargetNumber};
ghost use Rattle.eco_pose.specs.Questions.{AtTarget};
ghost use Rattle.eco_pose.specs.Stuck.{IsUnfinished, NoneCompared};
ghost use Rattle.eco_base.specs.Scenes.{AtScene, AreForcing, AreTurnsBut, IsStage, IsEngineAt};
ghost use Rattle.eco_base.specs.Asking.{names_here};
ghost use Rattle.eco_base.specs.Chosen.{IsReadyToChoose, IsChosen};

use crate::based::Based;
use crate::stage::{Stage, stage_of};
use crate::state::begin;
use crate::stepping::run;
use bumpalo::Bump;
use eco_desk::Engine;
use eco_netlist::{NetId, Netlist};
use eco_pose::{Posed, Unfinished};
use eco_trace::{Refuter, Trace};

/// The chosen signals in the order of their turns, and why they suffice beside the paid ones: a question and its refutation.
#[derive(Drop)]
pub struct Chosen<'t> {
    pub new: Vec<Based>,
    pub posed: Posed,
    pub trace: Trace<'t>,
}

/// The base of the target of this number beside the signals that are paid, where the patches drive the targets before it. The
/// engine is turned to the target and these patches. Fails where the search gives up on a question, or for want of memory.
///
/// Each step asks one question for two inputs, of which one forces the target to 1 and the other to 0: whether the signals that
/// are kept so far suffice with the next one that the known inputs need and all whose turns come later. An answer makes two more
/// known inputs, or is refuted by values of the later targets, which are listed; no answer settles all turns up to that
/// signal. What the questions whether the kept signals alone suffice need stays in the arena, all else is let go.
pub fn choose<'t, R: Refuter>(
    engine: &mut Engine<'_, R>,
    i: u64,
    patches: &Netlist,
    paid: &[NetId],
    arena: &'t Bump,
) -> Result<Chosen<'t>, Unfinished>
    requires turned { engine.old.turned ≡ Some (record { number = i; patches = patches.now }) }
    requires number { HasTargetNumber engine.old.problem.implementation i }
    requires nets { AreNets (names engine.old.problem.implementation) paid.now }
    requires ready { AtTarget engine.old.problem.implementation i
        (IsReadyToChoose engine.old.problem patches.now (names_at (names engine.old.problem.implementation) paid.now)) }
    requires first { i ≡ 0 → patches.now.gates ≡ [] }
    ensures chosen { IfOk result
        (IsChosen engine.old.problem i patches.now (names_at (names engine.old.problem.implementation) paid.now)) }
    ensures unfinished { IfErr result (IsUnfinished engine.old.problem NoneCompared engine.old.limit) }
    ensures stays { engine.new ≡ engine.old }
{
    let stage = stage_of(engine.allocator(), engine.problem(), i, patches, paid)?;
    let chosen = chosen_at(&stage, engine, arena);
    drop(stage);
    chosen
}

/// The base of the stage's target.
pub(crate) fn chosen_at<'t, R: Refuter>(
    stage: &Stage<'_>,
    engine: &mut Engine<'_, R>,
    arena: &'t Bump,
) -> Result<Chosen<'t>, Unfinished>
    requires stage { IsStage stage.now }
    requires order { AtScene stage.now (AreTurnsBut []) }
    requires engine { IsEngineAt stage.now engine.old }
    ensures chosen { IfOk result (IsChosen stage.now.problem.now stage.now.number stage.now.patches
        (names_here stage.now (take stage.now.paid stage.now.columns.items))) }
    ensures unfinished { IfErr result (IsUnfinished engine.old.problem NoneCompared engine.old.limit) }
    ensures stays { engine.new ≡ engine.old }
{
    let mut state = begin(stage)?;
    match run(stage, engine, &mut state, arena) {
        Ok(refutation) => Ok(Chosen {
            new: state.into_kept(),
            posed: refutation.posed,
            trace: refutation.trace,
        }),
        Err(unfinished) => {
            drop(state);
            Err(unfinished)
        }
    }
}
