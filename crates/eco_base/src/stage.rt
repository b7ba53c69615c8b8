//! The target whose base is chosen.

ghost use Rattle.std.specs.Prelude.{◌≡◌, [], IfOk, take};
ghost use Rattle.eco_meaning.specs.Circuit.{names};
ghost use Rattle.eco_netlist.specs.Netlists.{AreNets, names_at};
ghost use Rattle.eco_query.specs.Problem.{HasTargetNumber};
ghost use Rattle.eco_pose.specs.Questions.{AtTarget};
ghost use Rattle.eco_base.specs.Chosen.{IsReadyToChoose};
ghost use Rattle.eco_base.specs.Scenes.{AtScene, AreTurnsBut, IsStage};
ghost use Rattle.eco_base.specs.Stages.{IsStageFor, with_columns};

use crate::order::in_order;
use eco_meaning::OutOfMemory;
use eco_netlist::{NetId, Netlist};
use eco_query::Problem;
use std::alloc::Global;

/// A target of a problem, the patches of those before it, and the signals that its function may read.
#[derive(Drop)]
pub(crate) struct Stage<'a> {
    pub(crate) alloc: Global,
    pub(crate) problem: &'a Problem,
    /// The number of the target.
    pub(crate) number: u64,
    pub(crate) patches: Netlist,
    /// The paid signals, and behind them the others in an order of turns.
    pub(crate) columns: Vec<NetId>,
    /// The number of paid signals.
    pub(crate) paid: usize,
    /// The number of targets behind this one.
    pub(crate) later: u64,
}

/// The stage of the target of this number, with the usual order of turns.
pub(crate) fn stage_of<'a>(
    alloc: Global,
    problem: &'a Problem,
    number: u64,
    patches: &Netlist,
    paid: &[NetId],
) -> Result<Stage<'a>, OutOfMemory>
    requires number { HasTargetNumber problem.now.implementation number }
    requires nets { AreNets (names problem.now.implementation) paid.now }
    requires ready { AtTarget problem.now.implementation number
        (IsReadyToChoose problem.now patches.now (names_at (names problem.now.implementation) paid.now)) }
    requires first { number ≡ 0 → patches.now.gates ≡ [] }
    ensures { IfOk result (IsStageFor problem.now number patches.now paid.now []) }
{
    let implementation = problem.implementation();
    let mut columns = Vec::from_slice(alloc, paid)?;
    let turns = problem.turns(number, paid)?;
    columns.extend_from_slice(turns.as_slice())?;
    // both are checked
    let _ = (implementation.nets(), patches.nets());
    let later = implementation.targets().len() as u64 - number - 1;
    let patches = patches.copy()?;
    Ok(Stage {
        alloc,
        problem,
        number,
        patches,
        columns,
        paid: paid.len(),
        later,
    })
}

/// The columns of the stage, where the nets of `last` have their turns behind all others.
pub(crate) fn reordered(stage: &Stage<'_>, last: &[NetId]) -> Result<Vec<NetId>, OutOfMemory>
    requires stage { IsStage stage.now }
    requires order { AtScene stage.now (AreTurnsBut []) }
    requires last { AreNets (names stage.now.problem.now.implementation) last.now }
    ensures { IfOk result (λ columns. IsStageFor stage.now.problem.now stage.now.number stage.now.patches
        (take stage.now.paid stage.now.columns.items) last.now (with_columns stage.now columns)) }
{
    let implementation = stage.problem.implementation();
    let (paid, turns) = stage.columns.as_slice().split_at(stage.paid);
    let mut columns = Vec::from_slice(stage.alloc, paid)?;
    let ordered = in_order(stage.alloc, implementation, turns, last)?;
    columns.extend_from_slice(ordered.as_slice())?;
    Ok(columns)
}
