//! Walking through the signals in another order of turns.

ghost use Rattle.std.specs.Prelude.{◌≡◌, [], IfOk, IfErr, IfSome, All, length, take};
ghost use Rattle.std.specs.List.{AllZip};
ghost use Rattle.eco_meaning.specs.Circuit.{names};
ghost use Rattle.eco_netlist.specs.Netlists.{AreNets};
ghost use Rattle.eco_pose.specs.Stuck.{IsUnfinished, NoneCompared};
ghost use Rattle.eco_base.specs.Scenes.{AtScene, AreForcing, AreTurnsBut, IsStage, IsEngineAt};
ghost use Rattle.eco_base.specs.Asking.{names_here};
ghost use Rattle.eco_base.specs.Fronts.{IsKeptAtEnd, IsState};
ghost use Rattle.eco_base.specs.Walks.{AreKnownFor, IsRowOf, IsWalked};

use crate::choosing::Chosen;
use crate::known::Known;
use crate::separating::Refutation;
use crate::stage::{Stage, reordered};
use crate::state::{State, begin_with};
use crate::stepping::run_within;
use crate::values::bits_at;
use bumpalo::Bump;
use eco_desk::Engine;
use eco_meaning::{Bits, OutOfMemory};
use eco_netlist::{NetId, Netlist};
use eco_pose::Unfinished;
use eco_trace::Refuter;
use std::alloc::Global;
use std::mem::replace;

/// How a walk goes: which signals have their turns behind all others, and how many steps, of one question each, it may take.
#[derive(Clone, Copy)]
pub struct Plan<'a> {
    pub last: &'a [NetId],
    pub most: u64,
}

/// The base of the stage's target, as `choose` finds it, but in the order of turns of the walk; `None` if it takes more steps. The
/// stage has its own order again then, also where this fails.
pub(crate) fn walk_on<'t, R: Refuter>(
    stage: &mut Stage<'_>,
    engine: &mut Engine<'_, R>,
    walk: Plan<'_>,
    known: &mut Known,
    arena: &'t Bump,
) -> Result<Option<Chosen<'t>>, Unfinished>
    requires stage { IsStage stage.old }
    requires order { AtScene stage.old (AreTurnsBut []) }
    requires engine { IsEngineAt stage.old engine.old }
    requires last { AreNets (names stage.old.problem.now.implementation) walk.last.now }
    requires known { AreKnownFor stage.old.problem.now stage.old.number stage.old.patches known.old }
    ensures walked { IfOk result (λ chosen. IfSome chosen (IsWalked stage.old.problem.now stage.old.number stage.old.patches
        (names_here stage.old (take stage.old.paid stage.old.columns.items)) (names_here stage.old walk.entry.last.now))) }
    ensures known { AreKnownFor stage.old.problem.now stage.old.number stage.old.patches known.new }
    ensures unfinished { IfErr result (IsUnfinished engine.old.problem NoneCompared engine.old.limit) }
    ensures stays { engine.new ≡ engine.old }
    ensures stage { stage.new ≡ stage.old }
{
    let columns = reordered(stage, walk.last)?;
    let usual = replace(&mut stage.columns, columns);
    let walked = walk_at(stage, engine, walk, known, arena);
    drop(replace(&mut stage.columns, usual));
    walked
}

/// The base of the stage's target, whose turns are in the order of the walk.
fn walk_at<'t, R: Refuter>(
    stage: &Stage<'_>,
    engine: &mut Engine<'_, R>,
    walk: Plan<'_>,
    known: &mut Known,
    arena: &'t Bump,
) -> Result<Option<Chosen<'t>>, Unfinished>
    requires stage { IsStage stage.now }
    requires order { AtScene stage.now (AreTurnsBut (names_here stage.now walk.last.now)) }
    requires engine { IsEngineAt stage.now engine.old }
    requires known { AtScene stage.now (λ s. AreForcing s known.old.ones.items known.old.zeros.items) }
    ensures walked { IfOk result (λ chosen. IfSome chosen (IsWalked stage.now.problem.now stage.now.number stage.now.patches
        (names_here stage.now (take stage.now.paid stage.now.columns.items)) (names_here stage.now walk.entry.last.now))) }
    ensures known { AtScene stage.now (λ s. AreForcing s known.new.ones.items known.new.zeros.items) }
    ensures unfinished { IfErr result (IsUnfinished engine.old.problem NoneCompared engine.old.limit) }
    ensures stays { engine.new ≡ engine.old }
{
    let mut state = begin_with(stage, engine.spliced(), known)?;
    match walk_from(stage, engine, &mut state, walk.most, known, arena) {
        Ok(Some(refutation)) => Ok(Some(Chosen {
            new: state.into_kept(),
            posed: refutation.posed,
            trace: refutation.trace,
        })),
        Ok(None) => {
            drop(state);
            Ok(None)
        }
        Err(unfinished) => {
            drop(state);
            Err(unfinished)
        }
    }
}

/// Takes at most so many steps from the state, and moves the inputs that it has then to those that are known.
fn walk_from<'t, R: Refuter>(
    stage: &Stage<'_>,
    engine: &mut Engine<'_, R>,
    state: &mut State,
    most: u64,
    known: &mut Known,
    arena: &'t Bump,
) -> Result<Option<Refutation<'t>>, Unfinished>
    requires stage { IsStage stage.now }
    requires engine { IsEngineAt stage.now engine.old }
    requires state { IsState stage.now state.old }
    requires forcing { AtScene stage.now (λ s. AreForcing s state.old.ones.inputs state.old.zeros.inputs) }
    ensures kept { IfOk result (λ found. IfSome found (IsKeptAtEnd stage.now state.new.kept)) }
    ensures known { AtScene stage.now (λ s. AreForcing s known.new.ones.items known.new.zeros.items) }
    ensures unfinished { IfErr result (IsUnfinished engine.old.problem NoneCompared engine.old.limit) }
    ensures stays { engine.new ≡ engine.old }
{
    let found = run_within(stage, engine, state, most, arena);
    state.ones.exchange(&mut known.ones, Vec::new(stage.alloc));
    state
        .zeros
        .exchange(&mut known.zeros, Vec::new(stage.alloc));
    found
}

/// The values of the nets at each of the inputs.
pub(crate) fn rows_at(
    alloc: Global,
    n: &Netlist,
    nets: &[NetId],
    inputs: &[Bits],
) -> Result<Vec<Bits>, OutOfMemory>
    requires { All (λ x. length x ≡ length n.now.inputs) inputs.now }
    ensures { IfOk result (λ rows. AllZip (IsRowOf n.now nets.now) inputs.now rows.items) }
{
    let mut rows = Vec::with_capacity(alloc, inputs.len())?;
    for input in inputs {
        let row = row_at(alloc, n, nets, input.as_slice())?;
        rows.push(Bits::of(row))?;
    }
    Ok(rows)
}

/// The values of the nets at the input.
fn row_at(
    alloc: Global,
    n: &Netlist,
    nets: &[NetId],
    input: &[bool],
) -> Result<Vec<bool>, OutOfMemory>
    requires { length input.now ≡ length n.now.inputs }
    ensures { IfOk result (λ row. IsRowOf n.now nets.now input.now row.items) }
{
    let values = n.values_at(input)?;
    bits_at(alloc, values.as_slice(), nets)
}
