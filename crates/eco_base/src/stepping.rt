//! Steps of the choice.

ghost use Rattle.std.specs.Prelude.{◌≡◌, ◌≤◌, IfOk, IfErr, IfSome, length};
ghost use Rattle.eco_cover.specs.InPlay.{IsNext};
ghost use Rattle.eco_pose.specs.Stuck.{IsUnfinished, NoneCompared};
ghost use Rattle.eco_base.specs.Scenes.{AtScene, AreForcing, IsStage, IsEngineAt, splice_at};
ghost use Rattle.eco_base.specs.Asking.{IsOutcome};
ghost use Rattle.eco_base.specs.Fronts.{IsDone, IsState, IsStepped, AreSeparatedAt, base_from};

use crate::judging::{Outcome, question};
use crate::separating::Refutation;
use crate::stage::Stage;
use crate::state::{State, base_of, join, keep, list};
use bumpalo::Bump;
use eco_cover::{Kept, next};
use eco_desk::Engine;
use eco_meaning::OutOfMemory;
use eco_netlist::Netlist;
use eco_pose::Unfinished;
use eco_trace::Refuter;

/// What a step answers.
#[derive(Drop)]
pub(crate) enum Step<'t> {
    /// The state went on.
    Went,
    /// What is kept suffices.
    Done(Refutation<'t>),
}

/// Takes steps until what is kept suffices.
pub(crate) fn run<'t, R: Refuter>(
    stage: &Stage<'_>,
    engine: &mut Engine<'_, R>,
    state: &mut State,
    arena: &'t Bump,
) -> Result<Refutation<'t>, Unfinished>
    requires stage { IsStage stage.now }
    requires engine { IsEngineAt stage.now engine.old }
    requires state { IsState stage.now state.old }
    requires forcing { AtScene stage.now (λ s. AreForcing s state.old.ones.inputs state.old.zeros.inputs) }
    ensures done { IfOk result (IsDone stage.now state.new) }
    ensures unfinished { IfErr result (IsUnfinished engine.old.problem NoneCompared engine.old.limit) }
    ensures stays { engine.new ≡ engine.old }
{
    'steps: loop {
        match take_step(stage, engine, state, arena)? {
            Step::Went => {}
            Step::Done(refutation) => return Ok(refutation),
        }
    }
}

/// Takes at most so many steps; `None` where these don't settle whether what is kept suffices.
pub(crate) fn run_within<'t, R: Refuter>(
    stage: &Stage<'_>,
    engine: &mut Engine<'_, R>,
    state: &mut State,
    most: u64,
    arena: &'t Bump,
) -> Result<Option<Refutation<'t>>, Unfinished>
    requires stage { IsStage stage.now }
    requires engine { IsEngineAt stage.now engine.old }
    requires state { IsState stage.now state.old }
    requires forcing { AtScene stage.now (λ s. AreForcing s state.old.ones.inputs state.old.zeros.inputs) }
    ensures done { IfOk result (λ found. IfSome found (IsDone stage.now state.new)) }
    ensures forcing { AtScene stage.now (λ s. AreForcing s state.new.ones.inputs state.new.zeros.inputs) }
    ensures unfinished { IfErr result (IsUnfinished engine.old.problem NoneCompared engine.old.limit) }
    ensures stays { engine.new ≡ engine.old }
{
    for _step in 0..most {
        match take_step(stage, engine, state, arena)? {
            Step::Went => {}
            Step::Done(refutation) => return Ok(Some(refutation)),
        }
    }
    Ok(None)
}

/// Asks about the next column that the known inputs need, or where they need none about what is kept.
fn take_step<'t, R: Refuter>(
    stage: &Stage<'_>,
    engine: &mut Engine<'_, R>,
    state: &mut State,
    arena: &'t Bump,
) -> Result<Step<'t>, Unfinished>
    requires stage { IsStage stage.now }
    requires engine { IsEngineAt stage.now engine.old }
    requires state { IsState stage.now state.old }
    requires forcing { AtScene stage.now (λ s. AreForcing s state.old.ones.inputs state.old.zeros.inputs) }
    ensures stepped { IfOk result (IsStepped stage.now state.old state.new) }
    ensures forcing { AtScene stage.now (λ s. AreForcing s state.new.ones.inputs state.new.zeros.inputs) }
    ensures unfinished { IfErr result (IsUnfinished engine.old.problem NoneCompared engine.old.limit) }
    ensures stays { engine.new ≡ engine.old }
{
    let width = stage.columns.len();
    let ones = state.ones.rows();
    let zeros = state.zeros.rows();
    match next(
        stage.alloc,
        width,
        state.from,
        state.fixed.as_slice(),
        ones,
        zeros,
    )? {
        Some(kept) => step_at(stage, engine, state, kept),
        None => last_step(stage, engine, state, arena),
    }
}

/// Asks whether what is kept, the column and all behind it suffice.
fn step_at<'t, R: Refuter>(
    stage: &Stage<'_>,
    engine: &mut Engine<'_, R>,
    state: &mut State,
    kept: Kept,
) -> Result<Step<'t>, Unfinished>
    requires stage { IsStage stage.now }
    requires engine { IsEngineAt stage.now engine.old }
    requires state { IsState stage.now state.old }
    requires forcing { AtScene stage.now (λ s. AreForcing s state.old.ones.inputs state.old.zeros.inputs) }
    requires next { IsNext (length stage.now.columns.items) state.old.fixed.items state.old.from state.old.ones.rows
        state.old.zeros.rows kept }
    ensures stepped { IfOk result (IsStepped stage.now state.old state.new) }
    ensures forcing { AtScene stage.now (λ s. AreForcing s state.new.ones.inputs state.new.zeros.inputs) }
    ensures unfinished { IfErr result (IsUnfinished engine.old.problem NoneCompared engine.old.limit) }
    ensures stays { engine.new ≡ engine.old }
{
    let arena = Bump::new(stage.alloc);
    let outcome = ask_from(stage, engine, state, kept.column, &arena)?;
    Ok(go_on(stage, engine.spliced(), state, kept, outcome)?)
}

/// Takes in what was found of the column.
fn go_on<'t>(
    stage: &Stage<'_>,
    spliced: &Netlist,
    state: &mut State,
    kept: Kept,
    outcome: Outcome<'_>,
) -> Result<Step<'t>, OutOfMemory>
    requires stage { IsStage stage.now }
    requires spliced { spliced.now ≡ splice_at stage.now }
    requires state { IsState stage.now state.old }
    requires forcing { AtScene stage.now (λ s. AreForcing s state.old.ones.inputs state.old.zeros.inputs) }
    requires next { IsNext (length stage.now.columns.items) state.old.fixed.items state.old.from state.old.ones.rows
        state.old.zeros.rows kept }
    requires outcome { IsOutcome stage.now state.old.rests.items (base_from stage.now state.old kept.column) outcome }
    ensures stepped { IfOk result (IsStepped stage.now state.old state.new) }
    ensures forcing { AtScene stage.now (λ s. AreForcing s state.new.ones.inputs state.new.zeros.inputs) }
{
    match outcome {
        Outcome::Never(refutation) => {
            drop(refutation);
            keep(stage, state, kept)?;
            Ok(Step::Went)
        }
        Outcome::Conflict(pair) => {
            join(stage, spliced, state, pair)?;
            Ok(Step::Went)
        }
        Outcome::Further(rest) => {
            list(state, rest)?;
            Ok(Step::Went)
        }
    }
}

/// Asks whether what is kept suffices.
fn last_step<'t, R: Refuter>(
    stage: &Stage<'_>,
    engine: &mut Engine<'_, R>,
    state: &mut State,
    arena: &'t Bump,
) -> Result<Step<'t>, Unfinished>
    requires stage { IsStage stage.now }
    requires engine { IsEngineAt stage.now engine.old }
    requires state { IsState stage.now state.old }
    requires forcing { AtScene stage.now (λ s. AreForcing s state.old.ones.inputs state.old.zeros.inputs) }
    requires separated { AreSeparatedAt stage.now state.old (length stage.now.columns.items) }
    ensures stepped { IfOk result (IsStepped stage.now state.old state.new) }
    ensures forcing { AtScene stage.now (λ s. AreForcing s state.new.ones.inputs state.new.zeros.inputs) }
    ensures unfinished { IfErr result (IsUnfinished engine.old.problem NoneCompared engine.old.limit) }
    ensures stays { engine.new ≡ engine.old }
{
    let column = stage.columns.len();
    let outcome = ask_from(stage, engine, state, column, arena)?;
    Ok(end(stage, engine.spliced(), state, outcome)?)
}

/// Takes in what was found of what is kept.
fn end<'t>(
    stage: &Stage<'_>,
    spliced: &Netlist,
    state: &mut State,
    outcome: Outcome<'t>,
) -> Result<Step<'t>, OutOfMemory>
    requires stage { IsStage stage.now }
    requires spliced { spliced.now ≡ splice_at stage.now }
    requires state { IsState stage.now state.old }
    requires forcing { AtScene stage.now (λ s. AreForcing s state.old.ones.inputs state.old.zeros.inputs) }
    requires separated { AreSeparatedAt stage.now state.old (length stage.now.columns.items) }
    requires outcome { IsOutcome stage.now state.old.rests.items (base_from stage.now state.old (length stage.now.columns.items)) outcome }
    ensures stepped { IfOk result (IsStepped stage.now state.old state.new) }
    ensures forcing { AtScene stage.now (λ s. AreForcing s state.new.ones.inputs state.new.zeros.inputs) }
{
    match outcome {
        Outcome::Never(refutation) => Ok(Step::Done(refutation)),
        Outcome::Conflict(pair) => {
            join(stage, spliced, state, pair)?;
            Ok(Step::Went)
        }
        Outcome::Further(rest) => {
            list(state, rest)?;
            Ok(Step::Went)
        }
    }
}

/// Asks whether the signals of the fixed columns and those from the column on suffice.
fn ask_from<'t, R: Refuter>(
    stage: &Stage<'_>,
    engine: &mut Engine<'_, R>,
    state: &State,
    column: usize,
    arena: &'t Bump,
) -> Result<Outcome<'t>, Unfinished>
    requires stage { IsStage stage.now }
    requires engine { IsEngineAt stage.now engine.old }
    requires state { IsState stage.now state.now }
    requires behind { state.now.from ≤ column }
    requires within { column ≤ length stage.now.columns.items }
    ensures outcome { IfOk result (IsOutcome stage.now state.now.rests.items (base_from stage.now state.now column)) }
    ensures unfinished { IfErr result (IsUnfinished engine.old.problem NoneCompared engine.old.limit) }
    ensures stays { engine.new ≡ engine.old }
{
    let base = base_of(stage, state, column)?;
    let rests = state.rests.as_slice();
    question(stage, engine, base.as_slice(), rests, arena)
}
