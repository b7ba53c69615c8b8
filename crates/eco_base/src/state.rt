//! The choice on its way.

ghost use Rattle.std.specs.Prelude.{◌≡◌, ◌≤◌, ◌<◌, ℕ, true, false, All, Contains, IfOk, OnOk, length, map};
ghost use Rattle.eco_cover.specs.InPlay.{IsNext};
ghost use Rattle.std.specs.List.{AllZip};
ghost use Rattle.eco_base.specs.Scenes.{AtScene, AreForcing, IsStage, IsConflictHere, IsForcedHere, splice_at};
ghost use Rattle.eco_base.specs.declared.stage.Stage.{Stage};
ghost use Rattle.eco_base.specs.Asking.{IsNewRest, names_here};
ghost use Rattle.eco_base.specs.Fronts.{GoesOn, IsColumnRow, IsState, AreFirst, AreSeparatedAt, SufficesFrom, base_from, column_at};

use crate::based::Based;
use crate::known::Known;
use crate::separating::Pair;
use crate::side::Side;
use crate::stage::Stage;
use crate::values::values_at;
use eco_cover::{Kept, Row};
use eco_meaning::{Bits, OutOfMemory};
use eco_netlist::{NetId, Netlist};
use std::alloc::Global;

/// What is kept so far of the signals whose turns have come, and what is known.
#[derive(Drop)]
pub(crate) struct State {
    pub(crate) kept: Vec<Based>,
    /// The columns of the paid signals and of those that are kept.
    pub(crate) fixed: Vec<usize>,
    /// The first column whose turn hasn't come.
    pub(crate) from: usize,
    /// Inputs that force the target to 1, and such that force it to 0.
    pub(crate) ones: Side,
    pub(crate) zeros: Side,
    /// Values of the targets behind this one.
    pub(crate) rests: Vec<Bits>,
}

impl State {
    /// The signals that are kept.
    pub(crate) fn into_kept(self) -> Vec<Based>
        ensures { result ≡ self.kept }
    {
        self.kept
    }
}

/// The state before the first turn.
pub(crate) fn begin(stage: &Stage<'_>) -> Result<State, OutOfMemory>
    requires stage { IsStage stage.now }
    ensures state { IfOk result (IsState stage.now) }
    ensures forcing { IfOk result (λ state. AtScene stage.now (λ s. AreForcing s state.ones.inputs state.zeros.inputs)) }
{
    let fixed = first_columns(stage.alloc, stage.paid)?;
    Ok(State {
        kept: Vec::new(stage.alloc),
        fixed,
        from: stage.paid,
        ones: Side::new(stage.alloc),
        zeros: Side::new(stage.alloc),
        rests: Vec::new(stage.alloc),
    })
}

/// The state before the first turn, where these inputs are known. They are moved into it, unless memory could not be had.
pub(crate) fn begin_with(
    stage: &Stage<'_>,
    spliced: &Netlist,
    known: &mut Known,
) -> Result<State, OutOfMemory>
    requires stage { IsStage stage.now }
    requires spliced { spliced.now ≡ splice_at stage.now }
    requires known { AtScene stage.now (λ s. AreForcing s known.old.ones.items known.old.zeros.items) }
    ensures state { IfOk result (IsState stage.now) }
    ensures forcing { IfOk result (λ state. AtScene stage.now (λ s. AreForcing s state.ones.inputs state.zeros.inputs)) }
    ensures known { AtScene stage.now (λ s. AreForcing s known.new.ones.items known.new.zeros.items) }
{
    let ones = rows_of(stage, spliced, known.ones.as_slice())?;
    let zeros = rows_of(stage, spliced, known.zeros.as_slice())?;
    let mut state = begin(stage)?;
    state.ones.exchange(&mut known.ones, ones);
    state.zeros.exchange(&mut known.zeros, zeros);
    Ok(state)
}

/// The rows of all columns' values at the inputs.
fn rows_of(stage: &Stage<'_>, spliced: &Netlist, inputs: &[Bits]) -> Result<Vec<Row>, OutOfMemory>
    requires stage { IsStage stage.now }
    requires spliced { spliced.now ≡ splice_at stage.now }
    requires inputs { All (λ x. length x ≡ length stage.now.problem.now.implementation.inputs) inputs.now }
    ensures { IfOk result (λ rows. AllZip (IsColumnRow stage.now) inputs.now rows.items) }
{
    let mut rows = Vec::with_capacity(stage.alloc, inputs.len())?;
    for input in inputs {
        let row = values_at(stage, spliced, input.as_slice(), stage.columns.as_slice())?;
        rows.push(Row::of(row))?;
    }
    Ok(rows)
}

/// The first columns, so many.
fn first_columns(alloc: Global, count: usize) -> Result<Vec<usize>, OutOfMemory>
    ensures { IfOk result (λ columns. AreFirst count columns.items) }
{
    let mut columns = Vec::with_capacity(alloc, count)?;
    for column in 0..count {
        columns.push(column)?;
    }
    Ok(columns)
}

/// The nets that are asked about where the next turn is that of the column.
pub(crate) fn base_of(
    stage: &Stage<'_>,
    state: &State,
    column: usize,
) -> Result<Vec<NetId>, OutOfMemory>
    requires fixed { All (λ column. column < length stage.now.columns.items) state.now.fixed.items }
    requires column { column ≤ length stage.now.columns.items }
    ensures { IfOk result (λ base. base.items ≡ base_from stage.now state.now column) }
{
    let mut base = nets_of(
        stage.alloc,
        stage.columns.as_slice(),
        state.fixed.as_slice(),
    )?;
    base.extend_from_slice(&stage.columns.as_slice()[column..])?;
    Ok(base)
}

/// The nets of these columns.
fn nets_of(alloc: Global, columns: &[NetId], fixed: &[usize]) -> Result<Vec<NetId>, OutOfMemory>
    requires { All (λ column. column < length columns.now) fixed.now }
    ensures { IfOk result (λ nets. nets.items ≡ map (column_at columns.now) fixed.now) }
{
    let mut nets = Vec::with_capacity(alloc, fixed.len())?;
    for column in fixed {
        nets.push(columns[*column])?;
    }
    Ok(nets)
}

/// Keeps the signal of a column, where all before it are dropped.
pub(crate) fn keep(stage: &Stage<'_>, state: &mut State, kept: Kept) -> Result<(), OutOfMemory>
    requires stage { IsStage stage.now }
    requires state { IsState stage.now state.old }
    requires forcing { AtScene stage.now (λ s. AreForcing s state.old.ones.inputs state.old.zeros.inputs) }
    requires next { IsNext (length stage.now.columns.items) state.old.fixed.items state.old.from state.old.ones.rows
        state.old.zeros.rows kept }
    requires enough { AtScene stage.now (SufficesFrom stage.now state.old kept.column) }
    ensures goes_on { OnOk result (GoesOn stage.now state.old state.new) }
    ensures forcing { AtScene stage.now (λ s. AreForcing s state.new.ones.inputs state.new.zeros.inputs) }
{
    let net = stage.columns[kept.column];
    let one = state.ones.inputs()[kept.one].copy()?;
    let zero = state.zeros.inputs()[kept.zero].copy()?;
    state.kept.push(Based { net, one, zero })?;
    state.fixed.push(kept.column)?;
    state.from = kept.column + 1;
    Ok(())
}

/// Adds two inputs, which force the target to 1 and to 0 and show that what was asked about doesn't suffice.
pub(crate) fn join(
    stage: &Stage<'_>,
    spliced: &Netlist,
    state: &mut State,
    pair: Pair,
) -> Result<(), OutOfMemory>
    requires stage { IsStage stage.now }
    requires state { IsState stage.now state.old }
    requires forcing { AtScene stage.now (λ s. AreForcing s state.old.ones.inputs state.old.zeros.inputs) }
    requires spliced { spliced.now ≡ splice_at stage.now }
    requires forced { AtScene stage.now (λ s. IsForcedHere s pair.one true × IsForcedHere s pair.zero false) }
    ensures goes_on { (column : ℕ) → AreSeparatedAt stage.now state.old column
        → AtScene stage.now (λ s. IsConflictHere s (Contains (names_here stage.now (base_from stage.now state.old column))) pair.one pair.zero)
        → OnOk result (GoesOn stage.now state.old state.new) }
    ensures forcing { AtScene stage.now (λ s. AreForcing s state.new.ones.inputs state.new.zeros.inputs) }
{
    let Pair { one, zero } = pair;
    let one_row = values_at(stage, spliced, one.as_slice(), stage.columns.as_slice())?;
    let zero_row = values_at(stage, spliced, zero.as_slice(), stage.columns.as_slice())?;
    state.ones.add(one, Row::of(one_row))?;
    state.zeros.add(zero, Row::of(zero_row))?;
    Ok(())
}

/// Lists one more rest.
pub(crate) fn list(state: &mut State, rest: Bits) -> Result<(), OutOfMemory>
    ensures goes_on { (stage : Stage) → IsStage stage → IsState stage state.old → AtScene stage (λ s. IsNewRest s state.old.rests.items rest)
        → OnOk result (GoesOn stage state.old state.new) }
    ensures ones { state.new.ones ≡ state.old.ones }
    ensures zeros { state.new.zeros ≡ state.old.zeros }
{
    state.rests.push(rest)?;
    Ok(())
}
