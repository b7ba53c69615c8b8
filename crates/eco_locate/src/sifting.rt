//! Inputs that take nets from those that are left.

ghost use Rattle.std.specs.Prelude.{◌≡◌, ◌≤◌, ◌++◌, [], ◌∷◌, ℕ, All, IfOk, OnOk, length};
ghost use Rattle.eco_meaning.specs.Circuit.{names};
ghost use Rattle.eco_meaning.specs.Meaning.{IsWrong};
ghost use Rattle.eco_netlist.specs.Netlists.{AreNets, name_at};
ghost use Rattle.eco_choices.specs.Choices.{IsWrongBut};
ghost use Rattle.eco_change.specs.Asked.{AreWanted};
ghost use Rattle.eco_change.specs.Failing.{IsFailing};
ghost use Rattle.eco_locate.specs.Judged.{IsJudgedTo};
ghost use Rattle.eco_locate.specs.Moves.{IsJoint};

use crate::answer::Excluding;
use crate::progress::Progress;
use eco_change::{Change, Failing, wrong_at};
use eco_lanes::{Sifted, sift};
use eco_meaning::{Bits, OutOfMemory};
use eco_netlist::NetId;
use std::alloc::Global;

/// Takes the nets that this wrong input excludes.
pub(crate) fn exclude_by(
    alloc: Global,
    change: &Change,
    failing: &Failing,
    progress: &mut Progress,
) -> Result<(), OutOfMemory>
    requires failing { IsFailing change.now.old change.now.goal failing.now }
    requires within { AreNets (names change.now.old) progress.old.left.items }
    ensures { OnOk result ((limit : ℕ) →
        IsJudgedTo change.now.old change.now.goal limit progress.old.left.items progress.old.located →
        IsJudgedTo change.now.old change.now.goal limit progress.new.left.items progress.new.located) }
{
    let nets = taken_at(
        alloc,
        change,
        &failing.input,
        &failing.wanted,
        &mut progress.left,
    )?;
    if nets.is_empty() {
        return Ok(());
    }
    let input = failing.input.copy()?;
    progress.located.excluding.push(Excluding { input, nets })?;
    Ok(())
}

/// Takes the nets that a wrong input excludes, together with this one, which is known to be such.
pub(crate) fn exclude_with(
    alloc: Global,
    change: &Change,
    net: NetId,
    input: Bits,
    progress: &mut Progress,
) -> Result<(), OutOfMemory>
    requires wrong { IsWrong change.now.old change.now.goal input }
    requires still { IsWrongBut change.now.old change.now.goal (name_at (names change.now.old) net.0 ∷ []) input }
    requires within { AreNets (names change.now.old) progress.old.left.items }
    ensures judged { OnOk result ((limit : ℕ) →
        IsJudgedTo change.now.old change.now.goal limit (progress.old.left.items ++ net ∷ []) progress.old.located →
        IsJudgedTo change.now.old change.now.goal limit progress.new.left.items progress.new.located) }
    ensures fewer { OnOk result (length progress.new.left.items ≤ length progress.old.left.items) }
{
    let mut nets = taken_by(alloc, change, &input, &mut progress.left)?;
    nets.push(net)?;
    progress.located.excluding.push(Excluding { input, nets })?;
    Ok(())
}

/// The nets with which a wrong input stays wrong; they are taken from those that are left.
pub(crate) fn taken_by(
    alloc: Global,
    change: &Change,
    input: &Bits,
    left: &mut Vec<NetId>,
) -> Result<Vec<NetId>, OutOfMemory>
    requires wrong { IsWrong change.now.old change.now.goal input.now }
    requires within { AreNets (names change.now.old) left.old.items }
    ensures joint { IfOk result (λ taken. IsJoint left.new.items taken.items left.old.items) }
    ensures still { IfOk result (λ taken. All (λ net. IsWrongBut change.now.old change.now.goal
        (name_at (names change.now.old) net.0 ∷ []) input.now) taken.items) }
{
    match wrong_at(alloc, change, input.as_slice())? {
        Some(wanted) => taken_at(alloc, change, input, &wanted, left),
        None => Ok(Vec::new(alloc)),
    }
}

/// The same, with the outputs that are asked for there.
fn taken_at(
    alloc: Global,
    change: &Change,
    input: &Bits,
    wanted: &Bits,
    left: &mut Vec<NetId>,
) -> Result<Vec<NetId>, OutOfMemory>
    requires wrong { IsWrong change.now.old change.now.goal input.now }
    requires wanted { AreWanted change.now.old change.now.goal input.now wanted.now }
    requires within { AreNets (names change.now.old) left.old.items }
    ensures joint { IfOk result (λ taken. IsJoint left.new.items taken.items left.old.items) }
    ensures still { IfOk result (λ taken. All (λ net. IsWrongBut change.now.old change.now.goal
        (name_at (names change.now.old) net.0 ∷ []) input.now) taken.items) }
{
    let sifted = sift(
        alloc,
        change.old(),
        input.as_slice(),
        wanted.as_slice(),
        left.as_slice(),
    )?;
    let Sifted { left: rest, taken } = sifted;
    *left = rest;
    Ok(taken)
}
