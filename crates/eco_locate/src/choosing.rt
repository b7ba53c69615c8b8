//! Whether several nets are a choice, and which of them it needs.

ghost use Rattle.std.specs.Prelude.{◌≡◌, ◌<◌, ◌≤◌, [], IfOk, length};
ghost use Rattle.std.specs.List.{remove};
ghost use Rattle.eco_meaning.specs.Circuit.{names};
ghost use Rattle.eco_netlist.specs.Netlists.{names_at};
ghost use Rattle.eco_change.specs.CutProblem.{CanBeCut};
ghost use Rattle.eco_locate.specs.Chosen.{AreNeeds, TellsChoice, TellsNeed};

use crate::comparing::some_failing;
use crate::judging::{Verdict, judge};
use eco_change::Change;
use eco_meaning::{Bits, OutOfMemory};
use eco_netlist::NetId;
use eco_pose::{Stuck, Unfinished};
use eco_trace::Refuter;
use std::alloc::Global;

/// Whether a choice of nets needs one of them.
#[derive(Drop)]
pub enum Need {
    /// This input is wrong with the others cut, whatever values they have.
    Needed(Bits),
    /// Cutting the others suffices.
    Needless,
    /// The question whether cutting the others suffices was given up.
    Unknown(Stuck),
}

/// What is found of nets that are cut together.
#[derive(Drop)]
pub enum Choice {
    /// Cutting them suffices; and for each of them, in order, whether it is needed.
    Suffices(Vec<Need>),
    /// This input is wrong with the nets cut, whatever values they have.
    Wrong(Bits),
    /// The question was given up.
    GivenUp(Stuck),
}

/// Whether cutting these nets together suffices, and which of them are needed for that. A question has at most `limit` learnt
/// clauses.
///
/// # Errors
///
/// `OutOfMemory` only for want of memory.
pub fn check_choice<R: Refuter>(
    alloc: Global,
    change: &Change,
    nets: &[NetId],
    search: &mut R,
    limit: u64,
) -> Result<Choice, OutOfMemory>
    requires nets { CanBeCut change.now.old nets.now }
    requires some { 1 ≤ length nets.now }
    requires limit { 1 ≤ limit }
    ensures { IfOk result (TellsChoice change.now.old change.now.goal limit (names_at (names change.now.old) nets.now)) }
{
    match judge(alloc, change, nets, search, limit)? {
        Verdict::Choice => Ok(Choice::Suffices(needs_of(alloc, change, nets, search, limit)?)),
        Verdict::Wrong(input) => Ok(Choice::Wrong(input)),
        Verdict::GivenUp(stuck) => Ok(Choice::GivenUp(Box::into_inner(stuck))),
    }
}

/// For each of the nets, in order, whether the others suffice.
fn needs_of<R: Refuter>(
    alloc: Global,
    change: &Change,
    nets: &[NetId],
    search: &mut R,
    limit: u64,
) -> Result<Vec<Need>, OutOfMemory>
    requires nets { CanBeCut change.now.old nets.now }
    requires limit { 1 ≤ limit }
    ensures { IfOk result (λ needs. AreNeeds change.now.old change.now.goal limit (names_at (names change.now.old) nets.now) (length nets.now) needs.items) }
{
    let mut needs = Vec::new(alloc);
    for place in 0..nets.len() {
        needs.push(need_at(alloc, change, nets, place, search, limit)?)?;
    }
    Ok(needs)
}

/// Whether the net at this place is needed.
fn need_at<R: Refuter>(
    alloc: Global,
    change: &Change,
    nets: &[NetId],
    place: usize,
    search: &mut R,
    limit: u64,
) -> Result<Need, OutOfMemory>
    requires nets { CanBeCut change.now.old nets.now }
    requires place { place < length nets.now }
    requires limit { 1 ≤ limit }
    ensures { IfOk result (TellsNeed change.now.old change.now.goal limit (remove (names_at (names change.now.old) nets.now) place)) }
{
    let others = others_of(alloc, nets, place)?;
    if others.is_empty() {
        need_alone(alloc, change, search, limit)
    } else {
        need_besides(alloc, change, others.as_slice(), search, limit)
    }
}

/// The nets but the one at this place.
fn others_of(alloc: Global, nets: &[NetId], place: usize) -> Result<Vec<NetId>, OutOfMemory>
    requires { place < length nets.now }
    ensures { IfOk result (λ others. others.items ≡ remove nets.now place) }
{
    let mut others = Vec::from_slice(alloc, nets)?;
    let _ = others.remove(place);
    Ok(others)
}

/// Whether a net is needed, where these are the others.
fn need_besides<R: Refuter>(
    alloc: Global,
    change: &Change,
    others: &[NetId],
    search: &mut R,
    limit: u64,
) -> Result<Need, OutOfMemory>
    requires nets { CanBeCut change.now.old others.now }
    requires some { 1 ≤ length others.now }
    requires limit { 1 ≤ limit }
    ensures { IfOk result (TellsNeed change.now.old change.now.goal limit (names_at (names change.now.old) others.now)) }
{
    match judge(alloc, change, others, search, limit)? {
        Verdict::Choice => Ok(Need::Needless),
        Verdict::Wrong(input) => Ok(Need::Needed(input)),
        Verdict::GivenUp(stuck) => Ok(Need::Unknown(Box::into_inner(stuck))),
    }
}

/// Whether a net is needed that is cut alone: whether any input is wrong.
fn need_alone<R: Refuter>(
    alloc: Global,
    change: &Change,
    search: &mut R,
    limit: u64,
) -> Result<Need, OutOfMemory>
    requires { 1 ≤ limit }
    ensures { IfOk result (TellsNeed change.now.old change.now.goal limit []) }
{
    match some_failing(alloc, change, search, limit) {
        Ok(Some(failing)) => Ok(Need::Needed(failing.input)),
        Ok(None) => Ok(Need::Needless),
        Err(Unfinished::GivenUp(stuck)) => Ok(Need::Unknown(Box::into_inner(stuck))),
        Err(Unfinished::OutOfMemory) => Err(OutOfMemory),
    }
}
