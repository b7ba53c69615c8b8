//! The candidates of a target in the order of their turns.

ghost use Rattle.std.specs.Prelude.{◌≡◌, ◌<◌, ℕ, true, false, length, map, All, IfOk, MatchOption};
ghost use Rattle.std.specs.List.Sorted.{IsPermutation, IsSorted};
ghost use Rattle.eco_meaning.specs.Circuit.{names};
ghost use Rattle.eco_meaning.specs.Cost.{IsCandidate, AreTurns};
ghost use Rattle.eco_meaning.specs.Patch.{OfTarget};
ghost use Rattle.eco_gates.specs.Reach.{AreMarked};
ghost use Rattle.eco_netlist.specs.Netlists.{AreNets, IsChecked, name_at, names_at};
ghost use Rattle.eco_query.specs.Candidates.{IsTurn, AreFirstTurns, turn_order};

use crate::problem::Problem;
use eco_meaning::{Name, OutOfMemory};
use eco_netlist::NetId;
use std::alloc::Global;
use std::cmp::Ordering;

/// A candidate: its net, the net's name and its weight.
#[derive(Drop)]
pub(crate) struct Turn<'a> {
    pub(crate) net: NetId,
    pub(crate) name: &'a Name,
    pub(crate) weight: u32,
}

/// The candidates of the target `i` that aren't among the paid nets, in the order of their turns.
pub(crate) fn in_order(
    alloc: Global,
    problem: &Problem,
    i: u64,
    paid: &[NetId],
) -> Result<Vec<NetId>, OutOfMemory>
    requires { AreNets (names problem.now.implementation) paid.now }
    ensures nets { IfOk result (λ turns. AreNets (names problem.now.implementation) turns.items) }
    ensures turns { IfOk result (λ turns. OfTarget problem.now.implementation i (λ earlier target.
        AreTurns problem.now.implementation problem.now.weights problem.now.input_weight earlier
        (names_at (names problem.now.implementation) paid.now) (names_at (names problem.now.implementation) turns.items))) }
{
    let marks = marks_of(alloc, problem.implementation().nets(), paid)?;
    let mut turns = turns_of(alloc, problem, i, marks.as_slice())?;
    sort_turns(&mut turns);
    nets_of(alloc, turns.as_slice())
}

// One bit for each net: whether it is one of these.
fn marks_of(alloc: Global, nets: u64, marked: &[NetId]) -> Result<Vec<bool>, OutOfMemory>
    requires { All (λ net. net.0 < nets) marked.now }
    ensures { IfOk result (λ marks. AreMarked nets marked.now (length marked.now) marks.items) }
{
    let mut marks = vec![in alloc; false; nets as usize]?;
    for net in marked {
        marks[net.0 as usize] = true;
    }
    Ok(marks)
}

// The turns of the target's candidates that have no mark, in the order of their nets.
fn turns_of<'a>(
    alloc: Global,
    problem: &'a Problem,
    i: u64,
    marks: &[bool],
) -> Result<Vec<Turn<'a>>, OutOfMemory>
    requires { length marks.now ≡ length (names problem.now.implementation) }
    ensures checked { IsChecked problem.now.implementation }
    ensures turns { IfOk result (λ turns. AreFirstTurns problem.now.implementation problem.now.weights
        problem.now.input_weight i marks.now (length (names problem.now.implementation)) turns.items) }
{
    let mut turns = Vec::new(alloc);
    for net in 0..problem.implementation().nets() {
        if let Some(turn) = turn_of(problem, i, NetId(net), marks[net as usize]) {
            turns.push(turn)?;
        }
    }
    Ok(turns)
}

// The turn of the net, where it is a candidate of the target `i` and has no mark.
fn turn_of(problem: &Problem, i: u64, net: NetId, marked: bool) -> Option<Turn<'_>>
    requires { net.0 < length (names problem.now.implementation) }
    ensures { MatchOption result
        (OfTarget problem.now.implementation i (λ earlier target.
        IsCandidate problem.now.implementation problem.now.weights problem.now.input_weight earlier
        (name_at (names problem.now.implementation) net.0) → marked ≡ true))
        (λ turn. (turn.net ≡ net) × (marked ≡ false)
        × IsTurn problem.now.implementation problem.now.weights problem.now.input_weight i turn) }
{
    if marked || !problem.is_open(i, net) {
        return None;
    }
    match problem.weight(net) {
        None => None,
        Some(weight) => Some(Turn {
            net,
            name: problem.implementation().name_of(net),
            weight,
        }),
    }
}

// Puts the turns in order.
fn sort_turns(turns: &mut Vec<Turn<'_>>)
    ensures permutation { IsPermutation turns.old.items turns.new.items }
    ensures sorted { IsSorted turn_order turns.new.items }
{
    turns.sort_unstable_by(|first, second| compare(first, second));
}

// The heavier turn comes first, of equal weights the one with the later name.
fn compare(first: &Turn<'_>, second: &Turn<'_>) -> Ordering
    ensures { result ≡ turn_order first.now second.now }
{
    second
        .weight
        .cmp(&first.weight)
        .then_with(|| second.name.cmp(first.name))
}

// The nets of these turns.
fn nets_of(alloc: Global, turns: &[Turn<'_>]) -> Result<Vec<NetId>, OutOfMemory>
    ensures { IfOk result (λ nets. nets.items ≡ map (λ turn. turn.net) turns.now) }
{
    Ok(turns.iter().map(|turn| turn.net).collect(alloc)?)
}
