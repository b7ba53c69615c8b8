//! Lists of turns that tell all known inputs apart.

ghost use Rattle.std.specs.Prelude.{◌≡◌, IfOk, IfSome};
ghost use Rattle.eco_base.specs.Targets.{TargetValue};
ghost use Rattle.eco_least.specs.Rows.{IsAccount, IsPart};
ghost use Rattle.eco_least.specs.Weighed.{AreWeighed, marked_of};

use crate::account::{Account, add_rows, catch_up};
use crate::asking::{Tried, try_list};
use crate::pool::missed_pairs;
use crate::weighed::Weighed;
use eco_base::Target;
use eco_hitting::hitting_set;
use eco_meaning::OutOfMemory;
use eco_netlist::NetId;
use eco_trace::Refuter;
use std::alloc::Global;

/// How many rounds a hitting set may take that is only to find further rows, and how many one that is tried.
const QUICK_ROUNDS: u32 = 1;

const THOROUGH_ROUNDS: u32 = 8;

/// Which parts of the greatest weight are added to all weights where sets of fewer columns are sought.
const PARTS: [u32; 3] = [8, 2, 1];

/// How many times rows are added at most.
const PASSES: u32 = 2_000;

/// A list of turns that costs less than this and isn't known not to suffice beside the paid signals: one that does, or the
/// last one where the questions are spent; `None` where none is found that is so light. Answers too how many questions are left.
pub(crate) fn light_list<R: Refuter>(
    weighed: &Weighed,
    target: &mut Target<'_, R>,
    account: &mut Account,
    below: u64,
    questions: &mut u32,
) -> Result<Option<Vec<NetId>>, OutOfMemory>
    requires weighed { AreWeighed target.old weighed.now }
    requires account { IsAccount target.old weighed.now account.old }
    ensures list { IfOk result (λ found. IfSome found (λ list. IsPart target.old weighed.now list.items)) }
    ensures account { IfOk result (λ _. IsAccount target.old weighed.now account.new) }
    ensures stays { target.new ≡ target.old }
{
    for _ in 0..*questions {
        let set = next_set(weighed, target, account, weighed.weights.as_slice())?;
        if cost_of(weighed, set.as_slice()) >= below {
            return Ok(None);
        }
        let list = list_of(weighed, set.as_slice())?;
        *questions = questions.saturating_sub(1);
        match try_list(weighed, target, account, list.as_slice())? {
            Tried::Learned => {}
            Tried::Suffices | Tried::Open => return Ok(Some(list)),
        }
    }
    last_list(weighed, target, account, below)
}

/// The next list of turns to be tried, where it costs less than this.
fn last_list<R: Refuter>(
    weighed: &Weighed,
    target: &mut Target<'_, R>,
    account: &mut Account,
    below: u64,
) -> Result<Option<Vec<NetId>>, OutOfMemory>
    requires weighed { AreWeighed target.old weighed.now }
    requires account { IsAccount target.old weighed.now account.old }
    ensures list { IfOk result (λ found. IfSome found (λ list. IsPart target.old weighed.now list.items)) }
    ensures account { IfOk result (λ _. IsAccount target.old weighed.now account.new) }
    ensures stays { target.new ≡ target.old }
{
    let set = next_set(weighed, target, account, weighed.weights.as_slice())?;
    if cost_of(weighed, set.as_slice()) >= below {
        return Ok(None);
    }
    let list = list_of(weighed, set.as_slice())?;
    Ok(Some(list))
}

/// A list of few turns that suffices beside the paid signals; `None` where none is found by so many questions.
pub(crate) fn short_list<R: Refuter>(
    weighed: &Weighed,
    target: &mut Target<'_, R>,
    account: &mut Account,
    questions: u32,
) -> Result<Option<Vec<NetId>>, OutOfMemory>
    requires weighed { AreWeighed target.old weighed.now }
    requires account { IsAccount target.old weighed.now account.old }
    ensures list { IfOk result (λ found. IfSome found (λ list. IsPart target.old weighed.now list.items)) }
    ensures account { IfOk result (λ _. IsAccount target.old weighed.now account.new) }
    ensures stays { target.new ≡ target.old }
{
    let weights = weights_for_short(weighed)?;
    for _ in 0..questions {
        let set = next_set(weighed, target, account, weights.as_slice())?;
        let list = list_of(weighed, set.as_slice())?;
        match try_list(weighed, target, account, list.as_slice())? {
            Tried::Learned => {}
            Tried::Suffices => return Ok(Some(list)),
            Tried::Open => return Ok(None),
        }
    }
    Ok(None)
}

/// Weights by which fewer turns weigh less than more, and of as many the lighter ones less: the heaviest one's is added to each.
fn weights_for_short(weighed: &Weighed) -> Result<Vec<u32>, OutOfMemory> {
    let weights = weighed.weights.as_slice();
    raised(weighed.alloc, weights, heaviest_of(weights))
}

/// These weights, each greater by the amount.
fn raised(alloc: Global, weights: &[u32], amount: u32) -> Result<Vec<u32>, OutOfMemory> {
    let mut more = Vec::with_capacity(alloc, weights.len())?;
    for weight in weights {
        more.push((*weight).saturating_add(amount))?;
    }
    Ok(more)
}

/// The greatest of these weights, 1 at least.
fn heaviest_of(weights: &[u32]) -> u32 {
    let mut heaviest: u32 = 1;
    for weight in weights {
        heaviest = heaviest.max(*weight);
    }
    heaviest
}

/// A set of columns, light by these weights, that tells all known inputs apart which the paid signals don't, unless there are too many
/// rows.
pub(crate) fn next_set<R: Refuter>(
    weighed: &Weighed,
    target: &Target<'_, R>,
    account: &mut Account,
    weights: &[u32],
) -> Result<Vec<usize>, OutOfMemory>
    requires weighed { AreWeighed target.now weighed.now }
    requires account { IsAccount target.now weighed.now account.old }
    ensures account { IfOk result (λ _. IsAccount target.now weighed.now account.new) }
{
    catch_up(weighed, target, account)?;
    light_set(weighed, account, weights)
}

/// A set of columns, light by these weights, that tells all seen inputs apart which the paid signals don't, unless there are too many
/// rows. The rows of pairs that lighter sets miss are listed.
fn light_set(
    weighed: &Weighed,
    account: &mut Account,
    weights: &[u32],
) -> Result<Vec<usize>, OutOfMemory>
    ensures { (t : TargetValue) → IsAccount t weighed.now account.old → IfOk result (λ _. IsAccount t weighed.now account.new) }
{
    let mut rounds = QUICK_ROUNDS;
    for _ in 0..PASSES {
        let set = lightest_of(weighed, account, weights, rounds)?;
        let more = list_missed(weighed, account, set.as_slice())?;
        if !more && rounds == THOROUGH_ROUNDS {
            return Ok(set);
        }
        rounds = if more { QUICK_ROUNDS } else { THOROUGH_ROUNDS };
    }
    lightest_of(weighed, account, weights, rounds)
}

/// A set of columns, light by these weights, that hits the rows. With more than the fewest rounds sets of fewer columns are sought
/// too: a few heavy ones may weigh less than many light ones, which exchanges of two don't find.
fn lightest_of(
    weighed: &Weighed,
    account: &Account,
    weights: &[u32],
    rounds: u32,
) -> Result<Vec<usize>, OutOfMemory> {
    let mut best = set_of(weighed, account, weights, rounds)?;
    if rounds > QUICK_ROUNDS {
        let heaviest = heaviest_of(weights);
        for part in &PARTS {
            let other = raised(weighed.alloc, weights, part_of(heaviest, *part))?;
            let set = set_of(weighed, account, other.as_slice(), rounds)?;
            best = lighter(weights, best, set);
        }
    }
    Ok(best)
}

/// The weight, divided by this.
fn part_of(weight: u32, divisor: u32) -> u32 {
    match weight.checked_div(divisor) {
        None => 0,
        Some(part) => part,
    }
}

/// The set that weighs less, the first one where both weigh the same.
fn lighter(weights: &[u32], first: Vec<usize>, second: Vec<usize>) -> Vec<usize> {
    if weigh(weights, second.as_slice()) < weigh(weights, first.as_slice()) {
        drop(first);
        second
    } else {
        drop(second);
        first
    }
}

/// A set of columns, light by these weights, that hits the rows.
fn set_of(
    weighed: &Weighed,
    account: &Account,
    weights: &[u32],
    rounds: u32,
) -> Result<Vec<usize>, OutOfMemory> {
    hitting_set(weighed.alloc, account.rows.as_slice(), weights, rounds)
}

/// Lists rows of pairs that the columns don't tell apart. True where there is one more.
fn list_missed(weighed: &Weighed, account: &mut Account, set: &[usize]) -> Result<bool, OutOfMemory>
    ensures { (t : TargetValue) → IsAccount t weighed.now account.old → IfOk result (λ _. IsAccount t weighed.now account.new) }
{
    let pairs = missed_pairs(
        weighed.alloc,
        account.ones.as_slice(),
        account.zeros.as_slice(),
        set,
    )?;
    add_rows(weighed, account, pairs.as_slice())
}

/// The turns of the columns.
fn list_of(weighed: &Weighed, set: &[usize]) -> Result<Vec<NetId>, OutOfMemory>
    ensures { (t : TargetValue) → AreWeighed t weighed.now → IfOk result (λ list. IsPart t weighed.now list.items) }
{
    let marks = marks_of(weighed.alloc, weighed.turns.len(), set)?;
    let list = marked(weighed.alloc, weighed.turns.as_slice(), marks.as_slice())?;
    Ok(list)
}

/// For each of so many columns whether it is in the set.
fn marks_of(alloc: Global, count: usize, set: &[usize]) -> Result<Vec<bool>, OutOfMemory> {
    let mut marks = vec![in alloc; false; count]?;
    for column in set {
        if let Some(mark) = marks.get_mut(*column) {
            *mark = true;
        }
    }
    Ok(marks)
}

/// Those of the nets that are marked.
fn marked(alloc: Global, turns: &[NetId], marks: &[bool]) -> Result<Vec<NetId>, OutOfMemory>
    ensures { IfOk result (λ list. list.items ≡ marked_of turns.now marks.now) }
{
    let mut list = Vec::new(alloc);
    let (mut turns, mut marks) = (turns, marks);
    while let (Some((net, later)), Some((mark, others))) = (
        turns.split_first(),
        marks.split_first(),
    ) {
        if *mark {
            list.push(*net)?;
        }
        turns = later;
        marks = others;
    }
    Ok(list)
}

/// What the columns weigh.
fn cost_of(weighed: &Weighed, set: &[usize]) -> u64 {
    weigh(weighed.weights.as_slice(), set)
}

/// What the columns weigh by these weights.
fn weigh(weights: &[u32], set: &[usize]) -> u64 {
    let mut cost: u64 = 0;
    for column in set {
        if let Some(weight) = weights.get(*column) {
            cost = cost.saturating_add(u64::from(*weight));
        }
    }
    cost
}
