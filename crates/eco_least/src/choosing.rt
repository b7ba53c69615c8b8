//! Choosing a base of little cost.

ghost use Rattle.std.specs.Prelude.{◌≡◌, IfOk, IfErr, IfSome};
ghost use Rattle.eco_pose.specs.Stuck.{IsUnfinished, NoneCompared};
ghost use Rattle.eco_base.specs.Chosen.{IsBaseOf, IsChosen};
ghost use Rattle.eco_base.specs.Targets.{TargetValue, paid_of};
ghost use Rattle.eco_least.specs.Least.{IsLeastCost};
ghost use Rattle.eco_least.specs.Rows.{IsAccount};
ghost use Rattle.eco_least.specs.Weighed.{AreWeighed, IsBase, IsLeast};

use crate::account::{Account, open};
use crate::bounding::floor_of;
use crate::improving::{Left, improved, light_base, short_base};
use crate::lists::next_set;
use crate::walks::{cost_of, walk_last};
use crate::weighed::{Weighed, weigh};
use bumpalo::Bump;
use eco_base::{Chosen, Plan, Target};
use eco_meaning::OutOfMemory;
use eco_pose::Unfinished;
use eco_trace::Refuter;

/// How many questions the greedy choice may take for each one of the effort.
const STEPS: u64 = 100;

/// How many signals all questions of the greedy choice may be about before lists are tried, and how many questions there are at
/// least.
const SIGNALS: u64 = 400_000;

const FIRST_STEPS: u64 = 32;

/// A base of a target, and what any costs at least.
#[derive(Drop)]
pub struct Cheap<'t> {
    pub chosen: Chosen<'t>,
    pub least: u64,
}

/// A base of the target beside the signals that are paid, and what any base costs at least.
///
/// The greedy choice comes first, where it takes at most 100 questions for each one of the effort, and fewer where there are many
/// signals. Where it takes more, a list of as few signals as tell all known inputs apart is asked for, by at most 64 questions, and
/// if none suffices light ones. Then lists that cost less than the base that is known are tried, light ones first; where no known
/// inputs show that such a list doesn't suffice, one of at most `effort` questions tells whether it does. It has its turns last in
/// a further walk, whose base is taken where it costs less, and whose inputs are known from then on. What any base costs at least
/// is searched for with at most 1,000 nodes for each question of the effort, and at most 4,000. Fails where the search gives up on
/// a question without which there is no base, or for want of memory.
pub fn light<'t, R: Refuter>(
    target: &mut Target<'_, R>,
    effort: u32,
    arena: &'t Bump,
) -> Result<Cheap<'t>, Unfinished>
    ensures base { IfOk result (λ cheap. IsBaseOf target.old.problem target.old.number target.old.patches (paid_of target.old) cheap.chosen) }
    ensures least { IfOk result (λ cheap. IsLeastCost target.old.problem target.old.number target.old.patches (paid_of target.old) cheap.least) }
    ensures unfinished { IfErr result (IsUnfinished target.old.problem NoneCompared target.old.limit) }
    ensures stays { target.new ≡ target.old }
{
    let weighed = weigh(target)?;
    let mut account = open(weighed.alloc);
    let cheap = match base_at(&weighed, target, &mut account, effort, arena) {
        Ok(chosen) => with_least(&weighed, target, &mut account, chosen, effort),
        Err(unfinished) => Err(unfinished),
    };
    drop(account);
    drop(weighed);
    cheap
}

/// The greedy choice, where it takes at most 100 questions for each one of the effort, and what any base costs at least; `None`
/// where it takes more.
pub fn within<'t, R: Refuter>(
    target: &mut Target<'_, R>,
    effort: u32,
    arena: &'t Bump,
) -> Result<Option<Cheap<'t>>, Unfinished>
    ensures base { IfOk result (λ found. IfSome found (λ cheap. IsChosen target.old.problem target.old.number target.old.patches
        (paid_of target.old) cheap.chosen)) }
    ensures least { IfOk result (λ found. IfSome found (λ cheap. IsLeastCost target.old.problem target.old.number target.old.patches
        (paid_of target.old) cheap.least)) }
    ensures unfinished { IfErr result (IsUnfinished target.old.problem NoneCompared target.old.limit) }
    ensures stays { target.new ≡ target.old }
{
    let weighed = weigh(target)?;
    let mut account = open(weighed.alloc);
    let most = u64::from(effort).saturating_mul(STEPS);
    let plan = Plan { last: &[], most };
    let found = match walk_last(&weighed, target, &mut account, plan, arena) {
        Ok(Some(chosen)) => match with_least(&weighed, target, &mut account, chosen, effort) {
            Ok(cheap) => Ok(Some(cheap)),
            Err(unfinished) => Err(unfinished),
        },
        Ok(None) => Ok(None),
        Err(unfinished) => Err(unfinished),
    };
    drop(account);
    drop(weighed);
    found
}

/// The base, with what any costs at least.
fn with_least<'t, R: Refuter>(
    weighed: &Weighed,
    target: &Target<'_, R>,
    account: &mut Account,
    chosen: Chosen<'t>,
    effort: u32,
) -> Result<Cheap<'t>, Unfinished>
    requires weighed { AreWeighed target.now weighed.now }
    requires account { IsAccount target.now weighed.now account.old }
    requires base { IsBase target.now chosen }
    ensures base { IfOk result (λ cheap. cheap.chosen ≡ chosen.entry) }
    ensures least { IfOk result (λ cheap. IsLeast target.now cheap.least) }
    ensures unfinished { IfErr result (IsUnfinished target.now.problem NoneCompared target.now.limit) }
{
    let cost = cost_of(target, &chosen);
    match least_of(weighed, target, account, cost, effort) {
        Ok(least) => Ok(Cheap { chosen, least }),
        Err(error) => {
            drop(chosen);
            Err(Unfinished::from(error))
        }
    }
}

/// What any base costs at least, where one has this cost.
fn least_of<R: Refuter>(
    weighed: &Weighed,
    target: &Target<'_, R>,
    account: &mut Account,
    cost: u64,
    effort: u32,
) -> Result<u64, OutOfMemory>
    requires weighed { AreWeighed target.now weighed.now }
    requires account { IsAccount target.now weighed.now account.old }
    ensures { IfOk result (IsLeast target.now) }
{
    let _ = next_set(weighed, target, account, weighed.weights.as_slice())?;
    bound_of(weighed, account, cost, effort)
}

/// What any base costs at least by the rows of the account.
fn bound_of(
    weighed: &Weighed,
    account: &Account,
    cost: u64,
    effort: u32,
) -> Result<u64, OutOfMemory>
    ensures { (t : TargetValue) → AreWeighed t weighed.now → IsAccount t weighed.now account.now → IfOk result (IsLeast t) }
{
    let (rows, weights) = (account.rows.as_slice(), weighed.weights.as_slice());
    let least = floor_of(weighed.alloc, rows, weights, cost, effort)?;
    Ok(least)
}

/// The base of the target.
fn base_at<'t, R: Refuter>(
    weighed: &Weighed,
    target: &mut Target<'_, R>,
    account: &mut Account,
    effort: u32,
    arena: &'t Bump,
) -> Result<Chosen<'t>, Unfinished>
    requires weighed { AreWeighed target.old weighed.now }
    requires account { IsAccount target.old weighed.now account.old }
    ensures base { IfOk result (IsBase target.old) }
    ensures account { IfOk result (λ _. IsAccount target.old weighed.now account.new) }
    ensures unfinished { IfErr result (IsUnfinished target.old.problem NoneCompared target.old.limit) }
    ensures stays { target.new ≡ target.old }
{
    let steps = first_steps(weighed, effort);
    let mut left = Left::of(effort, steps);
    let base = first_base(weighed, target, account, steps, &mut left, arena)?;
    Ok(improved(weighed, target, account, base, &mut left, arena)?)
}

/// A base from which cheaper ones are looked for: the greedy choice, if it takes at most so many questions.
fn first_base<'t, R: Refuter>(
    weighed: &Weighed,
    target: &mut Target<'_, R>,
    account: &mut Account,
    steps: u64,
    left: &mut Left,
    arena: &'t Bump,
) -> Result<Chosen<'t>, Unfinished>
    requires weighed { AreWeighed target.old weighed.now }
    requires account { IsAccount target.old weighed.now account.old }
    ensures base { IfOk result (IsBase target.old) }
    ensures account { IfOk result (λ _. IsAccount target.old weighed.now account.new) }
    ensures unfinished { IfErr result (IsUnfinished target.old.problem NoneCompared target.old.limit) }
    ensures stays { target.new ≡ target.old }
{
    let plan = Plan {
        last: &[],
        most: steps,
    };
    match walk_last(weighed, target, account, plan, arena) {
        Ok(Some(greedy)) => Ok(greedy),
        Ok(None) => without_greedy(weighed, target, account, left, arena),
        Err(Unfinished::OutOfMemory) => Err(Unfinished::OutOfMemory),
        Err(unfinished) => instead(weighed, target, account, unfinished, left, arena),
    }
}

/// How many questions the greedy choice may take before lists are tried: the fewer, the more signals there are.
fn first_steps(weighed: &Weighed, effort: u32) -> u64 {
    let signals = (weighed.turns.len() as u64).saturating_add(1);
    let few = match SIGNALS.checked_div(signals) {
        None => FIRST_STEPS,
        Some(steps) => steps.max(FIRST_STEPS),
    };
    few.min(u64::from(effort).saturating_mul(STEPS))
}

/// A base that is found without the greedy choice, or the greedy choice with as many questions as it takes.
fn without_greedy<'t, R: Refuter>(
    weighed: &Weighed,
    target: &mut Target<'_, R>,
    account: &mut Account,
    left: &mut Left,
    arena: &'t Bump,
) -> Result<Chosen<'t>, Unfinished>
    requires weighed { AreWeighed target.old weighed.now }
    requires account { IsAccount target.old weighed.now account.old }
    ensures base { IfOk result (IsBase target.old) }
    ensures account { IfOk result (λ _. IsAccount target.old weighed.now account.new) }
    ensures unfinished { IfErr result (IsUnfinished target.old.problem NoneCompared target.old.limit) }
    ensures stays { target.new ≡ target.old }
{
    match listed_base(weighed, target, account, left, arena)? {
        Some(chosen) => Ok(chosen),
        None => greedy_at(target, arena),
    }
}

/// A base that is found without the greedy choice, by lists of few signals or of light ones; `None` where none is found.
fn listed_base<'t, R: Refuter>(
    weighed: &Weighed,
    target: &mut Target<'_, R>,
    account: &mut Account,
    left: &mut Left,
    arena: &'t Bump,
) -> Result<Option<Chosen<'t>>, OutOfMemory>
    requires weighed { AreWeighed target.old weighed.now }
    requires account { IsAccount target.old weighed.now account.old }
    ensures base { IfOk result (λ found. IfSome found (IsBase target.old)) }
    ensures account { IfOk result (λ _. IsAccount target.old weighed.now account.new) }
    ensures stays { target.new ≡ target.old }
{
    match short_base(weighed, target, account, left, arena)? {
        Some(chosen) => {
            left.end_walks();
            Ok(Some(chosen))
        }
        None => light_base(weighed, target, account, left, arena),
    }
}

/// The greedy choice, with as many questions as it takes.
fn greedy_at<'t, R: Refuter>(
    target: &mut Target<'_, R>,
    arena: &'t Bump,
) -> Result<Chosen<'t>, Unfinished>
    ensures base { IfOk result (IsBase target.old) }
    ensures unfinished { IfErr result (IsUnfinished target.old.problem NoneCompared target.old.limit) }
    ensures stays { target.new ≡ target.old }
{
    target.choose(arena)
}

/// A base that is found without the greedy choice, which isn't known for this reason.
fn instead<'t, R: Refuter>(
    weighed: &Weighed,
    target: &mut Target<'_, R>,
    account: &mut Account,
    unfinished: Unfinished,
    left: &mut Left,
    arena: &'t Bump,
) -> Result<Chosen<'t>, Unfinished>
    requires weighed { AreWeighed target.old weighed.now }
    requires account { IsAccount target.old weighed.now account.old }
    requires unfinished { IsUnfinished target.old.problem NoneCompared target.old.limit unfinished }
    ensures base { IfOk result (IsBase target.old) }
    ensures account { IfOk result (λ _. IsAccount target.old weighed.now account.new) }
    ensures unfinished { IfErr result (IsUnfinished target.old.problem NoneCompared target.old.limit) }
    ensures stays { target.new ≡ target.old }
{
    match listed_base(weighed, target, account, left, arena) {
        Ok(Some(chosen)) => {
            drop(unfinished);
            Ok(chosen)
        }
        Ok(None) => Err(unfinished),
        Err(error) => {
            drop(unfinished);
            Err(Unfinished::from(error))
        }
    }
}
