//! Bases that cost less than one that is known.

ghost use Rattle.std.specs.Prelude.{◌≡◌, IfOk, IfSome};
ghost use Rattle.eco_base.specs.Targets.{TargetValue};
ghost use Rattle.eco_least.specs.Improving.{IsLook};
ghost use Rattle.eco_least.specs.Rows.{IsAccount, IsPart};
ghost use Rattle.eco_least.specs.Weighed.{IsBase, AreWeighed};

use crate::account::Account;
use crate::lists::{light_list, short_list};
use crate::walks::{cost_of, walk_last};
use crate::weighed::Weighed;
use bumpalo::Bump;
use eco_base::{Chosen, Plan, Target};
use eco_meaning::OutOfMemory;
use eco_netlist::NetId;
use eco_pose::Unfinished;
use eco_trace::Refuter;

/// How many questions all short walks by lists may take at most.
const MOST_STEPS: u64 = 100;

/// How many questions a short walk may take more than one by a list that suffices takes.
const MORE_STEPS: u64 = 4;

/// How many lists are walked by at most.
const WALKS: u32 = 64;

/// How many questions there are at most for a list of few signals.
const SHORT_LISTS: u32 = 64;

/// What may still be spent.
#[derive(Clone, Copy)]
pub(crate) struct Left {
    /// How many questions for lists.
    questions: u32,
    /// How many questions in short walks.
    steps: u64,
    /// How many questions in a long one, once the short ones are spent.
    full: u64,
}

impl Left {
    /// What may be spent with this effort, where the greedy choice may take so many questions.
    pub(crate) fn of(effort: u32, steps: u64) -> Left {
        Left {
            questions: effort,
            steps: steps.min(MOST_STEPS),
            full: steps,
        }
    }

    /// From now on walks may only take the questions that a list which suffices takes.
    pub(crate) fn end_walks(&mut self) {
        self.steps = 0;
        self.full = 0;
    }

    /// How many questions a walk by a list of so many signals may take.
    fn steps_for(&self, signals: usize) -> u64 {
        let enough = (signals as u64).saturating_add(2);
        if self.steps == 0 {
            self.full.max(enough)
        } else {
            enough.saturating_add(MORE_STEPS)
        }
    }

    /// A walk took so many questions.
    fn spend(&mut self, steps: u64) {
        if self.steps == 0 {
            self.full = 0;
        }
        self.steps = self.steps.saturating_sub(steps);
    }

    /// What there is after a walk that found no cheaper base, while so many inputs became known.
    fn after<'t>(&self, joined: usize) -> Look<'t>
        ensures { (t : TargetValue) → IsLook t result }
    {
        if joined == 0 || self.full == 0 {
            Look::Ended
        } else {
            Look::Further
        }
    }
}

/// What is found by one list.
#[derive(Drop)]
enum Look<'t> {
    /// A base that costs less.
    Cheaper(Chosen<'t>),
    /// No such base, but more inputs are known.
    Further,
    /// No such base, and nothing is left that would find one.
    Ended,
}

/// A base, and whether one that costs less may still be found.
#[derive(Drop)]
struct Better<'t> {
    chosen: Chosen<'t>,
    more: bool,
}

/// The base, or one that costs less.
pub(crate) fn improved<'t, R: Refuter>(
    weighed: &Weighed,
    target: &mut Target<'_, R>,
    account: &mut Account,
    base: Chosen<'t>,
    left: &mut Left,
    arena: &'t Bump,
) -> Result<Chosen<'t>, OutOfMemory>
    requires weighed { AreWeighed target.old weighed.now }
    requires account { IsAccount target.old weighed.now account.old }
    requires base { IsBase target.old base }
    ensures base { IfOk result (IsBase target.old) }
    ensures account { IfOk result (λ _. IsAccount target.old weighed.now account.new) }
    ensures stays { target.new ≡ target.old }
{
    let mut best = base;
    for _ in 0..WALKS {
        let better = improved_once(weighed, target, account, best, left, arena)?;
        best = better.chosen;
        if !better.more {
            return Ok(best);
        }
    }
    Ok(best)
}

/// The base, or one that costs less, by one list.
fn improved_once<'t, R: Refuter>(
    weighed: &Weighed,
    target: &mut Target<'_, R>,
    account: &mut Account,
    base: Chosen<'t>,
    left: &mut Left,
    arena: &'t Bump,
) -> Result<Better<'t>, OutOfMemory>
    requires weighed { AreWeighed target.old weighed.now }
    requires account { IsAccount target.old weighed.now account.old }
    requires base { IsBase target.old base }
    ensures base { IfOk result (λ better. IsBase target.old better.chosen) }
    ensures account { IfOk result (λ _. IsAccount target.old weighed.now account.new) }
    ensures stays { target.new ≡ target.old }
{
    let cost = cost_of(target, &base);
    match try_next(weighed, target, account, cost, left, arena) {
        Ok(Look::Cheaper(chosen)) => {
            drop(base);
            Ok(Better { chosen, more: true })
        }
        Ok(Look::Further) => Ok(Better {
            chosen: base,
            more: true,
        }),
        Ok(Look::Ended) => Ok(Better {
            chosen: base,
            more: false,
        }),
        Err(error) => {
            drop(base);
            Err(error)
        }
    }
}

/// A base by lists of light signals, where none is known; `None` where none is found.
pub(crate) fn light_base<'t, R: Refuter>(
    weighed: &Weighed,
    target: &mut Target<'_, R>,
    account: &mut Account,
    left: &mut Left,
    arena: &'t Bump,
) -> Result<Option<Chosen<'t>>, OutOfMemory>
    requires weighed { AreWeighed target.old weighed.now }
    requires account { IsAccount target.old weighed.now account.old }
    ensures base { IfOk result (λ found. IfSome found (IsBase target.old)) }
    ensures account { IfOk result (λ _. IsAccount target.old weighed.now account.new) }
    ensures stays { target.new ≡ target.old }
{
    for _ in 0..WALKS {
        match try_next(weighed, target, account, u64::MAX, left, arena)? {
            Look::Cheaper(chosen) => return Ok(Some(chosen)),
            Look::Further => {}
            Look::Ended => return Ok(None),
        }
    }
    Ok(None)
}

/// A base within a list of few signals; `None` where none is found.
pub(crate) fn short_base<'t, R: Refuter>(
    weighed: &Weighed,
    target: &mut Target<'_, R>,
    account: &mut Account,
    left: &mut Left,
    arena: &'t Bump,
) -> Result<Option<Chosen<'t>>, OutOfMemory>
    requires weighed { AreWeighed target.old weighed.now }
    requires account { IsAccount target.old weighed.now account.old }
    ensures base { IfOk result (λ found. IfSome found (IsBase target.old)) }
    ensures account { IfOk result (λ _. IsAccount target.old weighed.now account.new) }
    ensures stays { target.new ≡ target.old }
{
    match short_list(weighed, target, account, SHORT_LISTS)? {
        None => Ok(None),
        Some(list) => within(weighed, target, account, list.as_slice(), left, arena),
    }
}

/// The base where the list, which suffices, has its turns last, if it is found.
fn within<'t, R: Refuter>(
    weighed: &Weighed,
    target: &mut Target<'_, R>,
    account: &mut Account,
    list: &[NetId],
    left: &mut Left,
    arena: &'t Bump,
) -> Result<Option<Chosen<'t>>, OutOfMemory>
    requires weighed { AreWeighed target.old weighed.now }
    requires account { IsAccount target.old weighed.now account.old }
    requires list { IsPart target.old weighed.now list.now }
    ensures base { IfOk result (λ found. IfSome found (IsBase target.old)) }
    ensures account { IfOk result (λ _. IsAccount target.old weighed.now account.new) }
    ensures stays { target.new ≡ target.old }
{
    match try_list_at(weighed, target, account, u64::MAX, list, left, arena)? {
        Look::Cheaper(chosen) => Ok(Some(chosen)),
        Look::Further | Look::Ended => Ok(None),
    }
}

/// A base that costs less than this, by a list that does.
fn try_next<'t, R: Refuter>(
    weighed: &Weighed,
    target: &mut Target<'_, R>,
    account: &mut Account,
    below: u64,
    left: &mut Left,
    arena: &'t Bump,
) -> Result<Look<'t>, OutOfMemory>
    requires weighed { AreWeighed target.old weighed.now }
    requires account { IsAccount target.old weighed.now account.old }
    ensures look { IfOk result (IsLook target.old) }
    ensures account { IfOk result (λ _. IsAccount target.old weighed.now account.new) }
    ensures stays { target.new ≡ target.old }
{
    match light_list(weighed, target, account, below, &mut left.questions)? {
        None => Ok(Look::Ended),
        Some(list) => try_list_at(
            weighed,
            target,
            account,
            below,
            list.as_slice(),
            left,
            arena,
        ),
    }
}

/// The base where these turns come last, if it costs less than this and is found.
fn try_list_at<'t, R: Refuter>(
    weighed: &Weighed,
    target: &mut Target<'_, R>,
    account: &mut Account,
    below: u64,
    list: &[NetId],
    left: &mut Left,
    arena: &'t Bump,
) -> Result<Look<'t>, OutOfMemory>
    requires weighed { AreWeighed target.old weighed.now }
    requires account { IsAccount target.old weighed.now account.old }
    requires list { IsPart target.old weighed.now list.now }
    ensures look { IfOk result (IsLook target.old) }
    ensures account { IfOk result (λ _. IsAccount target.old weighed.now account.new) }
    ensures stays { target.new ≡ target.old }
{
    let known = account.known.ones.len();
    let most = left.steps_for(list.len());
    match walk_last(weighed, target, account, Plan { last: list, most }, arena) {
        Ok(None) => {
            left.spend(most);
            Ok(left.after(joined_since(account, known)))
        }
        Ok(Some(chosen)) => {
            let joined = joined_since(account, known);
            Ok(settled(target, chosen, below, joined, left))
        }
        Err(Unfinished::OutOfMemory) => Err(OutOfMemory),
        Err(unfinished) => {
            drop(unfinished);
            Ok(Look::Ended)
        }
    }
}

/// How many inputs became known since there were so many.
fn joined_since(account: &Account, known: usize) -> usize {
    account.known.ones.len().saturating_sub(known)
}

/// What the walk found that gave this base, while so many inputs became known.
fn settled<'t, R: Refuter>(
    target: &Target<'_, R>,
    chosen: Chosen<'t>,
    below: u64,
    joined: usize,
    left: &mut Left,
) -> Look<'t>
    requires { IsBase target.now chosen }
    ensures { IsLook target.now result }
{
    left.spend(joined.saturating_add(chosen.new.len()) as u64);
    if cost_of(target, &chosen) < below {
        Look::Cheaper(chosen)
    } else {
        drop(chosen);
        left.after(joined)
    }
}
