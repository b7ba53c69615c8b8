//! Questions whether lists of turns suffice.

ghost use Rattle.std.specs.Prelude.{◌≡◌, ◌++◌, List, IfOk, IfSome};
ghost use Rattle.eco_gates.specs.declared.gate.NetId.{NetId};
ghost use Rattle.eco_base.specs.Targets.{TargetValue};
ghost use Rattle.eco_least.specs.declared.weighed.Weighed.{Weighed as WeighedOf};
ghost use Rattle.eco_least.specs.Rows.{IsAccount, IsConflictOf, IsPart};
ghost use Rattle.eco_least.specs.Weighed.{AreWeighed};

use crate::account::{Account, is_full};
use crate::weighed::Weighed;
use eco_base::{Pair, Target};
use eco_meaning::OutOfMemory;
use eco_netlist::NetId;
use eco_pose::Unfinished;
use eco_trace::Refuter;
use std::alloc::Global;

/// What is found of a list of turns.
#[derive(Clone, Copy)]
pub(crate) enum Tried {
    /// It suffices beside the paid signals.
    Suffices,
    /// Two more inputs are known: it doesn't.
    Learned,
    /// The search gave up, or no more rows are listed.
    Open,
}

/// Asks whether the turns suffice beside the paid signals. Where they don't, two inputs that show this are known.
pub(crate) fn try_list<R: Refuter>(
    weighed: &Weighed,
    target: &mut Target<'_, R>,
    account: &mut Account,
    list: &[NetId],
) -> Result<Tried, OutOfMemory>
    requires weighed { AreWeighed target.old weighed.now }
    requires account { IsAccount target.old weighed.now account.old }
    requires list { IsPart target.old weighed.now list.now }
    ensures account { IfOk result (λ _. IsAccount target.old weighed.now account.new) }
    ensures stays { target.new ≡ target.old }
{
    let base = base_of(weighed.alloc, target.paid(), list)?;
    match target.conflict(base.as_slice()) {
        Ok(found) => settle(account, found),
        Err(Unfinished::GivenUp(stuck)) => {
            drop(stuck);
            Ok(Tried::Open)
        }
        Err(Unfinished::OutOfMemory) => Err(OutOfMemory),
    }
}

/// The paid signals, and behind them the list.
fn base_of(alloc: Global, paid: &[NetId], list: &[NetId]) -> Result<Vec<NetId>, OutOfMemory>
    ensures { IfOk result (λ base. base.items ≡ paid.now ++ list.now) }
{
    let mut base = Vec::from_slice(alloc, paid)?;
    base.extend_from_slice(list)?;
    Ok(base)
}

/// What is found of a list; two inputs that show that it doesn't suffice are known from now on.
fn settle(account: &mut Account, found: Option<Pair>) -> Result<Tried, OutOfMemory>
    ensures { (t : TargetValue) (weighed : WeighedOf) (list : List NetId) → IsAccount t weighed account.old → IfSome found (IsConflictOf t list) → IfOk result (λ _. IsAccount t weighed account.new) }
{
    match found {
        None => Ok(Tried::Suffices),
        Some(pair) => learn(account, pair),
    }
}

/// Puts the two inputs behind those that are known.
fn learn(account: &mut Account, pair: Pair) -> Result<Tried, OutOfMemory>
    ensures { (t : TargetValue) (weighed : WeighedOf) (list : List NetId) → IsAccount t weighed account.old → IsConflictOf t list pair → IfOk result (λ _. IsAccount t weighed account.new) }
{
    let Pair { one, zero } = pair;
    account.known.ones.push(one)?;
    account.known.zeros.push(zero)?;
    Ok(if is_full(account) {
        Tried::Open
    } else {
        Tried::Learned
    })
}
