//! One part after the other, until the candidates that have nothing left suffice.

ghost use Rattle.std.specs.Prelude.{◌≡◌, IfOk, IfErr, OnOk};
ghost use Rattle.eco_pose.specs.Stuck.{IsUnfinished, NoneCompared};
ghost use Rattle.eco_base.specs.Conflicts.{IsConflictFound};
ghost use Rattle.eco_bound.specs.Accounts.{IsAccount, spent_names};
ghost use Rattle.eco_bound.specs.Lower.{IsFirst, IsRaised, SpentSuffice};

use crate::account::{Account, pay};
use crate::payers::spent;
use eco_base::{Pair, Target};
use eco_pose::Unfinished;
use eco_trace::Refuter;

/// Adds parts until the candidates that have nothing left suffice.
pub(crate) fn raise<R: Refuter>(
    target: &mut Target<'_, R>,
    account: &mut Account,
) -> Result<(), Unfinished>
    requires first { IsFirst target.old }
    requires account { IsAccount target.old.problem account.old }
    ensures account { OnOk result (IsAccount target.old.problem account.new) }
    ensures full { OnOk result (SpentSuffice target.old.problem target.old.patches account.new.payers.items) }
    ensures unfinished { IfErr result (IsUnfinished target.old.problem NoneCompared target.old.limit) }
{
    'parts: loop {
        if !raise_once(target, account)? {
            return Ok(());
        }
    }
}

/// Adds a part, if the candidates that have nothing left don't suffice; whether it did.
fn raise_once<R: Refuter>(
    target: &mut Target<'_, R>,
    account: &mut Account,
) -> Result<bool, Unfinished>
    requires first { IsFirst target.old }
    requires account { IsAccount target.old.problem account.old }
    ensures account { OnOk result (IsAccount target.old.problem account.new) }
    ensures raised { IfOk result (IsRaised target.old.problem target.old.patches account.old.payers.items account.new.payers.items) }
    ensures unfinished { IfErr result (IsUnfinished target.old.problem NoneCompared target.old.limit) }
    ensures stays { target.new ≡ target.old }
{
    match spent_conflict(target, account)? {
        None => Ok(false),
        Some(pair) => {
            let paid = pay(account, target.problem(), &pair.one, &pair.zero);
            drop(pair);
            paid?;
            Ok(true)
        }
    }
}

/// Two inputs that show that the candidates which have nothing left don't suffice, or `None` where they do.
fn spent_conflict<R: Refuter>(
    target: &mut Target<'_, R>,
    account: &Account,
) -> Result<Option<Pair>, Unfinished>
    requires first { IsFirst target.old }
    requires account { IsAccount target.old.problem account.now }
    ensures conflict { IfOk result (IsConflictFound target.old.problem 0 target.old.patches
        (spent_names target.old.problem.implementation account.now.payers.items)) }
    ensures unfinished { IfErr result (IsUnfinished target.old.problem NoneCompared target.old.limit) }
    ensures stays { target.new ≡ target.old }
{
    let nets = spent(target.engine.allocator(), account.payers.as_slice())?;
    target.conflict(nets.as_slice())
}
