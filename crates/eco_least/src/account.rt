//! What is known of a target.

ghost use Rattle.std.specs.Prelude.{◌≡◌, ◌++◌, Bool, All, IfOk, IfSome, OnOk, length};
ghost use Rattle.eco_base.specs.Targets.{TargetValue};
ghost use Rattle.eco_least.specs.Rows.{AreForcing, AreSeen, IsAccount, IsRow};
ghost use Rattle.eco_least.specs.Weighed.{AreWeighed};
ghost use Rattle.eco_least.specs.declared.weighed.Weighed.{Weighed as WeighedOf};

use crate::bounding::columns_of;
use crate::pool::Missed;
use crate::sights::{Sight, see, tell_apart};
use crate::weighed::Weighed;
use eco_base::{Known, Target};
use eco_floor::Row;
use eco_meaning::{Bits, OutOfMemory};
use eco_trace::Refuter;
use std::alloc::{AllocError, Global};

/// How many rows are listed at most, and from how many of their columns on no more.
const MOST_ROWS: usize = 2_000;

const MOST_COLUMNS: usize = 1_000_000;

/// Known inputs, the values of signals at them, and rows of turns that tell two of them apart.
#[derive(Drop)]
pub(crate) struct Account {
    pub(crate) known: Known,
    /// The values at inputs that force the target to 1, and at such that force it to 0.
    pub(crate) ones: Vec<Sight>,
    pub(crate) zeros: Vec<Sight>,
    pub(crate) rows: Vec<Row>,
}

/// The account in which nothing is known.
pub(crate) fn open(alloc: Global) -> Account
    ensures { (t : TargetValue) (weighed : WeighedOf) → IsAccount t weighed result }
{
    Account {
        known: Known::new(alloc),
        ones: Vec::new(alloc),
        zeros: Vec::new(alloc),
        rows: Vec::new(alloc),
    }
}

/// Sees the known inputs that weren't seen yet.
pub(crate) fn catch_up<R: Refuter>(
    weighed: &Weighed,
    target: &Target<'_, R>,
    account: &mut Account,
) -> Result<(), OutOfMemory>
    requires weighed { AreWeighed target.now weighed.now }
    requires account { IsAccount target.now weighed.now account.old }
    ensures { OnOk result (IsAccount target.now weighed.now account.new) }
{
    see_behind(
        weighed,
        target,
        account.known.ones.as_slice(),
        &mut account.ones,
    )?;
    see_behind(
        weighed,
        target,
        account.known.zeros.as_slice(),
        &mut account.zeros,
    )?;
    Ok(())
}

/// Sees those of the inputs that stand behind as many as were seen.
fn see_behind<R: Refuter>(
    weighed: &Weighed,
    target: &Target<'_, R>,
    inputs: &[Bits],
    sights: &mut Vec<Sight>,
) -> Result<(), OutOfMemory>
    requires weighed { AreWeighed target.now weighed.now }
    requires inputs { All (λ x. length x ≡ length target.now.problem.implementation.inputs) inputs.now }
    ensures { OnOk result ((bit : Bool) → AreForcing target.now bit inputs.now →
        AreSeen target.now weighed.now bit sights.old.items → AreSeen target.now weighed.now bit sights.new.items) }
{
    let (_, later) = inputs.split_at(sights.len().min(inputs.len()));
    let more = see(weighed, target, later)?;
    append(sights, more)?;
    Ok(())
}

/// Puts the values behind the others.
fn append(sights: &mut Vec<Sight>, more: Vec<Sight>) -> Result<(), AllocError>
    ensures { OnOk result (sights.new.items ≡ sights.old.items ++ more.items) }
{
    sights.extend(more)
}

/// Lists the rows of these pairs, as long as there are few. True where there is one more.
pub(crate) fn add_rows(
    weighed: &Weighed,
    account: &mut Account,
    missed: &[Missed],
) -> Result<bool, OutOfMemory>
    ensures { (t : TargetValue) → IsAccount t weighed.now account.old → IfOk result (λ _. IsAccount t weighed.now account.new) }
{
    let before = account.rows.len();
    for pair in missed {
        add_row(weighed, account, *pair)?;
    }
    Ok(account.rows.len() > before)
}

/// Whether no more rows are listed.
pub(crate) fn is_full(account: &Account) -> bool {
    account.rows.len() >= MOST_ROWS || columns_of(account.rows.as_slice()) >= MOST_COLUMNS
}

/// Lists the row of the pair, if there are few.
fn add_row(weighed: &Weighed, account: &mut Account, pair: Missed) -> Result<(), OutOfMemory>
    ensures { (t : TargetValue) → IsAccount t weighed.now account.old → OnOk result (IsAccount t weighed.now account.new) }
{
    if is_full(account) {
        return Ok(());
    }
    match row_of(weighed, account, pair)? {
        Some(row) => account.rows.push(row)?,
        None => {}
    }
    Ok(())
}

/// The row of the pair, if there is one.
fn row_of(weighed: &Weighed, account: &Account, pair: Missed) -> Result<Option<Row>, OutOfMemory>
    ensures { (t : TargetValue) → IsAccount t weighed.now account.now → IfOk result (λ row. IfSome row (IsRow t weighed.now)) }
{
    match (account.ones.get(pair.one), account.zeros.get(pair.zero)) {
        (Some(one), Some(zero)) => tell_apart(weighed.alloc, one, zero),
        _ => Ok(None),
    }
}
