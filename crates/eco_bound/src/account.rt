//! What is paid for parts.

ghost use Rattle.std.specs.Prelude.{◌≡◌, ◌+◌, ◌<◌, ◌^◌, IfOk, OnOk, All, length, map};
ghost use Rattle.eco_meaning.specs.Circuit.{names};
ghost use Rattle.eco_meaning.specs.Meaning.{IsRectifiable};
ghost use Rattle.eco_netlist.specs.Netlists.{AreNets};
ghost use Rattle.eco_bound.specs.Accounts.{AreForcing, HasPart, IsAccount, IsSight, IsWeighted, ShowsSpent, full_payer, some_left};

use crate::payers::{Payer, Sight, least_left, lowered};
use eco_meaning::{Bits, OutOfMemory};
use eco_netlist::{NetId, Netlist};
use eco_query::Problem;
use eco_report::Part;
use std::alloc::Global;

/// The parts so far with the sum of their amounts, and what is left to the candidates.
#[derive(Drop)]
pub(crate) struct Account {
    pub(crate) total: u64,
    pub(crate) parts: Vec<Part>,
    pub(crate) payers: Vec<Payer>,
}

/// The account without a part.
pub(crate) fn open(alloc: Global, problem: &Problem) -> Result<Account, OutOfMemory>
    ensures { IfOk result (IsAccount problem.now) }
{
    // it has a target
    let _ = problem.implementation();
    let turns = problem.turns(0, &[])?;
    let payers = payers_of(alloc, problem, turns.as_slice())?;
    Ok(Account {
        total: 0,
        parts: Vec::new(alloc),
        payers,
    })
}

/// The candidates with these nets, to each of which all of its weight is left.
fn payers_of(alloc: Global, problem: &Problem, turns: &[NetId]) -> Result<Vec<Payer>, OutOfMemory>
    requires nets { AreNets (names problem.now.implementation) turns.now }
    requires weighted { All (IsWeighted problem.now) turns.now }
    ensures { IfOk result (λ payers. payers.items ≡ map (full_payer problem.now) turns.now) }
{
    let mut payers = Vec::with_capacity(alloc, turns.len())?;
    for net in turns {
        payers.push(payer_of(problem, *net))?;
    }
    Ok(payers)
}

/// The candidate with this net.
fn payer_of(problem: &Problem, net: NetId) -> Payer
    requires net { net.0 < length (names problem.now.implementation) }
    requires weighted { IsWeighted problem.now net }
    ensures { result ≡ full_payer problem.now net }
{
    match problem.weight(net) {
        Some(left) => Payer { net, left },
        None => unreachable!(),
    }
}

/// Pays for telling the two inputs apart as much as is left at least to the candidates that do so; nothing where that is
/// nothing, or where no candidate does.
pub(crate) fn pay(
    account: &mut Account,
    problem: &Problem,
    one: &Bits,
    zero: &Bits,
) -> Result<(), OutOfMemory>
    requires account { IsAccount problem.now account.old }
    requires rectifiable { IsRectifiable problem.now.implementation problem.now.goal }
    requires forcing { AreForcing problem.now one.now zero.now }
    ensures account { OnOk result (IsAccount problem.now account.new) }
    ensures less { OnOk result (ShowsSpent problem.now account.old.payers.items one.now zero.now →
        some_left account.new.payers.items < some_left account.old.payers.items) }
{
    let sight = sight_of(problem.implementation(), one, zero)?;
    let paid = pay_seen(account, problem, &sight, one, zero);
    drop(sight);
    paid
}

/// The values of all nets at the two inputs.
fn sight_of(f: &Netlist, one: &Bits, zero: &Bits) -> Result<Sight, OutOfMemory>
    requires one { length one.now ≡ length f.now.inputs }
    requires zero { length zero.now ≡ length f.now.inputs }
    ensures { IfOk result (IsSight f.now one.now zero.now) }
{
    let ones = f.values_at(one.as_slice())?;
    let zeros = f.values_at(zero.as_slice())?;
    Ok(Sight { ones, zeros })
}

/// Pays for telling the two inputs apart, at which the nets have these values.
fn pay_seen(
    account: &mut Account,
    problem: &Problem,
    sight: &Sight,
    one: &Bits,
    zero: &Bits,
) -> Result<(), OutOfMemory>
    requires account { IsAccount problem.now account.old }
    requires rectifiable { IsRectifiable problem.now.implementation problem.now.goal }
    requires forcing { AreForcing problem.now one.now zero.now }
    requires sight { IsSight problem.now.implementation one.now zero.now sight.now }
    ensures account { OnOk result (IsAccount problem.now account.new) }
    ensures less { OnOk result (ShowsSpent problem.now account.old.payers.items one.now zero.now →
        some_left account.new.payers.items < some_left account.old.payers.items) }
{
    // it is checked, and has few nets
    let _ = problem.implementation().nets();
    let amount = least_left(account.payers.as_slice(), sight).unwrap_or(0);
    if amount == 0 {
        return Ok(());
    }
    add_part(account, sight, amount, one, zero)
}

/// One part more.
fn add_part(
    account: &mut Account,
    sight: &Sight,
    amount: u32,
    one: &Bits,
    zero: &Bits,
) -> Result<(), OutOfMemory>
    requires room { account.old.total + amount < 2 ^ 64 }
    ensures { OnOk result (HasPart sight.now (record { amount = amount; force1 = one.now; force0 = zero.now }) account.old account.new) }
{
    let alloc = *account.parts.allocator();
    account.parts.push(part_of(amount, one, zero)?)?;
    account.payers = lowered(alloc, account.payers.as_slice(), sight, amount)?;
    account.total += u64::from(amount);
    Ok(())
}

/// A part of this amount.
fn part_of(amount: u32, one: &Bits, zero: &Bits) -> Result<Part, OutOfMemory>
    ensures { IfOk result (λ part. part ≡ record { amount = amount; force1 = one.now; force0 = zero.now }) }
{
    let force1 = one.copy()?;
    let force0 = zero.copy()?;
    Ok(Part {
        amount,
        force1,
        force0,
    })
}
