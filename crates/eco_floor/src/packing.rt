//! Packings: amounts that rows take from what is left of the weights of their columns. The sum of all that was taken is at
//! most the weight of each set that agrees with the decisions.

ghost use Rattle.std.specs.Prelude.{◌≡◌, ◌≤◌, ◌+◌, ◌∷◌, [], ◌++◌, ℕ, List, Option, None, Some, IfOk, IsTrue, MatchOption, option_map, map};
ghost use Rattle.eco_floor.specs.Search.{AreAbove, ChangesAt, IsAtMost, IsDecided, IsLeast, IsLowered, IsPacked, IsRowPacked, less_by, rest_at};
ghost use Rattle.eco_floor.specs.declared.decision.Decision.{Decision as Choice};

use crate::decision::Decision;
use crate::hints::Share;
use crate::row::Row;
use eco_meaning::OutOfMemory;
use std::alloc::Global;

/// What is left of the weights before anything is taken.
pub(crate) fn whole(alloc: Global, weights: &[u32]) -> Result<Vec<Option<u32>>, OutOfMemory>
    ensures { IfOk result (λ slack. slack.items ≡ map Some weights.now) }
{
    let mut slack = Vec::with_capacity(alloc, weights.len())?;
    for weight in weights {
        slack.push(Some(*weight))?;
    }
    Ok(slack)
}

/// What is left of the column; none where it is left out.
pub(crate) fn rest(slack: &[Option<u32>], column: usize) -> Option<u32>
    ensures { result ≡ rest_at slack.now column }
{
    match slack.get(column) {
        None => None,
        Some(rest) => *rest,
    }
}

/// Takes the amount from the column, or all that is left.
fn lower_at(slack: &mut Vec<Option<u32>>, column: usize, amount: u32)
    ensures { ChangesAt slack.old.items slack.new.items column (less_by amount (rest_at slack.old.items column)) }
{
    match rest(slack.as_slice(), column) {
        None => {}
        Some(left) => slack[column] = Some(left.saturating_sub(amount)),
    }
}

/// Leaves the column out.
fn leave(slack: &mut Vec<Option<u32>>, column: usize)
    ensures { ChangesAt slack.old.items slack.new.items column None }
{
    if column < slack.len() {
        slack[column] = None;
    }
}

/// Takes the amount from each column of the row.
fn lower(slack: &mut Vec<Option<u32>>, row: &Row, amount: u32)
    requires { IsLeast slack.old.items row.now (Some amount) }
    ensures { IsLowered row.now slack.old.items slack.new.items amount }
{
    for column in row.columns() {
        lower_at(slack, *column, amount);
    }
}

/// The least that is left of a column of the row; none where all are left out.
fn least(slack: &[Option<u32>], row: &Row) -> Option<u32>
    ensures { IsLeast slack.now row.now result }
{
    let mut least = None;
    for column in row.columns() {
        least = lesser(least, rest(slack, *column));
    }
    least
}

/// The lesser one of two amounts, if there is any.
fn lesser(least: Option<u32>, rest: Option<u32>) -> Option<u32>
    ensures first { (bound : ℕ) → IsAtMost least bound → IsAtMost result bound }
    ensures second { (bound : ℕ) → rest ≡ Some bound → IsAtMost result bound }
{
    match least {
        None => rest,
        Some(amount) => match rest {
            None => Some(amount),
            Some(other) => Some(amount.min(other)),
        },
    }
}

/// Takes what the decision takes, and answers the amount: all that is left of a column that is taken.
fn decide(slack: &mut Vec<Option<u32>>, decision: Decision) -> u32
    ensures { IsDecided decision slack.old.items slack.new.items result }
{
    match decision {
        Decision::Taken(column) => take(slack, column),
        Decision::Left(column) => {
            leave(slack, column);
            0
        }
    }
}

/// Takes all that is left of the column, and answers how much that is.
fn take(slack: &mut Vec<Option<u32>>, column: usize) -> u32
    ensures { IsLowered (column ∷ []) slack.old.items slack.new.items result }
{
    match rest(slack.as_slice(), column) {
        None => 0,
        Some(amount) => {
            lower_at(slack, column, amount);
            amount
        }
    }
}

/// Takes what the decisions take, and answers the sum of the amounts.
pub(crate) fn decide_all(slack: &mut Vec<Option<u32>>, decisions: &[Decision]) -> u64
    ensures { (rows : List (List ℕ)) (weights : List ℕ) → IsPacked rows weights decisions.now slack.old.items 0
        → IsPacked rows weights decisions.now slack.new.items result }
{
    let mut sum: u64 = 0;
    for decision in decisions {
        sum = sum.saturating_add(u64::from(decide(slack, *decision)));
    }
    sum
}

/// Lets the row take the least that is left of its columns, or the cap if that is less, and answers the sum with this
/// amount; none where all its columns are left out.
fn pack(slack: &mut Vec<Option<u32>>, row: &Row, cap: u32, sum: u64) -> Option<u64>
    ensures { IsRowPacked row.now slack.old.items slack.new.items sum result }
{
    match least(slack.as_slice(), row) {
        None => None,
        Some(amount) => {
            let capped = amount.min(cap);
            lower(slack, row, capped);
            Some(sum.saturating_add(u64::from(capped)))
        }
    }
}

/// Whether the packing of the rows by this plan reaches the best, or no set that agrees with the decisions hits one of them.
pub(crate) fn is_above(
    slack: &mut Vec<Option<u32>>,
    rows: &[Row],
    plan: &[Share],
    start: u64,
    best: u64,
) -> bool
    ensures { IsTrue result → (weights : List ℕ) (decisions : List Choice)
        → IsPacked rows.now weights decisions slack.old.items start → AreAbove rows.now weights best decisions }
{
    let mut sum = start;
    for share in plan {
        if sum >= best {
            return true;
        }
        let Some(row) = rows.get(share.row) else {
            return false;
        };
        match pack(slack, row, share.cap, sum) {
            None => return true,
            Some(more) => sum = more,
        }
    }
    sum >= best
}
