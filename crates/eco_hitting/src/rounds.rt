//! Rounds that make a set lighter.

ghost use Rattle.std.specs.Prelude.{◌<◌, IfOk, All, length};

use crate::problem::{Problem, rows_of_columns, weigh};
use crate::repair::{repair, replace};
use crate::search::Search;
use eco_floor::Row;
use eco_meaning::OutOfMemory;
use eco_simulate::Congruence;
use std::alloc::Global;

/// How many passes a round has.
const PASSES: u32 = 16;

/// How many times a set that no pass makes lighter is shaken.
const SHAKES: u64 = 24;

/// A set of columns that has one of each row, as light as the rounds find one; of no use where a row is empty (that row is
/// passed over). `weights[column]` is the column's weight; columns beyond it are ignored. The set rises, without repeats.
///
/// It begins with the columns that hit most rows by weight. A pass replaces each column of the set by others that weigh less,
/// or each two columns that stand so far apart, where others hit their rows; a round is 16 passes, with distances that grow.
/// Where no pass makes it lighter, a part of the lightest set is replaced by other prices of rows, and the passes go on from
/// there, 24 times at most. Time: linear in the rows' columns a round, if the sets are short. Memory: linear in them.
pub fn hitting_set(
    alloc: Global,
    rows: &[Row],
    weights: &[u32],
    rounds: u32,
) -> Result<Vec<usize>, OutOfMemory>
    ensures within { IfOk result (λ set. All (λ column. column < length weights.now) set.items) }
{
    let lists = rows_of_columns(alloc, rows, weights.len())?;
    let problem = Problem {
        rows,
        weights,
        lists: lists.as_slice(),
    };
    let mut search = Search::new(alloc, &problem)?;
    let outcome = improve(alloc, &mut search, &problem, rounds.saturating_mul(PASSES));
    let set = listed(alloc, search.best.as_slice(), weights);
    drop(search);
    outcome?;
    set
}

/// The columns of the set, rising.
fn listed(alloc: Global, set: &[bool], weights: &[u32]) -> Result<Vec<usize>, OutOfMemory>
    ensures { IfOk result (λ columns. All (λ column. column < length weights.now) columns.items) }
{
    let mut columns = Vec::new(alloc);
    for column in 0..weights.len() {
        if has(set, column) {
            columns.push(column)?;
        }
    }
    Ok(columns)
}

/// Whether the set has the column.
fn has(set: &[bool], column: usize) -> bool {
    match set.get(column) {
        None => false,
        Some(is) => *is,
    }
}

/// Takes a first set, and makes it lighter by so many passes at most.
fn improve(
    alloc: Global,
    search: &mut Search,
    problem: &Problem,
    passes: u32,
) -> Result<(), OutOfMemory> {
    begin(alloc, search, problem)?;
    let mut left = descend(alloc, search, problem, passes)?;
    keep(alloc, search)?;
    for shakes in 0..SHAKES {
        if left == 0 {
            break;
        }
        left = start_anew(alloc, search, problem, shakes, left)?;
    }
    Ok(())
}

/// Takes a first set.
fn begin(alloc: Global, search: &mut Search, problem: &Problem) -> Result<(), OutOfMemory> {
    open_all(search, problem.rows.len())?;
    repair(search, problem, &[], None)?;
    search.thin(alloc, problem)
}

/// Shakes the lightest set, and makes that lighter by so many passes at most. Answers how many are left.
fn start_anew(
    alloc: Global,
    search: &mut Search,
    problem: &Problem,
    seed: u64,
    passes: u32,
) -> Result<u32, OutOfMemory> {
    shake(alloc, search, problem, seed)?;
    let left = descend(alloc, search, problem, passes)?;
    settle(alloc, search, problem)?;
    Ok(left)
}

/// Keeps the set as the lightest so far.
fn keep(alloc: Global, search: &mut Search) -> Result<(), OutOfMemory> {
    search.best = Vec::from_slice(alloc, search.taken.as_slice())?;
    Ok(())
}

/// Opens all rows.
fn open_all(search: &mut Search, rows: usize) -> Result<(), OutOfMemory> {
    search.opened.clear();
    for row in 0..rows {
        search.opened.push(row)?;
    }
    Ok(())
}

/// Passes at distances that grow, until none makes the set lighter, or so many are spent. Answers how many are left.
fn descend(
    alloc: Global,
    search: &mut Search,
    problem: &Problem,
    passes: u32,
) -> Result<u32, OutOfMemory> {
    let mut distance: usize = 0;
    let mut idle: usize = 0;
    for pass in 0..passes {
        let set = search.columns(alloc)?;
        if idle >= set.len() {
            return Ok(passes.saturating_sub(pass));
        }
        if distance >= set.len() {
            distance = 0;
        }
        idle = idle.saturating_add(1);
        if replace_at(search, problem, set.as_slice(), distance)? {
            search.thin(alloc, problem)?;
            idle = 0;
        }
        distance = distance.saturating_add(1);
    }
    Ok(0)
}

/// Replaces two columns that stand so far apart in the set, or one where this is 0, wherever that makes it lighter. Answers
/// whether it did.
fn replace_at(
    search: &mut Search,
    problem: &Problem,
    set: &[usize],
    distance: usize,
) -> Result<bool, OutOfMemory> {
    let mut is_lighter = false;
    for (one, other) in set.iter().zip(set.iter().skip(distance)) {
        if replace_both(search, problem, *one, *other)? {
            is_lighter = true;
        }
    }
    Ok(is_lighter)
}

/// Replaces the two columns, which may be one, if the set still has both and this makes it lighter. Answers whether it did.
fn replace_both(
    search: &mut Search,
    problem: &Problem,
    one: usize,
    other: usize,
) -> Result<bool, OutOfMemory> {
    if !has(search.taken.as_slice(), one) || !has(search.taken.as_slice(), other) {
        return Ok(false);
    }
    if one == other {
        return replace(search, problem, &[one]);
    }
    replace(search, problem, &[one, other])
}

/// Drops a part of the columns, about one of three, and repairs the set by prices that are drawn anew.
fn shake(
    alloc: Global,
    search: &mut Search,
    problem: &Problem,
    seed: u64,
) -> Result<(), OutOfMemory> {
    let mut draws = Congruence::new(seed);
    // the first number is passed over
    let _ = draws.next();
    draw_prices(&mut search.prices, &mut draws);
    let set = search.columns(alloc)?;
    search.opened.clear();
    drop_some(search, problem, set.as_slice(), &mut draws)?;
    repair(search, problem, &[], None)?;
    search.thin(alloc, problem)
}

/// Drops about one of three of these columns, which the set has, and opens the rows that only they hit.
fn drop_some(
    search: &mut Search,
    problem: &Problem,
    columns: &[usize],
    draws: &mut Congruence,
) -> Result<(), OutOfMemory> {
    for column in columns {
        if (draws.next() >> 33) % 3 == 0 {
            search.open_without(problem, *column)?;
        }
    }
    Ok(())
}

/// Draws each price from 1 to 4.
fn draw_prices(prices: &mut Vec<u64>, draws: &mut Congruence) {
    for price in prices.iter_mut() {
        *price = ((draws.next() >> 33) % 4).saturating_add(1);
    }
}

/// Keeps the set if it is the lightest so far; else goes back to that one.
fn settle(alloc: Global, search: &mut Search, problem: &Problem) -> Result<(), OutOfMemory> {
    let set = search.columns(alloc)?;
    let best = listed(alloc, search.best.as_slice(), problem.weights)?;
    if weigh(problem, set.as_slice()) < weigh(problem, best.as_slice()) {
        return keep(alloc, search);
    }
    exchange(search, problem, set.as_slice(), best.as_slice());
    Ok(())
}

/// Takes the columns `to` in place of those `from`, which are the set.
fn exchange(search: &mut Search, problem: &Problem, from: &[usize], to: &[usize]) {
    for column in from {
        search.remove(problem, *column);
    }
    for column in to {
        search.add(problem, *column);
    }
}
