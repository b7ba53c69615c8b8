//! Repairs: columns are taken until all opened rows are hit.

use crate::problem::{Problem, weigh, weight};
use crate::search::{Search, are_hit, is_hit};
use eco_meaning::OutOfMemory;

/// Takes columns until each opened row is hit, those with the highest prices of such rows by weight first; none of those that
/// are barred. Where a bound is given: the lightest column that hits all of them alone, if it is below the bound; and none is
/// taken once those that were taken reach the bound.
pub(crate) fn repair(
    search: &mut Search,
    problem: &Problem,
    barred: &[usize],
    bound: Option<u64>,
) -> Result<(), OutOfMemory> {
    search.added.clear();
    count_gains(
        &mut search.gains,
        &mut search.touched,
        problem,
        search.opened.as_slice(),
        search.prices.as_slice(),
    )?;
    bar(&mut search.gains, barred);
    let result = take_all(search, problem, bound);
    bar(&mut search.gains, search.touched.as_slice());
    search.touched.clear();
    result
}

/// Takes columns until no column gains anything, or the bound is reached.
fn take_all(search: &mut Search, problem: &Problem, bound: Option<u64>) -> Result<(), OutOfMemory> {
    if let Some(column) = alone(search, problem, bound) {
        return take(search, problem, column);
    }
    let mut sum: u64 = 0;
    for _ in 0..search.opened.len() {
        if reaches(sum, bound) {
            break;
        }
        let Some(column) = most_by_weight(search, problem) else {
            break;
        };
        take(search, problem, column)?;
        sum = sum.saturating_add(weight(problem, column));
    }
    Ok(())
}

/// Whether the bound is reached.
fn reaches(sum: u64, bound: Option<u64>) -> bool {
    match bound {
        None => false,
        Some(bound) => sum >= bound,
    }
}

/// The lightest column that hits all opened rows, if it is below the bound.
fn alone(search: &Search, problem: &Problem, bound: Option<u64>) -> Option<usize> {
    let mut least = bound?;
    let mut lightest = None;
    let all = sum_of_prices(search.prices.as_slice(), search.opened.as_slice());
    for column in &search.touched {
        if gain(search, *column) >= all && weight(problem, *column) < least {
            least = weight(problem, *column);
            lightest = Some(*column);
        }
    }
    lightest
}

/// The column that gains most by weight; none where none gains anything.
fn most_by_weight(search: &Search, problem: &Problem) -> Option<usize> {
    let mut most = None;
    let mut highest: u64 = 0;
    let mut heaviness: u64 = 1;
    for column in &search.touched {
        let gain = gain(search, *column);
        let weight = weight(problem, *column);
        if gain.saturating_mul(heaviness) > highest.saturating_mul(weight) {
            most = Some(*column);
            highest = gain;
            heaviness = weight;
        }
    }
    most
}

/// What the column gains.
fn gain(search: &Search, column: usize) -> u64 {
    match search.gains.get(column) {
        None => 0,
        Some(gain) => *gain,
    }
}

/// The sum of the prices of these rows.
fn sum_of_prices(prices: &[u64], rows: &[usize]) -> u64 {
    let mut sum: u64 = 0;
    for row in rows {
        sum = sum.saturating_add(price(prices, *row));
    }
    sum
}

/// The price of the row.
fn price(prices: &[u64], row: usize) -> u64 {
    match prices.get(row) {
        None => 0,
        Some(price) => *price,
    }
}

/// Takes the column, so that the rows that it is the first to hit gain nothing more.
fn take(search: &mut Search, problem: &Problem, column: usize) -> Result<(), OutOfMemory> {
    if let Some(rows) = problem.lists.get(column) {
        lower_gains(
            &mut search.gains,
            problem,
            rows.as_slice(),
            search.hits.as_slice(),
            search.prices.as_slice(),
        );
    }
    search.add(problem, column);
    search.added.push(column)?;
    Ok(())
}

/// Counts what the columns of the rows gain, and which these are.
fn count_gains(
    gains: &mut Vec<u64>,
    touched: &mut Vec<usize>,
    problem: &Problem,
    rows: &[usize],
    prices: &[u64],
) -> Result<(), OutOfMemory> {
    for row in rows {
        if let Some(columns) = problem.rows.get(*row) {
            raise(gains, touched, columns.columns(), price(prices, *row))?;
        }
    }
    Ok(())
}

/// Adds the price to what these columns gain.
fn raise(
    gains: &mut Vec<u64>,
    touched: &mut Vec<usize>,
    columns: &[usize],
    price: u64,
) -> Result<(), OutOfMemory> {
    for column in columns {
        if let Some(gain) = gains.get_mut(*column) {
            let old = *gain;
            *gain = old.saturating_add(price);
            if old == 0 {
                touched.push(*column)?;
            }
        }
    }
    Ok(())
}

/// Takes the prices of those of the rows that no column hits from what their columns gain.
fn lower_gains(
    gains: &mut Vec<u64>,
    problem: &Problem,
    rows: &[usize],
    hits: &[usize],
    prices: &[u64],
) {
    for row in rows {
        if !is_hit(hits, *row, 1) {
            if let Some(columns) = problem.rows.get(*row) {
                lower(gains, columns.columns(), price(prices, *row));
            }
        }
    }
}

/// Takes the price from what these columns gain.
fn lower(gains: &mut Vec<u64>, columns: &[usize], price: u64) {
    for column in columns {
        if let Some(gain) = gains.get_mut(*column) {
            *gain = gain.saturating_sub(price);
        }
    }
}

/// Lets these columns gain nothing.
fn bar(gains: &mut Vec<u64>, columns: &[usize]) {
    for column in columns {
        if let Some(gain) = gains.get_mut(*column) {
            *gain = 0;
        }
    }
}

/// Drops these columns and repairs the set by others. Where it isn't lighter then, or misses a row, all is undone. Answers
/// whether it is lighter.
pub(crate) fn replace(
    search: &mut Search,
    problem: &Problem,
    columns: &[usize],
) -> Result<bool, OutOfMemory> {
    let old = weigh(problem, columns);
    search.opened.clear();
    open_without(search, problem, columns)?;
    repair(search, problem, columns, Some(old))?;
    if weigh(problem, search.added.as_slice()) < old
        && are_hit(search.hits.as_slice(), search.opened.as_slice(), 1)
    {
        return Ok(true);
    }
    undo(search, problem, columns);
    Ok(false)
}

/// Drops these columns, and opens the rows that only they hit.
fn open_without(
    search: &mut Search,
    problem: &Problem,
    columns: &[usize],
) -> Result<(), OutOfMemory> {
    for column in columns {
        search.open_without(problem, *column)?;
    }
    Ok(())
}

/// Drops the columns that the repair took, and takes these back.
fn undo(search: &mut Search, problem: &Problem, columns: &[usize]) {
    drop_added(search, problem);
    for column in columns {
        search.add(problem, *column);
    }
}

/// Drops the columns that the repair took.
fn drop_added(search: &mut Search, problem: &Problem) {
    for _ in 0..search.added.len() {
        if let Some(column) = search.added.pop() {
            search.remove(problem, column);
        }
    }
}
