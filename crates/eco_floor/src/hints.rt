//! Which rows are packed in which order, and which column is decided next. All of it is free.

use crate::packing::rest;
use crate::row::Row;
use eco_meaning::OutOfMemory;
use std::alloc::Global;

/// A row's place in a packing.
#[derive(Clone, Copy)]
pub(crate) struct Share {
    /// The number of the row.
    pub(crate) row: usize,
    /// The amount that it takes at most.
    pub(crate) cap: u32,
}

/// The places of the rows that no column hits of which nothing is left, those with the fewest columns that aren't left out
/// first: all rows with their caps, and then without.
pub(crate) fn plan(
    alloc: Global,
    slack: &[Option<u32>],
    rows: &[Row],
    caps: &[u32],
) -> Result<Vec<Share>, OutOfMemory> {
    let order = order(alloc, slack, rows)?;
    let mut plan = Vec::new(alloc);
    for row in &order {
        let cap = match caps.get(*row) {
            None => u32::MAX,
            Some(cap) => *cap,
        };
        plan.push(Share { row: *row, cap })?;
    }
    push_uncapped(&mut plan, order.as_slice())?;
    Ok(plan)
}

/// Puts these rows without caps behind the others.
fn push_uncapped(plan: &mut Vec<Share>, order: &[usize]) -> Result<(), OutOfMemory> {
    for row in order {
        plan.push(Share {
            row: *row,
            cap: u32::MAX,
        })?;
    }
    Ok(())
}

/// The numbers of the rows that no column hits of which nothing is left, those with the fewest columns that aren't left out
/// first.
fn order(alloc: Global, slack: &[Option<u32>], rows: &[Row]) -> Result<Vec<usize>, OutOfMemory> {
    let mut counted = Vec::new(alloc);
    for (number, row) in rows.iter().enumerate() {
        if let Some(count) = open_columns(slack, row) {
            counted.push((count, number))?;
        }
    }
    counted.sort_unstable();
    let mut order = Vec::with_capacity(alloc, counted.len())?;
    for (_, number) in &counted {
        order.push(*number)?;
    }
    Ok(order)
}

/// How many columns of the row aren't left out; none where nothing is left of one of them.
fn open_columns(slack: &[Option<u32>], row: &Row) -> Option<usize> {
    let mut count: usize = 0;
    for column in row.columns() {
        match rest(slack, *column) {
            None => {}
            Some(0) => return None,
            Some(_) => count = count.saturating_add(1),
        }
    }
    Some(count)
}

/// The column of the first one of these rows that most of them have, among those that aren't left out.
pub(crate) fn branch(
    alloc: Global,
    slack: &[Option<u32>],
    rows: &[Row],
    plan: &[Share],
) -> Result<Option<usize>, OutOfMemory> {
    let mut counts = vec![in alloc; 0; slack.len()]?;
    for share in plan {
        if let Some(row) = rows.get(share.row) {
            count_columns(&mut counts, row);
        }
    }
    Ok(first_row(rows, plan).and_then(|row| most_frequent(slack, counts.as_slice(), row)))
}

/// Counts the columns of the row.
fn count_columns(counts: &mut Vec<usize>, row: &Row) {
    for column in row.columns() {
        if let Some(count) = counts.get_mut(*column) {
            *count = count.saturating_add(1);
        }
    }
}

/// The first one of these rows.
fn first_row<'r>(rows: &'r [Row], plan: &[Share]) -> Option<&'r Row> {
    rows.get(plan.first()?.row)
}

/// The column of the row that has the highest count, among those that aren't left out.
fn most_frequent(slack: &[Option<u32>], counts: &[usize], row: &Row) -> Option<usize> {
    let mut most = None;
    let mut highest = 0;
    for column in row.columns() {
        let count = match counts.get(*column) {
            None => 0,
            Some(count) => *count,
        };
        if rest(slack, *column).is_some() && count > highest {
            most = Some(*column);
            highest = count;
        }
    }
    most
}
