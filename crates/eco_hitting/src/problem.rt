//! What is to be hit, and which column hits what.

use eco_floor::Row;
use eco_meaning::OutOfMemory;
use std::alloc::Global;

/// Rows, the weights of columns, and for each column the numbers of its rows.
#[derive(Clone, Copy)]
pub(crate) struct Problem<'p> {
    pub(crate) rows: &'p [Row],
    pub(crate) weights: &'p [u32],
    pub(crate) lists: &'p [Vec<usize>],
}

/// For each column below the width the numbers of its rows.
pub(crate) fn rows_of_columns(
    alloc: Global,
    rows: &[Row],
    width: usize,
) -> Result<Vec<Vec<usize>>, OutOfMemory> {
    let mut lists = no_rows(alloc, width)?;
    for (number, row) in rows.iter().enumerate() {
        list_row(&mut lists, number, row)?;
    }
    Ok(lists)
}

/// An empty list for each column.
fn no_rows(alloc: Global, width: usize) -> Result<Vec<Vec<usize>>, OutOfMemory> {
    let mut lists = Vec::with_capacity(alloc, width)?;
    for _ in 0..width {
        lists.push(Vec::new(alloc))?;
    }
    Ok(lists)
}

/// Puts the number of the row into the lists of its columns.
fn list_row(lists: &mut Vec<Vec<usize>>, number: usize, row: &Row) -> Result<(), OutOfMemory> {
    for column in row.columns() {
        if let Some(list) = lists.get_mut(*column) {
            list.push(number)?;
        }
    }
    Ok(())
}

/// The weight of the column, 0 where there is none.
pub(crate) fn weight(problem: &Problem, column: usize) -> u64 {
    match problem.weights.get(column) {
        None => 0,
        Some(weight) => u64::from(*weight),
    }
}

/// The sum of the weights of these columns.
pub(crate) fn weigh(problem: &Problem, columns: &[usize]) -> u64 {
    let mut sum: u64 = 0;
    for column in columns {
        sum = sum.saturating_add(weight(problem, *column));
    }
    sum
}
