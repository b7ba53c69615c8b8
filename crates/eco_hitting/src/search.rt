//! A set of columns that is changed until it is light.

use crate::problem::{Problem, weight};
use eco_meaning::OutOfMemory;
use std::alloc::Global;

/// A set of columns, and what is kept beside it.
#[derive(Drop)]
pub(crate) struct Search {
    /// Whether the set has the column.
    pub(crate) taken: Vec<bool>,
    /// How many columns of the set hit the row.
    pub(crate) hits: Vec<usize>,
    /// The lightest set so far.
    pub(crate) best: Vec<bool>,
    /// What it counts to hit the row.
    pub(crate) prices: Vec<u64>,
    /// The prices of the rows that the column would hit, while a set is repaired; else 0.
    pub(crate) gains: Vec<u64>,
    /// The columns that gain anything.
    pub(crate) touched: Vec<usize>,
    /// The rows that a repair is to hit.
    pub(crate) opened: Vec<usize>,
    /// The columns that a repair took.
    pub(crate) added: Vec<usize>,
}

impl Search {
    /// The empty set.
    pub(crate) fn new(alloc: Global, problem: &Problem) -> Result<Search, OutOfMemory> {
        let taken = vec![in alloc; false; problem.weights.len()]?;
        let best = vec![in alloc; true; problem.weights.len()]?;
        let gains = vec![in alloc; 0; problem.weights.len()]?;
        let hits = vec![in alloc; 0; problem.rows.len()]?;
        let prices = vec![in alloc; 1; problem.rows.len()]?;
        Ok(Search {
            taken,
            hits,
            best,
            prices,
            gains,
            touched: Vec::new(alloc),
            opened: Vec::new(alloc),
            added: Vec::new(alloc),
        })
    }

    /// Takes the column, which the set hasn't.
    pub(crate) fn add(&mut self, problem: &Problem, column: usize) {
        if let Some(taken) = self.taken.get_mut(column) {
            *taken = true;
        }
        if let Some(rows) = problem.lists.get(column) {
            count(&mut self.hits, rows.as_slice());
        }
    }

    /// Drops the column, which the set has.
    pub(crate) fn remove(&mut self, problem: &Problem, column: usize) {
        if let Some(taken) = self.taken.get_mut(column) {
            *taken = false;
        }
        if let Some(rows) = problem.lists.get(column) {
            discount(&mut self.hits, rows.as_slice());
        }
    }

    /// Drops the column, which the set has, and opens the rows that only it hits.
    pub(crate) fn open_without(
        &mut self,
        problem: &Problem,
        column: usize,
    ) -> Result<(), OutOfMemory> {
        self.remove(problem, column);
        match problem.lists.get(column) {
            None => Ok(()),
            Some(rows) => push_open(&mut self.opened, self.hits.as_slice(), rows.as_slice()),
        }
    }

    /// The columns of the set, rising.
    pub(crate) fn columns(&self, alloc: Global) -> Result<Vec<usize>, OutOfMemory> {
        let mut columns = Vec::new(alloc);
        for (column, taken) in self.taken.iter().enumerate() {
            if *taken {
                columns.push(column)?;
            }
        }
        Ok(columns)
    }

    /// Drops the columns all of whose rows others hit too, the heaviest first.
    pub(crate) fn thin(&mut self, alloc: Global, problem: &Problem) -> Result<(), OutOfMemory> {
        let set = self.columns(alloc)?;
        let order = by_weight(alloc, problem, set.as_slice())?;
        self.remove_spare(problem, order.as_slice());
        Ok(())
    }

    /// Drops those of the columns all of whose rows others hit too, the last ones first.
    fn remove_spare(&mut self, problem: &Problem, order: &[(u64, usize)]) {
        for (_, column) in order.iter().rev() {
            if self.is_spare(problem, *column) {
                self.remove(problem, *column);
            }
        }
    }

    /// Whether other columns hit all rows of the column, which the set has.
    fn is_spare(&self, problem: &Problem, column: usize) -> bool {
        match problem.lists.get(column) {
            None => true,
            Some(rows) => are_hit(self.hits.as_slice(), rows.as_slice(), 2),
        }
    }
}

/// Counts a column that hits these rows.
fn count(hits: &mut Vec<usize>, rows: &[usize]) {
    for row in rows {
        if let Some(number) = hits.get_mut(*row) {
            *number = number.saturating_add(1);
        }
    }
}

/// Takes a column that hits these rows out of the count.
fn discount(hits: &mut Vec<usize>, rows: &[usize]) {
    for row in rows {
        if let Some(number) = hits.get_mut(*row) {
            *number = number.saturating_sub(1);
        }
    }
}

/// Opens those of the rows that no column hits.
fn push_open(opened: &mut Vec<usize>, hits: &[usize], rows: &[usize]) -> Result<(), OutOfMemory> {
    for row in rows {
        if !is_hit(hits, *row, 1) {
            opened.push(*row)?;
        }
    }
    Ok(())
}

/// Whether so many columns hit each of these rows at least.
pub(crate) fn are_hit(hits: &[usize], rows: &[usize], least: usize) -> bool {
    for row in rows {
        if !is_hit(hits, *row, least) {
            return false;
        }
    }
    true
}

/// Whether so many columns hit the row at least.
pub(crate) fn is_hit(hits: &[usize], row: usize, least: usize) -> bool {
    match hits.get(row) {
        None => true,
        Some(number) => *number >= least,
    }
}

/// The columns with their weights, the lightest first.
fn by_weight(
    alloc: Global,
    problem: &Problem,
    columns: &[usize],
) -> Result<Vec<(u64, usize)>, OutOfMemory> {
    let mut order = Vec::with_capacity(alloc, columns.len())?;
    for column in columns {
        order.push((weight(problem, *column), *column))?;
    }
    order.sort_unstable();
    Ok(order)
}
