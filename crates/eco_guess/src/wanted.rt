//! What is wanted of a target's function: where it has to be 1, and where 0.

use crate::form::{Gate, Term};
use crate::simulating::{edge_word, word_at};
use eco_aig::Edge;
use eco_meaning::OutOfMemory;
use std::alloc::Global;

/// A word for each place: the patterns at which the function has to be 1, and those at which it has to be 0.
#[derive(Drop)]
pub(crate) struct Wanted {
    pub(crate) ones: Vec<u64>,
    pub(crate) zeros: Vec<u64>,
}

impl Wanted {
    /// What is wanted of the first of the targets whose rows these are, a list for each place: 1 where each row that is right has
    /// 1 there, 0 where each has 0. Nothing if at some pattern no row is right.
    pub(crate) fn of_rows(alloc: Global, rows: &[Vec<u64>]) -> Result<Option<Wanted>, OutOfMemory> {
        let mut ones = Vec::new(alloc);
        let mut zeros = Vec::new(alloc);
        for list in rows {
            let can_be_one = right_with(list.as_slice(), 1);
            let can_be_zero = right_with(list.as_slice(), 0);
            if can_be_one | can_be_zero != u64::MAX {
                return Ok(None);
            }
            ones.push(!can_be_zero)?;
            zeros.push(!can_be_one)?;
        }
        Ok(Some(Wanted { ones, zeros }))
    }

    /// What is wanted of the second operand, where the first one is given.
    pub(crate) fn rest(
        &self,
        alloc: Global,
        columns: &[Vec<u64>],
        term: Term,
    ) -> Result<Wanted, OutOfMemory> {
        let mut ones = Vec::new(alloc);
        let mut zeros = Vec::new(alloc);
        for (place, column) in columns.iter().enumerate() {
            let word = edge_word(column.as_slice(), term.edge);
            let (one, zero) = rest_words(term.gate, word, self.one(place), self.zero(place));
            ones.push(one)?;
            zeros.push(zero)?;
        }
        Ok(Wanted { ones, zeros })
    }

    /// The patterns of this place at which it has to be 1.
    pub(crate) fn one(&self, place: usize) -> u64 {
        word_at(self.ones.as_slice(), place)
    }

    /// The patterns of this place at which it has to be 0.
    pub(crate) fn zero(&self, place: usize) -> u64 {
        word_at(self.zeros.as_slice(), place)
    }

    /// Whether the edge is as it is wanted.
    pub(crate) fn agrees(&self, columns: &[Vec<u64>], edge: Edge) -> bool {
        for (place, column) in columns.iter().enumerate() {
            let word = edge_word(column.as_slice(), edge);
            if word & self.zero(place) != 0 || !word & self.one(place) != 0 {
                return false;
            }
        }
        true
    }

    /// The sign with which the edge is as it is wanted, false for that of the edge itself.
    pub(crate) fn sign_of(&self, columns: &[Vec<u64>], edge: Edge) -> Option<bool> {
        if self.agrees(columns, edge) {
            return Some(false);
        }
        if self.agrees(columns, edge.not()) {
            return Some(true);
        }
        None
    }
}

/// The patterns at which one of the rows is right whose numbers have this remainder by 2.
fn right_with(rows: &[u64], remainder: usize) -> u64 {
    let mut right = 0;
    for (number, word) in rows.iter().enumerate() {
        if number % 2 == remainder {
            right = right | *word;
        }
    }
    right
}

/// Where the second operand of the gate has to be 1 and where 0, if the first has this word.
fn rest_words(gate: Gate, word: u64, one: u64, zero: u64) -> (u64, u64) {
    match gate {
        Gate::And => (one, zero & word),
        Gate::Or => (one & !word, zero),
        Gate::Xor => (one & !word | zero & word, zero & !word | one & word),
    }
}
