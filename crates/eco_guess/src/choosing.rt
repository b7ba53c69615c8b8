//! The choice of a function for each target of a group, such that they fit together.

use crate::bounds::CHOICES;
use crate::finding::{Field, Work};
use crate::form::Form;
use crate::simulating::word_at;
use crate::wanted::Wanted;
use eco_meaning::OutOfMemory;

/// A target of which a function is chosen, those of the earlier ones being chosen.
#[derive(Drop)]
pub(crate) struct Level {
    /// For each place the patterns at which each row of this target and the later ones is right.
    rows: Vec<Vec<u64>>,
    options: Vec<Form>,
    /// How many of the options were taken.
    taken: usize,
}

/// Where a choice stands.
#[derive(Clone, Copy, PartialEq, Eq)]
enum State {
    Going,
    /// Each target has a function.
    Chosen,
    /// No other choice is left.
    Ended,
}

/// A function for each of so many targets, with which one of the rows is right at each pattern. The rows are those of all
/// targets, a list for each place.
pub(crate) fn choose(
    field: &Field,
    rows: &[Vec<u64>],
    targets: usize,
    work: &mut Work,
) -> Result<Option<Vec<Form>>, OutOfMemory> {
    let mut levels = Vec::new(field.alloc);
    let chosen = search(field, &mut levels, rows, targets, work);
    drop(levels);
    chosen
}

/// The same with the levels that were gone down.
fn search(
    field: &Field,
    levels: &mut Vec<Level>,
    rows: &[Vec<u64>],
    targets: usize,
    work: &mut Work,
) -> Result<Option<Vec<Form>>, OutOfMemory> {
    let rows = copied(field, rows)?;
    deepen(field, levels, rows, work)?;
    for _ in 0..CHOICES {
        match advance(field, levels, targets, work)? {
            State::Going => (),
            State::Chosen => return Ok(Some(taken_forms(field, levels.as_slice())?)),
            State::Ended => return Ok(None),
        }
    }
    Ok(None)
}

/// Takes the next function of the last target, and goes on to the target behind it; where there is none, goes back.
fn advance(
    field: &Field,
    levels: &mut Vec<Level>,
    targets: usize,
    work: &mut Work,
) -> Result<State, OutOfMemory> {
    match taken_next(field, levels)? {
        None => {
            drop(levels.pop());
            Ok(if levels.is_empty() {
                State::Ended
            } else {
                State::Going
            })
        }
        Some(rows) => {
            if levels.len() >= targets {
                return Ok(State::Chosen);
            }
            deepen(field, levels, rows, work)?;
            Ok(State::Going)
        }
    }
}

/// Takes the next function of the last target, if there is one more. Gives the rows of the targets behind it.
fn taken_next(
    field: &Field,
    levels: &mut Vec<Level>,
) -> Result<Option<Vec<Vec<u64>>>, OutOfMemory> {
    match levels.last_mut() {
        None => Ok(None),
        Some(level) => level.take(field),
    }
}

impl Level {
    /// Takes the next function, if there is one more. Gives the rows of the targets behind this one.
    fn take(&mut self, field: &Field) -> Result<Option<Vec<Vec<u64>>>, OutOfMemory> {
        match self.options.get(self.taken) {
            None => Ok(None),
            Some(form) => {
                self.taken = self.taken.saturating_add(1);
                let rows = folded(field, self.rows.as_slice(), form)?;
                Ok(Some(rows))
            }
        }
    }
}

/// Adds a level for the first of the targets whose rows these are. It has no options if at some pattern no row is right.
fn deepen(
    field: &Field,
    levels: &mut Vec<Level>,
    rows: Vec<Vec<u64>>,
    work: &mut Work,
) -> Result<(), OutOfMemory> {
    let options = match Wanted::of_rows(field.alloc, rows.as_slice())? {
        None => Vec::new(field.alloc),
        Some(wanted) => field.options(&wanted, work)?,
    };
    levels.push(Level {
        rows,
        options,
        taken: 0,
    })?;
    Ok(())
}

/// The same rows again.
fn copied(field: &Field, rows: &[Vec<u64>]) -> Result<Vec<Vec<u64>>, OutOfMemory> {
    let mut copies = Vec::new(field.alloc);
    for list in rows {
        copies.push(Vec::from_slice(field.alloc, list.as_slice())?)?;
    }
    Ok(copies)
}

/// The rows of the later targets, where the first one has this function.
fn folded(field: &Field, rows: &[Vec<u64>], form: &Form) -> Result<Vec<Vec<u64>>, OutOfMemory> {
    let mut folded = Vec::new(field.alloc);
    for (list, column) in rows.iter().zip(field.columns.iter()) {
        let word = form.word(column.as_slice());
        folded.push(folded_list(field, list.as_slice(), word)?)?;
    }
    Ok(folded)
}

/// The same for one place, where the function has this word.
fn folded_list(field: &Field, list: &[u64], word: u64) -> Result<Vec<u64>, OutOfMemory> {
    let mut folded = Vec::new(field.alloc);
    for number in 0..list.len() / 2 {
        let at_zero = number.saturating_mul(2);
        let with_zero = word_at(list, at_zero) & !word;
        let with_one = word_at(list, at_zero.saturating_add(1)) & word;
        folded.push(with_zero | with_one)?;
    }
    Ok(folded)
}

/// The functions that were taken last, target by target.
fn taken_forms(field: &Field, levels: &[Level]) -> Result<Vec<Form>, OutOfMemory> {
    let mut forms = Vec::new(field.alloc);
    for level in levels {
        if let Some(form) = level.options.get(level.taken.saturating_sub(1)) {
            forms.push(*form)?;
        }
    }
    Ok(forms)
}
