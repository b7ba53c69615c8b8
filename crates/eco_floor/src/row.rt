//! Rows.

use eco_meaning::OutOfMemory;
use std::alloc::Global;
use std::marker::Model;

/// A row: a set of columns. It takes memory for those that it has.
#[derive(Drop)]
pub struct Row {
    columns: Vec<usize>,
}

impl Model for Row {
    ghost use Rattle.std.specs.Prelude.{List, ℕ};

    ghost Value = { List ℕ };

    ghost view = { λ row. row.columns.items };
}

impl Row {
    ghost use Rattle.std.specs.Prelude.{◌≡◌, ◌≢◌, true, IfOk, IsTrue, Contains, Some, length};
    ghost use Rattle.std.specs.List.{slice_get};
    ghost use Rattle.eco_floor.specs.Rows.{IsSetOf};

    /// The row of the columns whose bits are set.
    pub fn of(alloc: Global, bits: &[bool]) -> Result<Row, OutOfMemory>
        ensures { IfOk result (IsSetOf (λ column. slice_get bits.now column ≡ Some true)) }
    {
        let columns = columns_set(alloc, bits)?;
        Ok(Row { columns })
    }

    /// The row of the columns in which two rows of values differ.
    pub fn between(alloc: Global, one: &[bool], zero: &[bool]) -> Result<Row, OutOfMemory>
        requires { length one.now ≡ length zero.now }
        ensures { IfOk result (IsSetOf (λ column. slice_get one.now column ≢ slice_get zero.now column)) }
    {
        let columns = columns_unlike(alloc, one, zero)?;
        Ok(Row { columns })
    }

    /// Its columns.
    pub fn columns(&self) -> &[usize]
        ensures { result.now ≡ self.now }
    {
        self.columns.as_slice()
    }

    /// Whether the row has the column. Takes time linear in its columns.
    pub fn has(&self, column: usize) -> bool
        ensures yes { IsTrue result → Contains self.now column }
        ensures no { Contains self.now column → IsTrue result }
    {
        self.columns.contains(&column)
    }
}

ghost use Rattle.std.specs.Prelude.{◌≡◌, ◌≢◌, ◌<◌, ℕ, true, IfOk, OnOk, Some, length};
ghost use Rattle.std.specs.List.{slice_get};
ghost use Rattle.eco_floor.specs.Rows.{IsSetOf, AddsIf};

/// The columns whose bits are set.
fn columns_set(alloc: Global, bits: &[bool]) -> Result<Vec<usize>, OutOfMemory>
    ensures { IfOk result (λ columns. IsSetOf (λ column. slice_get bits.now column ≡ Some true) columns.items) }
{
    let mut columns = Vec::new(alloc);
    for column in 0..bits.len() {
        push_if(&mut columns, column, bits[column])?;
    }
    Ok(columns)
}

/// The columns in which the rows differ.
fn columns_unlike(alloc: Global, one: &[bool], zero: &[bool]) -> Result<Vec<usize>, OutOfMemory>
    requires { length one.now ≡ length zero.now }
    ensures { IfOk result (λ columns. IsSetOf (λ column. slice_get one.now column ≢ slice_get zero.now column) columns.items) }
{
    let mut columns = Vec::new(alloc);
    for column in 0..one.len() {
        push_if(&mut columns, column, one[column] != zero[column])?;
    }
    Ok(columns)
}

/// Puts the column behind the others, if this is so.
fn push_if(columns: &mut Vec<usize>, column: usize, is: bool) -> Result<(), OutOfMemory>
    ensures { OnOk result (AddsIf columns.old.items columns.new.items column is) }
{
    if is {
        columns.push(column)?;
    }
    Ok(())
}
