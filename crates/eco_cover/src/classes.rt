//! Rows in classes, each of which is named by the number of its first row. The rows are ones, and behind them zeros.

ghost use Rattle.std.specs.Prelude.{◌≡◌, ◌≤◌, ◌<◌, ◌+◌, ◌++◌, length, All, Contains, IfOk, MatchOption, OnOk};
ghost use Rattle.eco_cover.specs.Classes.{AreAlike, AreClasses, AreFirstOthers, AreNamed, AreTogether, AreUnmixed, IsFirst, IsMixed, bits_at};

use crate::row::Row;
use eco_meaning::OutOfMemory;
use std::alloc::Global;

/// The numbers of a one-row and of a zero-row of one class.
#[derive(Clone, Copy)]
pub(crate) struct Alike {
    pub(crate) one: usize,
    pub(crate) zero: usize,
}

/// The classes of rows that agree on these columns.
pub(crate) fn classes_by(
    alloc: Global,
    columns: &[usize],
    ones: &[Row],
    zeros: &[Row],
) -> Result<Vec<usize>, OutOfMemory>
    requires { All (λ column. All (λ row. column < length row) (ones.now ++ zeros.now)) columns.now }
    ensures { IfOk result (λ classes. AreClasses (length (ones.now ++ zeros.now))
        (AreAlike (Contains columns.now) (ones.now ++ zeros.now)) classes.items) }
{
    let mut classes = vec![in alloc; 0; ones.len() + zeros.len()]?;
    for column in columns {
        split_at(alloc, ones, zeros, *column, &mut classes)?;
    }
    Ok(classes)
}

/// Splits each class by the bits of its rows in the column.
pub(crate) fn split_at(
    alloc: Global,
    ones: &[Row],
    zeros: &[Row],
    column: usize,
    classes: &mut Vec<usize>,
) -> Result<(), OutOfMemory>
    requires column { All (λ row. column < length row) (ones.now ++ zeros.now) }
    requires count { length classes.old.items ≡ length (ones.now ++ zeros.now) }
    requires named { AreNamed classes.old.items }
    ensures { OnOk result (AreClasses (length classes.old.items)
        (AreTogether classes.old.items (bits_at (ones.now ++ zeros.now) column)) classes.new.items) }
{
    let bits = column_of(alloc, ones, zeros, column)?;
    *classes = split(alloc, classes.as_slice(), bits.as_slice())?;
    Ok(())
}

/// The bits of the column, row by row.
fn column_of(
    alloc: Global,
    ones: &[Row],
    zeros: &[Row],
    column: usize,
) -> Result<Vec<bool>, OutOfMemory>
    requires { All (λ row. column < length row) (ones.now ++ zeros.now) }
    ensures { IfOk result (λ bits. bits.items ≡ bits_at (ones.now ++ zeros.now) column) }
{
    let mut bits = Vec::with_capacity(alloc, ones.len() + zeros.len())?;
    push_column(&mut bits, ones, column)?;
    push_column(&mut bits, zeros, column)?;
    Ok(bits)
}

/// Puts the bits of the column in these rows behind the others.
fn push_column(bits: &mut Vec<bool>, rows: &[Row], column: usize) -> Result<(), OutOfMemory>
    requires { All (λ row. column < length row) rows.now }
    ensures { OnOk result (bits.new.items ≡ bits.old.items ++ bits_at rows.now column) }
{
    for row in rows {
        bits.push(row.bits()[column])?;
    }
    Ok(())
}

/// The classes of rows that have one class and equal bits.
fn split(alloc: Global, classes: &[usize], bits: &[bool]) -> Result<Vec<usize>, OutOfMemory>
    requires named { AreNamed classes.now }
    requires bits { length bits.now ≡ length classes.now }
    ensures { IfOk result (λ split. AreClasses (length classes.now) (AreTogether classes.now bits.now) split.items) }
{
    let mut others = vec![in alloc; None; classes.len()]?;
    let mut split = Vec::with_capacity(alloc, classes.len())?;
    for row in 0..classes.len() {
        split.push(class_of(classes, bits, row, &mut others))?;
    }
    Ok(split)
}

/// The first row that has the class of this one and an equal bit, where `others` holds the first row of each class that
/// hasn't the bit of the class's first one, as far as the rows before this one go.
fn class_of(classes: &[usize], bits: &[bool], row: usize, others: &mut Vec<Option<usize>>) -> usize
    requires row { row < length classes.now }
    requires named { AreNamed classes.now }
    requires bits { length bits.now ≡ length classes.now }
    requires others { AreFirstOthers classes.now bits.now row others.old.items }
    ensures class { IsFirst (length classes.now) (AreTogether classes.now bits.now) row result }
    ensures others { AreFirstOthers classes.now bits.now (row + 1) others.new.items }
{
    let first = classes[row];
    if bits[row] == bits[first] {
        return first;
    }
    match others[first] {
        Some(other) => other,
        None => {
            others[first] = Some(row);
            row
        }
    }
}

/// A row of each kind that have one class, where the first rows, this many, are ones.
pub(crate) fn find_alike(classes: &[usize], ones: usize) -> Option<Alike>
    ensures { MatchOption result (AreUnmixed ones classes.now) (IsMixed ones classes.now) }
{
    for row in ones..classes.len() {
        let one = classes[row];
        if one < ones {
            let zero = row - ones;
            return Some(Alike { one, zero });
        }
    }
    None
}
