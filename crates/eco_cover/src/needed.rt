//! The next column that a greedy choice keeps.

ghost use Rattle.std.specs.Prelude.{◌≡◌, ◌<◌, ◌≤◌, ◌++◌, All, IfOk, MatchOption, length};
ghost use Rattle.eco_cover.specs.Classes.{AreClasses, AreNamed, AreTogether, AreUnmixed, IsMixed, bits_at};
ghost use Rattle.eco_cover.specs.InPlay.{TellInPlay, IsNextOrNone};

use crate::choice::Kept;
use crate::classes::{Alike, classes_by, find_alike, split_at};
use crate::row::Row;
use eco_meaning::OutOfMemory;
use std::alloc::Global;

/// The first column from `from` on that the greedy choice keeps beside the fixed ones, where each column from `from` on has
/// its turn in order and is dropped if the others tell the ones from the zeros. None where the fixed ones alone do. Time is
/// that of reading each row once, memory that of a few numbers a row.
pub fn next(
    alloc: Global,
    width: usize,
    from: usize,
    fixed: &[usize],
    ones: &[Row],
    zeros: &[Row],
) -> Result<Option<Kept>, OutOfMemory>
    requires ones { All (λ row. length row ≡ width) ones.now }
    requires zeros { All (λ row. length row ≡ width) zeros.now }
    requires fixed { All (λ column. column < width) fixed.now }
    requires from { from ≤ width }
    requires apart { TellInPlay fixed.now from ones.now zeros.now }
    ensures next { IfOk result (IsNextOrNone width fixed.now from ones.now zeros.now) }
{
    let mut classes = classes_by(alloc, fixed, ones, zeros)?;
    let mut alike = match find_alike(classes.as_slice(), ones.len()) {
        None => return Ok(None),
        Some(alike) => alike,
    };
    for column in (from..width).rev() {
        match turn(alloc, ones, zeros, column, &mut classes)? {
            Some(pair) => alike = pair,
            None => {
                let Alike { one, zero } = alike;
                return Ok(Some(Kept { column, one, zero }));
            }
        }
    }
    unreachable!()
}

/// Splits the classes by the column, and finds rows of both kinds that still have one class.
fn turn(
    alloc: Global,
    ones: &[Row],
    zeros: &[Row],
    column: usize,
    classes: &mut Vec<usize>,
) -> Result<Option<Alike>, OutOfMemory>
    requires column { All (λ row. column < length row) (ones.now ++ zeros.now) }
    requires count { length classes.old.items ≡ length (ones.now ++ zeros.now) }
    requires named { AreNamed classes.old.items }
    ensures classes { IfOk result (λ _. AreClasses (length classes.old.items)
        (AreTogether classes.old.items (bits_at (ones.now ++ zeros.now) column)) classes.new.items) }
    ensures alike { IfOk result (λ alike.
        MatchOption alike (AreUnmixed (length ones.now) classes.new.items) (IsMixed (length ones.now) classes.new.items)) }
{
    split_at(alloc, ones, zeros, column, classes)?;
    Ok(find_alike(classes.as_slice(), ones.len()))
}
