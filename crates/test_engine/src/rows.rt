//! Rows of bits, of which each is given as a number.

ghost use Rattle.std.specs.Prelude.{◌≡◌, ◌≢◌, All, IsTrue, length};
ghost use Rattle.eco_pose.specs.Questions.{AreDistinct};

use crate::bits::has_bit;
use eco_meaning::Bits;
use std::alloc::Global;
use std::process::Abort;

/// The lowest bits of the number, so many of them.
pub fn row_of(rt: &impl Abort, alloc: Global, number: u64, width: usize) -> Bits
    ensures { length result ≡ width }
{
    let mut row = Vec::new(alloc);
    for place in 0..width {
        row.push(has_bit(number, place as u64)).expect(rt, "memory");
    }
    Bits::of(row)
}

/// The rows of these numbers.
pub fn rows_of(rt: &impl Abort, alloc: Global, numbers: &[u64], width: usize) -> Vec<Bits>
    ensures { All (λ row. length row ≡ width) result.items }
{
    let mut rows = Vec::new(alloc);
    for number in numbers {
        rows.push(row_of(rt, alloc, *number, width))
            .expect(rt, "memory");
    }
    rows
}

/// The rows of these numbers, each once.
pub fn rows_once(rt: &impl Abort, alloc: Global, numbers: &[u64], width: usize) -> Vec<Bits>
    ensures wide { All (λ row. length row ≡ width) result.items }
    ensures distinct { AreDistinct result.items }
{
    let mut rows = Vec::new(alloc);
    for number in numbers {
        add_once(rt, &mut rows, row_of(rt, alloc, *number, width), width);
    }
    rows
}

/// Adds the row, unless it is among the rows.
fn add_once(rt: &impl Abort, rows: &mut Vec<Bits>, row: Bits, width: usize)
    requires wide { All (λ row. length row ≡ width) rows.old.items }
    requires distinct { AreDistinct rows.old.items }
    requires row { length row ≡ width }
    ensures wide { All (λ row. length row ≡ width) rows.new.items }
    ensures distinct { AreDistinct rows.new.items }
{
    if are_others(rows.as_slice(), &row) {
        rows.push(row).expect(rt, "memory");
    } else {
        drop(row);
    }
}

/// Whether none of the rows is this one.
fn are_others(rows: &[Bits], row: &Bits) -> bool
    ensures { IsTrue result → All (λ other. other ≢ row.now) rows.now }
{
    rows.iter().all(|other| is_other(other, row))
}

/// Whether the rows differ.
fn is_other(other: &Bits, row: &Bits) -> bool
    ensures { IsTrue result → other.now ≢ row.now }
{
    other.as_slice() != row.as_slice()
}
