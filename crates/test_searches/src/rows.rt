//! Rows of eight columns, each from the number whose bits say which columns it has.

use eco_floor::Row;
use eco_meaning::OutOfMemory;
use std::alloc::Global;

/// The row of the columns whose bits are set in the number.
fn row_of(alloc: Global, number: u32) -> Result<Row, OutOfMemory> {
    let mut bits = Vec::new(alloc);
    for column in 0..8u32 {
        bits.push((number >> column) & 1 == 1)?;
    }
    Row::of(alloc, bits.as_slice())
}

/// The rows of these numbers.
pub(crate) fn rows_of(alloc: Global, numbers: &[u32]) -> Result<Vec<Row>, OutOfMemory> {
    let mut rows = Vec::new(alloc);
    for number in numbers {
        rows.push(row_of(alloc, *number)?)?;
    }
    Ok(rows)
}
