//! Light sets of columns that are plain by hand.

use crate::rows::rows_of;
use eco_hitting::{Row, hitting_set};
use eco_meaning::OutOfMemory;
use std::alloc::Global;
use std::test::Fail;

/// The set that is found for the rows of these numbers.
fn found(alloc: Global, numbers: &[u32], weights: &[u32]) -> Result<Vec<usize>, OutOfMemory> {
    let rows = rows_of(alloc, numbers)?;
    hitting_set(alloc, rows.as_slice(), weights, 4)
}

/// Whether the set has a column of the row.
fn is_hit(row: &Row, set: &[usize]) -> bool {
    for column in set {
        if row.has(*column) {
            return true;
        }
    }
    false
}

/// Numbers of rows, weights, and the set.
const CASES: [(&[u32], &[u32], &[usize]); 7] = [
    // A triangle: two of three corners, the heaviest one left out.
    (&[3, 6, 5], &[2, 3, 4], &[0, 1]),
    // A row that is part of another.
    (&[2, 7], &[1, 5, 1], &[1]),
    // A cheap column hits all.
    (&[9, 10, 12], &[2, 2, 2, 3], &[3]),
    // The ratio prefers the column in the middle; the two others hit all.
    (&[3, 3, 6, 6, 1, 4], &[3, 2, 3], &[0, 2]),
    // A column of weight 0.
    (&[5, 6], &[1, 1, 0], &[2]),
    // An empty row, and a column that has no weight.
    (&[0, 8, 6], &[1, 1, 2], &[1]),
    (&[], &[1, 1], &[]),
];

#[test]
fn lightest_sets_are_found(rt: HostRuntime) -> Result<(), Fail> {
    for (numbers, weights, set) in &CASES {
        let found = found(rt.alloc(), numbers, weights)?;
        assert_eq!(rt; found.as_slice(), *set);
    }
    Ok(())
}

/// Whether the set that is found for the rows hits each of them.
fn are_hit(alloc: Global, rows: &[Row]) -> Result<bool, OutOfMemory> {
    let weights: [u32; 8] = [3, 5, 6, 4, 9, 4, 3, 4];
    let set = hitting_set(alloc, rows, &weights, 4)?;
    for row in rows {
        if !is_hit(row, set.as_slice()) {
            return Ok(false);
        }
    }
    Ok(true)
}

#[test]
fn each_row_is_hit(rt: HostRuntime) -> Result<(), Fail> {
    let numbers: [u32; 9] = [21, 134, 36, 53, 20, 164, 136, 197, 105];
    let rows = rows_of(rt.alloc(), &numbers)?;
    assert!(rt; are_hit(rt.alloc(), rows.as_slice())?);
    Ok(())
}
