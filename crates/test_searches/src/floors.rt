//! The least weights of eight columns' hitting sets, which trying all 256 sets gives.

use crate::rows::rows_of;
use eco_floor::{Row, floor};
use eco_meaning::OutOfMemory;
use std::alloc::Global;
use std::test::Fail;

/// Whether the search shows that no hitting set weighs less than `best`.
fn is_shown(alloc: Global, rows: &[u32], weights: &[u32], best: u64) -> Result<bool, OutOfMemory> {
    let list = rows_of(alloc, rows)?;
    floor(alloc, list.as_slice(), weights, best, 1000)
}

/// Rows, weights, and the least weight.
const CASES: [(&[u32], &[u32], u64); 4] = [
    (
        &[3, 6, 12, 24, 48, 96, 192, 129],
        &[1, 1, 1, 1, 1, 1, 1, 1],
        4,
    ),
    (
        &[40, 80, 9, 142, 69, 130, 65, 72, 68],
        &[5, 6, 9, 1, 8, 4, 1, 3],
        5,
    ),
    (
        &[21, 134, 36, 53, 20, 164, 136, 197, 105],
        &[3, 5, 6, 4, 9, 4, 3, 4],
        10,
    ),
    (&[7, 25, 97, 42, 82, 76, 52], &[3, 3, 3, 3, 3, 3, 3, 3], 9),
];

#[test]
fn least_weight_is_the_floor(rt: HostRuntime) -> Result<(), Fail> {
    for (rows, weights, least) in &CASES {
        assert!(rt; is_shown(rt.alloc(), rows, weights, *least)?);
        assert!(rt; !is_shown(rt.alloc(), rows, weights, least.saturating_add(1))?);
    }
    Ok(())
}

#[test]
fn rows_have_their_columns(rt: HostRuntime) -> Result<(), Fail> {
    let row = Row::between(rt.alloc(), &[true, false, true], &[true, true, false])?;
    assert_eq!(rt; row.columns(), [1, 2].as_slice());
    assert!(rt; row.has(2) && !row.has(0));
    Ok(())
}
