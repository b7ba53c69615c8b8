//! What a base costs at least.

ghost use Rattle.std.specs.Prelude.{◌≡◌, IfOk};
ghost use Rattle.eco_floor.specs.Sets.{IsFloor};

use eco_floor::{Row, bound};
use eco_meaning::OutOfMemory;
use std::alloc::Global;

/// How many nodes the search for a floor may have for each question of the effort, and at most.
const NODES: u64 = 1_000;

const MOST_NODES: u64 = 4_000;

/// How many columns the rows of all these nodes together may have.
const READS: u64 = 25_000_000;

/// What each set of columns that hits all rows weighs at least: the cost, where the search shows that, else less.
pub(crate) fn floor_of(
    alloc: Global,
    rows: &[Row],
    weights: &[u32],
    cost: u64,
    effort: u32,
) -> Result<u64, OutOfMemory>
    ensures { IfOk result (IsFloor rows.now weights.now) }
{
    bound(alloc, rows, weights, cost, nodes_for(rows, effort))
}

/// How many nodes the search for a floor of these rows may have.
fn nodes_for(rows: &[Row], effort: u32) -> u64 {
    let nodes = u64::from(effort).saturating_mul(NODES).min(MOST_NODES);
    let columns = (columns_of(rows) as u64).saturating_add(1);
    match READS.checked_div(columns) {
        None => nodes,
        Some(most) => nodes.min(most),
    }
}

/// How many columns the rows have together.
pub(crate) fn columns_of(rows: &[Row]) -> usize {
    let mut sum: usize = 0;
    for row in rows {
        sum = sum.saturating_add(row.columns().len());
    }
    sum
}
