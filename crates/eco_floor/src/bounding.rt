//! What hitting sets weigh at least.

ghost use Rattle.std.specs.Prelude.{◌≡◌, IfOk};
ghost use Rattle.eco_floor.specs.Sets.{IsFloor};

use crate::multipliers::caps;
use crate::row::Row;
use crate::search::walk;
use eco_meaning::OutOfMemory;
use std::alloc::Global;

/// How many lower numbers are tried where the best isn't shown.
const TRIES: u32 = 8;

/// How many times more nodes the search for the best may have than that for a lower number.
const PART: u64 = 16;

/// What each set of columns that hits all rows weighs at least: `best`, where the search shows that within the limit of nodes,
/// else a lower number, by bisection, with half as many nodes. The multipliers are found once for all of these searches. Time
/// and memory are those of `floor`.
pub fn bound(
    alloc: Global,
    rows: &[Row],
    weights: &[u32],
    best: u64,
    limit: u64,
) -> Result<u64, OutOfMemory>
    ensures { IfOk result (IsFloor rows.now weights.now) }
{
    let caps = caps(alloc, rows, weights, best)?;
    if walk(alloc, rows, weights, caps.as_slice(), best, limit)? {
        return Ok(best);
    }
    lower_bound(alloc, rows, weights, caps.as_slice(), best, limit / PART)
}

/// A bound below the best, by bisection.
fn lower_bound(
    alloc: Global,
    rows: &[Row],
    weights: &[u32],
    caps: &[u32],
    best: u64,
    limit: u64,
) -> Result<u64, OutOfMemory>
    ensures { IfOk result (IsFloor rows.now weights.now) }
{
    let mut shown = 0;
    let mut open_from = best;
    for _ in 0..TRIES {
        let middle = midpoint(shown, open_from);
        if walk(alloc, rows, weights, caps, middle, limit)? {
            shown = middle;
        } else {
            open_from = middle;
        }
    }
    Ok(shown)
}

/// The number halfway between two.
fn midpoint(low: u64, high: u64) -> u64 {
    low.saturating_add(high.saturating_sub(low) / 2)
}
