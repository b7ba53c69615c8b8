//! Rows of ones against rows of zeros, of which the last column alone is kept.

ghost use Rattle.std.specs.Prelude.{◌≡◌, ◌<◌, All, IfOk, replicate};

use eco_cover::{Kept, Row, next};
use eco_meaning::OutOfMemory;
use std::alloc::Global;
use std::test::Fail;

fn equal_rows(alloc: Global, count: usize, width: usize, bit: bool) -> Result<Vec<Row>, OutOfMemory>
    ensures { IfOk result (λ rows. All (λ row. row ≡ replicate width bit) rows.items) }
{
    let mut rows = Vec::new(alloc);
    for _ in 0..count {
        rows.push(Row::of(vec![in alloc; bit; width]?))?;
    }
    Ok(rows)
}

fn next_of(alloc: Global, from: usize, fixed: &[usize]) -> Result<Option<Kept>, OutOfMemory>
    requires from { from < 3 }
    requires fixed { All (λ column. column < 3) fixed.now }
{
    let ones = equal_rows(alloc, 2, 3, true)?;
    let zeros = equal_rows(alloc, 2, 3, false)?;
    next(alloc, 3, from, fixed, ones.as_slice(), zeros.as_slice())
}

#[test]
fn last_column_is_next(rt: HostRuntime) -> Result<(), Fail> {
    let Some(entry) = next_of(rt.alloc(), 0, &[])? else {
        return Err("no column is next".into());
    };
    assert_eq!(rt; (entry.column, entry.one, entry.zero), (2, 0, 0));
    assert!(rt; next_of(rt.alloc(), 1, &[0])?.is_none());
    Ok(())
}
