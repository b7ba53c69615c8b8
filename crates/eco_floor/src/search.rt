//! The search.

ghost use Rattle.std.specs.Prelude.{◌≡◌, ℕ, List, IfOk, IsTrue};
ghost use Rattle.eco_floor.specs.Search.{AreAbove, AreSettled, IsTurned};
ghost use Rattle.eco_floor.specs.Sets.{IsFloor};
ghost use Rattle.eco_floor.specs.declared.search.Node.TheVariants.{Above as IsAboveNode};

use crate::decision::Decision;
use crate::hints::{branch, plan};
use crate::multipliers::caps;
use crate::packing::{decide_all, is_above, whole};
use crate::row::Row;
use eco_meaning::OutOfMemory;
use std::alloc::Global;

/// What the search finds where these decisions stand.
enum Node {
    /// Each set that agrees with the decisions weighs as much as the best.
    Above,
    /// This is not shown; the column is to be decided next.
    Branch(usize),
    /// The columns that are taken hit all rows, and may weigh less.
    Under,
}

/// Whether no set of columns that hits all rows weighs less than `best`. False where there is one, or it isn't shown within
/// the limit of nodes. A node takes time linear in the columns and in the numbers of columns of the rows, beside the sorting
/// of the rows; the memory is of that order too. Before the first one the rows are read up to 800 times.
pub fn floor(
    alloc: Global,
    rows: &[Row],
    weights: &[u32],
    best: u64,
    limit: u64,
) -> Result<bool, OutOfMemory>
    ensures { IfOk result (λ shown. IsTrue shown → IsFloor rows.now weights.now best) }
{
    let caps = caps(alloc, rows, weights, best)?;
    walk(alloc, rows, weights, caps.as_slice(), best, limit)
}

/// The same, where each row first takes its cap at most.
pub(crate) fn walk(
    alloc: Global,
    rows: &[Row],
    weights: &[u32],
    caps: &[u32],
    best: u64,
    limit: u64,
) -> Result<bool, OutOfMemory>
    ensures { IfOk result (λ shown. IsTrue shown → IsFloor rows.now weights.now best) }
{
    let mut decisions = Vec::new(alloc);
    for _ in 0..limit {
        match look(alloc, rows, weights, caps, best, decisions.as_slice())? {
            Node::Above => {
                if !turn(&mut decisions)? {
                    return Ok(true);
                }
            }
            Node::Branch(column) => decisions.push(Decision::Taken(column))?,
            Node::Under => return Ok(false),
        }
    }
    Ok(false)
}

/// What there is to find under the decisions.
fn look(
    alloc: Global,
    rows: &[Row],
    weights: &[u32],
    caps: &[u32],
    best: u64,
    decisions: &[Decision],
) -> Result<Node, OutOfMemory>
    ensures { IfOk result (λ node. node ≡ IsAboveNode → AreAbove rows.now weights.now best decisions.now) }
{
    let mut slack = whole(alloc, weights)?;
    let start = decide_all(&mut slack, decisions);
    let plan = plan(alloc, slack.as_slice(), rows, caps)?;
    let column = branch(alloc, slack.as_slice(), rows, plan.as_slice())?;
    if is_above(&mut slack, rows, plan.as_slice(), start, best) {
        return Ok(Node::Above);
    }
    Ok(match column {
        Some(column) => Node::Branch(column),
        None => Node::Under,
    })
}

/// Drops the last decisions back to one that takes its column, and leaves that out. False where there is none: each set that
/// hits all rows was dealt with.
fn turn(decisions: &mut Vec<Decision>) -> Result<bool, OutOfMemory>
    ensures { IfOk result (λ more. (rows : List (List ℕ)) (weights : List ℕ) (best : ℕ)
        → AreAbove rows weights best decisions.old.items → AreSettled rows weights best decisions.old.items
        → IsTurned rows weights best decisions.new.items more) }
{
    while let Some(last) = decisions.pop() {
        if let Decision::Taken(column) = last {
            decisions.push(Decision::Left(column))?;
            return Ok(true);
        }
    }
    Ok(false)
}
