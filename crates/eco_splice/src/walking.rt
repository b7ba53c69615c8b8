//! Whether an edge joins several operands, by the nodes between.

ghost use Rattle.std.specs.Prelude.{◌↔◌, ◌∷◌, IfOk, IsTrue, reverse};
ghost use Rattle.std.specs.Option.{MatchOption};
ghost use Rattle.eco_aig.specs.Graph.{IsGraph};
ghost use Rattle.eco_splice.specs.Trees.{IsJoined};
ghost use Rattle.eco_splice.specs.Walks.{Covers, GoesOn};

use crate::join::Join;
use eco_aig::{Aig, Edge};
use eco_meaning::OutOfMemory;
use std::alloc::Global;

/// What is left of a walk.
#[derive(Clone, Copy)]
struct Left<'l> {
    /// The operands that are left to meet.
    operands: &'l [Edge],
    /// Whether an odd number of the edges and operands that the walk met are complements.
    turned: bool,
}

/// Whether there are two operands or more, and a walk down from the edge meets just these, in order, with signs that cancel. Where
/// the edge at hand is met at the next operand, it goes on to the last edge that waits, else to the first of the two edges that
/// the edge joins, while the second one waits. There is one join fewer than operands, so it takes time linear in these.
pub(crate) fn is_joined(
    alloc: Global,
    aig: &Aig,
    join: Join,
    edge: Edge,
    operands: &[Edge],
) -> Result<bool, OutOfMemory>
    requires graph { IsGraph aig.now }
    ensures { IfOk result (λ is. IsTrue is ↔ IsJoined aig.now join edge operands.now) }
{
    if operands.len() < 2 {
        return Ok(false);
    }
    let mut stack = vec![in alloc; edge]?;
    let mut left = Left {
        operands,
        turned: false,
    };
    while let Some(next) = stack.pop() {
        match step(aig, join, next, &mut stack, left)? {
            Some(later) => left = later,
            None => return Ok(false),
        }
    }
    Ok(left.operands.is_empty() && !left.turned)
}

/// Meets the next operand, or goes on to the two edges that the edge joins: then it gives what is left, and nothing where there is
/// no tree below the edge and those that wait whose leaves meet the operands. Each edge that waits takes an operand of its own.
fn step<'l>(
    aig: &Aig,
    join: Join,
    edge: Edge,
    stack: &mut Vec<Edge>,
    left: Left<'l>,
) -> Result<Option<Left<'l>>, OutOfMemory>
    requires graph { IsGraph aig.now }
    ensures { IfOk result (λ next. MatchOption next
        (Covers aig.now join (edge ∷ reverse stack.old.items) left.entry.operands.now left.entry.turned → ⊥)
        (λ later. GoesOn aig.now join edge stack.old.items stack.new.items left.entry.operands.now later.operands.now left.entry.turned later.turned)) }
{
    let Some((operand, later)) = left.operands.split_first() else {
        return Ok(None);
    };
    if join.meets(edge, *operand) {
        return Ok(Some(Left {
            operands: later,
            turned: left.turned != (edge.complemented != operand.complemented),
        }));
    }
    match join.below(aig, edge) {
        Some((first, second)) if stack.len() + 2 <= left.operands.len() => {
            stack.push(second)?;
            stack.push(first)?;
            Ok(Some(Left {
                operands: left.operands,
                turned: left.turned != edge.complemented,
            }))
        }
        _ => Ok(None),
    }
}
