//! Which first operands of a gate promise most.

use crate::finding::Field;
use crate::form::{Gate, Term};
use crate::simulating::edge_word;
use crate::wanted::Wanted;
use eco_aig::Edge;
use eco_meaning::OutOfMemory;
use std::alloc::Global;

/// The first operands that leave least to the second, so many of each kind: of conjunctions, of disjunctions and, if `with_xor`, of
/// exclusive disjunctions.
pub(crate) fn firsts(
    field: &Field,
    wanted: &Wanted,
    breadth: usize,
    with_xor: bool,
) -> Result<Vec<Term>, OutOfMemory> {
    let mut firsts = Vec::new(field.alloc);
    rank(&mut firsts, field, wanted, Gate::And, breadth)?;
    rank(&mut firsts, field, wanted, Gate::Or, breadth)?;
    if with_xor {
        rank(&mut firsts, field, wanted, Gate::Xor, breadth)?;
    }
    Ok(firsts)
}

/// Lists so many first operands of this gate.
fn rank(
    firsts: &mut Vec<Term>,
    field: &Field,
    wanted: &Wanted,
    gate: Gate,
    breadth: usize,
) -> Result<(), OutOfMemory> {
    let order = order_of(field.alloc, field, wanted, gate)?;
    for (_, node, complemented) in order.iter().take(breadth) {
        firsts.push(Term {
            gate,
            edge: Edge {
                node: *node,
                complemented: *complemented,
            },
        })?;
    }
    Ok(())
}

/// The edges that may be first operands of this gate, with how much each leaves to the second; those that leave least first.
fn order_of(
    alloc: Global,
    field: &Field,
    wanted: &Wanted,
    gate: Gate,
) -> Result<Vec<(u64, u64, bool)>, OutOfMemory> {
    let mut order = Vec::new(alloc);
    for node in 1..field.nodes {
        for complemented in [false, true] {
            let edge = Edge { node, complemented };
            if let Some(left) = left_by(field, wanted, gate, edge) {
                order.push((left, node, complemented))?;
            }
        }
    }
    order.sort_unstable();
    Ok(order)
}

/// At how many patterns the first operand leaves it to the second one to be as it is wanted; nothing if it can't be an operand.
fn left_by(field: &Field, wanted: &Wanted, gate: Gate, edge: Edge) -> Option<u64> {
    let mut left: u64 = 0;
    for (place, column) in field.columns.iter().enumerate() {
        let word = edge_word(column.as_slice(), edge);
        let count = left_at(gate, word, wanted.one(place), wanted.zero(place))?;
        left = left.saturating_add(count);
    }
    Some(left)
}

/// The same at the patterns of one word.
fn left_at(gate: Gate, word: u64, one: u64, zero: u64) -> Option<u64> {
    match gate {
        Gate::And if one & !word == 0 => Some(u64::from((zero & word).count_ones())),
        Gate::Or if zero & word == 0 => Some(u64::from((one & !word).count_ones())),
        Gate::Xor => Some(u64::from((one & !word | zero & word).count_ones())),
        _ => None,
    }
}
