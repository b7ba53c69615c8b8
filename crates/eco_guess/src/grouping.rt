//! Groups of targets.

ghost use Rattle.std.specs.Prelude.{◌≡◌, length, IfOk};

use crate::opened::Opened;
use eco_aig::Edge;
use eco_meaning::OutOfMemory;
use std::alloc::Global;

/// For each open target the number of the first one of its group. Two targets are of one group if both reach an output, or if
/// others lead from the one to the other so. Outside its group's outputs a target changes nothing. Linear in the graph, but for
/// the square of the number of targets.
///
/// Errors: out of memory.
pub fn groups(alloc: Global, opened: &Opened) -> Result<Vec<usize>, OutOfMemory>
    ensures count { IfOk result (λ firsts. length firsts.items ≡ length opened.now.targets.now) }
{
    let reach = output_marks(alloc, opened)?;
    let mut firsts = numbers(alloc, opened.targets)?;
    let mut some = target_numbers(alloc, opened)?;
    for (node, mark) in reach.iter().enumerate() {
        if *mark {
            join_operands(opened, node, &mut some, &mut firsts);
        }
    }
    Ok(firsts)
}

/// The numbers of the targets, in order.
fn numbers(alloc: Global, targets: &[Edge]) -> Result<Vec<usize>, OutOfMemory>
    ensures { IfOk result (λ numbers. length numbers.items ≡ length targets.now) }
{
    let mut numbers = Vec::new(alloc);
    for number in 0..targets.len() {
        numbers.push(number)?;
    }
    Ok(numbers)
}

/// One bit for each node: whether some output reaches it.
fn output_marks(alloc: Global, opened: &Opened) -> Result<Vec<bool>, OutOfMemory> {
    let nodes = opened.graph.nodes();
    let mut marks = vec![in alloc; false; nodes as usize]?;
    for output in opened.outputs {
        set_mark(&mut marks, *output);
    }
    for node in (0..nodes).rev() {
        mark_operands(opened, node, &mut marks);
    }
    Ok(marks)
}

/// Marks the node of the edge.
fn set_mark(marks: &mut Vec<bool>, edge: Edge) {
    if let Some(mark) = marks.get_mut(edge.node as usize) {
        *mark = true;
    }
}

/// Marks the operands of the node, if it has a mark itself.
fn mark_operands(opened: &Opened, node: u64, marks: &mut Vec<bool>) {
    if !marks.get(node as usize).copied().unwrap_or(false) {
        return;
    }
    if let Some((first, second)) = opened.graph.pair(node) {
        set_mark(marks, first);
        set_mark(marks, second);
    }
}

/// For each node the number of the target that it is, where it is one.
fn target_numbers(alloc: Global, opened: &Opened) -> Result<Vec<Option<usize>>, OutOfMemory> {
    let mut some = vec![in alloc; None; opened.graph.nodes() as usize]?;
    for (number, target) in opened.targets.iter().enumerate() {
        set_number(&mut some, target.node as usize, Some(number));
    }
    Ok(some)
}

/// Notes the number of a target for the node.
fn set_number(some: &mut Vec<Option<usize>>, node: usize, number: Option<usize>) {
    if let Some(place) = some.get_mut(node) {
        *place = number;
    }
}

/// Notes for an and-node a target that its operands lie behind, and joins the groups of two such targets.
fn join_operands(
    opened: &Opened,
    node: usize,
    some: &mut Vec<Option<usize>>,
    firsts: &mut Vec<usize>,
)
    ensures { length firsts.new.items ≡ length firsts.old.items }
{
    if let Some((first, second)) = opened.graph.pair(node as u64) {
        let one = number_at(some.as_slice(), first);
        let other = number_at(some.as_slice(), second);
        set_number(some, node, one.or(other));
        if let (Some(one), Some(other)) = (one, other) {
            join(firsts, one, other);
        }
    }
}

/// The number of a target that the edge lies behind.
fn number_at(some: &[Option<usize>], edge: Edge) -> Option<usize> {
    some.get(edge.node as usize).copied().unwrap_or(None)
}

/// Joins the groups of two targets.
fn join(firsts: &mut Vec<usize>, one: usize, other: usize)
    ensures { length firsts.new.items ≡ length firsts.old.items }
{
    let one = firsts.get(one).copied().unwrap_or(one);
    let other = firsts.get(other).copied().unwrap_or(other);
    let least = if one < other { one } else { other };
    for first in firsts.iter_mut() {
        if *first == one || *first == other {
            *first = least;
        }
    }
}
