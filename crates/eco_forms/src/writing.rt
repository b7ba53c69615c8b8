//! The gates of a plan.

use crate::plan::{Plan, Shape, code, is_set};
use eco_aig::{Aig, Edge};
use eco_meaning::{Kind, OutOfMemory};
use eco_splice::Line;
use std::alloc::Global;

/// Settles which target has a gate's own net: the first one that has its edge.
pub(crate) fn settle_drivers(
    alloc: Global,
    plan: &mut Plan,
    aig: &Aig,
    roots: &[Edge],
) -> Result<(), OutOfMemory> {
    plan.drivers = vec![in alloc; None; (aig.nodes() as usize).saturating_mul(2)]?;
    for (target, root) in roots.iter().enumerate() {
        if root.complemented() || plan.shape(root.node()) != Shape::Input {
            settle_driver(&mut plan.drivers, *root, target as u64);
        }
    }
    Ok(())
}

/// Lets the target have the edge, if none has it yet and it isn't a constant.
fn settle_driver(drivers: &mut Vec<Option<u64>>, root: Edge, target: u64) {
    if root.node() == 0 {
        return;
    }
    if let Some(driver) = drivers.get_mut(code(root) as usize) {
        if driver.is_none() {
            *driver = Some(target);
        }
    }
}

/// The target that has the edge.
fn driver(plan: &Plan, edge: Edge) -> Option<u64> {
    match plan.drivers.get(code(edge) as usize) {
        None => None,
        Some(driver) => *driver,
    }
}

/// The lines of the plan: nodes in order, the complement of each behind it, and then the targets that have no line of these.
pub(crate) fn write_lines(
    alloc: Global,
    plan: &Plan,
    aig: &Aig,
    roots: &[Edge],
) -> Result<Vec<Line>, OutOfMemory> {
    let mut lines = Vec::new(alloc);
    for node in 1..aig.nodes() {
        write_node(alloc, plan, node, &mut lines)?;
    }
    for (target, root) in roots.iter().enumerate() {
        if driver(plan, *root) != Some(target as u64) {
            lines.push(line(alloc, *root, Kind::Buf, *root, Some(target as u64))?)?;
        }
    }
    Ok(lines)
}

/// Writes the gate of the node, if it has one, and that of the complement of its net, if it needs one.
fn write_node(
    alloc: Global,
    plan: &Plan,
    node: u64,
    lines: &mut Vec<Line>,
) -> Result<(), OutOfMemory> {
    let net = plan.net(node);
    if plan.has_gate(node) {
        lines.push(gate(alloc, plan, net)?)?;
    }
    if plan.is_wanted(net.not()) {
        let target = driver(plan, net.not());
        lines.push(line(alloc, net.not(), Kind::Not, net, target)?)?;
    }
    Ok(())
}

/// A gate of one input.
fn line(
    alloc: Global,
    edge: Edge,
    kind: Kind,
    operand: Edge,
    target: Option<u64>,
) -> Result<Line, OutOfMemory> {
    Ok(Line {
        edge,
        kind,
        operands: vec![in alloc; operand]?,
        target,
    })
}

/// The gate that gives this edge.
fn gate(alloc: Global, plan: &Plan, edge: Edge) -> Result<Line, OutOfMemory> {
    let node = edge.node();
    let mut operands = Vec::new(alloc);
    let kind = match plan.shape(node) {
        Shape::Xor => {
            let is_odd = read_nets(plan, node, &mut operands)?;
            kind_of_difference(is_odd != edge.complemented())
        }
        _ => {
            let is_turned = is_set(plan.turned.as_slice(), node);
            read_leaves(plan.leaves(node), is_turned, &mut operands)?;
            kind_of_conjunction(is_turned, edge.complemented())
        }
    };
    Ok(Line {
        edge,
        kind,
        operands,
        target: driver(plan, edge),
    })
}

/// The kind of a gate that gives an exclusive disjunction, or its complement where the number of complements is odd.
fn kind_of_difference(is_odd: bool) -> Kind {
    if is_odd { Kind::Xnor } else { Kind::Xor }
}

/// The kind of a gate that gives a conjunction or its complement, over the leaves or their complements.
fn kind_of_conjunction(is_turned: bool, is_complement: bool) -> Kind {
    match (is_turned, is_complement) {
        (false, false) => Kind::And,
        (false, true) => Kind::Nand,
        (true, false) => Kind::Nor,
        (true, true) => Kind::Or,
    }
}

/// Lists the leaves, or their complements if they are turned.
fn read_leaves(
    leaves: &[Edge],
    is_turned: bool,
    operands: &mut Vec<Edge>,
) -> Result<(), OutOfMemory> {
    for leaf in leaves {
        let operand = if is_turned { leaf.not() } else { *leaf };
        operands.push(operand)?;
    }
    Ok(())
}

/// Lists the nets of the leaves, and answers whether the exclusive disjunction of these is the complement of the node.
fn read_nets(plan: &Plan, node: u64, operands: &mut Vec<Edge>) -> Result<bool, OutOfMemory> {
    let mut is_odd = is_set(plan.is_odd.as_slice(), node);
    for leaf in plan.leaves(node) {
        let net = plan.net(leaf.node());
        is_odd = is_odd != (net.complemented() != leaf.complemented());
        operands.push(net)?;
    }
    Ok(is_odd)
}
