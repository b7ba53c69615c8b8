//! What is settled of each node before its gate is written.

use crate::groups::Reader;
use eco_aig::Edge;
use std::alloc::Global;

/// What stands at a node.
#[derive(Clone, Copy, PartialEq, Eq)]
pub(crate) enum Shape {
    /// Nothing: no gate and no root reads it.
    Unread,
    /// An input, or the constant.
    Input,
    /// The conjunction of the node's operands.
    And,
    /// The exclusive disjunction of the operands of the node's first operand.
    Xor,
}

/// What is settled of the nodes, in lists by their numbers. A gate's leaves are the edges that it reads.
#[derive(Drop)]
pub(crate) struct Plan {
    pub(crate) shapes: Vec<Shape>,
    /// How many gates and roots read the node.
    pub(crate) reads: Vec<u64>,
    /// Whether the node has a reader that isn't a conjunction, or that reads its complement.
    pub(crate) bars_and: Vec<bool>,
    /// Whether the node has a reader that isn't an exclusive disjunction.
    pub(crate) bars_xor: Vec<bool>,
    /// How many leaves the node's gate has, or would have.
    pub(crate) sizes: Vec<u64>,
    /// Whether the node has no gate, since its readers read its leaves in its place.
    pub(crate) absorbed: Vec<bool>,
    /// The leaves of the node's gate, in the order in which they are met from the node down, the first operands first.
    pub(crate) leaves: Vec<Vec<Edge>>,
    /// Whether the exclusive disjunction of the leaves is the complement of the node.
    pub(crate) is_odd: Vec<bool>,
    /// Whether the gate of a conjunction reads the complements of its leaves.
    pub(crate) turned: Vec<bool>,
    /// The conjunctions that read the node.
    pub(crate) readers: Vec<Vec<Reader>>,
    /// How many gates and roots need just this sign of the node, by the code of the edge.
    pub(crate) wants: Vec<u64>,
    /// The first target that has the edge, by the edge's code; none for constants and inputs.
    pub(crate) drivers: Vec<Option<u64>>,
}

impl Plan {
    /// The plan of no nodes.
    pub(crate) fn new(alloc: Global) -> Plan {
        Plan {
            shapes: Vec::new(alloc),
            reads: Vec::new(alloc),
            bars_and: Vec::new(alloc),
            bars_xor: Vec::new(alloc),
            sizes: Vec::new(alloc),
            absorbed: Vec::new(alloc),
            leaves: Vec::new(alloc),
            is_odd: Vec::new(alloc),
            turned: Vec::new(alloc),
            readers: Vec::new(alloc),
            wants: Vec::new(alloc),
            drivers: Vec::new(alloc),
        }
    }

    /// What stands at the node.
    pub(crate) fn shape(&self, node: u64) -> Shape {
        shape_at(self.shapes.as_slice(), node)
    }

    /// Whether the node has a gate of its own.
    pub(crate) fn has_gate(&self, node: u64) -> bool {
        match self.shape(node) {
            Shape::And | Shape::Xor => !is_set(self.absorbed.as_slice(), node),
            _ => false,
        }
    }

    /// The edge to the node that its gate or its input has.
    pub(crate) fn net(&self, node: u64) -> Edge {
        let plain = Edge {
            node,
            complemented: false,
        };
        if self.shape(node) != Shape::Input
            && self.is_wanted(plain.not())
            && !self.is_wanted(plain)
        {
            return plain.not();
        }
        plain
    }

    /// Whether a gate or a root needs just this sign of the node.
    pub(crate) fn is_wanted(&self, edge: Edge) -> bool {
        number_at(self.wants.as_slice(), code(edge)) > 0
    }

    /// The leaves of the node's gate.
    pub(crate) fn leaves(&self, node: u64) -> &[Edge] {
        match self.leaves.get(node as usize) {
            None => &[],
            Some(leaves) => leaves.as_slice(),
        }
    }
}

/// The number of the edge among all edges: those of a node stand together, the plain one first.
pub(crate) fn code(edge: Edge) -> u64 {
    let double = edge.node().saturating_mul(2);
    if edge.complemented() {
        double.saturating_add(1)
    } else {
        double
    }
}

/// What stands at the node.
pub(crate) fn shape_at(shapes: &[Shape], node: u64) -> Shape {
    match shapes.get(node as usize) {
        None => Shape::Unread,
        Some(shape) => *shape,
    }
}

/// The number at the place, 0 beyond the end.
pub(crate) fn number_at(numbers: &[u64], place: u64) -> u64 {
    match numbers.get(place as usize) {
        None => 0,
        Some(number) => *number,
    }
}

/// Whether the flag at the place is set; false beyond the end.
pub(crate) fn is_set(flags: &[bool], place: u64) -> bool {
    match flags.get(place as usize) {
        None => false,
        Some(flag) => *flag,
    }
}

/// Sets the flag at the place.
pub(crate) fn set(flags: &mut Vec<bool>, place: u64) {
    if let Some(flag) = flags.get_mut(place as usize) {
        *flag = true;
    }
}

/// Adds 1 to the number at the place.
pub(crate) fn raise(numbers: &mut Vec<u64>, place: u64) {
    if let Some(number) = numbers.get_mut(place as usize) {
        *number = number.saturating_add(1);
    }
}

/// Takes 1 from the number at the place.
pub(crate) fn lower(numbers: &mut Vec<u64>, place: u64) {
    if let Some(number) = numbers.get_mut(place as usize) {
        *number = number.saturating_sub(1);
    }
}
