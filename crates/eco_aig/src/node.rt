//! Nodes of a graph.

ghost use Rattle.std.proofs.Common.{rules};
ghost use Rattle.eco_aig.specs.Nodes.{words};

use crate::edge::Edge;
use std::hash::{Hash, Hasher};

/// A node: the constant 0, an input with the number of this node, or the conjunction of two edges.
#[derive(Clone, Copy, PartialEq, Eq)]
pub(crate) enum Node {
    Zero,
    Input(u64),
    And(Edge, Edge),
}

// A node is fed as a word an operand.
impl Hash for Node {
    ghost hash_input = { words };

    ghost respects_eq = { Prim.search rules };

    fn hash<H: Hasher>(&self, state: &mut H) {
        match self {
            Node::Zero => 0_u64.hash(state),
            Node::Input(number) => number.hash(state),
            Node::And(first, second) => {
                first.hash(state);
                second.hash(state);
            }
        }
    }
}
