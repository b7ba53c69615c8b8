//! How operands are joined, and the edges of a graph that join two others so.

ghost use Rattle.std.specs.Prelude.{◌≡◌, ◌↔◌, Some, IsTrue};
ghost use Rattle.eco_aig.specs.declared.Edge.{Edge};
ghost use Rattle.eco_splice.specs.Trees.{Joins, Meets};

use eco_aig::{Aig, Edge};

/// How the operands of a gate are joined.
#[derive(Clone, Copy)]
pub(crate) enum Join {
    /// By conjunction: a plain edge to an and-node joins the node's operands.
    Conjunction,
    /// By exclusive disjunction: an edge to a node that is made as `Aig::xor` makes it joins the two edges that the node is made of.
    Parity,
}

impl Join {
    /// Whether the edge is met at this operand; in a parity it is where both go to one node.
    pub(crate) fn meets(self, edge: Edge, operand: Edge) -> bool
        ensures { IsTrue result ↔ Meets self edge operand }
    {
        match self {
            Join::Conjunction => edge == operand,
            Join::Parity => edge.node == operand.node,
        }
    }

    /// The two edges that the edge joins, the first one that `Aig::pair` gives first.
    pub(crate) fn below(self, aig: &Aig, edge: Edge) -> Option<(Edge, Edge)>
        ensures { (first second : Edge) → ((result ≡ Some (first, second)) ↔ Joins aig.now self edge first second) }
    {
        match self {
            Join::Conjunction if edge.complemented => None,
            Join::Conjunction => aig.pair(edge.node),
            Join::Parity => aig.exclusive(edge.node),
        }
    }
}
