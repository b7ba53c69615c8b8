//! Conjunctions that need no node.

ghost use Rattle.std.specs.Prelude.{◌≡◌};
ghost use Rattle.eco_aig.specs.Graph.{simple_and, in_order};

use crate::edge::Edge;

/// The conjunction of the edges, where one is a constant or they are equal or complementary.
pub(crate) fn simple_and(a: Edge, b: Edge) -> Option<Edge>
    ensures { result ≡ simple_and a b }
{
    if a.node == 0 {
        Some(if a.complemented { b } else { Edge::ZERO })
    } else if b.node == 0 {
        Some(if b.complemented { a } else { Edge::ZERO })
    } else if a.node == b.node {
        Some(if a.complemented == b.complemented {
            a
        } else {
            Edge::ZERO
        })
    } else {
        None
    }
}

/// The edges, the one to the earlier node first.
pub(crate) fn in_order(a: Edge, b: Edge) -> (Edge, Edge)
    ensures { result ≡ in_order a b }
{
    if a.node < b.node { (a, b) } else { (b, a) }
}
