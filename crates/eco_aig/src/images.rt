//! Edges that stand for the nodes of a graph.

ghost use Rattle.std.specs.Prelude.{◌≡◌, ◌≤◌, ◌<◌, ℕ, Bool, List, [], All, Some, None, IfOk, length, slice_get};
ghost use Rattle.std.specs.List.{AllZip};
ghost use Rattle.eco_aig.specs.declared.edge.Edge.{Edge};
ghost use Rattle.eco_aig.specs.declared.node.Node.{Node};
ghost use Rattle.eco_lists.specs.Bits.{exactly_one};
ghost use Rattle.eco_aig.specs.Edges.{value_of};
ghost use Rattle.eco_aig.specs.Graph.{IsEdge, HasValue};
ghost use Rattle.eco_aig.specs.Swept.{IsSwept, AreImages, StandsFor};

use crate::edge::Edge;
use crate::graph::Aig;
use eco_meaning::OutOfMemory;
use std::alloc::Global;
use std::marker::Model;

/// Edges that stand for the nodes of a graph that grows: what has a node's bit and was found to be simpler, or the node itself.
#[derive(Drop)]
pub struct Images {
    edges: Vec<Edge>,
}

impl Model for Images {
    ghost use Rattle.std.specs.Prelude.{List};
    ghost use Rattle.eco_aig.specs.declared.edge.Edge.{Edge};

    ghost Value = { List Edge };

    ghost view = { λ images. images.edges.items };
}

impl Images {
    /// Each node stands for itself.
    pub fn new(alloc: Global) -> Images
        ensures empty { result ≡ [] }
        ensures swept { (nodes : List Node) → IsSwept nodes result }
    {
        Images {
            edges: Vec::new(alloc),
        }
    }

    /// The edge that stands for an edge.
    pub fn image_of(&self, edge: Edge) -> Edge
        ensures found { (e : Edge) (w : ℕ → Bool) → slice_get self.now edge.node ≡ Some e → value_of w result ≡ exactly_one edge.complemented (value_of w e) }
        ensures itself { slice_get self.now edge.node ≡ None → result ≡ edge }
        ensures value { (nodes : List Node) → IsEdge nodes edge → IsSwept nodes self.now → HasValue nodes result (λ w. value_of w edge) }
    {
        match self.edges.get(edge.node as usize) {
            None => edge,
            Some(image) => {
                if edge.complemented {
                    image.not()
                } else {
                    *image
                }
            }
        }
    }

    /// The edges that stand for the edges, in order.
    pub fn images_of(&self, edges: &[Edge]) -> Result<Vec<Edge>, OutOfMemory>
        ensures stand { IfOk result (λ images. AllZip (StandsFor self.now) edges.now images.items) }
        ensures images { IfOk result (λ images. (nodes : List Node) → All (IsEdge nodes) edges.now → IsSwept nodes self.now → AreImages nodes edges.now images.items) }
    {
        let mut images = Vec::new(*self.edges.allocator());
        for edge in edges {
            images.push(self.image_of(*edge))?;
        }
        Ok(images)
    }

    /// The edge, which has the node's bit, stands for the node from now on.
    pub fn put(&mut self, aig: &Aig, node: u64, edge: Edge) -> Result<(), OutOfMemory>
        requires within { node < length aig.now }
        requires value { HasValue aig.now edge (λ w. w node) }
        requires swept { IsSwept aig.now self.old }
        ensures swept { IsSwept aig.now self.new }
        ensures put { IfOk result (λ _. slice_get self.new node ≡ Some edge) }
    {
        self.stretch(aig)?;
        self.edges[node as usize] = edge;
        Ok(())
    }

    /// Lets each node have a place: it stands for itself where nothing else was found.
    fn stretch(&mut self, aig: &Aig) -> Result<(), OutOfMemory>
        requires { IsSwept aig.now self.old }
        ensures swept { IsSwept aig.now self.new }
        ensures reach { IfOk result (λ _. length aig.now ≤ length self.new) }
    {
        for number in self.edges.len() as u64..aig.nodes() {
            self.edges.push(Edge {
                node: number,
                complemented: false,
            })?;
        }
        Ok(())
    }
}
