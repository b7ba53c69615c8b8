//! Parts of a graph, copied into a graph of their own.

ghost use Rattle.std.specs.Prelude.{IfOk};
ghost use Rattle.eco_sweep.specs.Parts.{Mirrors};

use crate::cone::Cone;
use eco_aig::{Aig, Edge};
use eco_keyed::Keyed;
use eco_meaning::OutOfMemory;
use std::alloc::Global;

/// Copies of nodes: an and-node of which both operands have copies is the conjunction of these, the constant is itself,
/// and any other node is an input.
#[derive(Drop)]
pub(crate) struct Part {
    pub graph: Aig,
    pub copies: Vec<Edge>,
    /// the nodes of which the inputs are copies
    pub sources: Vec<u64>,
    /// whether each input is the copy of an input
    pub is_whole: bool,
}

impl Part {
    ghost use Rattle.std.specs.Prelude.{◌≡◌, ◌+◌, ℕ, List, [], IfOk, OnOk, IfSome, Some, length, slice_get};
    ghost use Rattle.eco_aig.specs.declared.node.Node.{Node};
    ghost use Rattle.eco_aig.specs.Graph.{IsGraph, IsEdge};
    ghost use Rattle.eco_sweep.specs.Parts.{Mirrors, IsCopy, AreOperandCopies};

    /// No copies.
    pub fn new(alloc: Global, keyed: Keyed) -> Result<Part, OutOfMemory>
        ensures mirrors { IfOk result (λ part. (whole : List Node) (nodes : List ℕ) → Mirrors whole nodes part.graph part.copies.items) }
        ensures none { IfOk result (λ part. part.copies.items ≡ []) }
    {
        Ok(Part {
            graph: Aig::keyed(alloc, keyed)?,
            copies: Vec::new(alloc),
            sources: Vec::new(alloc),
            is_whole: true,
        })
    }

    /// Adds the copy of the next node of the cone.
    pub fn add(&mut self, aig: &Aig, cone: &Cone, node: u64) -> Result<(), OutOfMemory>
        requires next { slice_get cone.now.nodes.items (length self.old.copies.items) ≡ Some node }
        requires mirrors { Mirrors aig.now cone.now.nodes.items self.old.graph self.old.copies.items }
        ensures mirrors { OnOk result (Mirrors aig.now cone.now.nodes.items self.new.graph self.new.copies.items) }
        ensures count { OnOk result (length self.new.copies.items ≡ length self.old.copies.items + 1) }
    {
        // it is a graph: node 0 is the constant
        let _ = aig.nodes();
        if node == 0 {
            return self.add_constant();
        }
        match self.operands(aig, cone, node) {
            Some((first, second)) => self.add_conjunction(first, second),
            None => self.add_input(aig, node),
        }
    }

    /// The copy of an edge; None where its node has none.
    pub fn copy(&self, cone: &Cone, edge: Edge) -> Option<Edge>
        ensures { (whole : List Node) → Mirrors whole cone.now.nodes.items self.now.graph self.now.copies.items
            → IfSome result (IsCopy cone.now.nodes.items self.now.graph self.now.copies.items edge) }
    {
        let place = cone.place(edge.node())?;
        let copy = *self.copies.get(place)?;
        Some(if edge.complemented() {
            copy.not()
        } else {
            copy
        })
    }

    /// The copies of an and-node's operands; None where it is none, and where one of them has no copy.
    fn operands(&self, aig: &Aig, cone: &Cone, node: u64) -> Option<(Edge, Edge)>
        requires { Mirrors aig.now cone.now.nodes.items self.now.graph self.now.copies.items }
        ensures { IfSome result (λ pair. AreOperandCopies aig.now cone.now.nodes.items self.now.graph self.now.copies.items node pair.0 pair.1) }
    {
        let (first, second) = aig.pair(node)?;
        let first = self.copy(cone, first)?;
        let second = self.copy(cone, second)?;
        Some((first, second))
    }

    /// Adds the constant as its own copy.
    fn add_constant(&mut self) -> Result<(), OutOfMemory>
        ensures mirrors { (whole : List Node) (nodes : List ℕ) → IsGraph whole → slice_get nodes (length self.old.copies.items) ≡ Some 0
            → Mirrors whole nodes self.old.graph self.old.copies.items → OnOk result (Mirrors whole nodes self.new.graph self.new.copies.items) }
        ensures count { OnOk result (length self.new.copies.items ≡ length self.old.copies.items + 1) }
    {
        // it is a graph: node 0 is the constant
        let _ = self.graph.nodes();
        self.copies.push(Edge::ZERO)?;
        Ok(())
    }

    /// Adds the conjunction of the copies of a node's operands.
    fn add_conjunction(&mut self, first: Edge, second: Edge) -> Result<(), OutOfMemory>
        requires first { IsEdge self.old.graph first }
        requires second { IsEdge self.old.graph second }
        ensures mirrors { (whole : List Node) (nodes : List ℕ) (node : ℕ) → slice_get nodes (length self.old.copies.items) ≡ Some node
            → Mirrors whole nodes self.old.graph self.old.copies.items
            → AreOperandCopies whole nodes self.old.graph self.old.copies.items node first second
            → OnOk result (Mirrors whole nodes self.new.graph self.new.copies.items) }
        ensures count { OnOk result (length self.new.copies.items ≡ length self.old.copies.items + 1) }
    {
        // it is a graph, and it stays one: its valuations go on to new nodes
        let _ = self.graph.nodes();
        let copy = self.graph.and(first, second)?;
        let _ = self.graph.nodes();
        self.copies.push(copy)?;
        Ok(())
    }

    /// Adds an input as the copy of the node.
    fn add_input(&mut self, aig: &Aig, node: u64) -> Result<(), OutOfMemory>
        ensures mirrors { (whole : List Node) (nodes : List ℕ) → slice_get nodes (length self.old.copies.items) ≡ Some node
            → Mirrors whole nodes self.old.graph self.old.copies.items → OnOk result (Mirrors whole nodes self.new.graph self.new.copies.items) }
        ensures count { OnOk result (length self.new.copies.items ≡ length self.old.copies.items + 1) }
    {
        // it is a graph, and it stays one: its valuations go on to the input
        let _ = self.graph.nodes();
        let copy = self.graph.input()?;
        let _ = self.graph.nodes();
        self.copies.push(copy)?;
        self.sources.push(node)?;
        self.is_whole = self.is_whole && aig.pair(node).is_none();
        Ok(())
    }
}

/// The copies of the cone's nodes.
pub(crate) fn copied(alloc: Global, aig: &Aig, cone: &Cone) -> Result<Part, OutOfMemory>
    ensures { IfOk result (λ part. Mirrors aig.now cone.now.nodes.items part.graph part.copies.items) }
{
    let mut part = Part::new(alloc, aig.hasher())?;
    for node in &cone.nodes {
        part.add(aig, cone, *node)?;
    }
    Ok(part)
}
