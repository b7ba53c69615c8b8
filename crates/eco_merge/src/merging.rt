//! The merging of a graph's nodes, edge by edge.

ghost use Rattle.std.specs.Prelude.{◌≡◌, ◌≢◌, ◌≤◌, ◌<◌, ◌+◌, ◌-◌, ◌&&◌, ℕ, Some, None, [], ◌∷◌, ◌++◌, List, All, Contains, IfNone, IfOk, IfSome, OnOk, length, slice_get};
ghost use Rattle.eco_aig.specs.declared.edge.Edge.{Edge as GraphEdge};
ghost use Rattle.eco_aig.specs.declared.node.Node.{Node as GraphNode};
ghost use Rattle.eco_aig.specs.Edges.{value_of};
ghost use Rattle.eco_aig.specs.Graph.{Grows, HasValue, IsConjunctionNode, IsEdge, pair_at, simple_and};
ghost use Rattle.eco_aig.specs.Reached.{IsReached};
ghost use Rattle.eco_merge.specs.Images.{IsImage};
ghost use Rattle.eco_merge.specs.Steps.{GainsImage, HasImage, IsEdgeImage, IsJoined, IsMerged, IsReady, IsMergedOrKept, IsVisited, Keeps, undone};

use crate::findings::Findings;
use crate::loose::Loose;
use eco_aig::{Aig, Edge, reached};
use eco_meaning::OutOfMemory;
use eco_trace::Refuter;
use std::alloc::Global;

/// What the nodes of a graph are mapped to: each node that was treated has an image, an edge that has its value. Images go
/// to nodes that are kept, the constant, inputs and conjunctions of images, of which no two are known to be alike.
#[derive(Drop)]
pub(crate) struct Merging {
    alloc: Global,
    pub(crate) images: Vec<Option<Edge>>,
    pub(crate) kept: Vec<u64>,
    pub(crate) findings: Findings,
}

impl Merging {
    /// No node is treated yet.
    pub(crate) fn new(alloc: Global, aig: &Aig) -> Result<Merging, OutOfMemory>
        ensures ready { (limit : ℕ) → IfOk result (IsReady aig.now limit) }
        ensures merged { IfOk result (IsMerged aig.now [] aig.now) }
        ensures undone { IfOk result (λ merging. undone merging.images.items ≡ length aig.now) }
    {
        let images = vec![in alloc; None; aig.nodes() as usize]?;
        let kept = vec![in alloc; 0]?;
        let findings = Findings::new(alloc, aig)?;
        Ok(Merging {
            alloc,
            images,
            kept,
            findings,
        })
    }

    /// The edge that takes the place of this one: the nodes that it reaches are treated, in rising order.
    pub(crate) fn reduce<R: Refuter>(
        &mut self,
        aig: &mut Aig,
        edge: Edge,
        refuter: &mut R,
        limit: u64,
    ) -> Result<Edge, OutOfMemory>
        requires edge { edge.node < length self.old.images.items }
        requires limit { 1 ≤ limit }
        requires ready { IsReady aig.old limit self.old }
        ensures ready { OnOk result (IsReady aig.new limit self.new) }
        ensures image { IfOk result (IsEdgeImage self.new.images.items edge) }
        ensures stay { OnOk result ((k : ℕ) (e : GraphEdge) → IsImage self.old.images.items k e → IsImage self.new.images.items k e) }
        ensures grows { Grows aig.old aig.new (undone self.old.images.items) }
        ensures few { OnOk result (Grows aig.old aig.new (undone self.old.images.items - undone self.new.images.items)) }
        ensures fewer { OnOk result (undone self.new.images.items ≤ undone self.old.images.items) }
        ensures merged { (old : List GraphNode) (roots : List GraphEdge) → IsMerged old roots aig.old self.old
            → OnOk result (IsMerged old (roots ++ edge ∷ []) aig.new self.new) }
    {
        // it is a graph: operands stand before their nodes
        let _ = aig.nodes();
        let marks = reached(self.alloc, aig, &[edge])?;
        for node in 0..self.images.len() {
            if marks[node] {
                self.visit(aig, node as u64, refuter, limit)?;
            }
        }
        Ok(self.image(edge))
    }

    /// Gives the node its image, if it has none.
    fn visit<R: Refuter>(
        &mut self,
        aig: &mut Aig,
        node: u64,
        refuter: &mut R,
        limit: u64,
    ) -> Result<(), OutOfMemory>
        requires node { node < length self.old.images.items }
        requires operands { (a b : GraphEdge) → pair_at aig.old node ≡ Some (a, b)
            → HasImage self.old.images.items a.node × HasImage self.old.images.items b.node }
        requires limit { 1 ≤ limit }
        requires ready { IsReady aig.old limit self.old }
        ensures ready { OnOk result (IsReady aig.new limit self.new) }
        ensures grows { Grows aig.old aig.new (undone self.old.images.items) }
        ensures images { OnOk result (IsVisited aig.old self.old.images.items aig.new self.new.images.items node) }
        ensures merged { (old : List GraphNode) (roots : List GraphEdge) → IsMerged old roots aig.old self.old
            → IsReached old roots node → OnOk result (IsMerged old roots aig.new self.new) }
    {
        if self.images[node as usize].is_some() {
            Ok(())
        } else {
            self.treat(aig, node, refuter, limit)
        }
    }

    /// Gives the node its image.
    fn treat<R: Refuter>(
        &mut self,
        aig: &mut Aig,
        node: u64,
        refuter: &mut R,
        limit: u64,
    ) -> Result<(), OutOfMemory>
        requires untreated { slice_get self.old.images.items node ≡ Some None }
        requires operands { (a b : GraphEdge) → pair_at aig.old node ≡ Some (a, b)
            → HasImage self.old.images.items a.node × HasImage self.old.images.items b.node }
        requires limit { 1 ≤ limit }
        requires ready { IsReady aig.old limit self.old }
        ensures ready { OnOk result (IsReady aig.new limit self.new) }
        ensures grows { Grows aig.old aig.new 1 }
        ensures images { OnOk result (GainsImage self.old.images.items self.new.images.items node) }
        ensures merged { (old : List GraphNode) (roots : List GraphEdge) → IsMerged old roots aig.old self.old
            → IsReached old roots node → OnOk result (IsMerged old roots aig.new self.new) }
    {
        match aig.pair(node) {
            Some((first, second)) => self.treat_conjunction(
                aig, node, first, second, refuter, limit,
            ),
            None => self.treat_leaf(aig, node),
        }
    }

    /// Gives the constant or an input its image, the edge to itself.
    fn treat_leaf(&mut self, aig: &Aig, node: u64) -> Result<(), OutOfMemory>
        requires untreated { slice_get self.old.images.items node ≡ Some None }
        requires leaf { pair_at aig.now node ≡ None }
        ensures ready { (limit : ℕ) → IsReady aig.now limit self.old → OnOk result (IsReady aig.now limit self.new) }
        ensures images { OnOk result (GainsImage self.old.images.items self.new.images.items node) }
        ensures merged { (old : List GraphNode) (roots : List GraphEdge) → IsMerged old roots aig.now self.old
            → IsReached old roots node → OnOk result (IsMerged old roots aig.now self.new) }
    {
        // it is a graph: what is no and-node is the constant or an input
        let _ = aig.nodes();
        self.keep(node)?;
        self.images[node as usize] = Some(Edge {
            node,
            complemented: false,
        });
        Ok(())
    }

    /// Keeps the node from now on.
    fn keep(&mut self, node: u64) -> Result<(), OutOfMemory>
        ensures kept { OnOk result (Keeps self.old.kept.items self.new.kept.items node) }
        ensures rest { self.new ≡ record self.old { kept = self.new.kept } }
    {
        if !self.kept.as_slice().contains(&node) {
            self.kept.push(node)?;
        }
        Ok(())
    }

    /// Gives an and-node its image: that of the conjunction of its operands' images.
    fn treat_conjunction<R: Refuter>(
        &mut self,
        aig: &mut Aig,
        node: u64,
        first: Edge,
        second: Edge,
        refuter: &mut R,
        limit: u64,
    ) -> Result<(), OutOfMemory>
        requires untreated { slice_get self.old.images.items node ≡ Some None }
        requires operands { pair_at aig.old node ≡ Some (first, second) }
        requires first { HasImage self.old.images.items first.node }
        requires second { HasImage self.old.images.items second.node }
        requires limit { 1 ≤ limit }
        requires ready { IsReady aig.old limit self.old }
        ensures ready { OnOk result (IsReady aig.new limit self.new) }
        ensures grows { Grows aig.old aig.new 1 }
        ensures images { OnOk result (GainsImage self.old.images.items self.new.images.items node) }
        ensures merged { (old : List GraphNode) (roots : List GraphEdge) → IsMerged old roots aig.old self.old
            → IsReached old roots node → OnOk result (IsMerged old roots aig.new self.new) }
    {
        let first_image = self.image(first);
        let second_image = self.image(second);
        let image = self.conjunction(aig, first_image, second_image, refuter, limit)?;
        self.images[node as usize] = Some(image);
        Ok(())
    }

    /// An edge to a kept node that has the value of the conjunction of two such edges.
    fn conjunction<R: Refuter>(
        &mut self,
        aig: &mut Aig,
        first: Edge,
        second: Edge,
        refuter: &mut R,
        limit: u64,
    ) -> Result<Edge, OutOfMemory>
        requires first { Contains self.old.kept.items first.node }
        requires second { Contains self.old.kept.items second.node }
        requires limit { 1 ≤ limit }
        requires ready { IsReady aig.old limit self.old }
        ensures ready { OnOk result (IsReady aig.new limit self.new) }
        ensures value { IfOk result (λ e. HasValue aig.new e (λ w. value_of w first && value_of w second)) }
        ensures grows { Grows aig.old aig.new 1 }
        ensures images { OnOk result (self.new.images.items ≡ self.old.images.items) }
        ensures joined { IfOk result (IsJoined aig.new self.old.kept.items self.new.kept.items first second) }
    {
        let edge = self.extend(aig, first, second)?;
        if self.kept.as_slice().contains(&edge.node) {
            Ok(edge)
        } else {
            self.merged_or_kept(aig, edge.node, refuter, limit)
        }
    }

    /// The graph's conjunction of two edges; where it takes a node, the rows get that node's bits.
    fn extend(&mut self, aig: &mut Aig, first: Edge, second: Edge) -> Result<Edge, OutOfMemory>
        requires first { IsEdge aig.old first }
        requires second { IsEdge aig.old second }
        requires drawn { self.old.findings.drawn ≤ length self.old.findings.rows.items }
        ensures ready { (limit : ℕ) → IsReady aig.old limit self.old → OnOk result (IsReady aig.new limit self.new) }
        ensures value { IfOk result (λ e. HasValue aig.new e (λ w. value_of w first && value_of w second)) }
        ensures grows { Grows aig.old aig.new 1 }
        ensures images { OnOk result (self.new.images.items ≡ self.old.images.items) }
        ensures kept { OnOk result (self.new.kept.items ≡ self.old.kept.items) }
        ensures simple { IfSome (simple_and first second) (λ e. IfOk result (λ r. r ≡ e)) }
        ensures node { IfNone (simple_and first second) (IfOk result (IsConjunctionNode aig.new first second)) }
    {
        let nodes = aig.nodes();
        let edge = aig.and(first, second)?;
        if nodes < aig.nodes() {
            self.findings.grow(first, second)?;
        }
        Ok(edge)
    }

    /// An edge to a kept node that has the value of the and-node, which isn't kept; where none is found, the node is kept
    /// from now on.
    fn merged_or_kept<R: Refuter>(
        &mut self,
        aig: &Aig,
        node: u64,
        refuter: &mut R,
        limit: u64,
    ) -> Result<Edge, OutOfMemory>
        requires node { node < length aig.now }
        requires apart { All (λ k. k ≢ node) self.old.kept.items }
        requires limit { 1 ≤ limit }
        requires ready { IsReady aig.now limit self.old }
        ensures ready { OnOk result (IsReady aig.now limit self.new) }
        ensures value { IfOk result (λ e. HasValue aig.now e (λ w. w node)) }
        ensures images { OnOk result (self.new.images.items ≡ self.old.images.items) }
        ensures merged_or_kept { IfOk result (IsMergedOrKept self.old.kept.items self.new.kept.items node) }
    {
        let twin = self
            .findings
            .twin(aig, node, self.kept.as_slice(), refuter, limit)?;
        match twin {
            Some(edge) => Ok(edge),
            None => {
                self.kept.push(node)?;
                Ok(Edge {
                    node,
                    complemented: false,
                })
            }
        }
    }

    /// What stands for the edge: the image of its node, with its sign.
    fn image(&self, edge: Edge) -> Edge
        requires { HasImage self.now.images.items edge.node }
        ensures { IsEdgeImage self.now.images.items edge result }
    {
        match self.images[edge.node as usize] {
            None => unreachable!(),
            Some(image) => {
                if edge.complemented {
                    image.not()
                } else {
                    image
                }
            }
        }
    }
}
