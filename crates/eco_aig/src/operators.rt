//! Disjunction, exclusive disjunction and choice, by conjunctions.

ghost use Rattle.std.specs.Prelude.{◌≡◌, ◌↔◌, ◌<◌, ◌&&◌, ◌||◌, if◌then◌else◌, length, IfOk, OnErr, IfSome, Some};
ghost use Rattle.eco_aig.specs.declared.edge.Edge.{Edge};
ghost use Rattle.eco_lists.specs.Bits.{exactly_one};
ghost use Rattle.eco_aig.specs.Edges.{plain, value_of};
ghost use Rattle.eco_aig.specs.Exclusive.{IsExclusive};
ghost use Rattle.eco_aig.specs.Graph.{IsEdge, HasValue, Grows, simple_or};

use crate::edge::Edge;
use crate::graph::Aig;
use eco_meaning::OutOfMemory;

impl Aig {
    /// The disjunction of two edges. It takes a node where the conjunction of their complements does.
    pub fn or(&mut self, a: Edge, b: Edge) -> Result<Edge, OutOfMemory>
        requires first { IsEdge self.old a }
        requires second { IsEdge self.old b }
        ensures value { IfOk result (λ e. HasValue self.new e (λ w. value_of w a || value_of w b)) }
        ensures grows { Grows self.old self.new 1 }
        ensures simple { IfSome (simple_or a b) (λ e. (result ≡ Ok e) × (self.new ≡ self.old)) }
        ensures own { IfOk result (λ e. length self.old < length self.new → e.node ≡ length self.old) }
        ensures err { OnErr result (self.new ≡ self.old) }
    {
        let neither = self.and(a.not(), b.not())?;
        Ok(neither.not())
    }

    /// The edge whose bit is 1 where just one of the two edges' is.
    pub fn xor(&mut self, a: Edge, b: Edge) -> Result<Edge, OutOfMemory>
        requires first { IsEdge self.old a }
        requires second { IsEdge self.old b }
        ensures value { IfOk result (λ e. HasValue self.new e (λ w. exactly_one (value_of w a) (value_of w b))) }
        ensures grows { Grows self.old self.new 3 }
    {
        let first_alone = self.and(a, b.not())?;
        let second_alone = self.and(a.not(), b)?;
        self.or(first_alone, second_alone)
    }

    /// The two edges of which the node is made as `xor` makes it: it is the conjunction of the complements of two and-nodes,
    /// one of both edges, the other of their complements. `pair` gives the one of both edges first.
    pub fn exclusive(&self, node: u64) -> Option<(Edge, Edge)>
        ensures made { (first second : Edge) → ((result ≡ Some (first, second)) ↔ IsExclusive self.now node first second) }
        ensures value { IfSome result (λ pair. HasValue self.now (plain node) (λ w. exactly_one (value_of w pair.0) (value_of w pair.1))) }
    {
        let (both, neither) = self.pair(node)?;
        let (first, second) = self.pair(both.node)?;
        let (other_first, other_second) = self.pair(neither.node)?;
        if both.complemented
            && neither.complemented
            && other_first == first.not()
            && other_second == second.not()
        {
            Some((first, second))
        } else {
            None
        }
    }

    /// The edge whose bit is that of `a` where the bit of `s` is 1, and that of `b` where it is 0.
    pub fn mux(&mut self, s: Edge, a: Edge, b: Edge) -> Result<Edge, OutOfMemory>
        requires selector { IsEdge self.old s }
        requires first { IsEdge self.old a }
        requires second { IsEdge self.old b }
        ensures value { IfOk result (λ e. HasValue self.new e (λ w. (if value_of w s then value_of w a else value_of w b))) }
        ensures grows { Grows self.old self.new 3 }
    {
        let where_one = self.and(s, a)?;
        let where_zero = self.and(s.not(), b)?;
        self.or(where_one, where_zero)
    }
}
