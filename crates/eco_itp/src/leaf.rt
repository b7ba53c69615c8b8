//! Partial interpolants of the clauses that a proof begins with.

ghost use Rattle.std.specs.Prelude.{◌≡◌, ◌<◌, ◌&&◌, ◌||◌, ℕ, List, All, IfOk, IsSome, Some, length, slice_get, true};
ghost use Rattle.eco_trace.specs.declared.clause.Lit.{Lit};
ghost use Rattle.eco_aig.specs.Edges.{value_of};
ghost use Rattle.eco_aig.specs.Graph.{Grows, HasValue, IsEdge, IsGraph};
ghost use Rattle.eco_itp.specs.Between.{IsCovered};
ghost use Rattle.eco_itp.specs.Parts.{AreParts, AreWithin, edge_of, leaf_value, literal_edge, occurs, split_of};
ghost use Rattle.eco_itp.specs.Partial.{ArePartial, IsPartial};
ghost use Rattle.eco_itp.specs.Bound.{leaf_size, literals_of_a};

use crate::parts::Parts;
use eco_aig::{Aig, Edge};
use eco_meaning::OutOfMemory;
use eco_trace::{Lit, NodeId};
use std::alloc::Global;

/// The partial interpolants of the clauses that the proof begins with, in order.
pub(crate) fn leaves(
    alloc: Global,
    parts: &Parts<'_, '_>,
    aig: &mut Aig,
) -> Result<Vec<Edge>, OutOfMemory>
    requires parts { AreParts parts.now }
    requires covered { IsCovered (split_of parts.now) parts.now.shared.now }
    requires within { AreWithin parts.now aig.old }
    ensures length { IfOk result (λ edges. length edges.items ≡ length parts.now.trace.now.originals) }
    ensures partial { IfOk result (λ edges. ArePartial parts.now aig.new parts.now.trace.now.originals edges.items) }
    ensures grows { Grows aig.old aig.new (literals_of_a parts.now.trace.now.originals parts.now.side.now) }
{
    let mut edges = Vec::new(alloc);
    for number in 0..parts.side.len() {
        let edge = leaf(parts, number, aig)?;
        edges.push(edge)?;
    }
    Ok(edges)
}

/// The partial interpolant of the clause at this place: for one of A the disjunction of its literals whose variables
/// occur in B, for one of B the constant 1.
fn leaf(parts: &Parts<'_, '_>, number: usize, aig: &mut Aig) -> Result<Edge, OutOfMemory>
    requires parts { AreParts parts.now }
    requires covered { IsCovered (split_of parts.now) parts.now.shared.now }
    requires within { AreWithin parts.now aig.old }
    requires number { number < length parts.now.side.now }
    ensures partial { IfOk result (λ edge. (clause : List Lit) → slice_get parts.now.trace.now.originals number ≡ Some clause
        → IsPartial parts.now aig.new clause edge) }
    ensures grows { Grows aig.old aig.new (leaf_size (split_of parts.now) number) }
{
    // it is a graph, and the proof's clauses are clauses
    let _ = aig.nodes();
    parts.trace.is_sound();
    if parts.side[number] {
        disjunction(parts, parts.trace.clause(NodeId(number as u64)), aig)
    } else {
        Ok(Edge::ONE)
    }
}

/// The disjunction of the literals whose variables occur in B.
fn disjunction(parts: &Parts<'_, '_>, clause: &[Lit], aig: &mut Aig) -> Result<Edge, OutOfMemory>
    requires graph { IsGraph aig.old }
    requires within { All (λ l. occurs parts.now l.var ≡ true → IsSome (edge_of parts.now l.var)) clause.now }
    requires edges { All (λ l. occurs parts.now l.var ≡ true → IsEdge aig.old (literal_edge parts.now l)) clause.now }
    ensures value { IfOk result (λ edge. HasValue aig.new edge (λ w. leaf_value parts.now w clause.now)) }
    ensures grows { Grows aig.old aig.new (length clause.now) }
{
    let mut edge = Edge::ZERO;
    for lit in clause {
        edge = with_literal(parts, edge, *lit, aig)?;
    }
    Ok(edge)
}

/// The disjunction of the edge and the literal, if its variable occurs in B.
fn with_literal(
    parts: &Parts<'_, '_>,
    edge: Edge,
    lit: Lit,
    aig: &mut Aig,
) -> Result<Edge, OutOfMemory>
    requires edge { IsEdge aig.old edge }
    requires has_edge { occurs parts.now lit.var ≡ true → IsSome (edge_of parts.now lit.var) }
    requires within { occurs parts.now lit.var ≡ true → IsEdge aig.old (literal_edge parts.now lit) }
    ensures value { IfOk result (λ either. HasValue aig.new either
        (λ w. value_of w edge || (occurs parts.now lit.var && value_of w (literal_edge parts.now lit)))) }
    ensures grows { Grows aig.old aig.new 1 }
{
    if parts.is_in_b(lit.var) {
        aig.or(edge, parts.literal_edge(lit))
    } else {
        Ok(edge)
    }
}
