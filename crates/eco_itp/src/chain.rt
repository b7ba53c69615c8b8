//! Partial interpolants of learnt clauses.

ghost use Rattle.std.specs.Prelude.{◌≡◌, ◌≤◌, ◌+◌, ◌-◌, ◌&&◌, ◌||◌, if◌then◌else◌, List, IfOk, OnOk, length};
ghost use Rattle.eco_trace.specs.declared.clause.Lit.{Lit};
ghost use Rattle.eco_trace.specs.Resolution.{Gives, IsLegalChain, clauses_of};
ghost use Rattle.eco_aig.specs.Edges.{value_of};
ghost use Rattle.eco_aig.specs.Graph.{Grows, HasValue, IsEdge};
ghost use Rattle.eco_itp.specs.Parts.{AreParts, earlier, occurs};
ghost use Rattle.eco_itp.specs.Partial.{ArePartial, IsPartial};
ghost use Rattle.eco_itp.specs.Bound.{links_of};

use crate::parts::Parts;
use eco_aig::{Aig, Edge};
use eco_meaning::OutOfMemory;
use eco_trace::{Link, NodeId, Var};

/// Adds the partial interpolants of the learnt clauses, in order, to those of the clauses that the proof begins with.
pub(crate) fn add_learnt(
    parts: &Parts<'_, '_>,
    edges: &mut Vec<Edge>,
    aig: &mut Aig,
) -> Result<(), OutOfMemory>
    requires parts { AreParts parts.now }
    requires length { length edges.old.items ≡ length parts.now.trace.now.originals }
    requires partial { ArePartial parts.now aig.old (clauses_of parts.now.trace.now) edges.old.items }
    ensures length { OnOk result (length edges.new.items ≡ length (clauses_of parts.now.trace.now)) }
    ensures partial { OnOk result (ArePartial parts.now aig.new (clauses_of parts.now.trace.now) edges.new.items) }
    ensures grows { Grows aig.old aig.new (links_of parts.now.trace.now.learnt) }
{
    parts.trace.is_sound();
    for number in parts.trace.originals()..parts.trace.len() {
        match parts.trace.chain(NodeId(number)) {
            Some((start, links)) => {
                let edge = resolved_along(parts, start, links, edges.as_slice(), aig)?;
                edges.push(edge)?;
            }
            None => unreachable!(),
        }
    }
    Ok(())
}

/// The partial interpolant of the clause that the chain gives, from those of the clauses before it.
fn resolved_along(
    parts: &Parts<'_, '_>,
    start: NodeId,
    links: &[Link],
    edges: &[Edge],
    aig: &mut Aig,
) -> Result<Edge, OutOfMemory>
    requires parts { AreParts parts.now }
    requires legal { IsLegalChain (earlier parts.now (length edges.now)) start links.now }
    requires originals { length parts.now.trace.now.originals ≤ length edges.now }
    requires learnt { length edges.now ≤ length (clauses_of parts.now.trace.now) }
    requires partial { ArePartial parts.now aig.old (earlier parts.now (length edges.now)) edges.now }
    ensures partial { IfOk result (λ edge. (clause : List Lit)
        → Gives (earlier parts.now (length edges.now)) start links.now clause → IsPartial parts.now aig.new clause edge) }
    ensures grows { Grows aig.old aig.new (length links.now) }
{
    let mut edge = edges[start.0 as usize];
    for link in links {
        edge = resolved(parts, link.pivot, edge, edges[link.with.0 as usize], aig)?;
    }
    Ok(edge)
}

/// The partial interpolant of a resolvent: the conjunction of those of the two clauses where the pivot occurs in B, else
/// their disjunction.
fn resolved(
    parts: &Parts<'_, '_>,
    pivot: Var,
    left: Edge,
    right: Edge,
    aig: &mut Aig,
) -> Result<Edge, OutOfMemory>
    requires left { IsEdge aig.old left }
    requires right { IsEdge aig.old right }
    ensures value { IfOk result (λ edge. HasValue aig.new edge (λ w. (if occurs parts.now pivot
        then value_of w left && value_of w right else value_of w left || value_of w right))) }
    ensures grows { Grows aig.old aig.new 1 }
{
    if parts.is_in_b(pivot) {
        aig.and(left, right)
    } else {
        aig.or(left, right)
    }
}
