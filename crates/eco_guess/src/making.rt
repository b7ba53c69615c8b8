//! Functions as edges of a graph.

ghost use Rattle.std.specs.Prelude.{◌≡◌, ◌*◌, All, IfOk, length};
ghost use Rattle.eco_aig.specs.Graph.{IsEdge, Grows};

use crate::form::{Form, Gate, Term};
use eco_aig::{Aig, Edge};
use eco_meaning::OutOfMemory;
use std::alloc::Global;

/// The edges of the functions. Each takes six nodes at most.
pub(crate) fn made(alloc: Global, graph: &mut Aig, forms: &[Form]) -> Result<Vec<Edge>, OutOfMemory>
    ensures count { IfOk result (λ edges. length edges.items ≡ length forms.now) }
    ensures edges { IfOk result (λ edges. All (IsEdge graph.new) edges.items) }
    ensures grows { Grows graph.old graph.new (6 * length forms.now) }
{
    let mut edges = Vec::new(alloc);
    for form in forms {
        edges.push(make(graph, form)?)?;
    }
    Ok(edges)
}

/// The edge of the function.
fn make(graph: &mut Aig, form: &Form) -> Result<Edge, OutOfMemory>
    ensures edge { IfOk result (IsEdge graph.new) }
    ensures grows { Grows graph.old graph.new 6 }
{
    let last = within(graph, form.last);
    let inner = join(graph, form.inner, last)?;
    join(graph, form.outer, inner)
}

/// The edge joined with another one, where there is one.
fn join(graph: &mut Aig, term: Option<Term>, edge: Edge) -> Result<Edge, OutOfMemory>
    requires edge { IsEdge graph.old edge }
    ensures edge { IfOk result (IsEdge graph.new) }
    ensures grows { Grows graph.old graph.new 3 }
{
    match term {
        None => Ok(edge),
        Some(term) => {
            let first = within(graph, term.edge);
            gate_of(graph, term.gate, first, edge)
        }
    }
}

/// The edge of the gate.
fn gate_of(graph: &mut Aig, gate: Gate, first: Edge, second: Edge) -> Result<Edge, OutOfMemory>
    requires first { IsEdge graph.old first }
    requires second { IsEdge graph.old second }
    ensures edge { IfOk result (IsEdge graph.new) }
    ensures grows { Grows graph.old graph.new 3 }
{
    match gate {
        Gate::And => graph.and(first, second),
        Gate::Or => graph.or(first, second),
        Gate::Xor => graph.xor(first, second),
    }
}

/// The edge, if it is one of the graph, as those are that were found; else the constant 0.
fn within(graph: &Aig, edge: Edge) -> Edge
    ensures { IsEdge graph.now result }
{
    if edge.node < graph.nodes() {
        edge
    } else {
        Edge::ZERO
    }
}
