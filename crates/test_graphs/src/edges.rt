//! Edges of the graphs that examples are made of.

use eco_aig::{Aig, Edge, OutOfMemory};
use std::alloc::Global;

/// The conjunction of edges of the graph; the constant 0 where one isn't.
pub(crate) fn and(aig: &mut Aig, a: Edge, b: Edge) -> Result<Edge, OutOfMemory> {
    if a.node() < aig.nodes() && b.node() < aig.nodes() {
        aig.and(a, b)
    } else {
        Ok(Edge::ZERO)
    }
}

/// The disjunction of edges of the graph; the constant 1 where one isn't.
pub(crate) fn or(aig: &mut Aig, a: Edge, b: Edge) -> Result<Edge, OutOfMemory> {
    if a.node() < aig.nodes() && b.node() < aig.nodes() {
        aig.or(a, b)
    } else {
        Ok(Edge::ONE)
    }
}

/// So many new inputs.
pub(crate) fn inputs(alloc: Global, aig: &mut Aig, count: u64) -> Result<Vec<Edge>, OutOfMemory> {
    let mut inputs = Vec::new(alloc);
    for _ in 0..count {
        inputs.push(aig.input()?)?;
    }
    Ok(inputs)
}

/// Conjunctions over inputs. The number 1 is the constant 1, the inputs are 2, 3 and so on, and the conjunctions go on behind
/// them; a negative number is the complement.
#[derive(Clone, Copy)]
pub(crate) struct Circuit {
    pub(crate) inputs: u64,
    /// The operands of the conjunctions.
    pub(crate) pairs: &'static [(i32, i32)],
}

/// Two conjunctions of three inputs, 7 and 8.
pub(crate) const CONJUNCTIONS: Circuit = Circuit {
    inputs: 3,
    pairs: &[(2, 3), (3, 4), (5, 4), (2, 6)],
};

/// The edges of the circuit's numbers over new inputs, from 1 on.
pub(crate) fn build(
    alloc: Global,
    aig: &mut Aig,
    circuit: &Circuit,
) -> Result<Vec<Edge>, OutOfMemory> {
    let mut edges = vec![in alloc; Edge::ONE]?;
    edges.extend_from_slice(inputs(alloc, aig, circuit.inputs)?.as_slice())?;
    for (first, second) in circuit.pairs {
        let a = edge_of(edges.as_slice(), *first);
        let b = edge_of(edges.as_slice(), *second);
        edges.push(and(aig, a, b)?)?;
    }
    Ok(edges)
}

/// The edge of the number, where these are those of a circuit.
pub(crate) fn edge_of(edges: &[Edge], number: i32) -> Edge {
    let place = number.unsigned_abs().saturating_sub(1);
    let edge = edges.get(place as usize).copied().unwrap_or(Edge::ONE);
    if number < 0 { edge.not() } else { edge }
}
