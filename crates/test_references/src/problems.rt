//! Small problems, as lists of gates, and their graphs.

ghost use Rattle.eco_aig.specs.Graph.{IsEdge};

use eco_aig::{Aig, Edge, OutOfMemory};
use std::alloc::Global;

/// The kind of a gate.
#[derive(Clone, Copy)]
pub(crate) enum Kind {
    And,
    Or,
    Xor,
    Nor,
    /// The first operand and not the second.
    AndNot,
}

/// A gate with two operands, given by their places.
#[derive(Clone, Copy)]
pub(crate) struct Gate {
    pub(crate) kind: Kind,
    pub(crate) first: usize,
    pub(crate) second: usize,
}

/// An implementation and its specification. The places of signals: first the inputs, then the targets, then the gates of both.
#[derive(Clone, Copy)]
pub(crate) struct Problem<'p> {
    pub(crate) inputs: usize,
    pub(crate) targets: usize,
    pub(crate) gates: &'p [Gate],
    pub(crate) outputs: &'p [usize],
    pub(crate) wanted: &'p [usize],
}

/// A gate.
pub(crate) fn gate_of(kind: Kind, first: usize, second: usize) -> Gate {
    Gate {
        kind,
        first,
        second,
    }
}

/// The edges of all signals of a problem.
#[derive(Drop)]
pub(crate) struct Signals {
    pub(crate) all: Vec<Edge>,
    pub(crate) inputs: Vec<Edge>,
    pub(crate) targets: Vec<Edge>,
    pub(crate) outputs: Vec<Edge>,
    pub(crate) wanted: Vec<Edge>,
}

/// No signal.
pub(crate) fn no_signals(alloc: Global) -> Signals {
    Signals {
        all: Vec::new(alloc),
        inputs: Vec::new(alloc),
        targets: Vec::new(alloc),
        outputs: Vec::new(alloc),
        wanted: Vec::new(alloc),
    }
}

impl Signals {
    /// The signals of the problem over a new graph. Its targets are inputs if `is_open`, else constants 0.
    pub(crate) fn build(
        &mut self,
        graph: &mut Aig,
        problem: &Problem,
        is_open: bool,
    ) -> Result<(), OutOfMemory> {
        for _ in 0..problem.inputs {
            let edge = graph.input()?;
            self.inputs.push(edge)?;
            self.all.push(edge)?;
        }
        self.add_targets(graph, problem, is_open)?;
        for gate in problem.gates {
            let edge = built(graph, *gate, self.all.as_slice())?;
            self.all.push(edge)?;
        }
        pick(&mut self.outputs, self.all.as_slice(), problem.outputs)?;
        pick(&mut self.wanted, self.all.as_slice(), problem.wanted)
    }

    /// Adds the targets.
    fn add_targets(
        &mut self,
        graph: &mut Aig,
        problem: &Problem,
        is_open: bool,
    ) -> Result<(), OutOfMemory> {
        for _ in 0..problem.targets {
            let edge = if is_open { graph.input()? } else { Edge::ZERO };
            self.targets.push(edge)?;
            self.all.push(edge)?;
        }
        Ok(())
    }
}

/// Lists the edges at these places.
fn pick(edges: &mut Vec<Edge>, all: &[Edge], places: &[usize]) -> Result<(), OutOfMemory> {
    for place in places {
        edges.push(edge_at(all, *place))?;
    }
    Ok(())
}

/// The edge at the place.
pub(crate) fn edge_at(edges: &[Edge], place: usize) -> Edge {
    edges.get(place).copied().unwrap_or(Edge::ZERO)
}

/// The edge of the gate.
fn built(graph: &mut Aig, gate: Gate, all: &[Edge]) -> Result<Edge, OutOfMemory> {
    let first = within(graph, edge_at(all, gate.first));
    let second = within(graph, edge_at(all, gate.second));
    match gate.kind {
        Kind::And => graph.and(first, second),
        Kind::Or => graph.or(first, second),
        Kind::Xor => graph.xor(first, second),
        Kind::Nor => nor(graph, first, second),
        Kind::AndNot => graph.and(first, second.not()),
    }
}

/// The complement of the disjunction.
fn nor(graph: &mut Aig, first: Edge, second: Edge) -> Result<Edge, OutOfMemory>
    requires first { IsEdge graph.old first }
    requires second { IsEdge graph.old second }
{
    let either = graph.or(first, second)?;
    Ok(either.not())
}

/// The edge, if it is one of the graph.
fn within(graph: &Aig, edge: Edge) -> Edge
    ensures { IsEdge graph.now result }
{
    if edge.node < graph.nodes() {
        edge
    } else {
        Edge::ZERO
    }
}
