//! A network as a graph, with one of its nodes replaced.

ghost use Rattle.eco_aig.specs.Graph.{IsEdge};

use crate::network::{Gate, Network};
use eco_aig::{Aig, Edge};
use eco_keyed::Keyed;
use eco_meaning::OutOfMemory;
use std::alloc::Global;

/// What is to stand in place of a node: an edge to a node of the network or to a new gate. New gates are numbered from the number
/// of the network's nodes on, and each comes behind its operands.
#[derive(Drop)]
pub(crate) struct Replacement {
    pub(crate) node: usize,
    pub(crate) gates: Vec<Gate>,
    pub(crate) edge: Edge,
}

impl Replacement {
    /// The constant 0 in place of itself.
    pub(crate) fn new(alloc: Global) -> Replacement {
        Replacement {
            node: 0,
            gates: Vec::new(alloc),
            edge: Edge::ZERO,
        }
    }

    /// Begins anew: the edge in place of the node.
    pub(crate) fn begin(&mut self, node: usize, edge: Edge) {
        self.node = node;
        self.edge = edge;
        self.gates.clear();
    }

    /// Turns what stands there so far.
    pub(crate) fn turn(&mut self) {
        self.edge = self.edge.not();
    }

    /// Puts a gate of the edge and of what stands there so far.
    pub(crate) fn extend(
        &mut self,
        network: &Network,
        is_xor: bool,
        edge: Edge,
    ) -> Result<(), OutOfMemory> {
        let number = network.gates.len() as u64;
        let number = number.saturating_add(self.gates.len() as u64);
        self.gates.push(Gate {
            is_xor,
            first: edge,
            second: self.edge,
        })?;
        self.edge = Edge {
            node: number,
            complemented: false,
        };
        Ok(())
    }
}

/// A graph that is written, and the edges that the nodes have there.
#[derive(Drop)]
pub(crate) struct Written {
    pub(crate) aig: Aig,
    edges: Vec<Option<Edge>>,
    stack: Vec<usize>,
}

/// What a node is made of.
#[derive(Clone, Copy)]
enum Making {
    Nothing,
    Same(Edge),
    Gate(Gate),
}

impl Written {
    /// A graph that has the constant and so many inputs.
    pub(crate) fn new(
        alloc: Global,
        keyed: Keyed,
        network: &Network,
        replacement: &Replacement,
    ) -> Result<Written, OutOfMemory> {
        let aig = Aig::keyed(alloc, keyed)?;
        let mut written = Written {
            aig,
            edges: Vec::new(alloc),
            stack: Vec::new(alloc),
        };
        match written.begin(network, replacement) {
            Ok(()) => Ok(written),
            Err(error) => {
                drop(written);
                Err(error)
            }
        }
    }

    /// The graph.
    pub(crate) fn into_graph(self) -> Aig {
        let Written { aig, edges, stack } = self;
        drop(edges);
        drop(stack);
        aig
    }

    /// Adds the inputs.
    fn begin(&mut self, network: &Network, replacement: &Replacement) -> Result<(), OutOfMemory> {
        self.edges.push(Some(Edge::ZERO))?;
        for _ in 0..network.inputs {
            let edge = self.aig.input()?;
            self.edges.push(Some(edge))?;
        }
        for _ in 0..network.gates.len().saturating_add(replacement.gates.len()) {
            self.edges.push(None)?;
        }
        Ok(())
    }

    /// The edge of the graph that has the function of an edge of the network. What it reaches is written.
    pub(crate) fn write(
        &mut self,
        network: &Network,
        replacement: &Replacement,
        edge: Edge,
    ) -> Result<Edge, OutOfMemory> {
        self.stack.clear();
        self.stack.push(edge.node as usize)?;
        let steps = self.edges.len().saturating_mul(4).saturating_add(4);
        for _ in 0..steps {
            let Some(node) = self.stack.last().copied() else {
                break;
            };
            self.step(network, replacement, node)?;
        }
        Ok(self.edge(edge))
    }

    /// Writes the node on the top of the stack, or puts those of its operands on it that aren't written.
    fn step(
        &mut self,
        network: &Network,
        replacement: &Replacement,
        node: usize,
    ) -> Result<(), OutOfMemory> {
        match made(network, replacement, node) {
            Making::Nothing => self.settle(node, Edge::ZERO),
            Making::Same(edge) => {
                if !self.is_waiting(edge)? {
                    let written = self.edge(edge);
                    self.settle(node, written);
                }
            }
            Making::Gate(gate) => {
                if !self.is_waiting(gate.first)? && !self.is_waiting(gate.second)? {
                    let edge = self.write_gate(gate)?;
                    self.settle(node, edge);
                }
            }
        }
        Ok(())
    }

    /// Whether the edge's node isn't written. Then it is put on the stack.
    fn is_waiting(&mut self, edge: Edge) -> Result<bool, OutOfMemory> {
        let node = edge.node as usize;
        match self.edges.get(node) {
            Some(None) => {
                self.stack.push(node)?;
                Ok(true)
            }
            _ => Ok(false),
        }
    }

    /// Says which edge the node has, if it has none, and takes it from the stack.
    fn settle(&mut self, node: usize, edge: Edge) {
        self.stack.pop();
        if let Some(place) = self.edges.get_mut(node) {
            if place.is_none() {
                *place = Some(edge);
            }
        }
    }

    /// Writes a gate whose operands are written.
    fn write_gate(&mut self, gate: Gate) -> Result<Edge, OutOfMemory> {
        let first = self.edge(gate.first);
        let second = self.edge(gate.second);
        if first.node >= self.aig.nodes() || second.node >= self.aig.nodes() {
            return Ok(Edge::ZERO);
        }
        if gate.is_xor {
            return xor(&mut self.aig, first, second);
        }
        self.aig.and(first, second)
    }

    /// The edge of the graph, the constant 0 where it isn't written.
    fn edge(&self, edge: Edge) -> Edge {
        match self.edges.get(edge.node as usize) {
            Some(Some(written)) => Edge {
                node: written.node,
                complemented: written.complemented != edge.complemented,
            },
            _ => Edge::ZERO,
        }
    }
}

/// The exclusive disjunction, written from the plain nodes, so that it is one node for all signs.
fn xor(aig: &mut Aig, first: Edge, second: Edge) -> Result<Edge, OutOfMemory>
    requires first { IsEdge aig.old first }
    requires second { IsEdge aig.old second }
{
    let plain = aig.xor(
        Edge {
            node: first.node,
            complemented: false,
        },
        Edge {
            node: second.node,
            complemented: false,
        },
    )?;
    Ok(Edge {
        node: plain.node,
        complemented: plain.complemented != (first.complemented != second.complemented),
    })
}

/// What the node is made of.
fn made(network: &Network, replacement: &Replacement, node: usize) -> Making {
    if node == replacement.node && node > 0 {
        return Making::Same(replacement.edge);
    }
    let new = replacement
        .gates
        .get(node.saturating_sub(network.gates.len()))
        .copied();
    let gate = if node < network.gates.len() {
        network.gate(node)
    } else {
        new
    };
    match gate {
        None => Making::Nothing,
        Some(gate) => Making::Gate(gate),
    }
}
