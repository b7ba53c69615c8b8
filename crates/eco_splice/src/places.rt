//! The edges that have nets in a patch, and where each of them stands first.

ghost use Rattle.std.specs.Prelude.{◌≡◌, ◌<◌, ◌≤◌, ◌↔◌, IfOk, IsTrue, All, length};
ghost use Rattle.eco_aig.specs.declared.edge.Edge.{Edge};
ghost use Rattle.eco_splice.specs.Marking.{place_at};
ghost use Rattle.eco_splice.specs.LineGates.{edges_in, first_place, StandsBefore};
ghost use Rattle.eco_splice.specs.Tables.{ArePlaced};

use crate::line::Line;
use crate::nets::set_place;
use crate::wiring::input_edges;
use eco_aig::{Aig, Edge};
use eco_netlist::OutOfMemory;
use std::alloc::Global;

/// Edges of a graph, and for each node the first places of the two edges to it; where an edge isn't listed, their number.
#[derive(Drop)]
pub(crate) struct Places {
    pub(crate) edges: Vec<Edge>,
    plain: Vec<usize>,
    complemented: Vec<usize>,
}

impl Places {
    // The places of these edges.
    pub(crate) fn new(alloc: Global, nodes: u64, edges: Vec<Edge>) -> Result<Places, OutOfMemory>
        requires edges { All (λ e. e.node < nodes) edges.items }
        ensures placed { IfOk result (ArePlaced nodes) }
        ensures edges { IfOk result (λ places. places.edges ≡ edges) }
    {
        let mut plain = vec![in alloc; edges.len(); nodes as usize]?;
        let mut complemented = vec![in alloc; edges.len(); nodes as usize]?;
        number(edges.as_slice(), &mut plain, &mut complemented);
        Ok(Places {
            edges,
            plain,
            complemented,
        })
    }

    // The first place of an edge.
    pub(crate) fn place(&self, edge: Edge) -> usize
        requires node { edge.node < length self.now.plain.items }
        requires placed { ArePlaced (length self.now.plain.items) self.now }
        ensures { result ≡ first_place self.now.edges.items edge }
    {
        if edge.complemented {
            self.complemented[edge.node as usize]
        } else {
            self.plain[edge.node as usize]
        }
    }

    // Whether the edge is a constant or has a place before this one.
    pub(crate) fn stands_before(&self, place: usize, edge: Edge) -> bool
        requires placed { ArePlaced (length self.now.plain.items) self.now }
        requires place { place ≤ length self.now.edges.items }
        ensures { IsTrue result ↔ StandsBefore self.now.edges.items place edge }
    {
        edge.node == 0 || (edge.node < self.plain.len() as u64 && self.place(edge) < place)
    }
}

// Writes the first place of each edge into the table of its sign.
fn number(edges: &[Edge], plain: &mut Vec<usize>, complemented: &mut Vec<usize>)
    requires nodes { All (λ e. e.node < length plain.old.items) edges.now }
    requires complemented { length complemented.old.items ≡ length plain.old.items }
    requires blank { (e : Edge) → e.node < length plain.old.items →
        place_at plain.old.items complemented.old.items e ≡ length edges.now }
    ensures first { (e : Edge) → e.node < length plain.old.items →
        place_at plain.new.items complemented.new.items e ≡ first_place edges.now e }
    ensures plain { length plain.new.items ≡ length plain.old.items }
    ensures complemented { length complemented.new.items ≡ length plain.old.items }
{
    for place in (0..edges.len()).rev() {
        set_place(edges[place], place, plain, complemented);
    }
}

// The edges that have nets, in order: those to the inputs, then those of the lines.
pub(crate) fn netted_edges(
    alloc: Global,
    aig: &Aig,
    lines: &[Line],
) -> Result<Vec<Edge>, OutOfMemory>
    ensures { IfOk result (λ edges. edges.items ≡ edges_in aig.now lines.now) }
{
    let mut edges = input_edges(alloc, aig)?;
    for line in lines {
        edges.push(line.edge)?;
    }
    Ok(edges)
}

// Whether all these edges go to the first so many nodes.
pub(crate) fn are_within(edges: &[Edge], nodes: u64) -> bool
    ensures { IsTrue result ↔ All (λ e. e.node < nodes) edges.now }
{
    for edge in edges {
        if nodes <= edge.node {
            return false;
        }
    }
    true
}
