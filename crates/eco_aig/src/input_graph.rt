//! Graphs of inputs.

ghost use Rattle.std.specs.Prelude.{◌≡◌, ◌+◌, length, IfOk};
ghost use Rattle.eco_aig.specs.Inputs.{AreInputs, InputsStay};

use crate::edge::Edge;
use crate::graph::Aig;
use eco_keyed::Keyed;
use eco_meaning::OutOfMemory;
use std::alloc::Global;

/// A graph of so many inputs and nothing else, with the edges to them. `keyed` is keyed by the file whose gates it is to have.
pub fn new_graph(alloc: Global, keyed: Keyed, count: usize) -> Result<(Aig, Vec<Edge>), OutOfMemory>
    ensures count { IfOk result (λ made. length made.1.items ≡ count) }
    ensures inputs { IfOk result (λ made. AreInputs made.0 made.1.items) }
    ensures nodes { IfOk result (λ made. length made.0 ≡ 1 + count) }
{
    let mut aig = Aig::keyed(alloc, keyed)?;
    let mut edges = Vec::new(alloc);
    for _ in 0..count {
        edges.push(aig.input()?)?;
    }
    // it is a graph
    let _ = aig.nodes();
    Ok((aig, edges))
}

/// A law of graphs: edges that go to all inputs of a graph do so in each graph that grows from it.
pub fn inputs_stay()
    ensures { InputsStay }
{}
