//! The edges of a graph that have nets in a patch.

ghost use Rattle.std.specs.Prelude.{◌≡◌, ◌<◌, ◌&&◌, ◌||◌, ℕ, not, false, [], ◌∷◌, ◌++◌, map, IfOk, OnOk, length, slice_index_or, if◌then◌else◌};
ghost use Rattle.std.specs.List.{list_any};
ghost use Rattle.eco_aig.specs.Edges.{plain};
ghost use Rattle.eco_aig.specs.Graph.{inputs_of};
ghost use Rattle.eco_aig.specs.Reached.{operands_at};
ghost use Rattle.eco_splice.specs.Wired.{is_complement_of, wired};
ghost use Rattle.eco_splice.specs.GraphPatch.{netted};
ghost use Rattle.eco_splice.specs.Marking.{edges_with};

use eco_aig::{Aig, Edge};
use eco_netlist::OutOfMemory;
use std::alloc::Global;

/// The edges that have a net in the patch where these nodes are marked: those to the inputs, then those that have a wire, in
/// the order of the wires. Linear in the graph.
pub fn netted_edges(alloc: Global, aig: &Aig, marks: &[bool]) -> Result<Vec<Edge>, OutOfMemory>
    requires { length marks.now ≡ length aig.now }
    ensures { IfOk result (λ edges. edges.items ≡ netted aig.now (wired aig.now marks.now)) }
{
    let nodes = aig.nodes();
    let mut inverted = vec![in alloc; false; nodes as usize]?;
    let mut edges = input_edges(alloc, aig)?;
    for node in 0..nodes {
        add_marked(aig, marks[node as usize], node, &mut inverted, &mut edges)?;
    }
    Ok(edges)
}

// The edges to the inputs.
pub(crate) fn input_edges(alloc: Global, aig: &Aig) -> Result<Vec<Edge>, OutOfMemory>
    ensures { IfOk result (λ edges. edges.items ≡ map plain (inputs_of aig.now)) }
{
    Ok(
        aig.inputs()
            .iter()
            .map(|node| edge_to(*node))
            .collect(alloc)?,
    )
}

// The edge to the node that is no complement.
pub(crate) fn edge_to(node: u64) -> Edge
    ensures { result ≡ plain node }
{
    Edge {
        node,
        complemented: false,
    }
}

// Adds what comes with the node, where it is an and-node with a mark.
fn add_marked(
    aig: &Aig,
    marked: bool,
    node: u64,
    inverted: &mut Vec<bool>,
    edges: &mut Vec<Edge>,
) -> Result<(), OutOfMemory>
    requires node { node < length aig.now }
    requires inverted { length inverted.old.items ≡ length aig.now }
    ensures edges { OnOk result (edges.new.items
        ≡ edges.old.items ++ (if marked then edges_with aig.now node inverted.old.items else [])) }
    ensures inverted { OnOk result ((k : ℕ) → slice_index_or inverted.new.items k false
        ≡ (slice_index_or inverted.old.items k false
        || (if marked then list_any (is_complement_of k) (operands_at aig.now node) else false))) }
    ensures length { length inverted.new.items ≡ length inverted.old.items }
{
    if marked {
        add_edges(aig, node, inverted, edges)
    } else {
        Ok(())
    }
}

// Adds what comes with the node, where it is an and-node: complements that are its operands and are new, and the node.
fn add_edges(
    aig: &Aig,
    node: u64,
    inverted: &mut Vec<bool>,
    edges: &mut Vec<Edge>,
) -> Result<(), OutOfMemory>
    requires node { node < length aig.now }
    requires inverted { length inverted.old.items ≡ length aig.now }
    ensures edges { OnOk result (edges.new.items ≡ edges.old.items ++ edges_with aig.now node inverted.old.items) }
    ensures inverted { OnOk result ((k : ℕ) → slice_index_or inverted.new.items k false
        ≡ (slice_index_or inverted.old.items k false || list_any (is_complement_of k) (operands_at aig.now node))) }
    ensures length { length inverted.new.items ≡ length inverted.old.items }
{
    match aig.pair(node) {
        None => Ok(()),
        Some((first, second)) => {
            add_complement(first, inverted, edges)?;
            add_complement(second, inverted, edges)?;
            edges.push(edge_to(node))?;
            Ok(())
        }
    }
}

// Adds the operand, where it is a complement and is new.
fn add_complement(
    operand: Edge,
    inverted: &mut Vec<bool>,
    edges: &mut Vec<Edge>,
) -> Result<(), OutOfMemory>
    requires { operand.node < length inverted.old.items }
    ensures edges { OnOk result (edges.new.items ≡ edges.old.items
        ++ (if operand.complemented && not (slice_index_or inverted.old.items operand.node false) then operand ∷ [] else [])) }
    ensures inverted { OnOk result ((k : ℕ) → slice_index_or inverted.new.items k false
        ≡ (slice_index_or inverted.old.items k false || is_complement_of k operand)) }
    ensures length { length inverted.new.items ≡ length inverted.old.items }
{
    if operand.complemented && !inverted[operand.node as usize] {
        edges.push(operand)?;
        inverted[operand.node as usize] = true;
    }
    Ok(())
}
