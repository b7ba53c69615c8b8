//! Edges of nets that are found by their names.

ghost use Rattle.std.specs.Prelude.{◌≡◌, ℕ, Bool, List, length, map, IfOk, All, Contains};
ghost use Rattle.eco_meaning.specs.Circuit.{names};
ghost use Rattle.eco_netlist.specs.Netlists.{AreNets, names_at};
ghost use Rattle.eco_aig.specs.declared.node.Node.{Node};
ghost use Rattle.eco_aig.specs.Edges.{value_of, bits_of};
ghost use Rattle.eco_aig.specs.Graph.{IsEdge};
ghost use Rattle.eco_compile.specs.Compiled.{AreEdges, values_of};
ghost use Rattle.eco_compile.specs.Bound.{HasInputEdges};

use eco_aig::{Aig, Edge};
use eco_meaning::{Name, OutOfMemory};
use eco_netlist::{NetId, Netlist};
use std::alloc::Global;

/// A table with an edge for each net of `f`: the given ones for the inputs, in their order, and the constant for the others.
pub(crate) fn input_table(
    alloc: Global,
    f: &Netlist,
    inputs: &[Edge],
    aig: &Aig,
) -> Result<Vec<Edge>, OutOfMemory>
    requires count { length inputs.now ≡ length f.now.inputs }
    requires edges { AreEdges aig.now inputs.now }
    ensures length { IfOk result (λ table. length table.items ≡ length (names f.now)) }
    ensures edges { IfOk result (λ table. AreEdges aig.now table.items) }
    ensures inputs { IfOk result (λ table. HasInputEdges f.now inputs.now table.items) }
{
    // the constant is node 0
    let _ = aig.nodes();
    let mut table = vec![in alloc; Edge::ZERO; f.nets() as usize]?;
    for (place, net) in f.inputs().iter().enumerate() {
        table[net.0 as usize] = inputs[place];
    }
    Ok(table)
}

/// The edges that a table of the nets of `to` has for the names of these nets of `from`.
pub(crate) fn edges_by_name(
    alloc: Global,
    from: &Netlist,
    nets: &[NetId],
    to: &Netlist,
    table: &[Edge],
) -> Result<Vec<Edge>, OutOfMemory>
    requires nets { AreNets (names from.now) nets.now }
    requires named { All (Contains (names to.now)) (names_at (names from.now) nets.now) }
    requires count { length table.now ≡ length (names to.now) }
    ensures count { IfOk result (λ edges. length edges.items ≡ length nets.now) }
    ensures edges { IfOk result (λ edges. (nodes : List Node) → AreEdges nodes table.now → AreEdges nodes edges.items) }
    ensures values { IfOk result (λ edges. (w : ℕ → Bool) →
        map (values_of to.now w table.now) (names_at (names from.now) nets.now) ≡ bits_of w edges.items) }
{
    let mut edges = Vec::new(alloc);
    for net in nets {
        edges.push(edge_by_name(from.name_of(*net), to, table))?;
    }
    Ok(edges)
}

/// The edge that a table of the nets of `to` has for the net of this name.
fn edge_by_name(name: &Name, to: &Netlist, table: &[Edge]) -> Edge
    requires named { Contains (names to.now) name.now }
    requires count { length table.now ≡ length (names to.now) }
    ensures within { (nodes : List Node) → AreEdges nodes table.now → IsEdge nodes result }
    ensures value { (w : ℕ → Bool) → values_of to.now w table.now name.now ≡ value_of w result }
{
    // it is checked: its names are distinct
    let _ = to.nets();
    match to.net_of(name) {
        Some(net) => table[net.0 as usize],
        None => unreachable!(),
    }
}
