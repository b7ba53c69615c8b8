//! The edges of nets.

ghost use Rattle.std.specs.Prelude.{◌≡◌, ◌<◌, ◌+◌, ◌++◌, ℕ, List, length, map, slice_index_or, IfOk, All};
ghost use Rattle.eco_meaning.specs.Circuit.{names, AreTargets};
ghost use Rattle.eco_netlist.specs.Netlists.{AreNets, names_at};
ghost use Rattle.eco_aig.specs.Edges.{plain};
ghost use Rattle.eco_aig.specs.Graph.{Grows};
ghost use Rattle.eco_compile.specs.Compiled.{AreEdges, HasOpenNets, needed_nodes};
ghost use Rattle.eco_compile.specs.Valued.{AreValued};

use crate::nets::compile;
use eco_aig::{Aig, Edge};
use eco_meaning::OutOfMemory;
use eco_netlist::{NetId, Netlist};
use std::alloc::Global;

/// The edges of these nets of the netlist, where the edges `inputs` are those of its inputs and `opens` those of its
/// targets, each in their order. After `OutOfMemory` the graph may have nodes more.
pub fn valued_edges(
    alloc: Global,
    netlist: &Netlist,
    inputs: &[Edge],
    opens: &[Edge],
    nets: &[NetId],
    aig: &mut Aig,
) -> Result<Vec<Edge>, OutOfMemory>
    requires count { length inputs.now ≡ length netlist.now.inputs }
    requires open_count { HasOpenNets netlist.now (length inputs.now + length opens.now) }
    requires input_edges { AreEdges aig.old inputs.now }
    requires open_edges { AreEdges aig.old opens.now }
    requires nets { AreNets (names netlist.now) nets.now }
    ensures count { IfOk result (λ edges. length edges.items ≡ length nets.now) }
    ensures edges { IfOk result (λ edges. AreEdges aig.new edges.items) }
    ensures values { IfOk result (λ edges. (targets : List (List ℕ)) → AreTargets netlist.now targets →
        AreValued netlist.now aig.new (netlist.now.inputs ++ targets ++ names_at (names netlist.now) nets.now)
        (inputs.now ++ opens.now ++ edges.items)) }
    ensures grows { Grows aig.old aig.new (needed_nodes netlist.now) }
{
    // it is checked: inputs and targets are nets
    let _ = netlist.nets();
    let mut bind = Vec::from_slice(alloc, inputs)?;
    bind.extend_from_slice(opens)?;
    let edges = compile(alloc, netlist, bind.as_slice(), aig)?;
    picked_edges(alloc, nets, edges.as_slice())
}

/// The edges of these nets, where all nets have the given edges.
pub fn picked_edges(alloc: Global, nets: &[NetId], edges: &[Edge]) -> Result<Vec<Edge>, OutOfMemory>
    requires { All (λ net. net.0 < length edges.now) nets.now }
    ensures { IfOk result (λ picked. picked.items ≡ map (λ net. slice_index_or edges.now net.0 (plain 0)) nets.now) }
{
    let mut picked = Vec::with_capacity(alloc, nets.len())?;
    for net in nets {
        picked.push(edges[net.0 as usize])?;
    }
    Ok(picked)
}
