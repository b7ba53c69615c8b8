//! The edges that are given.

ghost use Rattle.std.specs.Prelude.{◌≡◌, ◌≢◌, ◌<◌, ◌++◌, List, ℕ, length, slice_get, IfOk, All, AllPairs};
ghost use Rattle.eco_meaning.specs.Circuit.{names, AreTargets};
ghost use Rattle.eco_netlist.specs.Netlists.{AreNets, names_at};
ghost use Rattle.eco_compile.specs.Compiled.{AreEdges, HasOpenNets, IsBound};

use eco_aig::{Aig, Edge};
use eco_meaning::OutOfMemory;
use eco_netlist::{NetId, Netlist};
use std::alloc::Global;

/// The number of edges that `compile` binds: one for each input and one for each target.
pub fn edges_to_bind(netlist: &Netlist) -> usize
    ensures { HasOpenNets netlist.now result }
{
    netlist.inputs().len() + netlist.targets().len()
}

/// An edge for each net: the given ones for the inputs and the targets, and the constant for the others.
pub(crate) fn bound_edges(
    alloc: Global,
    netlist: &Netlist,
    bind: &[Edge],
    aig: &Aig,
) -> Result<Vec<Edge>, OutOfMemory>
    requires count { HasOpenNets netlist.now (length bind.now) }
    requires edges { AreEdges aig.now bind.now }
    ensures length { IfOk result (λ edges. length edges.items ≡ length (names netlist.now)) }
    ensures edges { IfOk result (λ edges. AreEdges aig.now edges.items) }
    ensures bound { IfOk result (λ edges. IsBound netlist.now bind.now edges.items) }
{
    // the constant is node 0
    let _ = aig.nodes();
    let nets = nets_to_bind(alloc, netlist)?;
    let mut edges = vec![in alloc; Edge::ZERO; netlist.nets() as usize]?;
    for (place, net) in nets.as_slice().iter().enumerate() {
        edges[net.0 as usize] = bind[place];
    }
    Ok(edges)
}

/// The inputs, then the targets.
fn nets_to_bind(alloc: Global, netlist: &Netlist) -> Result<Vec<NetId>, OutOfMemory>
    ensures named { IfOk result (λ nets. (targets : List (List ℕ)) → AreTargets netlist.now targets →
        names_at (names netlist.now) nets.items ≡ netlist.now.inputs ++ targets) }
    ensures within { IfOk result (λ nets. AreNets (names netlist.now) nets.items) }
    ensures apart { IfOk result (λ nets. AllPairs (λ a b. a.0 ≢ b.0) nets.items) }
{
    // it is checked: its names are distinct
    let _ = netlist.nets();
    let mut nets = Vec::from_slice(alloc, netlist.inputs())?;
    nets.extend_from_slice(netlist.targets())?;
    Ok(nets)
}
