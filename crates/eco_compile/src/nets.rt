//! The edges of a netlist's nets.

ghost use Rattle.std.specs.Prelude.{◌≡◌, ℕ, Bool, length, map, IfOk};
ghost use Rattle.eco_meaning.specs.Circuit.{names, IsConsistent};
ghost use Rattle.eco_aig.specs.Graph.{IsValuation, Grows};
ghost use Rattle.eco_aig.specs.Edges.{bits_of};
ghost use Rattle.eco_compile.specs.Compiled.{AreEdges, HasOpenNets, IsBound, values_of, needed_nodes};

use crate::binding::bound_edges;
use crate::gates::compile_gates;
use eco_aig::{Aig, Edge};
use eco_meaning::OutOfMemory;
use eco_netlist::Netlist;
use std::alloc::Global;

/// An edge of the graph for each net of the netlist, in the order of the nets' numbers: the given edges for the
/// inputs and then the targets, and for each gate the edge that has its value. A gate of several inputs is joined
/// from its first input on. It takes time linear in the number of nets and inputs of gates.
///
/// After `OutOfMemory` the graph may have nodes more.
pub fn compile(
    alloc: Global,
    netlist: &Netlist,
    bind: &[Edge],
    aig: &mut Aig,
) -> Result<Vec<Edge>, OutOfMemory>
    requires count { HasOpenNets netlist.now (length bind.now) }
    requires edges { AreEdges aig.old bind.now }

    // One edge for each net; under each valuation of the graph their bits are consistent with the netlist.
    ensures length { IfOk result (λ edges. length edges.items ≡ length (names netlist.now)) }
    ensures edges { IfOk result (λ edges. AreEdges aig.new edges.items) }
    ensures named { IfOk result (λ edges. (w : ℕ → Bool) → map (values_of netlist.now w edges.items) (names netlist.now) ≡ bits_of w edges.items) }
    ensures consistent { IfOk result (λ edges. (w : ℕ → Bool) → IsValuation aig.new w → IsConsistent netlist.now (values_of netlist.now w edges.items)) }
    ensures bound { IfOk result (λ edges. IsBound netlist.now bind.now edges.items) }

    // Older nodes and the graph's inputs stay, whatever the result. No node is added for a gate's first input, and for
    // each further one at most a node, or three in an exclusive or.
    ensures grows { Grows aig.old aig.new (needed_nodes netlist.now) }
{
    let edges = bound_edges(alloc, netlist, bind, aig)?;
    // it is checked
    let _ = netlist.nets();
    compile_gates(netlist.gates(), netlist.order(), edges, aig)
}
