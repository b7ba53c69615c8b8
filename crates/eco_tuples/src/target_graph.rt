//! The graph that copies of a netlist are compiled into, one for each input of a tuple.

ghost use Rattle.std.specs.Prelude.{◌≡◌, IfOk, length};
ghost use Rattle.eco_meaning.specs.Circuit.{names};
ghost use Rattle.eco_netlist.specs.Netlists.{AreNets, names_at};
ghost use Rattle.eco_tuples.specs.Graphs.{AreValuesAt, IsRightEdge, IsTargetGraph, Stretches};

use eco_aig::{Aig, Edge, new_graph};
use eco_compile::{goal_edges, miter, valued_edges};
use eco_meaning::OutOfMemory;
use eco_netlist::{NetId, Netlist};
use eco_pose::constants;
use eco_query::Problem;
use std::alloc::Global;

/// A graph whose inputs are the targets of a netlist.
#[derive(Drop)]
pub(crate) struct TargetGraph {
    pub(crate) alloc: Global,
    pub(crate) graph: Aig,
    /// The edges of the targets, in their order.
    pub(crate) opens: Vec<Edge>,
}

/// The graph of the netlist's targets alone.
pub(crate) fn target_graph(alloc: Global, netlist: &Netlist) -> Result<TargetGraph, OutOfMemory>
    ensures { IfOk result (IsTargetGraph netlist.now) }
{
    let (graph, opens) = new_graph(alloc, netlist.hasher(), netlist.targets().len())?;
    // it is a graph
    let _ = graph.nodes();
    Ok(TargetGraph {
        alloc,
        graph,
        opens,
    })
}

/// The edge that is 1 where the problem's implementation, with the bits of the graph at its targets, is right at the input.
pub(crate) fn right_edge(
    problem: &Problem,
    input: &[bool],
    targets: &mut TargetGraph,
) -> Result<Edge, OutOfMemory>
    requires input { length input.now ≡ length problem.now.implementation.inputs }
    requires targets { IsTargetGraph problem.now.implementation targets.old }
    ensures edge { IfOk result (IsRightEdge problem.now targets.new input.now) }
    ensures stretches { IfOk result (λ _. Stretches targets.old targets.new) }
    ensures targets { IfOk result (λ _. IsTargetGraph problem.now.implementation targets.new) }
{
    let f = problem.implementation();
    let inputs = constants(targets.alloc, input)?;
    let goal = goal_edges(
        targets.alloc,
        f,
        problem.specification(),
        problem.care(),
        inputs.as_slice(),
        &mut targets.graph,
    )?;
    let outputs = valued_edges(
        targets.alloc,
        f,
        inputs.as_slice(),
        targets.opens.as_slice(),
        f.outputs(),
        &mut targets.graph,
    )?;
    let wrong = miter(
        outputs.as_slice(),
        goal.outputs.as_slice(),
        goal.cared,
        &mut targets.graph,
    )?;
    // it is a graph
    let _ = targets.graph.nodes();
    Ok(wrong.not())
}

/// The edges that these nets of the netlist have at the input, with the bits of the graph at its targets.
pub(crate) fn edges_at(
    netlist: &Netlist,
    nets: &[NetId],
    input: &[bool],
    targets: &mut TargetGraph,
) -> Result<Vec<Edge>, OutOfMemory>
    requires nets { AreNets (names netlist.now) nets.now }
    requires input { length input.now ≡ length netlist.now.inputs }
    requires targets { IsTargetGraph netlist.now targets.old }
    ensures count { IfOk result (λ edges. length edges.items ≡ length nets.now) }
    ensures values { IfOk result (λ edges. AreValuesAt netlist.now (names_at (names netlist.now) nets.now) targets.new input.now edges.items) }
    ensures stretches { IfOk result (λ _. Stretches targets.old targets.new) }
    ensures targets { IfOk result (λ _. IsTargetGraph netlist.now targets.new) }
{
    // it is checked
    let _ = netlist.nets();
    let inputs = constants(targets.alloc, input)?;
    let edges = valued_edges(
        targets.alloc,
        netlist,
        inputs.as_slice(),
        targets.opens.as_slice(),
        nets,
        &mut targets.graph,
    )?;
    // it is a graph
    let _ = targets.graph.nodes();
    Ok(edges)
}
