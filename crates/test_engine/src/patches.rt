//! Patches of the first targets, each of which follows an input or is constant.

ghost use Rattle.std.specs.Prelude.{◌≡◌};
ghost use Rattle.eco_aig.specs.Graph.{IsEdge};
ghost use Rattle.eco_compile.specs.Compiled.{AreEdges};
ghost use Rattle.eco_query.specs.Problem.{HasTargetNumber};
ghost use Rattle.eco_pose.specs.Questions.{AtTarget};
ghost use Rattle.eco_desk.specs.Desks.{AreBefore};
ghost use Rattle.test_engine.specs.Fronts.{IsFrontOf};

use crate::askable::{expect_same, expect_target};
use crate::front::{Front, Source, drawn_sources};
use eco_aig::{Aig, Edge, new_graph};
use eco_netlist::Netlist;
use eco_query::Problem;
use eco_splice::{Roots, patch_netlist};
use std::alloc::Global;
use std::process::Abort;

/// The edge of the input at the place, or that of 0 where there is none.
fn input_edge(graph: &Aig, inputs: &[Edge], place: u64) -> Edge
    requires { AreEdges graph.now inputs.now }
    ensures { IsEdge graph.now result }
{
    // it is a graph
    let _ = graph.nodes();
    match inputs.get(place as usize) {
        Some(edge) => *edge,
        None => Edge::ZERO,
    }
}

/// The edge of the source.
fn root(graph: &Aig, inputs: &[Edge], source: Source) -> Edge
    requires { AreEdges graph.now inputs.now }
    ensures { IsEdge graph.now result }
{
    let edge = input_edge(graph, inputs, source.place);
    if source.is_complement {
        edge.not()
    } else {
        edge
    }
}

/// The edges of the sources.
fn roots(
    rt: &impl Abort,
    alloc: Global,
    graph: &Aig,
    inputs: &[Edge],
    sources: &[Source],
) -> Vec<Edge>
    requires { AreEdges graph.now inputs.now }
    ensures { AreEdges graph.now result.items }
{
    let mut roots = Vec::new(alloc);
    for source in sources {
        roots
            .push(root(graph, inputs, *source))
            .expect(rt, "memory");
    }
    roots
}

/// The patch by which the targets before the target of this number follow the sources.
fn patch(
    rt: &impl Abort,
    alloc: Global,
    problem: &Problem,
    target: u64,
    sources: &[Source],
) -> Netlist
    requires { HasTargetNumber problem.now.implementation target }
    ensures { AtTarget problem.now.implementation target (AreBefore problem.now.implementation result) }
{
    let f = problem.implementation();
    let base = f.inputs();
    let (graph, inputs) = new_graph(alloc, f.hasher(), base.len()).expect(rt, "memory");
    let roots = roots(rt, alloc, &graph, inputs.as_slice(), sources);
    expect_same(rt, roots.len(), target as usize);
    let functions = Roots {
        aig: &graph,
        edges: roots.as_slice(),
        base,
    };
    let patch = patch_netlist(alloc, f, &functions).expect(rt, "memory");
    drop(graph);
    patch
}

/// The target of this number, where those before it follow some sources.
pub fn drawn_front(
    rt: &impl Abort,
    alloc: Global,
    problem: &Problem,
    target: u64,
    seed: u64,
) -> Front
    ensures { IsFrontOf problem.now result.target result.patch }
{
    expect_target(rt, problem, target);
    let inputs = problem.implementation().inputs().len() as u64;
    let sources = drawn_sources(rt, alloc, seed, inputs, target);
    let patch = patch(rt, alloc, problem, target, sources.as_slice());
    Front {
        target,
        sources,
        patch,
    }
}
