//! Nodes that are merged, by examples.

use crate::edges::{CONJUNCTIONS, Circuit, build, edge_of};
use eco_aig::{Aig, Edge, OutOfMemory};
use eco_cdcl::Watched;
use eco_merge::sweep;
use std::alloc::Global;
use std::test::Fail;

/// Two edges of a circuit, by their numbers, what is to stand for them, and how many and-nodes the first of that is to reach.
struct Example {
    circuit: Circuit,
    edges: [i32; 2],
    expected: [i32; 2],
    nodes: usize,
}

/// Conjunctions of three inputs in two orders; exclusive disjunctions in two forms; a constant and an input.
const EXAMPLES: [Example; 3] = [
    Example {
        circuit: CONJUNCTIONS,
        edges: [7, 8],
        expected: [7, 7],
        nodes: 2,
    },
    Example {
        circuit: Circuit {
            inputs: 2,
            pairs: &[(2, -3), (-2, 3), (-4, -5), (-2, -3), (2, 3), (-7, -8)],
        },
        edges: [-6, 9],
        expected: [-6, -6],
        nodes: 3,
    },
    Example {
        circuit: Circuit {
            inputs: 2,
            pairs: &[(2, 3), (2, -3), (4, 5), (-4, -5)],
        },
        edges: [6, -7],
        expected: [-1, 2],
        nodes: 0,
    },
];

/// The edges of both numbers.
fn both_of(edges: &[Edge], numbers: [i32; 2]) -> [Edge; 2] {
    [edge_of(edges, numbers[0]), edge_of(edges, numbers[1])]
}

/// Whether the sweep gives what is to stand for the edges, and merges all; not where an edge isn't one of the graph.
fn is_swept(
    alloc: Global,
    aig: &mut Aig,
    edges: [Edge; 2],
    expected: [Edge; 2],
) -> Result<bool, OutOfMemory> {
    if edges[0].node() >= aig.nodes() || edges[1].node() >= aig.nodes() {
        return Ok(false);
    }
    let swept = sweep(alloc, aig, &edges, &mut Watched::new(), 1000)?;
    let is_swept = (swept.roots.as_slice() == expected.as_slice()) & (swept.apart.len() == 0);
    drop(swept);
    Ok(is_swept)
}

/// Whether the example's edges are merged.
fn is_merged(alloc: Global, aig: &mut Aig, example: &Example) -> Result<bool, OutOfMemory> {
    let edges = build(alloc, aig, &example.circuit)?;
    let both = both_of(edges.as_slice(), example.edges);
    let expected = both_of(edges.as_slice(), example.expected);
    let is_swept = is_swept(alloc, aig, both, expected)?;
    Ok(is_swept & (count(alloc, aig, expected[0])? == example.nodes))
}

fn is_merged_in_new_graph(alloc: Global, example: &Example) -> Result<bool, OutOfMemory> {
    let mut aig = Aig::new(alloc)?;
    let is_merged = is_merged(alloc, &mut aig, example);
    drop(aig);
    is_merged
}

#[test]
fn equal_edges_are_merged(rt: HostRuntime) -> Result<(), Fail> {
    for (place, example) in EXAMPLES.iter().enumerate() {
        assert!(rt;
            is_merged_in_new_graph(rt.alloc(), example)?,
            "at the place {place}"
        );
    }
    Ok(())
}

/// How many and-nodes the edge reaches.
fn count(alloc: Global, aig: &Aig, edge: Edge) -> Result<usize, OutOfMemory> {
    let mut marks = vec![in alloc; false; aig.nodes() as usize]?;
    mark(&mut marks, edge);
    let mut count: usize = 0;
    for node in (0..aig.nodes()).rev() {
        if marks.get(node as usize) == Some(&true)
            && let Some((first, second)) = aig.pair(node)
        {
            mark(&mut marks, first);
            mark(&mut marks, second);
            count = count.wrapping_add(1);
        }
    }
    Ok(count)
}

/// Marks the edge's node.
fn mark(marks: &mut [bool], edge: Edge) {
    if let Some(mark) = marks.get_mut(edge.node() as usize) {
        *mark = true;
    }
}
