//! Sweeping by examples: what is equal has one edge, and what isn't hasn't.

ghost use Rattle.std.specs.Prelude.{◌≤◌};
ghost use Rattle.eco_aig.specs.Swept.{IsSwept};

use crate::edges::{CONJUNCTIONS, Circuit, and, build, edge_of, inputs};
use crate::parities::xor;
use eco_aig::{Aig, Edge};
use eco_cdcl::Watched;
use eco_meaning::OutOfMemory;
use eco_sweep::Sweeper;
use std::alloc::Global;
use std::test::Fail;

/// The conjunction of so many new inputs.
fn wide(aig: &mut Aig, inputs: u64) -> Result<Edge, OutOfMemory> {
    let mut all = Edge::ONE;
    for _place in 0..inputs {
        let input = aig.input()?;
        all = and(aig, all, input)?;
    }
    Ok(all)
}

/// What stands for the edge; the constant 0 where it isn't one of the graph.
fn image(sweeper: &mut Sweeper, aig: &mut Aig, edge: Edge) -> Result<Edge, OutOfMemory>
    requires { IsSwept aig.old sweeper.old.map }
    ensures { IsSwept aig.new sweeper.new.map }
{
    if edge.node() >= aig.nodes() {
        return Ok(Edge::ZERO);
    }
    let images = sweeper.reduce(aig, &[edge], &mut Watched::new())?;
    Ok(images.first().copied().unwrap_or(Edge::ZERO))
}

/// What stands for two edges of the graph under a sweeper of it.
fn images(
    sweeper: &mut Sweeper,
    aig: &mut Aig,
    a: Edge,
    b: Edge,
) -> Result<(Edge, Edge), OutOfMemory>
    requires { IsSwept aig.old sweeper.old.map }
{
    Ok((image(sweeper, aig, a)?, image(sweeper, aig, b)?))
}

/// The same under a new sweeper.
fn swept(alloc: Global, aig: &mut Aig, a: Edge, b: Edge) -> Result<(Edge, Edge), OutOfMemory> {
    let mut sweeper = Sweeper::new(alloc, aig.hasher(), 100);
    let found = images(&mut sweeper, aig, a, b);
    drop(sweeper);
    found
}

/// What stands for two edges of the graph, which is given an input in between.
fn images_apart(
    sweeper: &mut Sweeper,
    aig: &mut Aig,
    a: Edge,
    b: Edge,
) -> Result<(Edge, Edge), OutOfMemory>
    requires { IsSwept aig.old sweeper.old.map }
{
    let first = image(sweeper, aig, a)?;
    let _input = aig.input()?;
    let second = image(sweeper, aig, b)?;
    Ok((first, second))
}

/// The same under a new sweeper.
fn swept_apart(
    alloc: Global,
    aig: &mut Aig,
    a: Edge,
    b: Edge,
) -> Result<(Edge, Edge), OutOfMemory> {
    let mut sweeper = Sweeper::new(alloc, aig.hasher(), 100);
    let found = images_apart(&mut sweeper, aig, a, b);
    drop(sweeper);
    found
}

/// Conjunctions of so many inputs, and of one more: under inputs that are drawn, both are 0 as far as can be seen.
fn look_equal(aig: &mut Aig, inputs: u64) -> Result<(Edge, Edge), OutOfMemory> {
    let all = wide(aig, inputs)?;
    let more = aig.input()?;
    Ok((all, and(aig, all, more)?))
}

/// Two edges to look at.
enum Example {
    /// Those of two numbers of a circuit.
    Built(Circuit, i32, i32),
    /// Conjunctions of so many inputs, and of one more.
    LookEqual(u64),
}

/// The edges of a circuit's numbers.
fn both_of(
    alloc: Global,
    aig: &mut Aig,
    circuit: &Circuit,
    first: i32,
    second: i32,
) -> Result<(Edge, Edge), OutOfMemory> {
    let edges = build(alloc, aig, circuit)?;
    Ok((
        edge_of(edges.as_slice(), first),
        edge_of(edges.as_slice(), second),
    ))
}

fn built(alloc: Global, aig: &mut Aig, example: &Example) -> Result<(Edge, Edge), OutOfMemory> {
    match example {
        Example::Built(circuit, first, second) => both_of(alloc, aig, circuit, *first, *second),
        Example::LookEqual(inputs) => look_equal(aig, *inputs),
    }
}

/// What stands for the edges.
#[derive(Clone, Copy, PartialEq, Eq)]
enum Found {
    /// The first one for both.
    First,
    /// The first one and its complement.
    Complements,
    /// The constants 0 and 1.
    Constants,
    /// Each for itself, and they are two.
    Apart,
    /// Something else.
    Other,
}

fn found_for(edges: (Edge, Edge), images: (Edge, Edge)) -> Found {
    let (first, second) = edges;
    if images == (Edge::ZERO, Edge::ONE) {
        Found::Constants
    } else if images == (first, first) && first != second {
        Found::First
    } else if images == (first, first.not()) {
        Found::Complements
    } else if images == edges && first != second {
        Found::Apart
    } else {
        Found::Other
    }
}

fn found_of(alloc: Global, aig: &mut Aig, example: &Example) -> Result<Found, OutOfMemory> {
    let (first, second) = built(alloc, aig, example)?;
    let images = swept(alloc, aig, first, second)?;
    Ok(found_for((first, second), images))
}

/// What is found, and how many nodes the graph then has.
fn found_in_new_graph(alloc: Global, example: &Example) -> Result<(Found, u64), OutOfMemory> {
    let mut aig = Aig::new(alloc)?;
    let found = found_of(alloc, &mut aig, example);
    let nodes = aig.nodes();
    drop(aig);
    Ok((found?, nodes))
}

/// Two conjunctions of three inputs.
const ORDERS: Example = Example::Built(CONJUNCTIONS, 7, 8);

const FOUND: [(Example, Found); 5] = [
    (ORDERS, Found::First),
    // an exclusive disjunction, and its complement otherwise
    (
        Example::Built(
            Circuit {
                inputs: 2,
                pairs: &[(2, -3), (-2, 3), (2, 3), (-2, -3), (-4, -5), (-6, -7)],
            },
            -8,
            -9,
        ),
        Found::Complements,
    ),
    // a choice as a sum of products, and as a product of sums
    (
        Example::Built(
            Circuit {
                inputs: 3,
                pairs: &[(2, 3), (-2, 4), (2, -3), (-2, -4), (-5, -6), (-7, -8)],
            },
            -9,
            10,
        ),
        Found::First,
    ),
    // what is never 1, and its complement
    (
        Example::Built(
            Circuit {
                inputs: 3,
                pairs: &[(2, 3), (2, -4), (-6, -4), (5, 7)],
            },
            8,
            -8,
        ),
        Found::Constants,
    ),
    (Example::LookEqual(60), Found::Apart),
];

#[test]
fn what_is_equal_is_merged(rt: HostRuntime) -> Result<(), Fail> {
    for (place, (example, expected)) in FOUND.iter().enumerate() {
        let (found, _nodes) = found_in_new_graph(rt.alloc(), example)?;
        assert!(rt; found == *expected, "at the place {place}");
    }
    Ok(())
}

#[test]
fn no_node_is_added_for_equal_conjunctions(rt: HostRuntime) -> Result<(), Fail> {
    let found = found_in_new_graph(rt.alloc(), &ORDERS)?;
    assert!(rt; found == (Found::First, 8));
    Ok(())
}

fn found_while_it_grows(alloc: Global, aig: &mut Aig) -> Result<Found, OutOfMemory> {
    let (first, second) = both_of(alloc, aig, &CONJUNCTIONS, 7, 8)?;
    let images = swept_apart(alloc, aig, first, second)?;
    Ok(found_for((first, second), images))
}

#[test]
fn a_graph_that_grows(rt: HostRuntime) -> Result<(), Fail> {
    let mut aig = Aig::new(rt.alloc())?;
    let found = found_while_it_grows(rt.alloc(), &mut aig);
    drop(aig);
    assert!(rt; found == Ok(Found::First));
    Ok(())
}

/// The exclusive disjunctions of the edges, from the first on and from the last on.
fn both_parities(aig: &mut Aig, edges: &[Edge]) -> Result<(Edge, Edge), OutOfMemory> {
    let mut forward = Edge::ZERO;
    for edge in edges.iter() {
        forward = xor(aig, forward, *edge)?;
    }
    let mut backward = Edge::ZERO;
    for edge in edges.iter().rev() {
        backward = xor(aig, backward, *edge)?;
    }
    Ok((forward, backward))
}

/// The same by one call.
fn images_at_once(
    sweeper: &mut Sweeper,
    aig: &mut Aig,
    a: Edge,
    b: Edge,
) -> Result<(Edge, Edge), OutOfMemory>
    requires { IsSwept aig.old sweeper.old.map }
{
    if a.node() >= aig.nodes() || b.node() >= aig.nodes() {
        return Ok((Edge::ZERO, Edge::ZERO));
    }
    let images = sweeper.reduce(aig, &[a, b], &mut Watched::new())?;
    let first = images.first().copied().unwrap_or(Edge::ZERO);
    let second = images.last().copied().unwrap_or(Edge::ZERO);
    Ok((first, second))
}

/// What is found of two parities of sixteen inputs, where a question may learn so many clauses.
fn found_for_parities(alloc: Global, aig: &mut Aig, limit: u64) -> Result<Found, OutOfMemory>
    requires { 1 ≤ limit }
{
    let edges = inputs(alloc, aig, 16)?;
    let (first, second) = both_parities(aig, edges.as_slice())?;
    let mut sweeper = Sweeper::new(alloc, aig.hasher(), limit);
    let images = images_at_once(&mut sweeper, aig, first, second);
    drop(sweeper);
    Ok(found_for((first, second), images?))
}

/// The same in a new graph.
fn parities_within(alloc: Global, limit: u64) -> Result<Found, OutOfMemory>
    requires { 1 ≤ limit }
{
    let mut aig = Aig::new(alloc)?;
    let found = found_for_parities(alloc, &mut aig, limit);
    drop(aig);
    found
}

/// What a quick comparison leaves open, a longer one finds equal.
#[test]
fn parities_are_merged_by_a_longer_comparison(rt: HostRuntime) {
    assert!(rt; parities_within(rt.alloc(), 300) == Ok(Found::Apart));
    assert!(rt; parities_within(rt.alloc(), 1_000) == Ok(Found::First));
}
