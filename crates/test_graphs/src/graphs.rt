//! Graphs: conjunctions that need no node, nodes that are found again, and truth tables.

use crate::bits::{edge_bit, row_bits};
use crate::edges::{and, or};
use eco_aig::{Aig, Edge, OutOfMemory};
use std::alloc::Global;
use std::test::Fail;

/// Whether the third of each three edges is the conjunction of the first two.
fn are_conjunctions(graph: &mut Aig, rows: &[(Edge, Edge, Edge)]) -> Result<bool, OutOfMemory> {
    for (first, second, both) in rows {
        if and(graph, *first, *second)? != *both {
            return Ok(false);
        }
    }
    Ok(true)
}

/// Whether the disjunction of each two edges is the constant 1.
fn are_covering(graph: &mut Aig, rows: &[(Edge, Edge)]) -> Result<bool, OutOfMemory> {
    for (first, second) in rows {
        if or(graph, *first, *second)? != Edge::ONE {
            return Ok(false);
        }
    }
    Ok(true)
}

/// Whether the conjunctions of two new inputs with themselves, their complements and constants need no node.
fn need_no_node(graph: &mut Aig) -> Result<bool, OutOfMemory> {
    let a = graph.input()?;
    let b = graph.input()?;
    let rows = [
        (a, a, a),
        (a, a.not(), Edge::ZERO),
        (Edge::ONE, b, b),
        (b, Edge::ZERO, Edge::ZERO),
    ];
    let is_right = are_conjunctions(graph, &rows)?;
    let is_one = are_covering(graph, &[(a, Edge::ONE), (a, a.not())])?;
    Ok(is_right & is_one & (graph.nodes() == 3) & (graph.inputs() == [1, 2].as_slice()))
}

#[test]
fn conjunctions_that_need_no_node(rt: HostRuntime) -> Result<(), Fail> {
    let mut graph = Aig::new(rt.alloc())?;
    let found = need_no_node(&mut graph);
    drop(graph);
    assert!(rt; found?);
    Ok(())
}

/// Whether the nodes have these operands.
fn have_pairs(graph: &Aig, rows: &[(u64, Option<(Edge, Edge)>)]) -> bool {
    for (node, pair) in rows {
        if graph.pair(*node) != *pair {
            return false;
        }
    }
    true
}

/// Whether the conjunction of two new inputs is found again, and is the one node that has operands.
fn is_found_again(graph: &mut Aig) -> Result<bool, OutOfMemory> {
    let a = graph.input()?;
    let b = graph.input()?;
    let both = and(graph, b, a)?;
    let have_pairs = have_pairs(graph, &[(3, Some((a, b))), (0, None), (1, None), (4, None)]);
    let again = and(graph, a, b)?;
    Ok(have_pairs & (again == both) & !both.complemented() & (graph.nodes() == 4))
}

#[test]
fn a_node_is_found_again(rt: HostRuntime) -> Result<(), Fail> {
    let mut graph = Aig::new(rt.alloc())?;
    let found = is_found_again(&mut graph);
    drop(graph);
    assert!(rt; found?);
    Ok(())
}

/// Whether the second and third of three new inputs differ; and the second where the first is 1, else the third.
fn difference_and_choice(graph: &mut Aig) -> Result<(Edge, Edge), OutOfMemory> {
    let s = graph.input()?;
    let a = graph.input()?;
    let b = graph.input()?;
    Ok((graph.xor(a, b)?, graph.mux(s, a, b)?))
}

/// Whether both have their values where the inputs have the bits of the row.
fn have_row(
    alloc: Global,
    graph: &Aig,
    edges: (Edge, Edge),
    row: u64,
) -> Result<bool, OutOfMemory> {
    let bits = row_bits(alloc, graph, row)?;
    let (difference, choice) = edges;
    let a = row & 2 == 2;
    let b = row & 4 == 4;
    let chosen = if row & 1 == 1 { a } else { b };
    let is_different = edge_bit(bits.as_slice(), difference) == (a != b);
    Ok(is_different & (edge_bit(bits.as_slice(), choice) == chosen))
}

/// Whether both have their values on all rows, in ten nodes.
fn have_tables(alloc: Global, graph: &mut Aig) -> Result<bool, OutOfMemory> {
    let edges = difference_and_choice(graph)?;
    for row in 0..8 {
        if !have_row(alloc, graph, edges, row)? {
            return Ok(false);
        }
    }
    Ok(graph.nodes() == 10)
}

#[test]
fn truth_tables(rt: HostRuntime) -> Result<(), Fail> {
    let mut graph = Aig::new(rt.alloc())?;
    let found = have_tables(rt.alloc(), &mut graph);
    drop(graph);
    assert!(rt; found?);
    Ok(())
}
