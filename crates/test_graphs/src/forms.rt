//! Graphs written as gates: how many these are where that is plain by hand, and that each stands for its edge.

use crate::bits::{edge_bit, row_bits};
use crate::edges::{Circuit, and, build, edge_of, inputs, or};
use eco_aig::{Aig, Edge, OutOfMemory};
use eco_forms::{Line, count, lines};
use eco_splice::{Kind, is_line};
use std::alloc::Global;

/// The exclusive disjunction of edges of the graph.
fn xor(aig: &mut Aig, a: Edge, b: Edge) -> Result<Edge, OutOfMemory> {
    let left = and(aig, a, b.not())?;
    let right = and(aig, a.not(), b)?;
    or(aig, left, right)
}

/// Edges of a graph, and how many lines they take.
struct Example {
    /// Over eight inputs, which are 2 to 9, so that the conjunctions begin with 10.
    pairs: &'static [(i32, i32)],
    roots: &'static [i32],
    number: u64,
}

/// The examples, over inputs a, b, c, ..
const EXAMPLES: [Example; 22] = [
    // a and b
    Example {
        pairs: &[(2, 3)],
        roots: &[10],
        number: 1,
    },
    // the complement of that
    Example {
        pairs: &[(2, 3)],
        roots: &[-10],
        number: 1,
    },
    // a or b or c
    Example {
        pairs: &[(-2, -3), (10, -4)],
        roots: &[-11],
        number: 1,
    },
    // the complement of that
    Example {
        pairs: &[(-2, -3), (10, -4)],
        roots: &[11],
        number: 1,
    },
    // neither a nor b, but c
    Example {
        pairs: &[(-2, -3), (10, 4)],
        roots: &[11],
        number: 2,
    },
    // a exclusive or b
    Example {
        pairs: &[(2, -3), (-2, 3), (-10, -11)],
        roots: &[-12],
        number: 1,
    },
    // the complement of that
    Example {
        pairs: &[(2, 3), (-2, -3), (-10, -11)],
        roots: &[-12],
        number: 1,
    },
    // the complement of the parity of eight inputs
    Example {
        pairs: &[
            (-2, -3),
            (2, 3),
            (-10, -11),
            (-12, -4),
            (12, 4),
            (-13, -14),
            (-15, -5),
            (15, 5),
            (-16, -17),
            (-18, -6),
            (18, 6),
            (-19, -20),
            (-21, -7),
            (21, 7),
            (-22, -23),
            (-24, -8),
            (24, 8),
            (-25, -26),
            (-27, -9),
            (27, 9),
            (-28, -29),
        ],
        roots: &[-30],
        number: 1,
    },
    // whether two of a, b, c are 1 at least
    Example {
        pairs: &[(-2, -3), (2, 3), (4, -10), (-11, -12)],
        roots: &[-13],
        number: 4,
    },
    // b where a is 1, else c
    Example {
        pairs: &[(2, 3), (-2, 4), (-10, -11)],
        roots: &[-12],
        number: 4,
    },
    // sum and carry of a, b, c
    Example {
        pairs: &[
            (2, 3),
            (2, -3),
            (-2, 3),
            (-11, -12),
            (-13, -4),
            (13, 4),
            (-14, -15),
            (4, -13),
            (-10, -17),
        ],
        roots: &[-16, -18],
        number: 5,
    },
    // sum and carry of a and b, the sum over the carry
    Example {
        pairs: &[(2, 3), (-2, -3), (-11, -10)],
        roots: &[12, 10],
        number: 2,
    },
    // both (a and b and c) and (a and b and d)
    Example {
        pairs: &[(2, 3), (10, 4), (10, 5)],
        roots: &[11, 12],
        number: 2,
    },
    // both (a and b) and (a and b and c)
    Example {
        pairs: &[(2, 3), (10, 4)],
        roots: &[10, 11],
        number: 2,
    },
    // a and (a and b), read by two conjunctions
    Example {
        pairs: &[(2, 3), (2, 10), (11, 4), (11, -4)],
        roots: &[12, 13],
        number: 3,
    },
    // (a exclusive or b) and (c exclusive or d)
    Example {
        pairs: &[
            (2, -3),
            (-2, 3),
            (-10, -11),
            (4, -5),
            (-4, 5),
            (-13, -14),
            (-12, -15),
        ],
        roots: &[16],
        number: 3,
    },
    // (a and b) exclusive or not (c and d)
    Example {
        pairs: &[(2, 3), (4, 5), (10, 11), (-10, -11), (-12, -13)],
        roots: &[-14],
        number: 3,
    },
    // a and b twice
    Example {
        pairs: &[(2, 3)],
        roots: &[10, 10],
        number: 2,
    },
    // a and b, and the complement of it
    Example {
        pairs: &[(2, 3)],
        roots: &[10, -10],
        number: 2,
    },
    // the constants, beside a conjunction
    Example {
        pairs: &[(2, 3)],
        roots: &[-1, 1],
        number: 2,
    },
    // a, its complement, and that again
    Example {
        pairs: &[],
        roots: &[2, -2, -2],
        number: 3,
    },
    // nothing
    Example {
        pairs: &[],
        roots: &[],
        number: 0,
    },
];

/// The value of a gate over so many operands, so many of which are 1.
fn value(kind: Kind, operands: u64, ones: u64) -> bool {
    match kind {
        Kind::And => ones == operands,
        Kind::Nand => ones != operands,
        Kind::Or => ones > 0,
        Kind::Nor => ones == 0,
        Kind::Xor => ones % 2 == 1,
        Kind::Xnor => ones % 2 == 0,
        Kind::Buf => ones == 1 && operands == 1,
        Kind::Not => ones == 0 && operands == 1,
    }
}

/// Whether the gate has its edge's value where the nodes have these bits.
fn has_value(bits: &[bool], line: &Line) -> bool {
    let mut ones: u64 = 0;
    for operand in &line.operands {
        if edge_bit(bits, *operand) {
            ones = ones.saturating_add(1);
        }
    }
    value(line.kind, line.operands.len() as u64, ones) == edge_bit(bits, line.edge)
}

/// Whether all lines have their edges' values on so many rows.
fn have_values(alloc: Global, aig: &Aig, lines: &[Line], rows: u64) -> Result<bool, OutOfMemory> {
    for row in 0..rows {
        let bits = row_bits(alloc, aig, row)?;
        if !are_right(bits.as_slice(), lines) {
            return Ok(false);
        }
    }
    Ok(true)
}

/// Whether all lines have their edges' values where the nodes have these bits.
fn are_right(bits: &[bool], lines: &[Line]) -> bool {
    for line in lines {
        if !has_value(bits, line) {
            return false;
        }
    }
    true
}

/// Whether each line is seen to be one, is over constants, inputs and earlier lines, and no line gives an edge that is there
/// already, but a buffer that drives a target.
fn are_in_order(alloc: Global, aig: &Aig, lines: &[Line]) -> Result<bool, OutOfMemory> {
    let mut known = inputs_and_constants(alloc, aig)?;
    for line in lines {
        let is_new = !has(known.as_slice(), line.edge);
        let is_free = is_new || (line.kind == Kind::Buf && line.target.is_some());
        if !is_free || !have(known.as_slice(), line.operands.as_slice()) {
            return Ok(false);
        }
        if !is_line(alloc, aig, line)? {
            return Ok(false);
        }
        known.push(line.edge)?;
    }
    Ok(true)
}

/// The edges to the constants and inputs.
fn inputs_and_constants(alloc: Global, aig: &Aig) -> Result<Vec<Edge>, OutOfMemory> {
    let mut edges = Vec::new(alloc);
    edges.push(Edge::ZERO)?;
    edges.push(Edge::ONE)?;
    for node in aig.inputs() {
        edges.push(Edge {
            node: *node,
            complemented: false,
        })?;
    }
    Ok(edges)
}

/// Whether the edge is one of these.
fn has(edges: &[Edge], edge: Edge) -> bool {
    for other in edges {
        if *other == edge {
            return true;
        }
    }
    false
}

/// Whether all of some edges are of these.
fn have(edges: &[Edge], some: &[Edge]) -> bool {
    for edge in some {
        if !has(edges, *edge) {
            return false;
        }
    }
    true
}

/// How many lines drive the target with this edge; those that drive it with another count 2.
fn drivers(lines: &[Line], target: u64, root: Edge) -> u64 {
    let mut number: u64 = 0;
    for line in lines {
        if line.target == Some(target) {
            number = number.saturating_add(if line.edge == root { 1 } else { 2 });
        }
    }
    number
}

/// How many lines drive a target.
fn driving(lines: &[Line]) -> u64 {
    let mut number: u64 = 0;
    for line in lines {
        if line.target.is_some() {
            number = number.saturating_add(1);
        }
    }
    number
}

/// Whether each target is driven once, with its edge, and no other is.
fn are_driven(lines: &[Line], roots: &[Edge]) -> bool {
    for (target, root) in roots.iter().enumerate() {
        if drivers(lines, target as u64, *root) != 1 {
            return false;
        }
    }
    driving(lines) == roots.len() as u64
}

/// How many lines the edges take; nothing where these aren't right.
fn checked_count(
    alloc: Global,
    aig: &Aig,
    roots: &[Edge],
    rows: u64,
) -> Result<Option<u64>, OutOfMemory> {
    let lines = lines(alloc, aig, roots)?;
    let number = lines.len() as u64;
    let are_right = are_checked(alloc, aig, lines.as_slice(), roots, rows);
    drop(lines);
    let is_counted = count(alloc, aig, roots)? == number;
    Ok(if are_right? & is_counted {
        Some(number)
    } else {
        None
    })
}

/// Whether the lines drive the targets, are in order, and have their edges' values on so many rows.
fn are_checked(
    alloc: Global,
    aig: &Aig,
    lines: &[Line],
    roots: &[Edge],
    rows: u64,
) -> Result<bool, OutOfMemory> {
    let are_in_order = are_in_order(alloc, aig, lines)?;
    let have_values = have_values(alloc, aig, lines, rows)?;
    Ok(are_in_order & have_values & are_driven(lines, roots))
}

/// The example's edges.
fn roots_of(alloc: Global, aig: &mut Aig, example: &Example) -> Result<Vec<Edge>, OutOfMemory> {
    let circuit = Circuit {
        inputs: 8,
        pairs: example.pairs,
    };
    let edges = build(alloc, aig, &circuit)?;
    let mut roots = Vec::new(alloc);
    for root in example.roots {
        roots.push(edge_of(edges.as_slice(), *root))?;
    }
    Ok(roots)
}

/// How many lines the example takes in the graph, if these are right.
fn example_count(
    alloc: Global,
    aig: &mut Aig,
    example: &Example,
) -> Result<Option<u64>, OutOfMemory> {
    let roots = roots_of(alloc, aig, example)?;
    checked_count(alloc, aig, roots.as_slice(), 256)
}

/// The same in a new graph.
fn count_in_new_graph(alloc: Global, example: &Example) -> Result<Option<u64>, OutOfMemory> {
    let mut aig = Aig::new(alloc)?;
    let number = example_count(alloc, &mut aig, example);
    drop(aig);
    number
}

#[test]
fn lines_of_examples(rt: HostRuntime) {
    for (place, example) in EXAMPLES.iter().enumerate() {
        let number = count_in_new_graph(rt.alloc(), example);
        assert!(rt; number == Ok(Some(example.number)), "at the place {place}");
    }
}

/// The next state of a linear congruential generator.
fn scrambled(state: u64) -> u64 {
    state
        .wrapping_mul(6_364_136_223_846_793_005)
        .wrapping_add(1_442_695_040_888_963_407)
}

/// One of the edges, or its complement, as the number has it.
fn drawn_edge(edges: &[Edge], number: u64) -> Edge {
    let place = (number >> 34) % (edges.len() as u64).saturating_add(1);
    let edge = edges.get(place as usize).copied().unwrap_or(Edge::ONE);
    if (number >> 33) % 2 == 1 {
        edge.not()
    } else {
        edge
    }
}

/// Edges of a graph that is drawn from the seed, over four inputs.
fn drawn_edges(alloc: Global, aig: &mut Aig, seed: u64) -> Result<Vec<Edge>, OutOfMemory> {
    let mut edges = inputs(alloc, aig, 4)?;
    let mut state = scrambled(seed);
    for _ in 0..24 {
        let first = drawn_edge(edges.as_slice(), state);
        state = scrambled(state);
        let second = drawn_edge(edges.as_slice(), state);
        state = scrambled(state);
        let edge = if (state >> 40) % 4 == 0 {
            xor(aig, first, second)?
        } else {
            and(aig, first, second)?
        };
        edges.push(edge)?;
    }
    Ok(edges)
}

/// How many lines some of the drawn edges take, if these are right.
fn drawn_count(alloc: Global, aig: &mut Aig, seed: u64) -> Result<Option<u64>, OutOfMemory> {
    let edges = drawn_edges(alloc, aig, seed)?;
    let mut roots = Vec::new(alloc);
    for edge in edges.iter().skip(22) {
        roots.push(*edge)?;
    }
    checked_count(alloc, aig, roots.as_slice(), 16)
}

/// The same in a new graph.
fn drawn_count_in_new_graph(alloc: Global, seed: u64) -> Result<Option<u64>, OutOfMemory> {
    let mut aig = Aig::new(alloc)?;
    let number = drawn_count(alloc, &mut aig, seed);
    drop(aig);
    number
}

#[test]
fn lines_of_drawn_graphs(rt: HostRuntime) {
    for seed in 0..24 {
        assert!(rt; matches!(drawn_count_in_new_graph(rt.alloc(), seed), Ok(Some(_))));
    }
}
