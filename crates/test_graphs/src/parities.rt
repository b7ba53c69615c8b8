//! Merging by linear algebra: parities of the same inputs have one edge, and what is no parity of the same has another.

ghost use Rattle.eco_affine.specs.Forms.{IsFormed};

use crate::bits::{edge_bit, row_bits};
use crate::edges::{and, inputs, or};
use eco_affine::Forms;
use eco_aig::{Aig, Edge};
use eco_meaning::OutOfMemory;
use std::alloc::Global;
use std::test::Fail;

/// In which way two edges are put together.
#[derive(Clone, Copy)]
enum Join {
    /// Their exclusive disjunction.
    Xor,
    /// The same, made of four conjunctions that are complemented.
    Nands,
    /// That of the first one and of the second one's complement.
    Xnor,
    And,
    Or,
}

/// An edge over eight inputs, which are 0 to 7. Those that are put together of two go on behind them, and the last one is the
/// edge.
#[derive(Clone, Copy)]
struct Shape {
    join: Join,
    pairs: &'static [(u8, u8)],
}

const FROM_THE_FIRST: &[(u8, u8)] = &[(0, 1), (8, 2), (9, 3), (10, 4), (11, 5), (12, 6), (13, 7)];

const FROM_THE_LAST: &[(u8, u8)] = &[(7, 6), (8, 5), (9, 4), (10, 3), (11, 2), (12, 1), (13, 0)];

/// The exclusive disjunction of all, from the first on.
const FORWARD: Shape = Shape {
    join: Join::Xor,
    pairs: FROM_THE_FIRST,
};

/// The same from the last on.
const BACKWARD: Shape = Shape {
    join: Join::Xor,
    pairs: FROM_THE_LAST,
};

/// That of the first half and of the second half, and so on.
const HALVES: Shape = Shape {
    join: Join::Xor,
    pairs: &[(0, 1), (2, 3), (4, 5), (6, 7), (8, 9), (10, 11), (12, 13)],
};

/// The same as forward, of conjunctions that are complemented.
const NANDS: Shape = Shape {
    join: Join::Nands,
    pairs: FROM_THE_FIRST,
};

/// The same as backward, of the complements of all but one.
const COMPLEMENTS: Shape = Shape {
    join: Join::Xnor,
    pairs: FROM_THE_LAST,
};

/// The same as forward without the first one.
const SHORTER: Shape = Shape {
    join: Join::Xor,
    pairs: &[(1, 2), (8, 3), (9, 4), (10, 5), (11, 6), (12, 7)],
};

/// Forward and by halves, and both put together: the constant 0.
const TWICE: Shape = Shape {
    join: Join::Xor,
    pairs: &[
        (0, 1),
        (8, 2),
        (9, 3),
        (10, 4),
        (11, 5),
        (12, 6),
        (13, 7),
        (0, 1),
        (2, 3),
        (4, 5),
        (6, 7),
        (15, 16),
        (17, 18),
        (19, 20),
        (14, 21),
    ],
};

/// The conjunction of all.
const CONJUNCTION: Shape = Shape {
    join: Join::And,
    pairs: FROM_THE_FIRST,
};

/// The disjunction of all.
const DISJUNCTION: Shape = Shape {
    join: Join::Or,
    pairs: FROM_THE_FIRST,
};

/// The exclusive disjunction of edges of the graph; the constant 0 where one isn't.
pub(crate) fn xor(aig: &mut Aig, a: Edge, b: Edge) -> Result<Edge, OutOfMemory> {
    if a.node < aig.nodes() && b.node < aig.nodes() {
        aig.xor(a, b)
    } else {
        Ok(Edge::ZERO)
    }
}

/// The exclusive disjunction by four complements of conjunctions.
fn xor_by_nands(aig: &mut Aig, a: Edge, b: Edge) -> Result<Edge, OutOfMemory> {
    let nand = and(aig, a, b)?.not();
    let first = and(aig, a, nand)?.not();
    let second = and(aig, b, nand)?.not();
    let both = and(aig, first, second)?;
    Ok(both.not())
}

/// Two edges put together.
fn joined(aig: &mut Aig, join: Join, a: Edge, b: Edge) -> Result<Edge, OutOfMemory> {
    match join {
        Join::Xor => xor(aig, a, b),
        Join::Nands => xor_by_nands(aig, a, b),
        Join::Xnor => xor(aig, a, b.not()),
        Join::And => and(aig, a, b),
        Join::Or => or(aig, a, b),
    }
}

/// The edge at the place; the constant 0 where there is none.
fn edge_at(edges: &[Edge], place: u8) -> Edge {
    edges.get(place as usize).copied().unwrap_or(Edge::ZERO)
}

/// The edge of the shape over these inputs.
fn built(alloc: Global, aig: &mut Aig, shape: Shape, inputs: &[Edge]) -> Result<Edge, OutOfMemory> {
    let mut edges = Vec::from_slice(alloc, inputs)?;
    for (first, second) in shape.pairs {
        let a = edge_at(edges.as_slice(), *first);
        let b = edge_at(edges.as_slice(), *second);
        edges.push(joined(aig, shape.join, a, b)?)?;
    }
    Ok(edges.last().copied().unwrap_or(Edge::ZERO))
}

/// Edges of both shapes over the same new inputs.
fn built_both(
    alloc: Global,
    aig: &mut Aig,
    first: Shape,
    second: Shape,
) -> Result<(Edge, Edge), OutOfMemory> {
    let inputs = inputs(alloc, aig, 8)?;
    let one = built(alloc, aig, first, inputs.as_slice())?;
    let other = built(alloc, aig, second, inputs.as_slice())?;
    Ok((one, other))
}

/// What stands for the edges; the constant 0 where they aren't edges of the graph.
fn reduced(
    forms: &mut Forms,
    aig: &mut Aig,
    first: Edge,
    second: Edge,
) -> Result<(Edge, Edge), OutOfMemory>
    requires { IsFormed aig.old forms.old }
    ensures { IsFormed aig.new forms.new }
{
    if first.node >= aig.nodes() || second.node >= aig.nodes() {
        return Ok((Edge::ZERO, Edge::ZERO));
    }
    let images = forms.reduce(aig, &[first, second])?;
    Ok(both_of(images.as_slice()))
}

/// Two edges; the constant 0 for each where there are more or fewer.
fn both_of(edges: &[Edge]) -> (Edge, Edge) {
    match edges {
        [one, other] => (*one, *other),
        _ => (Edge::ZERO, Edge::ZERO),
    }
}

/// What stands for the edges, where the second one is looked at in a later call.
fn reduced_apart(
    forms: &mut Forms,
    aig: &mut Aig,
    first: Edge,
    second: Edge,
) -> Result<(Edge, Edge), OutOfMemory>
    requires { IsFormed aig.old forms.old }
{
    let (one, _) = reduced(forms, aig, first, first)?;
    let (_, other) = reduced(forms, aig, second, second)?;
    Ok((one, other))
}

/// What stands for the edges, in one call.
fn images_at_once(
    aig: &mut Aig,
    alloc: Global,
    limit: u64,
    first: Edge,
    second: Edge,
) -> Result<(Edge, Edge), OutOfMemory> {
    let mut forms = Forms::new(alloc, aig.hasher(), limit);
    let images = reduced(&mut forms, aig, first, second);
    drop(forms);
    images
}

/// What stands for the edges, in two calls.
fn images_apart(
    aig: &mut Aig,
    alloc: Global,
    limit: u64,
    first: Edge,
    second: Edge,
) -> Result<(Edge, Edge), OutOfMemory> {
    let mut forms = Forms::new(alloc, aig.hasher(), limit);
    let images = reduced_apart(&mut forms, aig, first, second);
    drop(forms);
    images
}

/// What stands for the edges, in one call and in two; None where that is not the same.
fn images(
    aig: &mut Aig,
    alloc: Global,
    limit: u64,
    first: Edge,
    second: Edge,
) -> Result<Option<(Edge, Edge)>, OutOfMemory> {
    let at_once = images_at_once(aig, alloc, limit, first, second)?;
    let apart = images_apart(aig, alloc, limit, first, second)?;
    Ok(if at_once == apart {
        Some(at_once)
    } else {
        None
    })
}

/// Whether both edges have their images' bits where the inputs have the bits of the row.
fn are_kept_at(
    aig: &Aig,
    alloc: Global,
    edges: (Edge, Edge),
    images: (Edge, Edge),
    row: u64,
) -> Result<bool, OutOfMemory> {
    let bits = row_bits(alloc, aig, row)?;
    let first = edge_bit(bits.as_slice(), edges.0) == edge_bit(bits.as_slice(), images.0);
    let second = edge_bit(bits.as_slice(), edges.1) == edge_bit(bits.as_slice(), images.1);
    Ok(first & second)
}

/// Whether both edges have their images' bits under all inputs.
fn are_kept(
    aig: &Aig,
    alloc: Global,
    edges: (Edge, Edge),
    images: (Edge, Edge),
) -> Result<bool, OutOfMemory> {
    for row in 0..256 {
        if !are_kept_at(aig, alloc, edges, images, row)? {
            return Ok(false);
        }
    }
    Ok(true)
}

/// What stands for the edges.
#[derive(Clone, Copy, PartialEq, Eq)]
enum Found {
    /// One edge.
    One,
    /// The constant 0 for the first one, and another for the second.
    Constant,
    /// An edge and its complement.
    Complements,
    /// Two nodes.
    Apart,
    /// Edges with other values, or others in two calls than in one.
    Wrong,
}

/// What the images of two edges of the same values are.
fn kind_of(images: (Edge, Edge)) -> Found {
    let (first, second) = images;
    if first == second {
        Found::One
    } else if first == Edge::ZERO {
        Found::Constant
    } else if first == second.not() {
        Found::Complements
    } else {
        Found::Apart
    }
}

fn found_of(
    aig: &mut Aig,
    alloc: Global,
    limit: u64,
    first: Shape,
    second: Shape,
) -> Result<Found, OutOfMemory> {
    let edges = built_both(alloc, aig, first, second)?;
    let images = images(aig, alloc, limit, edges.0, edges.1)?;
    found_for(aig, alloc, edges, images)
}

fn found_for(
    aig: &Aig,
    alloc: Global,
    edges: (Edge, Edge),
    images: Option<(Edge, Edge)>,
) -> Result<Found, OutOfMemory> {
    match images {
        None => Ok(Found::Wrong),
        Some(images) => {
            let are_kept = are_kept(aig, alloc, edges, images)?;
            Ok(if are_kept {
                kind_of(images)
            } else {
                Found::Wrong
            })
        }
    }
}

fn found_in_new_graph(
    alloc: Global,
    limit: u64,
    first: Shape,
    second: Shape,
) -> Result<Found, OutOfMemory> {
    let mut aig = Aig::new(alloc)?;
    let found = found_of(&mut aig, alloc, limit, first, second);
    drop(aig);
    found
}

const FOUND: [(Shape, Shape, Found); 12] = [
    (FORWARD, FORWARD, Found::One),
    (FORWARD, BACKWARD, Found::One),
    (FORWARD, HALVES, Found::One),
    (BACKWARD, HALVES, Found::One),
    (NANDS, HALVES, Found::One),
    (HALVES, COMPLEMENTS, Found::Complements),
    (TWICE, FORWARD, Found::Constant),
    (CONJUNCTION, TWICE, Found::Apart),
    (FORWARD, SHORTER, Found::Apart),
    (CONJUNCTION, DISJUNCTION, Found::Apart),
    (FORWARD, CONJUNCTION, Found::Apart),
    (BACKWARD, DISJUNCTION, Found::Apart),
];

#[test]
fn parities_of_the_same_inputs_have_one_edge(rt: HostRuntime) -> Result<(), Fail> {
    for (place, (first, second, expected)) in FOUND.iter().enumerate() {
        let found = found_in_new_graph(rt.alloc(), 8, *first, *second)?;
        assert!(rt; found == *expected, "at the place {place}");
    }
    Ok(())
}

#[test]
fn a_form_longer_than_the_limit_merges_nothing(rt: HostRuntime) -> Result<(), Fail> {
    for limit in 1..8 {
        let found = found_in_new_graph(rt.alloc(), limit, FORWARD, BACKWARD)?;
        assert!(rt; found == Found::Apart, "with a limit of {limit}");
    }
    Ok(())
}
