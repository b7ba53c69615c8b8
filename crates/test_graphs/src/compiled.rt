//! Small netlists: against their own values, and the nodes that single gates take.

use crate::bits::{bit_at, edge_bit, row_bits, set_bit};
use crate::netlists::netlist;
use eco_aig::{Aig, Edge, OutOfMemory};
use eco_compile::{compile, edges_to_bind};
use eco_netlist::Netlist;
use std::alloc::Global;
use std::test::Fail;

const SMALL: &[u8] = b"\
module small(a, b, y, z);
input a, b;
output y, z;
xnor (y, a, b, t_0);
nor (z, a, b, t_0);
endmodule
";

/// The bits of the nets, which are a, b, y, z and t_0, where the inputs and the target have these bits.
fn net_bits(alloc: Global, netlist: &Netlist, row: u64) -> Result<Vec<bool>, OutOfMemory> {
    let mut bits = vec![in alloc; false; netlist.nets() as usize]?;
    set_bit(bits.as_mut_slice(), 0, row & 1 == 1);
    set_bit(bits.as_mut_slice(), 1, row & 2 == 2);
    set_bit(bits.as_mut_slice(), 4, row & 4 == 4);
    netlist.fill(bits.as_mut_slice());
    Ok(bits)
}

/// The edges of the nets; none where the netlist has not three open nets.
fn edges_of(alloc: Global, netlist: &Netlist, graph: &mut Aig) -> Result<Vec<Edge>, OutOfMemory> {
    let a = graph.input()?;
    let b = graph.input()?;
    let t = graph.input()?;
    if a.node >= graph.nodes() || b.node >= graph.nodes() || t.node >= graph.nodes() {
        return Ok(Vec::new(alloc));
    }
    let bind = [a, b, t];
    if edges_to_bind(netlist) != bind.len() {
        return Ok(Vec::new(alloc));
    }
    compile(alloc, netlist, &bind, graph)
}

/// Whether the edges have the bits of the nets, where the inputs and the target have the row's bits.
fn are_alike_at(
    alloc: Global,
    netlist: &Netlist,
    graph: &Aig,
    edges: &[Edge],
    row: u64,
) -> Result<bool, OutOfMemory> {
    let nodes = row_bits(alloc, graph, row)?;
    let nets = net_bits(alloc, netlist, row)?;
    for (net, edge) in edges.iter().enumerate() {
        if edge_bit(nodes.as_slice(), *edge) != bit_at(nets.as_slice(), net as u64) {
            return Ok(false);
        }
    }
    Ok(true)
}

/// On how many of the eight rows the edges have the bits of the nets; 0 where there aren't five edges.
fn rows_alike(alloc: Global, netlist: &Netlist, graph: &mut Aig) -> Result<u64, OutOfMemory> {
    let edges = edges_of(alloc, netlist, graph)?;
    let mut count: u64 = 0;
    for row in 0..8 {
        if edges.len() == 5 && are_alike_at(alloc, netlist, graph, edges.as_slice(), row)? {
            count = count.wrapping_add(1);
        }
    }
    Ok(count)
}

fn rows_alike_in_new_graph(alloc: Global, netlist: &Netlist) -> Result<u64, OutOfMemory> {
    let mut graph = Aig::new(alloc)?;
    let count = rows_alike(alloc, netlist, &mut graph);
    drop(graph);
    count
}

#[test]
fn edges_have_the_netlists_values(rt: HostRuntime) -> Result<(), Fail> {
    let netlist = netlist(rt.alloc(), SMALL)?;
    let count = rows_alike_in_new_graph(rt.alloc(), &netlist);
    drop(netlist);
    assert_eq!(rt; count, Ok(8));
    Ok(())
}

/// Inputs a and b, the gate, which drives y, and z, which gives t_0 on.
fn gate_text(alloc: Global, gate: &[u8]) -> Result<Vec<u8>, OutOfMemory> {
    let mut text = Vec::new(alloc);
    text.extend_from_slice(b"module single(a, b, y, z); input a, b; output y, z; ")?;
    text.extend_from_slice(gate)?;
    text.extend_from_slice(b"; buf (z, t_0); endmodule")?;
    Ok(text)
}

/// An edge as AIGER writes it: twice the number of its node, and one more where it is complemented.
fn code_of(edge: Edge) -> u64 {
    let code = edge.node().wrapping_mul(2);
    if edge.complemented() {
        code.wrapping_add(1)
    } else {
        code
    }
}

/// The operands of the nodes behind the three inputs.
fn pairs_of(alloc: Global, graph: &Aig) -> Result<Vec<(u64, u64)>, OutOfMemory> {
    let mut pairs = Vec::new(alloc);
    for node in 4..graph.nodes() {
        if let Some((first, second)) = graph.pair(node) {
            pairs.push((code_of(first), code_of(second)))?;
        }
    }
    Ok(pairs)
}

/// The code of the edge of y, if there is one.
fn code_of_y(edges: &[Edge]) -> Option<u64> {
    match edges.get(2) {
        None => None,
        Some(edge) => Some(code_of(*edge)),
    }
}

/// Whether this is the edge of y, and these are the nodes that are added behind the inputs and the target, which are the
/// nodes 1, 2 and 3.
fn is_compiled(
    alloc: Global,
    netlist: &Netlist,
    graph: &mut Aig,
    edge: u64,
    pairs: &[(u64, u64)],
) -> Result<bool, OutOfMemory> {
    let edges = edges_of(alloc, netlist, graph)?;
    let is_right = code_of_y(edges.as_slice()) == Some(edge);
    let found = pairs_of(alloc, graph)?;
    let are_right = found.as_slice() == pairs;
    Ok(is_right & are_right & (graph.nodes() == 4 + pairs.len() as u64))
}

fn is_compiled_in_new_graph(
    alloc: Global,
    netlist: &Netlist,
    edge: u64,
    pairs: &[(u64, u64)],
) -> Result<bool, OutOfMemory> {
    let mut graph = Aig::new(alloc)?;
    let compiled = is_compiled(alloc, netlist, &mut graph, edge, pairs);
    drop(graph);
    compiled
}

/// The same of a gate.
fn is_made(alloc: Global, gate: &[u8], edge: u64, pairs: &[(u64, u64)]) -> Result<bool, Fail> {
    let text = gate_text(alloc, gate)?;
    let netlist = netlist(alloc, text.as_slice())?;
    let made = is_compiled_in_new_graph(alloc, &netlist, edge, pairs);
    drop(netlist);
    Ok(made?)
}

/// Gates, each with the edge of y and the operands of its nodes. A gate of three inputs joins the first two, and then the
/// third; a disjunction is the complement of the conjunction of complements, and an exclusive or is the disjunction of one
/// without the other and the other without the one. Constants take no nodes.
const GATES: [(&[u8], u64, &[(u64, u64)]); 7] = [
    (b"and (y, a, b, t_0)", 10, &[(2, 4), (6, 8)]),
    (b"nor (y, a, b, t_0)", 10, &[(3, 5), (7, 8)]),
    (
        b"xor (y, a, b, t_0)",
        19,
        &[(2, 5), (3, 4), (9, 11), (7, 13), (6, 12), (15, 17)],
    ),
    (b"and (y, a, 1'b0, 1'b1)", 0, &[]),
    (b"or (y, a, 1'b0, 1'b1)", 1, &[]),
    (b"xor (y, a, 1'b0, 1'b1)", 3, &[]),
    (b"xnor (y, a, 1'b0, 1'b1)", 2, &[]),
];

#[test]
fn gates_are_joined_from_the_first_input(rt: HostRuntime) -> Result<(), Fail> {
    for (gate, edge, pairs) in &GATES {
        assert!(rt; is_made(rt.alloc(), gate, *edge, pairs)?, "at {gate:?}");
    }
    Ok(())
}
