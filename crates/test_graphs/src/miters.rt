//! Miters of small netlists: on which inputs an implementation is wrong.

ghost use Rattle.std.specs.Prelude.{◌≡◌, Some, IsTrue, length};
ghost use Rattle.std.specs.Option.{option_copied};
ghost use Rattle.eco_meaning.specs.Meaning.{everywhere};
ghost use Rattle.eco_query.specs.Problem.{IsCareOf};
ghost use Rattle.eco_compile.specs.Goals.{IsGoalOf};
ghost use Rattle.eco_aig.specs.Inputs.{AreInputs};

use crate::bits::{edge_bit, row_bits};
use crate::netlists::{netlist, netlists};
use eco_aig::{Aig, Edge, OutOfMemory, new_graph};
use eco_compile::{edges_to_bind, goal_edges, miter, valued_edges};
use eco_equality::{have_same_ports, is_closed};
use eco_netlist::Netlist;
use std::alloc::Global;
use std::process::Abort;
use std::test::Fail;

/// Whether the specification has the ports of `f` and no target.
fn is_goal(f: &Netlist, spec: &Netlist) -> bool
    ensures { IsTrue result → IsGoalOf f.now (everywhere spec.now) }
{
    // it is checked
    let _ = spec.nets();
    have_same_ports(f, spec) && is_closed(spec)
}

/// Whether the netlist tells which inputs of `f` are cared. Its output has to be the one of `f`.
fn is_care(f: &Netlist, care: &Netlist) -> bool
    ensures { IsTrue result → IsCareOf f.now care.now }
{
    is_goal(f, care) && care.outputs().len() == 1
}

/// Whether the specification has the ports of `f` and the other netlist tells which of its inputs are cared.
fn is_goal_with(f: &Netlist, spec: &Netlist, care: &Netlist) -> bool
    ensures { IsTrue result → IsGoalOf f.now (record { spec = spec.now; care = Some care.now }) }
{
    is_goal(f, spec) && is_care(f, care)
}

/// The edge that tells whether `f` is wrong; None where it has another number of targets than one.
fn wrong_edge(
    alloc: Global,
    f: &Netlist,
    spec: &Netlist,
    care: Option<&Netlist>,
    target: Edge,
    inputs: &[Edge],
    aig: &mut Aig,
) -> Result<Option<Edge>, OutOfMemory>
    requires goal { IsGoalOf f.now (record { spec = spec.now; care = option_copied care }) }
    requires target { target.node ≡ 0 }
    requires count { length inputs.now ≡ length f.now.inputs }
    requires inputs { AreInputs aig.old inputs.now }
{
    let opens = [target];
    if edges_to_bind(f) != inputs.len() + opens.len() {
        return Ok(None);
    }
    // it is a graph
    let _ = aig.nodes();
    let outputs = valued_edges(alloc, f, inputs, &opens, f.outputs(), aig)?;
    let goal = goal_edges(alloc, f, spec, care, inputs, aig)?;
    let wrong = miter(outputs.as_slice(), goal.outputs.as_slice(), goal.cared, aig)?;
    Ok(Some(wrong))
}

/// Whether `f` is wrong, for all bits of its three inputs, the first of which is the lowest bit of the row.
fn wrong_rows(
    alloc: Global,
    f: &Netlist,
    spec: &Netlist,
    care: Option<&Netlist>,
    target: Edge,
) -> Result<Vec<bool>, OutOfMemory>
    requires goal { IsGoalOf f.now (record { spec = spec.now; care = option_copied care }) }
    requires target { target.node ≡ 0 }
{
    let (mut aig, inputs) = new_graph(alloc, f.hasher(), f.inputs().len())?;
    let rows = match wrong_edge(alloc, f, spec, care, target, inputs.as_slice(), &mut aig) {
        Ok(Some(wrong)) => edge_rows(alloc, &aig, wrong),
        Ok(None) => Ok(Vec::new(alloc)),
        Err(error) => Err(error),
    };
    drop(aig);
    rows
}

/// The edge's bits, where the nodes 1, 2 and 3 are the graph's inputs.
fn edge_rows(alloc: Global, aig: &Aig, edge: Edge) -> Result<Vec<bool>, OutOfMemory> {
    let mut rows = Vec::new(alloc);
    for row in 0..8 {
        let bits = row_bits(alloc, aig, row)?;
        rows.push(edge_bit(bits.as_slice(), edge))?;
    }
    Ok(rows)
}

/// Whether `f` is wrong on just these rows.
fn is_wrong_on(
    alloc: Global,
    f: &Netlist,
    spec: &Netlist,
    care: Option<&Netlist>,
    target: Edge,
    expected: [bool; 8],
) -> Result<bool, OutOfMemory>
    requires goal { IsGoalOf f.now (record { spec = spec.now; care = option_copied care }) }
    requires target { target.node ≡ 0 }
{
    let rows = wrong_rows(alloc, f, spec, care, target)?;
    Ok(rows.as_slice() == expected.as_slice())
}

/// y is not (a and t_0), and z not (b and c).
const IMPLEMENTATION: &[u8] = b"\
module n(a, b, c, y, z);
input a, b, c;
output y, z;
nand (y, a, t_0);
nand (z, b, c);
endmodule
";

/// The same outputs, but y is to be not (a and b). The ports stand in another order.
const SPECIFICATION: &[u8] = b"\
module n(c, a, b, z, y);
input c, a, b;
output z, y;
nand (z, c, b);
nand (y, a, b);
endmodule
";

/// Whether an implementation is wrong on just these rows, where its target has the constant's value and `spec` is the text of
/// its specification.
fn is_wrong(
    rt: &impl Abort,
    alloc: Global,
    f: &Netlist,
    spec: &[u8],
    target: Edge,
    rows: [bool; 8],
) -> Result<bool, Fail>
    requires { target.node ≡ 0 }
{
    let spec = netlist(alloc, spec)?;
    assert!(rt; is_goal(f, &spec));
    let wrong = is_wrong_on(alloc, f, &spec, None, target, rows);
    drop(spec);
    Ok(wrong?)
}

/// Whether the implementation is wrong where its target is 1 at a without b, and where it is 0 at a and b.
fn is_wrong_in_order(rt: &impl Abort, alloc: Global, f: &Netlist) -> Result<bool, Fail> {
    let without = [false, true, false, false, false, true, false, false];
    let with = [false, false, false, true, false, false, false, true];
    Ok(
        is_wrong(rt, alloc, f, SPECIFICATION, Edge::ONE, without)?
            && is_wrong(rt, alloc, f, SPECIFICATION, Edge::ZERO, with)?,
    )
}

#[test]
fn ports_in_another_order(rt: HostRuntime) -> Result<(), Fail> {
    let f = netlist(rt.alloc(), IMPLEMENTATION)?;
    let wrong = is_wrong_in_order(&rt, rt.alloc(), &f);
    drop(f);
    assert!(rt; wrong?);
    Ok(())
}

const SMALL: &[u8] = b"module n(a, b, c, y); input a, b, c; output y; nand (y, a, t_0); endmodule";

const SMALL_GOAL: &[u8] =
    b"module n(c, a, b, y); input c, a, b; output y; nand (y, b, a); endmodule";

const SMALL_CARE: &[u8] =
    b"module n(b, c, a, y); input b, c, a; output y; nand (y, c, b); endmodule";

/// The same, where `care` is the text of a cared netlist.
fn is_wrong_with(
    rt: &impl Abort,
    alloc: Global,
    f: &Netlist,
    spec: &Netlist,
    care: &[u8],
    rows: [bool; 8],
) -> Result<bool, Fail> {
    let care = netlist(alloc, care)?;
    assert!(rt; is_goal_with(f, spec, &care));
    let wrong = is_wrong_on(alloc, f, spec, Some(&care), Edge::ZERO, rows);
    drop(care);
    Ok(wrong?)
}

/// Only inputs without (b and c) are cared, so it is wrong at a and b without c.
#[test]
fn wrong_where_cared(rt: HostRuntime) -> Result<(), Fail> {
    let both = netlists(rt.alloc(), &[SMALL, SMALL_GOAL])?;
    let rows = [false, false, false, true, false, false, false, false];
    let wrong = match both.as_slice() {
        [f, spec] => is_wrong_with(&rt, rt.alloc(), f, spec, SMALL_CARE, rows),
        _ => Ok(false),
    };
    drop(both);
    assert!(rt; wrong?);
    Ok(())
}
