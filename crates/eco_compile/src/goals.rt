//! The edges of what is asked.

ghost use Rattle.std.specs.Prelude.{◌≡◌, ℕ, List, length, IfOk, Some, Contains};
ghost use Rattle.std.specs.Option.{option_copied};
ghost use Rattle.eco_meaning.specs.Circuit.{Circuit, names};
ghost use Rattle.eco_query.specs.Problem.{IsClosed, IsCareOf};
ghost use Rattle.eco_aig.specs.Graph.{Grows};
ghost use Rattle.eco_compile.specs.Compiled.{AreEdges, needed_nodes};
ghost use Rattle.eco_compile.specs.Bound.{AreNetEdges, AreWanted, IsCaredEdge};
ghost use Rattle.eco_compile.specs.Goals.{IsGoalOf, AreGoalEdges, goal_nodes, care_nodes};

use crate::bound::{edges_by_name, input_table};
use crate::nets::compile;
use eco_aig::{Aig, Edge};
use eco_meaning::OutOfMemory;
use eco_netlist::Netlist;
use std::alloc::Global;

/// What is asked at an input: the outputs that the specification gives, in the order of the implementation's outputs, and
/// whether the input is cared.
#[derive(Drop)]
pub struct GoalEdges {
    pub outputs: Vec<Edge>,
    pub cared: Edge,
}

/// The edges of what is asked of a netlist with the ports of `f`, where the edges `inputs` are those of `f`'s inputs, in their
/// order. The specification and the cared netlist are compiled once; their inputs are those of `f` by name. After
/// `OutOfMemory` the graph may have nodes more.
pub fn goal_edges(
    alloc: Global,
    f: &Netlist,
    spec: &Netlist,
    care: Option<&Netlist>,
    inputs: &[Edge],
    aig: &mut Aig,
) -> Result<GoalEdges, OutOfMemory>
    requires goal { IsGoalOf f.now (record { spec = spec.now; care = option_copied care }) }
    requires count { length inputs.now ≡ length f.now.inputs }
    requires edges { AreEdges aig.old inputs.now }
    ensures edges { IfOk result (λ made. AreGoalEdges f.now (record { spec = spec.now; care = option_copied care.entry }) aig.new
        inputs.now made.outputs.items made.cared) }
    ensures count { IfOk result (λ made. length made.outputs.items ≡ length f.now.outputs) }
    ensures grows { Grows aig.old aig.new (goal_nodes (record { spec = spec.now; care = option_copied care.entry })) }
{
    let table = input_table(alloc, f, inputs, aig)?;
    let outputs = wanted_edges(alloc, f, table.as_slice(), spec, aig)?;
    let cared = cared_edge(alloc, f, table.as_slice(), care, aig)?;
    Ok(GoalEdges { outputs, cared })
}

/// The edges that the specification gives the outputs of `f`.
fn wanted_edges(
    alloc: Global,
    f: &Netlist,
    table: &[Edge],
    spec: &Netlist,
    aig: &mut Aig,
) -> Result<Vec<Edge>, OutOfMemory>
    requires inputs { (name : List ℕ) → Contains f.now.inputs name → Contains spec.now.inputs name }
    requires no_others { (name : List ℕ) → Contains spec.now.inputs name → Contains f.now.inputs name }
    requires outputs { (name : List ℕ) → Contains f.now.outputs name → Contains spec.now.outputs name }
    requires closed { IsClosed spec.now }
    requires count { length table.now ≡ length (names f.now) }
    requires edges { AreEdges aig.old table.now }
    ensures count { IfOk result (λ outputs. length outputs.items ≡ length f.now.outputs) }
    ensures wanted { IfOk result (λ outputs. AreWanted f.now spec.now table.now aig.new outputs.items) }
    ensures grows { Grows aig.old aig.new (needed_nodes spec.now) }
{
    // it is checked: outputs are nets
    let _ = spec.nets();
    let edges = closed_edges(alloc, f, table, spec, aig)?;
    edges_by_name(alloc, f, f.outputs(), spec, edges.as_slice())
}

/// The edge that is 1 where the inputs are cared; without a cared netlist it is the constant 1.
fn cared_edge(
    alloc: Global,
    f: &Netlist,
    table: &[Edge],
    care: Option<&Netlist>,
    aig: &mut Aig,
) -> Result<Edge, OutOfMemory>
    requires care { (c : Circuit) → option_copied care ≡ Some c → IsCareOf f.now c }
    requires count { length table.now ≡ length (names f.now) }
    requires edges { AreEdges aig.old table.now }
    ensures cared { IfOk result (IsCaredEdge f.now (option_copied care.entry) table.now aig.new) }
    ensures grows { Grows aig.old aig.new (care_nodes (option_copied care.entry)) }
{
    // the constant is node 0
    let _ = aig.nodes();
    match care {
        None => Ok(Edge::ONE),
        Some(netlist) => output_edge(alloc, f, table, netlist, aig),
    }
}

/// The edge of the cared netlist's output.
fn output_edge(
    alloc: Global,
    f: &Netlist,
    table: &[Edge],
    care: &Netlist,
    aig: &mut Aig,
) -> Result<Edge, OutOfMemory>
    requires care { IsCareOf f.now care.now }
    requires count { length table.now ≡ length (names f.now) }
    requires edges { AreEdges aig.old table.now }
    ensures cared { IfOk result (IsCaredEdge f.now (Some care.now) table.now aig.new) }
    ensures grows { Grows aig.old aig.new (needed_nodes care.now) }
{
    let edges = closed_edges(alloc, f, table, care, aig)?;
    let output = care.outputs()[0];
    Ok(edges[output.0 as usize])
}

/// The edges of all nets of a netlist without targets, whose inputs are nets of `f` by name.
fn closed_edges(
    alloc: Global,
    f: &Netlist,
    table: &[Edge],
    netlist: &Netlist,
    aig: &mut Aig,
) -> Result<Vec<Edge>, OutOfMemory>
    requires inputs { (name : List ℕ) → Contains netlist.now.inputs name → Contains f.now.inputs name }
    requires closed { IsClosed netlist.now }
    requires count { length table.now ≡ length (names f.now) }
    requires edges { AreEdges aig.old table.now }
    ensures length { IfOk result (λ edges. length edges.items ≡ length (names netlist.now)) }
    ensures edges { IfOk result (λ edges. AreEdges aig.new edges.items) }
    ensures values { IfOk result (λ edges. AreNetEdges f.now netlist.now table.now aig.new edges.items) }
    ensures grows { Grows aig.old aig.new (needed_nodes netlist.now) }
{
    // they are checked: inputs are nets
    let _ = f.nets();
    let _ = netlist.nets();
    let bind = edges_by_name(alloc, netlist, netlist.inputs(), f, table)?;
    compile(alloc, netlist, bind.as_slice(), aig)
}
