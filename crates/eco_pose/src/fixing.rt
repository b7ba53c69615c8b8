//! The clauses that ask for bits of the targets that are right at an input.

ghost use Rattle.std.specs.Prelude.{◌≡◌, ◌+◌, ◌≤◌, ℕ, Bool, List, map, length, All, IfOk};
ghost use Rattle.std.specs.Option.{option_copied};
ghost use Rattle.eco_meaning.specs.Circuit.{AreTargets};
ghost use Rattle.eco_meaning.specs.Meaning.{Goal};
ghost use Rattle.eco_aig.specs.Graph.{IsEdge};
ghost use Rattle.eco_compile.specs.Compiled.{HasOpenNets};
ghost use Rattle.eco_trace.specs.Clauses.{IsVarWithin};
ghost use Rattle.eco_laws.specs.Asked.{IsFixed};
ghost use Rattle.eco_aig.specs.Inputs.{AreInputs};
ghost use Rattle.eco_compile.specs.Goals.{IsGoalOf, goal_nodes};
ghost use Rattle.eco_pose.specs.Boards.{AsksOf, IsLaidOut, constant_edge, row_nodes, signed, with_sign};
ghost use Rattle.eco_pose.specs.Answers.{AsksFor};
ghost use Rattle.eco_pose.specs.Shapes.{IsEncodedOnce, IsOfInputs};

use crate::board::{Board, constants, lay_out};
use crate::posed::Posed;
use eco_aig::{Edge, new_graph};
use eco_meaning::OutOfMemory;
use eco_netlist::Netlist;
use eco_tseitin::{OneSide, one_side};
use std::alloc::Global;

/// The clauses that ask for bits of the netlist's targets that begin with the fixed ones and are right at the input.
pub(crate) fn pose_fixed(
    alloc: Global,
    netlist: &Netlist,
    spec: &Netlist,
    care: Option<&Netlist>,
    input: &[bool],
    fixed: &[bool],
) -> Result<Posed, OutOfMemory>
    requires goal { IsGoalOf netlist.now (record { spec = spec.now; care = option_copied care }) }
    requires input { length input.now ≡ length netlist.now.inputs }
    requires fixed { (targets : List (List ℕ)) → AreTargets netlist.now targets → length fixed.now ≤ length targets }
    ensures asks { IfOk result (λ posed. (targets : List (List ℕ)) → AreTargets netlist.now targets →
        AsksFor (IsFixed netlist.now (record { spec = spec.now; care = option_copied care.entry }) targets fixed.now input.now)
        posed.targets posed.clauses.clauses) }
    ensures shape { IfOk result (λ posed. IsEncodedOnce posed posed.targets) }
    ensures reads { IfOk result (λ posed. (targets : List (List ℕ)) → AreTargets netlist.now targets →
        length posed.targets ≡ length targets) }
    ensures few { IfOk result (λ posed. (targets : List (List ℕ)) → AreTargets netlist.now targets →
        posed.clauses.vars ≤ 1 + length targets
        + goal_nodes (record { spec = spec.now; care = option_copied care.entry }) + row_nodes netlist.now) }
{
    let inputs = constants(alloc, input)?;
    let (graph, opens) = new_graph(alloc, netlist.hasher(), netlist.targets().len())?;
    // it is a graph
    let _ = graph.nodes();
    let mut board = lay_out(alloc, netlist, spec, care, graph, inputs)?;
    let side = fixed_side(alloc, netlist, opens.as_slice(), fixed, &mut board);
    drop(board);
    posed_targets(alloc, side?)
}

/// The side of the board, whose inputs are constants, that asks for bits of the netlist's targets that begin with the fixed
/// ones and are right.
fn fixed_side(
    alloc: Global,
    netlist: &Netlist,
    opens: &[Edge],
    fixed: &[bool],
    board: &mut Board,
) -> Result<OneSide, OutOfMemory>
    requires laid_out { IsLaidOut netlist.now board.old }
    requires opens { AreInputs board.old.graph opens.now }
    requires count { HasOpenNets netlist.now (length board.old.inputs.items + length opens.now) }
    requires fixed { length fixed.now ≤ length opens.now }
    ensures asks { IfOk result (λ side. (goal : Goal) (targets : List (List ℕ)) (input : List Bool) → AreTargets netlist.now targets →
        board.old.inputs.items ≡ map constant_edge input → AsksOf netlist.now goal board.old →
        AsksFor (IsFixed netlist.now goal targets fixed.now input) side.inputs.items side.cnf.clauses) }
    ensures shape { IfOk result IsOfInputs }
    ensures reads { IfOk result (λ side. length side.inputs.items ≡ length opens.now) }
    ensures within { IfOk result (λ side. All (IsVarWithin side.cnf.vars) side.inputs.items) }
    ensures few { IfOk result (λ side. side.cnf.vars ≤ length board.old.graph + row_nodes netlist.now) }
{
    let wrong = board.wrong_edge(alloc, netlist, opens)?;
    let mut asserted = signed(alloc, opens, fixed)?;
    asserted.push(wrong.not())?;
    // it is a graph
    let _ = board.graph.nodes();
    one_side(alloc, &board.graph, opens, asserted.as_slice())
}

/// The first edges, with the signs with which they are 1 where they have these bits.
fn signed(alloc: Global, edges: &[Edge], bits: &[bool]) -> Result<Vec<Edge>, OutOfMemory>
    requires { length bits.now ≤ length edges.now }
    ensures { IfOk result (λ made. made.items ≡ signed edges.now bits.now) }
{
    let mut made = Vec::with_capacity(alloc, bits.len())?;
    for (place, bit) in bits.iter().enumerate() {
        made.push(with_sign(edges[place], *bit))?;
    }
    Ok(made)
}

/// The edge with the sign with which it is 1 where it has the bit.
fn with_sign(edge: Edge, bit: bool) -> Edge
    ensures { result ≡ with_sign edge bit }
{
    if bit { edge } else { edge.not() }
}

/// The side as a posed question for bits of targets.
fn posed_targets(alloc: Global, side: OneSide) -> Result<Posed, OutOfMemory>
    requires { All (IsVarWithin side.cnf.vars) side.inputs.items }
    ensures clauses { IfOk result (λ posed. posed.clauses ≡ side.cnf) }
    ensures targets { IfOk result (λ posed. posed.targets ≡ side.inputs.items) }
{
    let marks = vec![in alloc; true; side.cnf.clauses().len()]?;
    Ok(Posed {
        alloc,
        cnf: side.cnf,
        side: marks,
        shared: Vec::new(alloc),
        first: Vec::new(alloc),
        second: Vec::new(alloc),
        targets: side.inputs,
    })
}
