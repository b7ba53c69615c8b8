//! The clauses that ask for an input which rows of bits leave wrong.

ghost use Rattle.std.specs.Prelude.{◌≡◌, ◌+◌, ◌*◌, ◌≤◌, ℕ, List, length, All, IfOk};
ghost use Rattle.std.specs.Option.{option_copied};
ghost use Rattle.eco_meaning.specs.Circuit.{AreTargets};
ghost use Rattle.eco_meaning.specs.Meaning.{Goal};
ghost use Rattle.eco_compile.specs.Compiled.{HasOpenNets};
ghost use Rattle.eco_trace.specs.Clauses.{IsVarWithin};
ghost use Rattle.eco_laws.specs.Asked.{IsMissed};
ghost use Rattle.eco_aig.specs.Inputs.{AreInputs};
ghost use Rattle.eco_compile.specs.Goals.{IsGoalOf, goal_nodes};
ghost use Rattle.eco_pose.specs.Boards.{AsksOf, IsLaidOut, row_nodes};
ghost use Rattle.eco_pose.specs.Answers.{AsksFor};
ghost use Rattle.eco_pose.specs.Shapes.{IsEncodedOnce, IsOfInputs};

use crate::board::{Board, lay_out};
use crate::posed::Posed;
use eco_aig::new_graph;
use eco_meaning::{Bits, OutOfMemory};
use eco_netlist::Netlist;
use eco_tseitin::{OneSide, one_side};
use std::alloc::Global;

/// The clauses that ask for an input at which the netlist is right with none of these rows of its targets.
pub(crate) fn pose_missed(
    alloc: Global,
    netlist: &Netlist,
    spec: &Netlist,
    care: Option<&Netlist>,
    rows: &[Bits],
) -> Result<Posed, OutOfMemory>
    requires goal { IsGoalOf netlist.now (record { spec = spec.now; care = option_copied care }) }
    requires rows { All (λ row. HasOpenNets netlist.now (length netlist.now.inputs + length row)) rows.now }
    ensures asks { IfOk result (λ posed. (targets : List (List ℕ)) → AreTargets netlist.now targets →
        AsksFor (IsMissed netlist.now (record { spec = spec.now; care = option_copied care.entry }) targets rows.now)
        posed.first posed.clauses.clauses) }
    ensures shape { IfOk result (λ posed. IsEncodedOnce posed posed.first) }
    ensures reads { IfOk result (λ posed. length posed.first ≡ length netlist.now.inputs) }
    ensures few { IfOk result (λ posed. posed.clauses.vars ≤ 1 + length netlist.now.inputs
        + goal_nodes (record { spec = spec.now; care = option_copied care.entry }) + length rows.now * row_nodes netlist.now) }
{
    let (graph, inputs) = new_graph(alloc, netlist.hasher(), netlist.inputs().len())?;
    let mut board = lay_out(alloc, netlist, spec, care, graph, inputs)?;
    let side = missed_side(alloc, netlist, rows, &mut board);
    drop(board);
    posed_input(alloc, side?)
}

/// The side of the board that asks for an input at which the netlist is right with none of these rows of its targets.
fn missed_side(
    alloc: Global,
    netlist: &Netlist,
    rows: &[Bits],
    board: &mut Board,
) -> Result<OneSide, OutOfMemory>
    requires laid_out { IsLaidOut netlist.now board.old }
    requires inputs { AreInputs board.old.graph board.old.inputs.items }
    requires rows { All (λ row. HasOpenNets netlist.now (length netlist.now.inputs + length row)) rows.now }
    ensures asks { IfOk result (λ side. (goal : Goal) (targets : List (List ℕ)) → AreTargets netlist.now targets →
        AsksOf netlist.now goal board.old → AsksFor (IsMissed netlist.now goal targets rows.now) side.inputs.items side.cnf.clauses) }
    ensures shape { IfOk result IsOfInputs }
    ensures reads { IfOk result (λ side. length side.inputs.items ≡ length netlist.now.inputs) }
    ensures within { IfOk result (λ side. All (IsVarWithin side.cnf.vars) side.inputs.items) }
    ensures few { IfOk result (λ side. side.cnf.vars ≤ length board.old.graph + length rows.now * row_nodes netlist.now) }
{
    let wrong = board.row_edges(alloc, netlist, rows)?;
    // it is a graph
    let _ = board.graph.nodes();
    one_side(
        alloc,
        &board.graph,
        board.inputs.as_slice(),
        wrong.as_slice(),
    )
}

/// The side as a posed question for an input.
pub fn posed_input(alloc: Global, side: OneSide) -> Result<Posed, OutOfMemory>
    requires { All (IsVarWithin side.cnf.vars) side.inputs.items }
    ensures clauses { IfOk result (λ posed. posed.clauses ≡ side.cnf) }
    ensures first { IfOk result (λ posed. posed.first ≡ side.inputs.items) }
{
    let marks = vec![in alloc; true; side.cnf.clauses().len()]?;
    Ok(Posed {
        alloc,
        cnf: side.cnf,
        side: marks,
        shared: Vec::new(alloc),
        first: side.inputs,
        second: Vec::new(alloc),
        targets: Vec::new(alloc),
    })
}
