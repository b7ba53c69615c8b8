//! The clauses that ask for bits of the targets that are right throughout a tuple.

ghost use Rattle.std.specs.Prelude.{◌≡◌, ℕ, List, All, IfOk, length};
ghost use Rattle.eco_meaning.specs.Circuit.{AreTargets};
ghost use Rattle.eco_trace.specs.Clauses.{IsVarWithin};
ghost use Rattle.eco_clash.specs.Questions.{IsFixedThroughout};
ghost use Rattle.eco_pose.specs.Answers.{AsksFor};
ghost use Rattle.eco_tuples.specs.Graphs.{AreInputsOf, AreRightEdges, IsTargetGraph};

use crate::target_graph::{TargetGraph, right_edge, target_graph};
use eco_aig::Edge;
use eco_meaning::{Bits, OutOfMemory};
use eco_query::Problem;
use eco_tseitin::{OneSide, one_side};
use std::alloc::Global;

/// The clauses that ask for bits of the targets with which the problem's implementation is right at each input of the tuple: one
/// copy of the netlists for each input, over one graph of the targets. The tuple is a clash exactly where they have no model.
pub fn pose_clash(alloc: Global, problem: &Problem, tuple: &[Bits]) -> Result<OneSide, OutOfMemory>
    requires { AreInputsOf problem.now.implementation tuple.now }
    ensures asks { IfOk result (λ side. (targets : List (List ℕ)) → AreTargets problem.now.implementation targets →
        AsksFor (IsFixedThroughout problem.now.implementation problem.now.goal targets tuple.now) side.inputs.items side.cnf.clauses) }
    ensures within { IfOk result (λ side. All (IsVarWithin side.cnf.vars) side.inputs.items) }
{
    let mut targets = target_graph(alloc, problem.implementation())?;
    let side = clash_side(problem, tuple, &mut targets);
    drop(targets);
    side
}

/// The side that asks for such bits over this graph of the targets.
fn clash_side(
    problem: &Problem,
    tuple: &[Bits],
    targets: &mut TargetGraph,
) -> Result<OneSide, OutOfMemory>
    requires tuple { AreInputsOf problem.now.implementation tuple.now }
    requires targets { IsTargetGraph problem.now.implementation targets.old }
    ensures asks { IfOk result (λ side. (targets : List (List ℕ)) → AreTargets problem.now.implementation targets →
        AsksFor (IsFixedThroughout problem.now.implementation problem.now.goal targets tuple.now) side.inputs.items side.cnf.clauses) }
    ensures within { IfOk result (λ side. All (IsVarWithin side.cnf.vars) side.inputs.items) }
{
    let right = right_edges(problem, tuple, targets)?;
    let side = one_side(
        targets.alloc,
        &targets.graph,
        targets.opens.as_slice(),
        right.as_slice(),
    )?;
    Ok(side)
}

/// For each input of the tuple the edge that is 1 where the implementation is right at it.
fn right_edges(
    problem: &Problem,
    tuple: &[Bits],
    targets: &mut TargetGraph,
) -> Result<Vec<Edge>, OutOfMemory>
    requires tuple { AreInputsOf problem.now.implementation tuple.now }
    requires targets { IsTargetGraph problem.now.implementation targets.old }
    ensures edges { IfOk result (λ edges. AreRightEdges problem.now targets.new tuple.now edges.items) }
    ensures targets { IfOk result (λ _. IsTargetGraph problem.now.implementation targets.new) }
{
    let mut edges = Vec::with_capacity(targets.alloc, tuple.len())?;
    for input in tuple {
        edges.push(right_edge(problem, input.as_slice(), targets)?)?;
    }
    Ok(edges)
}
