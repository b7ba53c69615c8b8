//! Questions for two inputs of the target that a desk is turned to.

ghost use Rattle.std.specs.Prelude.{◌≡◌, IfOk, length};
ghost use Rattle.eco_meaning.specs.Circuit.{names};
ghost use Rattle.eco_netlist.specs.Netlists.{AreNets, names_at};
ghost use Rattle.eco_query.specs.Problem.{HasTargetNumber};
ghost use Rattle.eco_pose.specs.declared.question.Question.TheVariants as questions;
ghost use Rattle.eco_pose.specs.Questions.{AtTarget, IsAskable, IsSeparable};
ghost use Rattle.eco_pose.specs.Answers.{AsksSeparate};
ghost use Rattle.eco_pose.specs.Shapes.{IsEncodedTwice};
ghost use Rattle.eco_pose.specs.Stuck.{IsPosed};
ghost use Rattle.eco_desk.specs.Boards.{Continues, IsSweptBoardOf};
ghost use Rattle.eco_desk.specs.Desks.{IsTurnOf};

use crate::encoding::pose_pair;
use crate::sizes::has_few;
use crate::swept::SweptBoard;
use crate::turned::Turn;
use eco_meaning::{Bits, OutOfMemory};
use eco_netlist::NetId;
use eco_pose::{Posed, Problem, pose_separate};

/// Clauses that ask for two inputs of the turn's target.
pub(crate) fn pose_turned(
    swept: &mut SweptBoard,
    turn: &mut Turn,
    problem: &Problem,
    base: &[NetId],
    rest: &[Bits],
) -> Result<Posed, OutOfMemory>
    requires swept { IsSweptBoardOf problem.now.implementation problem.now.goal swept.old }
    requires turn { IsTurnOf problem.now.implementation problem.now.goal swept.old.board turn.old }
    requires askable { IsAskable problem.now.implementation (questions.Separate turn.old.number turn.old.patches base.now rest.now) }
    ensures posed { IfOk result (IsPosed problem.now (questions.Separate turn.old.number turn.old.patches base.now rest.now)) }
    ensures continues { Continues swept.old swept.new }
    ensures turn { IsTurnOf problem.now.implementation problem.now.goal swept.new.board turn.new }
    ensures number { turn.new.number ≡ turn.old.number }
    ensures patches { turn.new.patches ≡ turn.old.patches }
{
    let posed = swept_pair(swept, turn, problem, base, rest)?;
    if has_few(problem, rest.len(), Some(&turn.patches), &posed) {
        Ok(posed)
    } else {
        drop(posed);
        pose_separate(swept.alloc, problem, turn.number, &turn.patches, base, rest)
    }
}

/// The same over the desk's graph, which may have too many variables.
fn swept_pair(
    swept: &mut SweptBoard,
    turn: &mut Turn,
    problem: &Problem,
    base: &[NetId],
    rest: &[Bits],
) -> Result<Posed, OutOfMemory>
    requires swept { IsSweptBoardOf problem.now.implementation problem.now.goal swept.old }
    requires turn { IsTurnOf problem.now.implementation problem.now.goal swept.old.board turn.old }
    requires number { HasTargetNumber problem.now.implementation turn.old.number }
    requires base { AreNets (names problem.now.implementation) base.now }
    requires separable { AtTarget problem.now.implementation turn.old.number
        (IsSeparable problem.now.implementation turn.old.patches (names_at (names problem.now.implementation) base.now) rest.now) }
    ensures asks { IfOk result (λ posed. AtTarget problem.now.implementation turn.old.number (λ before target behind.
        AsksSeparate problem.now.implementation problem.now.goal turn.old.patches before target behind rest.now
        (names_at (names problem.now.implementation) base.now) posed)) }
    ensures shape { IfOk result IsEncodedTwice }
    ensures reads { IfOk result (λ posed. (length posed.first ≡ length problem.now.implementation.inputs)
        × (length posed.second ≡ length problem.now.implementation.inputs)) }
    ensures continues { Continues swept.old swept.new }
    ensures turn { IsTurnOf problem.now.implementation problem.now.goal swept.new.board turn.new }
    ensures number { turn.new.number ≡ turn.old.number }
    ensures patches { turn.new.patches ≡ turn.old.patches }
{
    // both are checked
    let _ = (problem.implementation().nets(), turn.patches.nets());
    let edges = turn.pair_edges(swept, base, rest)?;
    // it is a graph
    let _ = swept.board.graph.nodes();
    pose_pair(
        swept.alloc,
        &swept.board.graph,
        swept.board.inputs.as_slice(),
        edges.base.as_slice(),
        edges.first.as_slice(),
        edges.second.as_slice(),
    )
}
