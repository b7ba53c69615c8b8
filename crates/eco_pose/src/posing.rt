//! Posing questions.

ghost use Rattle.std.specs.Prelude.{◌≡◌, ◌≤◌, ℕ, List, length, IfOk};
ghost use Rattle.std.specs.Option.{option_copied};
ghost use Rattle.eco_meaning.specs.Circuit.{AreTargets, names};
ghost use Rattle.eco_netlist.specs.Netlists.{AreNets, names_at};
ghost use Rattle.eco_query.specs.Problem.{ProblemValue, IsClosed, HasTargetNumber};
ghost use Rattle.eco_compile.specs.Goals.{IsGoalOf};
ghost use Rattle.eco_pose.specs.declared.question.Question.TheVariants as questions;
ghost use Rattle.eco_pose.specs.Questions.{AreRowsOf, AtTarget, IsAskable, IsSeparable};
ghost use Rattle.eco_pose.specs.Answers.{Asks};
ghost use Rattle.eco_pose.specs.Shapes.{HasShape, HasReaders, HasFewVariables};
ghost use Rattle.eco_pose.specs.Stuck.{IsPosed};

use crate::fixing::pose_fixed;
use crate::missing::pose_missed;
use crate::posed::Posed;
use crate::question::Question;
use crate::separating::pose_separated;
use eco_meaning::{Bits, OutOfMemory};
use eco_netlist::{NetId, Netlist};
use eco_query::Problem;
use std::alloc::Global;

/// Clauses that ask the question of the problem. Each question is posed over graphs of its own.
pub fn pose(alloc: Global, problem: &Problem, question: &Question) -> Result<Posed, OutOfMemory>
    requires { IsAskable problem.now.implementation question.now }
    ensures asks { IfOk result (Asks problem.now.implementation problem.now.goal question.now) }
    ensures shape { IfOk result (HasShape question.now) }
    ensures reads { IfOk result (HasReaders problem.now.implementation question.now) }
    ensures few { IfOk result (HasFewVariables problem.now.implementation problem.now.goal question.now) }
{
    match question {
        Question::Rectify { values } => pose_rectify(alloc, problem, values.as_slice()),
        Question::Separate {
            target,
            patches,
            base,
            rest,
        } => pose_separate(
            alloc,
            problem,
            *target,
            patches,
            base.as_slice(),
            rest.as_slice(),
        ),
        Question::Fix { input, fixed } => pose_fix(alloc, problem, input, fixed),
        Question::Equal { left, right, care } => {
            pose_differing(alloc, left, right, care.as_ref())
        }
    }
}

/// The clauses that ask for an input at which the implementation is right with none of these values of its targets.
pub fn pose_rectify(alloc: Global, problem: &Problem, values: &[Bits]) -> Result<Posed, OutOfMemory>
    requires { (targets : List (List ℕ)) → AreTargets problem.now.implementation targets → AreRowsOf targets values.now }
    ensures { IfOk result (IsPosed problem.now (questions.Rectify values.now)) }
{
    let posed = pose_missed(
        alloc,
        problem.implementation(),
        problem.specification(),
        problem.care(),
        values,
    )?;
    Ok(posed)
}

/// The clauses that ask for two inputs with equal values of the base, the targets before the target `i` following the
/// patches: at the first, this target at 0 is right with none of the rests, at the second this target at 1.
pub fn pose_separate(
    alloc: Global,
    problem: &Problem,
    i: u64,
    patches: &Netlist,
    base: &[NetId],
    rest: &[Bits],
) -> Result<Posed, OutOfMemory>
    requires number { HasTargetNumber problem.now.implementation i }
    requires base { AreNets (names problem.now.implementation) base.now }
    requires separable { AtTarget problem.now.implementation i
        (IsSeparable problem.now.implementation patches.now (names_at (names problem.now.implementation) base.now) rest.now) }
    ensures { IfOk result (IsPosed problem.now (questions.Separate i patches.now base.now rest.now)) }
{
    // it is a problem
    let _ = problem.implementation();
    let posed = pose_separated(alloc, problem, i, patches, base, rest)?;
    Ok(posed)
}

/// The clauses that ask for values of the targets that begin with the fixed ones and are right at the input.
pub fn pose_fix(
    alloc: Global,
    problem: &Problem,
    input: &Bits,
    fixed: &Bits,
) -> Result<Posed, OutOfMemory>
    requires input { length input.now ≡ length problem.now.implementation.inputs }
    requires fixed { (targets : List (List ℕ)) → AreTargets problem.now.implementation targets → length fixed.now ≤ length targets }
    ensures { IfOk result (IsPosed problem.now (questions.Fix input.now fixed.now)) }
{
    let posed = pose_fixed(
        alloc,
        problem.implementation(),
        problem.specification(),
        problem.care(),
        input.as_slice(),
        fixed.as_slice(),
    )?;
    Ok(posed)
}

/// The clauses that ask for a cared input on which the two netlists differ in an output.
pub fn pose_differing(
    alloc: Global,
    left: &Netlist,
    right: &Netlist,
    care: Option<&Netlist>,
) -> Result<Posed, OutOfMemory>
    requires goal { IsGoalOf left.now (record { spec = right.now; care = option_copied care }) }
    requires closed { IsClosed left.now }
    ensures { IfOk result (λ posed. (problem : ProblemValue) →
        IsPosed problem (questions.Equal left.now right.now (option_copied care.entry)) posed) }
{
    // it is checked
    let _ = left.nets();
    let rows = vec![in alloc; Bits::of(Vec::new(alloc))]?;
    let posed = pose_missed(alloc, left, right, care, rows.as_slice())?;
    Ok(posed)
}
