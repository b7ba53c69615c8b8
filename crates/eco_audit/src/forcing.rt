//! Whether an input forces a target to a bit.

ghost use Rattle.std.specs.Prelude.{◌≡◌, ◌↔◌, ◌<◌, ◌≤◌, Bool, List, IsTrue, IfOk, length};
ghost use Rattle.eco_query.specs.Problem.{ProblemValue};
ghost use Rattle.eco_pose.specs.Stuck.{IsAnswered, IsLeft};
ghost use Rattle.eco_pose.specs.declared.question.Question.{Question};
ghost use Rattle.eco_pose.specs.declared.question.Question.TheVariants as questions;
ghost use Rattle.eco_audit.specs.Judging.{AreFilled, AtGroupOf, IsForcedHere, IsJudged, IsUnfixedHere};

use crate::filling::target_values;
use crate::solution::Solution;
use bumpalo::Bump;
use eco_meaning::{Bits, OutOfMemory};
use eco_pose::{Asked, Unfinished, ask_fix};
use eco_trace::Refuter;

/// Whether the input forces the target of the group of this number to the bit: with the values that the targets before it have
/// there and the other bit nothing is right. The values are those of all nets at the input.
pub(crate) fn is_forced<R: Refuter>(
    solution: &Solution<'_>,
    refuter: &mut R,
    number: usize,
    input: &Bits,
    bit: bool,
    values: &[bool],
) -> Result<bool, OutOfMemory>
    requires judged { IsJudged solution.now }
    requires number { number < length solution.now.report.now.groups }
    requires input { length input.now ≡ length solution.now.problem.now.implementation.inputs }
    requires values { AreFilled solution.now input.now values.now }
    ensures { IfOk result (λ forced. AtGroupOf solution.now number (λ before group.
        IsTrue forced ↔ IsForcedHere solution.now input.now bit before group)) }
{
    let mut row = target_values(solution, number, values)?;
    row.push(!bit)?;
    let fixed = Bits::of(row);
    is_unfixed(solution, refuter, input, &fixed)
}

/// Whether no values of the targets that begin with the fixed ones are right at the input.
fn is_unfixed<R: Refuter>(
    solution: &Solution<'_>,
    refuter: &mut R,
    input: &Bits,
    fixed: &Bits,
) -> Result<bool, OutOfMemory>
    requires judged { IsJudged solution.now }
    requires input { length input.now ≡ length solution.now.problem.now.implementation.inputs }
    requires fixed { length fixed.now ≤ length solution.now.report.now.groups }
    ensures { IfOk result (λ unfixed. IsTrue unfixed ↔ IsUnfixedHere solution.now fixed.now input.now) }
{
    let arena = Bump::new(solution.alloc);
    // no search spends as much: a proof has at most 2^63 - 1 clauses
    let limit = 18446744073709551615;
    let asked = ask_fix(
        solution.alloc,
        solution.problem,
        input,
        fixed,
        refuter,
        limit,
        &arena,
    );
    match asked {
        Ok(asked) => Ok(is_never(asked)),
        Err(unfinished) => Err(want_of_memory(unfinished)),
    }
}

/// Whether the answer is that there are no such values.
fn is_never(asked: Asked<'_>) -> bool
    ensures { (solution : Solution) (input fixed : List Bool) → IsJudged solution →
        IsAnswered solution.problem.now (questions.Fix input fixed) asked.entry → IsTrue result ↔ IsUnfixedHere solution fixed input }
{
    match asked {
        Asked::Never { posed, trace } => {
            let _ = trace.ends_empty();
            drop(posed);
            drop(trace);
            true
        }
        Asked::Found { posed, model } => {
            drop(posed);
            drop(model);
            false
        }
    }
}

/// Why a question has no answer that was searched to its end.
fn want_of_memory(unfinished: Unfinished) -> OutOfMemory
    requires { (problem : ProblemValue) × (question : Question) × IsLeft problem 18446744073709551615 question unfinished }
{
    match unfinished {
        Unfinished::OutOfMemory => OutOfMemory,
        Unfinished::GivenUp(stuck) => {
            stuck.trace.is_sound();
            unreachable!()
        }
    }
}
