//! Whether any input is wrong.

ghost use Rattle.std.specs.Prelude.{◌≤◌, IfOk, IfErr, IfSome};
ghost use Rattle.eco_query.specs.Problem.{ProblemValue};
ghost use Rattle.eco_pose.specs.declared.question.Question.TheVariants as questions;
ghost use Rattle.eco_pose.specs.Stuck.{CanBeRead, IsLeft};
ghost use Rattle.eco_change.specs.Failing.{IsFailing};
ghost use Rattle.eco_locate.specs.Comparing.{IsGivenBy, TellsFirst, TellsInput};

use bumpalo::Bump;
use eco_change::{Change, Failing, failing_at, simulated};
use eco_meaning::{Bits, OutOfMemory};
use eco_pose::{Asked, Unfinished, ask_equal};
use eco_trace::Refuter;
use std::alloc::Global;

/// A wrong input, if there is one: one that simulation finds, or by one question of at most `limit` learnt clauses.
pub(crate) fn some_failing<R: Refuter>(
    alloc: Global,
    change: &Change,
    search: &mut R,
    limit: u64,
) -> Result<Option<Failing>, Unfinished>
    requires { 1 ≤ limit }
    ensures failing { IfOk result (TellsFirst change.now.old change.now.goal) }
    ensures unfinished { IfErr result (λ unfinished. (problem : ProblemValue) →
        IsLeft problem limit (questions.Equal change.now.old change.now.goal.spec change.now.goal.care) unfinished) }
{
    match simulated_one(alloc, change)? {
        Some(failing) => Ok(Some(failing)),
        None => first_failing(alloc, change, search, limit),
    }
}

/// A wrong input that simulation finds, if it finds one.
fn simulated_one(alloc: Global, change: &Change) -> Result<Option<Failing>, OutOfMemory>
    ensures { IfOk result (λ found. IfSome found (IsFailing change.now.old change.now.goal)) }
{
    let mut failing = simulated(alloc, change)?;
    Ok(failing.pop())
}

/// A wrong input, if there is one, by one question of at most `limit` learnt clauses.
pub(crate) fn first_failing<R: Refuter>(
    alloc: Global,
    change: &Change,
    search: &mut R,
    limit: u64,
) -> Result<Option<Failing>, Unfinished>
    requires { 1 ≤ limit }
    ensures failing { IfOk result (TellsFirst change.now.old change.now.goal) }
    ensures unfinished { IfErr result (λ unfinished. (problem : ProblemValue) →
        IsLeft problem limit (questions.Equal change.now.old change.now.goal.spec change.now.goal.care) unfinished) }
{
    let arena = Bump::new(alloc);
    let asked = ask_equal(
        alloc,
        change.old(),
        change.specification(),
        change.care(),
        search,
        limit,
        &arena,
    )?;
    let found = input_of(&asked);
    drop(asked);
    Ok(failing_of(alloc, change, found?)?)
}

/// The wrong input that was found.
fn failing_of(
    alloc: Global,
    change: &Change,
    found: Option<Bits>,
) -> Result<Option<Failing>, OutOfMemory>
    requires { TellsInput change.now.old change.now.goal found }
    ensures { IfOk result (TellsFirst change.now.old change.now.goal) }
{
    match found {
        None => Ok(None),
        Some(input) => failing_at(alloc, change, input),
    }
}

/// The input that the answer tells.
fn input_of(asked: &Asked<'_>) -> Result<Option<Bits>, OutOfMemory>
    requires { CanBeRead asked.now }
    ensures { IfOk result (IsGivenBy asked.now) }
{
    match asked {
        Asked::Never { trace, .. } => {
            let _ = trace.ends_empty();
            Ok(None)
        }
        Asked::Found { posed, model } => {
            let input = posed.input1(model)?;
            Ok(Some(input))
        }
    }
}
