//! All nets, one after the other.

ghost use Rattle.std.specs.Prelude.{◌≤◌, ◌++◌, [], ◌∷◌, ℕ, All, IfOk, IfErr, OnOk, length};
ghost use Rattle.eco_query.specs.Problem.{ProblemValue};
ghost use Rattle.eco_pose.specs.declared.question.Question.TheVariants as questions;
ghost use Rattle.eco_pose.specs.Stuck.{IsLeft};
ghost use Rattle.eco_change.specs.Failing.{IsFailing};
ghost use Rattle.eco_locate.specs.Judged.{IsJudged, IsJudgedTo, TellsAnswer};

use crate::answer::{Answer, Located, Open};
use crate::comparing::first_failing;
use crate::covering::with_few;
use crate::judging::{Verdict, judge_one};
use crate::progress::{Progress, begin};
use crate::sifting::{exclude_by, exclude_with};
use eco_change::{Change, Failing, simulated};
use eco_meaning::OutOfMemory;
use eco_netlist::NetId;
use eco_pose::Unfinished;
use eco_trace::Refuter;
use std::alloc::Global;

/// Which single nets of the old netlist can be cut so that it meets the specification; or that nothing has to be cut. A question has
/// at most `limit` learnt clauses.
///
/// # Errors
///
/// `GivenUp` if the search gives up on the question whether the netlists are equal, `OutOfMemory` for want of memory.
pub fn locate<R: Refuter>(
    alloc: Global,
    change: &Change,
    search: &mut R,
    limit: u64,
) -> Result<Answer, Unfinished>
    requires { 1 ≤ limit }
    ensures answer { IfOk result (TellsAnswer change.now.old change.now.goal limit) }
    ensures unfinished { IfErr result (λ unfinished. (problem : ProblemValue) →
        IsLeft problem limit (questions.Equal change.now.old change.now.goal.spec change.now.goal.care) unfinished) }
{
    let mut failing = simulated(alloc, change)?;
    if failing.is_empty() {
        let Some(first) = first_failing(alloc, change, search, limit)? else {
            return Ok(Answer::Equal);
        };
        failing.push(first)?;
    }
    let located = located_by(alloc, change, failing.as_slice(), search, limit)?;
    Ok(Answer::Located(located))
}

/// What is found of all nets, by wrong inputs first and then by questions, with few of these inputs.
fn located_by<R: Refuter>(
    alloc: Global,
    change: &Change,
    failing: &[Failing],
    search: &mut R,
    limit: u64,
) -> Result<Located, OutOfMemory>
    requires failing { All (IsFailing change.now.old change.now.goal) failing.now }
    requires limit { 1 ≤ limit }
    ensures { IfOk result (IsJudged change.now.old change.now.goal limit) }
{
    let mut progress = begin(alloc, change.old())?;
    match go_on(alloc, change, failing, search, limit, &mut progress) {
        Ok(()) => with_few(alloc, change, progress.located),
        Err(error) => {
            drop(progress);
            Err(error)
        }
    }
}

/// Judges the nets that are left.
fn go_on<R: Refuter>(
    alloc: Global,
    change: &Change,
    failing: &[Failing],
    search: &mut R,
    limit: u64,
    progress: &mut Progress,
) -> Result<(), OutOfMemory>
    requires failing { All (IsFailing change.now.old change.now.goal) failing.now }
    requires limit { 1 ≤ limit }
    requires progress { IsJudgedTo change.now.old change.now.goal limit progress.old.left.items progress.old.located }
    ensures { OnOk result (IsJudged change.now.old change.now.goal limit progress.new.located) }
{
    exclude_all(alloc, change, failing, progress)?;
    ask_all(alloc, change, search, limit, progress)
}

/// Takes the nets that the inputs exclude.
fn exclude_all(
    alloc: Global,
    change: &Change,
    failing: &[Failing],
    progress: &mut Progress,
) -> Result<(), OutOfMemory>
    requires failing { All (IsFailing change.now.old change.now.goal) failing.now }
    requires progress { (limit : ℕ) × IsJudgedTo change.now.old change.now.goal limit progress.old.left.items progress.old.located }
    ensures { OnOk result ((limit : ℕ) →
        IsJudgedTo change.now.old change.now.goal limit progress.old.left.items progress.old.located →
        IsJudgedTo change.now.old change.now.goal limit progress.new.left.items progress.new.located) }
{
    for input in failing {
        exclude_by(alloc, change, input, progress)?;
    }
    Ok(())
}

/// Asks about each net that is left when its turn comes.
fn ask_all<R: Refuter>(
    alloc: Global,
    change: &Change,
    search: &mut R,
    limit: u64,
    progress: &mut Progress,
) -> Result<(), OutOfMemory>
    requires limit { 1 ≤ limit }
    requires progress { IsJudgedTo change.now.old change.now.goal limit progress.old.left.items progress.old.located }
    ensures { OnOk result (IsJudged change.now.old change.now.goal limit progress.new.located) }
{
    while let Some(net) = progress.left.pop() {
        judge_next(alloc, change, net, search, limit, progress)?;
    }
    Ok(())
}

/// Judges this net, which was taken from those that are left.
fn judge_next<R: Refuter>(
    alloc: Global,
    change: &Change,
    net: NetId,
    search: &mut R,
    limit: u64,
    progress: &mut Progress,
) -> Result<(), OutOfMemory>
    requires limit { 1 ≤ limit }
    requires progress { IsJudgedTo change.now.old change.now.goal limit (progress.old.left.items ++ net ∷ []) progress.old.located }
    ensures judged { OnOk result
        (IsJudgedTo change.now.old change.now.goal limit progress.new.left.items progress.new.located) }
    ensures fewer { OnOk result (length progress.new.left.items ≤ length progress.old.left.items) }
{
    match judge_one(alloc, change, net, search, limit)? {
        Verdict::Choice => Ok(progress.located.listed.push(net)?),
        Verdict::GivenUp(stuck) => {
            let stuck = Box::into_inner(stuck);
            Ok(progress.located.over.push(Open { net, stuck })?)
        }
        Verdict::Wrong(input) => exclude_with(alloc, change, net, input, progress),
    }
}
