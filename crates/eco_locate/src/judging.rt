//! Whether nets are a choice.

ghost use Rattle.std.specs.Prelude.{◌<◌, ◌≤◌, [], ◌∷◌, IfOk, length};
ghost use Rattle.eco_meaning.specs.Circuit.{IsDriven, names};
ghost use Rattle.eco_netlist.specs.Netlists.{name_at, names_at};
ghost use Rattle.eco_change.specs.CutProblem.{CanBeCut};
ghost use Rattle.eco_locate.specs.Questions.{TellsNets, TellsProblem};

use eco_change::{Change, cut_problem};
use eco_desk::Engine;
use eco_meaning::{Bits, OutOfMemory};
use eco_netlist::NetId;
use eco_pose::{Stuck, Unfinished};
use eco_query::Problem;
use eco_rectify::{Answer, rectify};
use eco_trace::Refuter;
use std::alloc::Global;
use std::slice;

/// What is found of nets.
#[derive(Drop)]
pub(crate) enum Verdict {
    /// Cutting them suffices.
    Choice,
    /// This input is wrong, and stays so with the nets cut.
    Wrong(Bits),
    /// The search gave up on this question.
    GivenUp(Box<Stuck>),
}

/// Whether cutting these nets suffices, by questions of at most `limit` learnt clauses each.
pub(crate) fn judge<R: Refuter>(
    alloc: Global,
    change: &Change,
    nets: &[NetId],
    search: &mut R,
    limit: u64,
) -> Result<Verdict, OutOfMemory>
    requires nets { CanBeCut change.now.old nets.now }
    requires some { 1 ≤ length nets.now }
    requires limit { 1 ≤ limit }
    ensures { IfOk result (TellsNets change.now.old change.now.goal limit (names_at (names change.now.old) nets.now)) }
{
    // it is a change
    let _ = change.old();
    let problem = cut_problem(alloc, change, nets)?;
    let verdict = judge_problem(alloc, &problem, search, limit);
    drop(problem);
    verdict
}

/// Whether cutting this net alone suffices.
pub(crate) fn judge_one<R: Refuter>(
    alloc: Global,
    change: &Change,
    net: NetId,
    search: &mut R,
    limit: u64,
) -> Result<Verdict, OutOfMemory>
    requires within { net.0 < length (names change.now.old) }
    requires driven { IsDriven change.now.old (name_at (names change.now.old) net.0) }
    requires limit { 1 ≤ limit }
    ensures { IfOk result (TellsNets change.now.old change.now.goal limit (name_at (names change.now.old) net.0 ∷ [])) }
{
    judge(alloc, change, slice::from_ref(&net), search, limit)
}

/// Whether the implementation can be rectified.
fn judge_problem<R: Refuter>(
    alloc: Global,
    problem: &Problem,
    search: &mut R,
    limit: u64,
) -> Result<Verdict, OutOfMemory>
    requires { 1 ≤ limit }
    ensures { IfOk result (TellsProblem problem.now limit) }
{
    let mut engine = Engine::new(alloc, problem, search, limit)?;
    let answer = rectify(&mut engine);
    drop(engine);
    match answer {
        Ok(Answer::Rectifiable) => Ok(Verdict::Choice),
        Ok(Answer::Wrong(input)) => Ok(Verdict::Wrong(input)),
        Err(Unfinished::GivenUp(stuck)) => Ok(Verdict::GivenUp(stuck)),
        Err(Unfinished::OutOfMemory) => Err(OutOfMemory),
    }
}
