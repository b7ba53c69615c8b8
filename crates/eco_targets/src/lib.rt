//! From a problem to its patch.
#![tactic(auto)]

mod cheapest;
mod cost;
mod finish;
mod heard;
mod turns;

ghost use Rattle.std.specs.Prelude.{◌≤◌, IfOk, IfErr};
ghost use Rattle.eco_meaning.specs.Meaning.{IsRectifiable};
ghost use Rattle.eco_base.specs.Targets.{IsTargetOf};
ghost use Rattle.eco_progress.specs.Standing.{IsBegun};
ghost use Rattle.eco_targets.specs.Made.{IsMade, IsMadeLeast, IsCause};

use cheapest::cheapest;
use eco_desk::Engine;
use eco_netlist::{Bits, Netlist, OutOfMemory};
use eco_pose::Unfinished;
pub use eco_progress::{Event, Listener, Silent, Way};
use eco_progress::{Beginning, start};
use eco_query::Problem;
use eco_rectify::{Answer, rectify};
use eco_report::{Bound, Report};
use eco_trace::Refuter;
use finish::finished;
use heard::Heard;
use std::alloc::Global;
use turns::functions_by;

/// A patch, the implementation with it, and what is reported of it.
#[derive(Drop)]
pub struct Made {
    /// The netlist that drives the implementation's targets.
    pub patch: Netlist,
    /// The implementation with the patch in it.
    pub out: Netlist,
    /// The patch's base with its weights, the cost and the number of gates.
    pub report: Report,
}

impl Made {
    ghost use Rattle.std.specs.Prelude.{◌≡◌};
    ghost use Rattle.eco_report.specs.Reading.{with_bound};

    /// The same, with this bound in its report.
    pub fn with_bound(self, bound: Bound) -> Made
        ensures { result ≡ record { patch = self.patch; out = self.out; report = with_bound self.report bound } }
    {
        let mut made = self;
        made.report.bound = Some(bound);
        made
    }
}

/// Why no patch is made.
#[derive(Drop)]
pub enum Stop {
    /// At this input, one bit for each input of the implementation, no values of the targets are right.
    Wrong(Bits),
    /// The search gave up on a question, or memory could not be had.
    Unfinished(Unfinished),
}

impl From<Unfinished> for Stop {
    ghost use Rattle.std.specs.Prelude.{◌≡◌};
    ghost use Rattle.eco_targets.specs.declared.Stop.TheVariants as variants;

    ghost from_gives = { λ unfinished e. e ≡ variants.Unfinished unfinished };

    fn from(unfinished: Unfinished) -> Stop {
        Stop::Unfinished(unfinished)
    }
}

impl From<OutOfMemory> for Stop {
    ghost use Rattle.std.specs.Prelude.{◌≡◌};
    ghost use Rattle.eco_pose.specs.declared.unfinished.Unfinished.TheVariants as reasons;
    ghost use Rattle.eco_targets.specs.declared.Stop.TheVariants as variants;

    ghost from_gives = { λ _ e. e ≡ variants.Unfinished reasons.OutOfMemory };

    fn from(_error: OutOfMemory) -> Stop {
        Stop::Unfinished(Unfinished::OutOfMemory)
    }
}

/// A patch that rectifies the implementation, target by target; `Wrong` exactly where there is none, unless the search gave up
/// on a question of the problem after `limit` learnt clauses.
pub fn synthesise<R: Refuter>(
    alloc: Global,
    problem: &Problem,
    refuter: &mut R,
    limit: u64,
) -> Result<Made, Stop>
    requires limit { 1 ≤ limit }
    ensures made { IfOk result (λ made. IsMade problem.now made.patch made.out made.report) }
    ensures cause { IfErr result (IsCause problem.now limit) }
{
    synthesise_heard(alloc, problem, refuter, &mut Silent::new(), limit)
}

/// The same, where a listener hears of the deciding whether there is a patch, of each target and how its signals are chosen, of
/// the making of its function, of the signals that it needs, and of each question to the search.
pub fn synthesise_heard<R: Refuter, L: Listener>(
    alloc: Global,
    problem: &Problem,
    refuter: &mut R,
    listener: &mut L,
    limit: u64,
) -> Result<Made, Stop>
    requires limit { 1 ≤ limit }
    ensures made { IfOk result (λ made. IsMade problem.now made.patch made.out made.report) }
    ensures cause { IfErr result (IsCause problem.now limit) }
{
    let mut heard = Heard::new(refuter, listener);
    let Beginning { mut target, begun } = rectifiable(alloc, problem, &mut heard, limit)?;
    let functions = functions_by(&mut target, begun, Way::Greedy);
    // the engine's graph and its splice are let go before the last splice is made
    drop(target);
    match functions {
        Ok(Some(functions)) => Ok(finished(problem, functions)?),
        Ok(None) => unreachable!(),
        Err(unfinished) => Err(Stop::Unfinished(unfinished)),
    }
}

/// A patch whose bases cost little, and of each target what any base costs at least; `Wrong` exactly where there is no patch. Each
/// target gets its function with this effort: so many questions, at least 1, for a cheaper base than the greedy choice, and
/// more for the greedy choice itself. Of several targets the greedy choice is made for all too, and the cheaper patch is taken.
pub fn synthesise_least<R: Refuter, L: Listener>(
    alloc: Global,
    problem: &Problem,
    refuter: &mut R,
    listener: &mut L,
    limit: u64,
    effort: u32,
) -> Result<Made, Stop>
    requires limit { 1 ≤ limit }
    ensures made { IfOk result (λ made. IsMadeLeast problem.now made.patch made.out made.report) }
    ensures cause { IfErr result (IsCause problem.now limit) }
{
    let mut heard = Heard::new(refuter, listener);
    let Beginning { mut target, begun } = rectifiable(alloc, problem, &mut heard, limit)?;
    let made = cheapest(&mut target, begun, effort);
    drop(target);
    Ok(made?)
}

/// The first target of the problem and the progress of none, if its implementation can be rectified. The search hears that this is
/// being decided.
fn rectifiable<'a, R: Refuter + Listener>(
    alloc: Global,
    problem: &'a Problem,
    search: &'a mut R,
    limit: u64,
) -> Result<Beginning<'a, R>, Stop>
    requires limit { 1 ≤ limit }
    ensures target { IfOk result (λ beginning. IsTargetOf problem.now limit beginning.target) }
    ensures begun { IfOk result (λ beginning. IsBegun beginning.target beginning.begun) }
    ensures rectifiable { IfOk result (λ _. IsRectifiable problem.now.implementation problem.now.goal) }
    ensures cause { IfErr result (IsCause problem.now limit) }
{
    search.hear(Event::Deciding);
    let mut engine = Engine::new(alloc, problem, search, limit)?;
    match rectify(&mut engine) {
        Ok(Answer::Rectifiable) => Ok(start(engine)?),
        Ok(Answer::Wrong(input)) => {
            drop(engine);
            Err(Stop::Wrong(input))
        }
        Err(unfinished) => {
            drop(engine);
            Err(Stop::Unfinished(unfinished))
        }
    }
}
