//! The cheaper one of two runs.

ghost use Rattle.std.specs.Prelude.{◌≡◌, ◌⊎◌, IfOk, IfErr, IfSome, IsTrue, false};
ghost use Rattle.eco_meaning.specs.Meaning.{IsRectifiable};
ghost use Rattle.eco_pose.specs.declared.unfinished.Unfinished.TheVariants as reasons;
ghost use Rattle.eco_pose.specs.Stuck.{IsUnfinished, NoneCompared};
ghost use Rattle.eco_progress.specs.Standing.{IsBegun};
ghost use Rattle.eco_targets.specs.Made.{IsMadeLeast, IsNoDearer};

use crate::Made;
use crate::turns::made_by;
use eco_pose::{Stuck, Unfinished};
use eco_progress::{Listener, Progress, Target, Way, start_again};
use eco_report::Report;
use eco_trace::Refuter;

/// The patch of an implementation that can be rectified, from the run with bases of little cost. Of several targets the greedy
/// choice is made for all too, and the cheaper patch is taken; where a question of the first run is given up, it is that of the greedy
/// choices, if these are found.
pub(crate) fn cheapest<R: Refuter + Listener>(
    target: &mut Target<'_, R>,
    begun: Progress,
    effort: u32,
) -> Result<Made, Unfinished>
    requires rectifiable { IsRectifiable target.old.problem.implementation target.old.problem.goal }
    requires begun { IsBegun target.old begun }
    ensures made { IfOk result (λ made. IsMadeLeast target.old.problem made.patch made.out made.report) }
    ensures unfinished { IfErr result (IsUnfinished target.old.problem NoneCompared target.old.limit) }
{
    match made_by(target, begun, Way::Light(effort)) {
        Ok(Some(made)) => Ok(made_beside(target, made, effort)),
        Ok(None) => unreachable!(),
        Err(Unfinished::GivenUp(stuck)) => made_instead(target, stuck, effort),
        Err(Unfinished::OutOfMemory) => Err(Unfinished::OutOfMemory),
    }
}

/// The cheaper one of this and what the run with the greedy choices makes, if it comes to its end.
fn made_beside<R: Refuter + Listener>(target: &mut Target<'_, R>, made: Made, effort: u32) -> Made
    requires rectifiable { IsRectifiable target.old.problem.implementation target.old.problem.goal }
    requires made { IsMadeLeast target.old.problem made.patch made.out made.report }
    ensures made { IsMadeLeast target.old.problem result.patch result.out result.report }
    ensures no_dearer { IsNoDearer result.report made.report }
{
    let beside = greedy_run(target, effort);
    cheaper_of(made, beside)
}

/// The cheaper one of the two, if there is a second.
fn cheaper_of(made: Made, beside: Option<Made>) -> Made
    ensures either { (result ≡ made) ⊎ (beside ≡ Some result) }
    ensures first { IsNoDearer result.report made.report }
    ensures second { IfSome beside (λ second. IsNoDearer result.report second.report) }
{
    match beside {
        Some(second) => cheaper(made, second),
        None => made,
    }
}

/// What the run with the greedy choices makes, if it comes to its end, in place of the run that gave up on this question.
fn made_instead<R: Refuter + Listener>(
    target: &mut Target<'_, R>,
    stuck: Box<Stuck>,
    effort: u32,
) -> Result<Made, Unfinished>
    requires rectifiable { IsRectifiable target.old.problem.implementation target.old.problem.goal }
    requires stuck { IsUnfinished target.old.problem NoneCompared target.old.limit (reasons.GivenUp stuck) }
    ensures made { IfOk result (λ made. IsMadeLeast target.old.problem made.patch made.out made.report) }
    ensures given_up { IfErr result (λ error. error ≡ reasons.GivenUp stuck) }
{
    match greedy_run(target, effort) {
        Some(made) => {
            drop(stuck);
            Ok(made)
        }
        None => Err(Unfinished::GivenUp(stuck)),
    }
}

/// What the run with the greedy choices makes, if there are several targets; `None` if it doesn't come to its end: one isn't found
/// within the effort, a question is given up, or memory runs out. What the other run came to stands then.
fn greedy_run<R: Refuter + Listener>(target: &mut Target<'_, R>, effort: u32) -> Option<Made>
    requires rectifiable { IsRectifiable target.old.problem.implementation target.old.problem.goal }
    ensures made { IfSome result (λ made. IsMadeLeast target.old.problem made.patch made.out made.report) }
{
    if target.problem().implementation().targets().len() <= 1 {
        return None;
    }
    let begun = match start_again(target) {
        Ok(begun) => begun,
        Err(_) => return None,
    };
    match made_by(target, begun, Way::Within(effort)) {
        Ok(found) => found,
        Err(error) => {
            drop(error);
            None
        }
    }
}

/// The one whose patch costs less, or has fewer gates where both cost the same; the first one where these are equal too.
fn cheaper(first: Made, second: Made) -> Made
    ensures either { (result ≡ first) ⊎ (result ≡ second) }
    ensures first { IsNoDearer result.report first.report }
    ensures second { IsNoDearer result.report second.report }
{
    if is_cheaper(&second.report, &first.report) {
        drop(first);
        second
    } else {
        drop(second);
        first
    }
}

/// Whether the patch of the first report costs less, or has fewer gates where both cost the same.
fn is_cheaper(one: &Report, other: &Report) -> bool
    ensures cheaper { IsTrue result → IsNoDearer one.now other.now }
    ensures dearer { result ≡ false → IsNoDearer other.now one.now }
{
    if one.cost == other.cost {
        one.gates < other.gates
    } else {
        one.cost < other.cost
    }
}
