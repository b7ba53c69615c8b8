//! Target after target gets its function.

ghost use Rattle.std.specs.Prelude.{◌≡◌, ◌<◌, IfOk, IfErr, IfSome, IsSome, false};
ghost use Rattle.eco_meaning.specs.Meaning.{IsRectifiable};
ghost use Rattle.eco_pose.specs.Stuck.{IsUnfinished, NoneCompared};
ghost use Rattle.eco_base.specs.Targets.{IsTargetOf};
ghost use Rattle.eco_find.specs.Ways.{may_end};
ghost use Rattle.eco_progress.specs.ByWay.{IsProgressBy};
ghost use Rattle.eco_progress.specs.Standing.{IsBegun};
ghost use Rattle.eco_targets.specs.Complete.{IsComplete};
ghost use Rattle.eco_targets.specs.ByWay.{IsMadeBy};

use crate::Made;
use crate::finish::finished;
use eco_pose::Unfinished;
use eco_progress::{Event, Listener, Progress, Target, Way, advance, tell};
use eco_trace::Refuter;

/// The patch of an implementation that can be rectified, whose bases are chosen in this way; `None` only if the way may end without
/// one.
pub(crate) fn made_by<R: Refuter + Listener>(
    target: &mut Target<'_, R>,
    begun: Progress,
    way: Way,
) -> Result<Option<Made>, Unfinished>
    requires rectifiable { IsRectifiable target.old.problem.implementation target.old.problem.goal }
    requires begun { IsBegun target.old begun }
    ensures made { IfOk result (λ found. IfSome found (λ made. IsMadeBy way target.old.problem made.patch made.out made.report)) }
    ensures ends { may_end way ≡ false → IfOk result IsSome }
    ensures unfinished { IfErr result (IsUnfinished target.old.problem NoneCompared target.old.limit) }
    ensures same { IsTargetOf target.old.problem target.old.limit target.new }
{
    let problem = target.problem();
    match functions_by(target, begun, way)? {
        Some(progress) => Ok(Some(finished(problem, progress)?)),
        None => Ok(None),
    }
}

/// Functions for all targets, the first one first, whose bases are chosen in this way; `None` only if the way may end without one.
pub(crate) fn functions_by<R: Refuter + Listener>(
    target: &mut Target<'_, R>,
    begun: Progress,
    way: Way,
) -> Result<Option<Progress>, Unfinished>
    requires begun { IsBegun target.old begun }
    ensures complete { IfOk result (λ found. IfSome found (IsComplete target.old.problem)) }
    ensures by { IfOk result (λ found. IfSome found (IsProgressBy way target.old.problem)) }
    ensures ends { may_end way ≡ false → IfOk result IsSome }
    ensures unfinished { IfErr result (IsUnfinished target.old.problem NoneCompared target.old.limit) }
    ensures same { IsTargetOf target.old.problem target.old.limit target.new }
{
    let targets = target.problem().implementation().targets().len();
    let mut progress = begun;
    for turn in 0..targets {
        tell(target, target_event(turn, targets, way));
        match advance(target, progress, way) {
            Ok(Some(more)) => progress = more,
            Ok(None) => return Ok(None),
            Err(unfinished) => return Err(unfinished),
        }
        tell(target, base_event(&progress));
    }
    Ok(Some(progress))
}

/// That it begins with the target of this number, counted from 0, and chooses its signals in this way.
fn target_event(turn: usize, targets: usize, way: Way) -> Event
    requires { turn < targets }
{
    Event::Target {
        number: turn as u64 + 1,
        count: targets as u64,
        way,
    }
}

/// That the last target with a function needs so many signals that no target before it reads.
fn base_event(progress: &Progress) -> Event {
    let signals = match progress.groups.last() {
        Some(group) => group.base.len() as u64,
        None => 0,
    };
    Event::Base { signals }
}
