//! What stands when the first targets have their functions, and the step to one more.

ghost use Rattle.std.specs.Prelude.{◌≡◌, [], length, IfOk, IfErr, IfSome, IsSome, OnOk, false};
ghost use Rattle.eco_meaning.specs.Meaning.{IsRectifiable};
ghost use Rattle.eco_query.specs.Problem.{HasTargetNumber};
ghost use Rattle.eco_pose.specs.Stuck.{IsUnfinished, NoneCompared};
ghost use Rattle.eco_base.specs.Targets.{IsTargetOf};
ghost use Rattle.eco_find.specs.declared.ways.Way.{Way as Ways};
ghost use Rattle.eco_find.specs.Ways.{may_end};
ghost use Rattle.eco_progress.specs.Progress.{IsProgress, IsAdvanced};
ghost use Rattle.eco_progress.specs.Extended.{IsChosenFor};
ghost use Rattle.eco_progress.specs.ByWay.{IsBaseFor, IsFoundFor, IsProgressBy};
ghost use Rattle.eco_progress.specs.Standing.{IsBegun, StandsAt};

use crate::extending::extended;
use crate::listening::Listener;
use crate::reporting::add_least;
use bumpalo::Bump;
use eco_base::Target;
use eco_desk::Engine;
use eco_find::{Found, Way, find};
use eco_functions::Functions;
use eco_meaning::OutOfMemory;
use eco_netlist::Netlist;
use eco_pose::Unfinished;
use eco_query::Problem;
use eco_report::{Least, TargetGroup};
use eco_trace::Refuter;
use std::alloc::Global;

/// The functions of the first targets, the patch in which they stand, and what is reported of each.
#[derive(Drop)]
pub struct Progress {
    pub functions: Functions,
    pub patch: Netlist,
    pub groups: Vec<TargetGroup>,
    /// What the signals of each target cost at least, if the way to choose them tells that.
    pub least: Vec<Least>,
}

/// The progress of no target, where the implementation can be rectified.
fn begin(alloc: Global, problem: &Problem) -> Result<Progress, OutOfMemory>
    requires rectifiable { IsRectifiable problem.now.implementation problem.now.goal }
    ensures progress { IfOk result (IsProgress problem.now) }
    ensures none { IfOk result (λ progress. progress.groups.items ≡ []) }
    ensures by { (way : Ways) → IfOk result (IsProgressBy way problem.now) }
{
    let f = problem.implementation();
    let functions = Functions::new(alloc, f.hasher())?;
    match functions.patch(f) {
        Ok(patch) => Ok(Progress {
            functions,
            patch,
            groups: Vec::new(alloc),
            least: Vec::new(alloc),
        }),
        Err(error) => {
            drop(functions);
            Err(error)
        }
    }
}

/// The first target of a problem, and the progress of none.
#[derive(Drop)]
pub struct Beginning<'a, R> {
    /// It is turned to the first target of its problem.
    pub target: Target<'a, R>,
    /// No target has a function.
    pub begun: Progress,
}

/// The first target of the engine's problem, whose implementation can be rectified, and the progress of none. The engine is let go
/// where memory runs out.
pub fn start<'a, R: Refuter>(engine: Engine<'a, R>) -> Result<Beginning<'a, R>, OutOfMemory>
    requires rectifiable { IsRectifiable engine.problem.implementation engine.problem.goal }
    ensures target { IfOk result (λ beginning. IsTargetOf engine.entry.problem engine.entry.limit beginning.target) }
    ensures begun { IfOk result (λ beginning. IsBegun beginning.target beginning.begun) }
{
    match begin(engine.allocator(), engine.problem()) {
        Ok(begun) => match target_of(engine, &begun) {
            Ok(target) => Ok(Beginning { target, begun }),
            Err(error) => {
                drop(begun);
                Err(error)
            }
        },
        Err(error) => {
            drop(engine);
            Err(error)
        }
    }
}

/// The progress of no target, for one run more. It turns to the first target, whatever it was turned to.
pub fn start_again<R: Refuter>(target: &mut Target<'_, R>) -> Result<Progress, OutOfMemory>
    requires rectifiable { IsRectifiable target.old.problem.implementation target.old.problem.goal }
    ensures begun { IfOk result (IsBegun target.new) }
    ensures same { IsTargetOf target.old.problem target.old.limit target.new }
{
    let problem = target.problem();
    // it has a target
    let _ = problem.implementation();
    let begun = begin(target.engine.allocator(), problem)?;
    match turn_to(target, &begun) {
        Ok(()) => Ok(begun),
        Err(error) => {
            drop(begun);
            Err(error)
        }
    }
}

/// The first target, where this is the progress of none.
fn target_of<'a, R: Refuter>(
    engine: Engine<'a, R>,
    begun: &Progress,
) -> Result<Target<'a, R>, OutOfMemory>
    requires progress { IsProgress engine.problem begun.now }
    requires none { begun.now.groups.items ≡ [] }
    ensures target { IfOk result (IsTargetOf engine.entry.problem engine.entry.limit) }
    ensures stands { IfOk result (StandsAt begun.now) }
{
    // it has a target
    let _ = engine.problem().implementation();
    let paid = begun.functions.base();
    Target::of(engine, 0, &begun.patch, paid)
}

/// The next target gets its function, the interpolant of the question by which its base was found to suffice; the base is chosen
/// in this way. `None` only if the way may end without one. It turns to that target, and stands at it if it is the first one.
pub fn advance<R: Refuter + Listener>(
    target: &mut Target<'_, R>,
    progress: Progress,
    way: Way,
) -> Result<Option<Progress>, Unfinished>
    requires progress { IsProgress target.old.problem progress }
    requires number { HasTargetNumber target.old.problem.implementation (length progress.groups.items) }
    requires first { progress.groups.items ≡ [] → StandsAt progress target.old }
    ensures advanced { IfOk result (λ more. IfSome more (IsAdvanced target.old.problem (length progress.groups.items))) }
    ensures by { IsProgressBy way target.old.problem progress → IfOk result (λ more. IfSome more (IsProgressBy way target.old.problem)) }
    ensures ends { may_end way ≡ false → IfOk result IsSome }
    ensures unfinished { IfErr result (IsUnfinished target.old.problem NoneCompared target.old.limit) }
    ensures same { IsTargetOf target.old.problem target.old.limit target.new }
{
    let arena = Bump::new(target.engine.allocator());
    match next_base(target, &progress, way, &arena) {
        Ok(Some(found)) => {
            let more = extended_by(target, progress, &found);
            drop(found);
            Ok(Some(more?))
        }
        Ok(None) => {
            drop(progress);
            Ok(None)
        }
        Err(unfinished) => {
            drop(progress);
            Err(unfinished)
        }
    }
}

/// Turns to the next target. At the first one it stands already.
fn turn_to_next<R: Refuter>(
    target: &mut Target<'_, R>,
    progress: &Progress,
) -> Result<(), OutOfMemory>
    requires progress { IsProgress target.old.problem progress.now }
    requires number { HasTargetNumber target.old.problem.implementation (length progress.now.groups.items) }
    requires first { progress.now.groups.items ≡ [] → StandsAt progress.now target.old }
    ensures stands { OnOk result (StandsAt progress.now target.new) }
    ensures same { IsTargetOf target.old.problem target.old.limit target.new }
{
    if progress.groups.is_empty() {
        return Ok(());
    }
    turn_to(target, progress)
}

/// Turns to the next target, whatever it was turned to.
fn turn_to<R: Refuter>(target: &mut Target<'_, R>, progress: &Progress) -> Result<(), OutOfMemory>
    requires progress { IsProgress target.old.problem progress.now }
    requires number { HasTargetNumber target.old.problem.implementation (length progress.now.groups.items) }
    ensures stands { OnOk result (StandsAt progress.now target.new) }
    ensures same { IsTargetOf target.old.problem target.old.limit target.new }
{
    let i = progress.groups.len() as u64;
    let paid = progress.functions.base();
    target.turn(i, &progress.patch, paid)
}

/// A base for the next target, which it turns to, chosen in this way.
fn next_base<'t, R: Refuter>(
    target: &mut Target<'_, R>,
    progress: &Progress,
    way: Way,
    arena: &'t Bump,
) -> Result<Option<Found<'t>>, Unfinished>
    requires progress { IsProgress target.old.problem progress.now }
    requires number { HasTargetNumber target.old.problem.implementation (length progress.now.groups.items) }
    requires first { progress.now.groups.items ≡ [] → StandsAt progress.now target.old }
    ensures found { IfOk result (IsFoundFor way target.old.problem progress.now) }
    ensures unfinished { IfErr result (IsUnfinished target.old.problem NoneCompared target.old.limit) }
    ensures same { IsTargetOf target.old.problem target.old.limit target.new }
{
    turn_to_next(target, progress)?;
    find(target, way, arena)
}

/// The progress with the function of the next target, for which this base was found, and with what any base costs at least, if
/// that is told.
fn extended_by<R: Refuter + Listener>(
    target: &mut Target<'_, R>,
    progress: Progress,
    found: &Found<'_>,
) -> Result<Progress, OutOfMemory>
    requires progress { IsProgress target.old.problem progress }
    requires number { HasTargetNumber target.old.problem.implementation (length progress.groups.items) }
    requires base { IsChosenFor target.old.problem progress found.now.chosen }
    ensures more { IfOk result (IsAdvanced target.old.problem (length progress.groups.items)) }
    ensures by { (way : Ways) → IsBaseFor way target.old.problem progress found.now → IsProgressBy way target.old.problem progress →
        IfOk result (IsProgressBy way target.old.problem) }
    ensures stays { target.new ≡ target.old }
{
    let mut more = extended(target, progress, &found.chosen)?;
    match add_least(more.groups.as_slice(), found.least, &mut more.least) {
        Ok(()) => Ok(more),
        Err(error) => {
            drop(more);
            Err(error)
        }
    }
}
