//! The function of one more target.

ghost use Rattle.std.specs.Prelude.{◌≡◌, IfOk, length};
ghost use Rattle.eco_query.specs.Problem.{HasTargetNumber};
ghost use Rattle.eco_progress.specs.Progress.{IsProgress, IsAdvanced};
ghost use Rattle.eco_progress.specs.Extended.{CanExtend, IsChosenFor, IsExtended};
ghost use Rattle.eco_progress.specs.Stepped.{IsStepped};

use crate::laws::targets_go_on;
use crate::listening::{Event, Listener};
use crate::progress::Progress;
use crate::reporting::{add_group, nets_of};
use eco_base::{Chosen, Target};
use eco_desk::Engine;
use eco_functions::{Functions, TwoParts};
use eco_meaning::OutOfMemory;
use eco_trace::Refuter;

/// The progress with the function of the next target, for which this base was chosen. What is told of the earlier targets' cost
/// stays as it is.
pub(crate) fn extended<R: Refuter + Listener>(
    target: &mut Target<'_, R>,
    progress: Progress,
    chosen: &Chosen<'_>,
) -> Result<Progress, OutOfMemory>
    requires progress { IsProgress target.old.problem progress }
    requires number { HasTargetNumber target.old.problem.implementation (length progress.groups.items) }
    requires chosen { IsChosenFor target.old.problem progress chosen.now }
    ensures more { IfOk result (λ more. IsAdvanced target.old.problem (length progress.groups.items) more
        × IsStepped target.old.problem progress chosen.now more) }
    ensures stays { target.new ≡ target.old }
{
    targets_go_on();
    let problem = target.problem();
    let Progress {
        functions,
        patch: former,
        mut groups,
        least,
    } = progress;
    drop(former);
    // they are functions
    let _ = functions.base();
    let functions = match one_more(target, functions, chosen) {
        Ok(functions) => functions,
        Err(error) => {
            drop(groups);
            drop(least);
            return Err(error);
        }
    };
    let _ = functions.base();
    let patch = match functions.patch(problem.implementation()) {
        Ok(patch) => patch,
        Err(error) => {
            drop(functions);
            drop(groups);
            drop(least);
            return Err(error);
        }
    };
    match add_group(problem, chosen.new.as_slice(), &mut groups) {
        Ok(()) => Ok(Progress {
            functions,
            patch,
            groups,
            least,
        }),
        Err(error) => {
            drop(functions);
            drop(patch);
            drop(groups);
            drop(least);
            Err(error)
        }
    }
}

/// The functions with that of one more target, the interpolant of the refutation for its base.
fn one_more<R: Refuter + Listener>(
    target: &mut Target<'_, R>,
    functions: Functions,
    chosen: &Chosen<'_>,
) -> Result<Functions, OutOfMemory>
    requires chosen { CanExtend functions chosen.now }
    ensures functions { IfOk result (IsExtended functions chosen.now) }
    ensures stays { target.new ≡ target.old }
{
    with_function(&mut target.engine, functions, chosen)
}

/// The same, with the search of the engine.
fn with_function<R: Refuter + Listener>(
    engine: &mut Engine<'_, R>,
    functions: Functions,
    chosen: &Chosen<'_>,
) -> Result<Functions, OutOfMemory>
    requires chosen { CanExtend functions chosen.now }
    ensures functions { IfOk result (IsExtended functions chosen.now) }
    ensures stays { engine.new ≡ engine.old }
{
    engine.search.hear(Event::Function);
    let limit = engine.limit();
    match nets_of(engine.allocator(), chosen.new.as_slice()) {
        Ok(nets) => {
            let two = TwoParts {
                trace: &chosen.trace,
                side: chosen.posed.side(),
                shared: chosen.posed.shared(),
            };
            functions.with_target(nets.as_slice(), &two, engine.search, limit)
        }
        Err(error) => {
            drop(functions);
            Err(error)
        }
    }
}
