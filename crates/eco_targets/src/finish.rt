//! What is made of functions for all targets.

ghost use Rattle.std.specs.Prelude.{IfOk};
ghost use Rattle.eco_meaning.specs.Meaning.{IsRectifiable};
ghost use Rattle.eco_targets.specs.Complete.{IsComplete};
ghost use Rattle.eco_targets.specs.Finished.{IsFinished};

use crate::Made;
use crate::cost::cost_of;
use eco_netlist::{OutOfMemory, splice};
use eco_progress::{Progress, needed_signals_are_read};
use eco_query::Problem;
use eco_report::Report;

/// The patch in which the functions stand, with the implementation in which it stands and its report.
pub(crate) fn finished(problem: &Problem, progress: Progress) -> Result<Made, OutOfMemory>
    requires rectifiable { IsRectifiable problem.now.implementation problem.now.goal }
    requires complete { IsComplete problem.now progress }
    ensures { IfOk result (λ made. IsFinished problem.now progress made.patch made.out made.report) }
{
    needed_signals_are_read();
    let Progress {
        functions,
        patch,
        groups,
        least,
    } = progress;
    // they are functions
    let _ = functions.base();
    drop(functions);
    match splice(problem.implementation(), &patch) {
        Ok(out) => {
            let report = Report {
                cost: cost_of(groups.as_slice()),
                gates: patch.gates().len() as u64,
                groups,
                bound: None,
                least,
            };
            Ok(Made { patch, out, report })
        }
        Err(error) => {
            drop(patch);
            drop(groups);
            drop(least);
            Err(error)
        }
    }
}
