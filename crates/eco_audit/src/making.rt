//! The patch and the patched netlist, held against the problem and the report.

ghost use Rattle.std.specs.Prelude.{◌≡◌, ◌↔◌, ◌+◌, [], IsTrue, IfOk};
ghost use Rattle.eco_meaning.specs.Patch.{Fits, splice_of};
ghost use Rattle.eco_query.specs.Problem.{IsClosed};
ghost use Rattle.eco_audit.specs.Judging.{HoldsUpTo, IsFoundUpTo};
ghost use Rattle.eco_audit.specs.Rows.{rows_of_fit, rows_of_report, rows_of_splice};

use crate::checking::{Check, first_wrong};
use crate::finding::Finding;
use crate::solution::Solution;
use eco_meaning::OutOfMemory;
use eco_netlist::{Netlist, least_taken, misfit, splice};
use eco_query::Problem;

/// The first finding of how the patch stands in the implementation: of its wires, what its functions read, and the patched
/// netlist. None if these are right.
pub(crate) fn made_finding(solution: &Solution<'_>) -> Result<Option<Finding>, OutOfMemory>
    requires closed { IsClosed solution.now.patch.now }
    requires before { HoldsUpTo rows_of_report solution.now }
    ensures { IfOk result (IsFoundUpTo rows_of_splice solution.now) }
{
    let found = patch_finding(solution)?;
    match found {
        Some(finding) => Ok(Some(finding)),
        None => splice_finding(solution),
    }
}

/// Whether the patched netlist is the implementation with the patch in it.
fn splice_finding(solution: &Solution<'_>) -> Result<Option<Finding>, OutOfMemory>
    requires closed { IsClosed solution.now.patch.now }
    requires before { HoldsUpTo rows_of_fit solution.now }
    ensures { IfOk result (IsFoundUpTo rows_of_splice solution.now) }
{
    // it is checked
    let _ = solution.patch.nets();
    let is_splice = is_splice(solution.problem, solution.patch, solution.out)?;
    if is_splice {
        Ok(None)
    } else {
        Ok(Some(Finding::Splice))
    }
}

/// Whether the netlist is the implementation with the patch in it.
fn is_splice(problem: &Problem, patch: &Netlist, out: &Netlist) -> Result<bool, OutOfMemory>
    requires { Fits problem.now.implementation patch.now [] }
    ensures { IfOk result (λ is_splice. IsTrue is_splice ↔ (out.now ≡ splice_of problem.now.implementation patch.now)) }
{
    let spliced = splice(problem.implementation(), patch)?;
    let is_same = out.same(&spliced);
    drop(spliced);
    Ok(is_same)
}

/// The first finding of the patch's wires and of what its functions read. None where it fits.
fn patch_finding(solution: &Solution<'_>) -> Result<Option<Finding>, OutOfMemory>
    requires { HoldsUpTo rows_of_report solution.now }
    ensures { IfOk result (IsFoundUpTo rows_of_fit solution.now) }
{
    let f = solution.problem.implementation();
    let fits = fits(f, solution.patch)?;
    if fits {
        return Ok(None);
    }
    match least_taken(f, solution.patch) {
        Some(name) => Ok(Some(Finding::Inner(name.copy()?))),
        None => reach_finding(solution),
    }
}

/// Whether the patch fits.
fn fits(f: &Netlist, patch: &Netlist) -> Result<bool, OutOfMemory>
    ensures { IfOk result (λ fits. IsTrue fits → Fits f.now patch.now []) }
{
    match misfit(f, patch)? {
        None => Ok(true),
        Some(_reason) => Ok(false),
    }
}

/// The first reported signal that a function reads too early.
fn reach_finding(solution: &Solution<'_>) -> Result<Option<Finding>, OutOfMemory>
    requires { HoldsUpTo (rows_of_report + 1) solution.now }
    ensures { IfOk result (IsFoundUpTo rows_of_fit solution.now) }
{
    let early = first_wrong(
        solution.problem,
        solution.patch,
        solution.report,
        Check::Reach,
    )?;
    match early {
        Some(name) => Ok(Some(Finding::Reach(name))),
        None => Ok(None),
    }
}
