//! The audit.

ghost use Rattle.std.specs.Prelude.{◌≤◌, IfOk, IfErr};
ghost use Rattle.eco_query.specs.Problem.{IsClosed};
ghost use Rattle.eco_audit.specs.Files.{IsLeftOpen, IsRuling};
ghost use Rattle.eco_audit.specs.Judging.{HoldsUpTo, IsFoundUpTo, IsLeftOpenHere, IsRulingHere};
ghost use Rattle.eco_audit.specs.Rows.{rows_of_bound};

use crate::bounding::bound_finding;
use crate::comparing::{Outputs, outputs_of};
use crate::finding::Finding;
use crate::judging::need_finding;
use crate::making::made_finding;
use crate::reporting::report_finding;
use crate::ruling::Ruling;
use crate::solution::Solution;
use eco_meaning::OutOfMemory;
use eco_netlist::Netlist;
use eco_pose::Unfinished;
use eco_query::Problem;
use eco_report::ReportFile;
use eco_trace::Refuter;
use std::alloc::Global;

/// Whether the report, the patch and the patched netlist solve the problem. Of the findings the first that stands is reported.
/// Where none of the others does, the patched netlist is compared with the specification, with at most `limit` learnt clauses.
/// The questions whether reported signals are needed, and whether the inputs of a bound's parts force the target, are searched to
/// their end. It fails where nothing stands against them but the search gives up on that comparison, so that it isn't known whether
/// the outputs are right, and where memory runs out.
pub fn audit<R: Refuter>(
    alloc: Global,
    problem: &Problem,
    patch: &Netlist,
    out: &Netlist,
    report: &ReportFile,
    refuter: &mut R,
    limit: u64,
) -> Result<Ruling, Unfinished>
    requires patch_closed { IsClosed patch.now }
    requires out_closed { IsClosed out.now }
    requires limit { 1 ≤ limit }
    ensures ruling { IfOk result (IsRuling problem.now patch.now out.now report.now) }
    ensures unfinished { IfErr result (IsLeftOpen problem.now patch.now out.now report.now limit) }
{
    match report {
        ReportFile::Patched(report) => {
            let solution = Solution {
                alloc,
                problem,
                patch,
                out,
                report,
            };
            audit_patched(&solution, refuter, limit)
        }
        ReportFile::Unrectifiable(_) => Ok(Ruling::Fails(Finding::NotPatched)),
        ReportFile::Budget { .. } => Ok(Ruling::Fails(Finding::NotPatched)),
    }
}

/// The same of a report that tells a patch.
fn audit_patched<R: Refuter>(
    solution: &Solution<'_>,
    refuter: &mut R,
    limit: u64,
) -> Result<Ruling, Unfinished>
    requires patch_closed { IsClosed solution.now.patch.now }
    requires out_closed { IsClosed solution.now.out.now }
    requires limit { 1 ≤ limit }
    ensures ruling { IfOk result (IsRulingHere solution.now) }
    ensures unfinished { IfErr result (IsLeftOpenHere limit solution.now) }
{
    let found = first_found(solution, refuter)?;
    match found {
        Some(finding) => Ok(Ruling::Fails(finding)),
        None => ruled_by_outputs(solution, refuter, limit),
    }
}

/// The first finding, but for that of outputs: of the checks, made one after the other, the first that finds something has it.
fn first_found<R: Refuter>(
    solution: &Solution<'_>,
    refuter: &mut R,
) -> Result<Option<Finding>, OutOfMemory>
    requires { IsClosed solution.now.patch.now }
    ensures { IfOk result (IsFoundUpTo rows_of_bound solution.now) }
{
    if let Some(finding) = report_finding(solution)? {
        return Ok(Some(finding));
    }
    if let Some(finding) = made_finding(solution)? {
        return Ok(Some(finding));
    }
    if let Some(finding) = need_finding(solution, refuter)? {
        return Ok(Some(finding));
    }
    bound_finding(solution, refuter)
}

/// What is ruled where nothing else stands than perhaps that outputs are others.
fn ruled_by_outputs<R: Refuter>(
    solution: &Solution<'_>,
    refuter: &mut R,
    limit: u64,
) -> Result<Ruling, Unfinished>
    requires patch_closed { IsClosed solution.now.patch.now }
    requires out_closed { IsClosed solution.now.out.now }
    requires limit { 1 ≤ limit }
    requires before { HoldsUpTo rows_of_bound solution.now }
    ensures ruling { IfOk result (IsRulingHere solution.now) }
    ensures unfinished { IfErr result (IsLeftOpenHere limit solution.now) }
{
    // both are checked
    let _ = (solution.patch.nets(), solution.out.nets());
    let outputs = outputs_of(
        solution.alloc,
        solution.problem,
        solution.out,
        refuter,
        limit,
    )?;
    match outputs {
        Outputs::Same => Ok(Ruling::Sound),
        Outputs::Differ(input) => Ok(Ruling::Fails(Finding::Differs(input))),
    }
}
