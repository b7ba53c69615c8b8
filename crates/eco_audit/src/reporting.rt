//! What a report tells, held against the problem and the patch.

ghost use Rattle.std.specs.Prelude.{◌≡◌, ◌↔◌, IsTrue, IfOk, map};
ghost use Rattle.eco_meaning.specs.Report.{base_in, cost_of};
ghost use Rattle.eco_audit.specs.Judging.{HoldsUpTo, IsFoundUpTo};
ghost use Rattle.eco_audit.specs.Rows.{rows_of_report};

use crate::checking::{Check, first_wrong};
use crate::finding::Finding;
use crate::naming::{are_targets, has_reported_ports, reported_base};
use crate::solution::Solution;
use eco_meaning::OutOfMemory;
use eco_report::BaseSignal;

/// The first finding of what the report tells: of its targets, the ports, candidates, weights, the cost and the gates. None
/// where all of these are right.
pub(crate) fn report_finding(solution: &Solution<'_>) -> Result<Option<Finding>, OutOfMemory>
    ensures { IfOk result (IsFoundUpTo rows_of_report solution.now) }
{
    let report = solution.report;
    let groups = report.groups.as_slice();
    if !are_targets(solution.problem.implementation(), groups) {
        return Ok(Some(Finding::Targets));
    }
    let base = reported_base(solution.alloc, groups)?;
    if !has_reported_ports(solution.patch, report, base.as_slice()) {
        return Ok(Some(Finding::Ports));
    }
    let found = signal_finding(solution)?;
    match found {
        Some(finding) => Ok(Some(finding)),
        None => Ok(number_finding(solution, base.as_slice())),
    }
}

/// The first finding of the reported signals: of candidates and weights.
fn signal_finding(solution: &Solution<'_>) -> Result<Option<Finding>, OutOfMemory>
    requires { HoldsUpTo 3 solution.now }
    ensures { IfOk result (IsFoundUpTo 5 solution.now) }
{
    let (problem, patch, report) = (solution.problem, solution.patch, solution.report);
    let other = first_wrong(problem, patch, report, Check::Candidate)?;
    if let Some(name) = other {
        return Ok(Some(Finding::Candidate(name)));
    }
    let heavy = first_wrong(problem, patch, report, Check::Weight)?;
    match heavy {
        Some(name) => Ok(Some(Finding::Weight(name))),
        None => Ok(None),
    }
}

/// The first finding of the reported numbers: of the cost and the gates.
fn number_finding(solution: &Solution<'_>, base: &[&BaseSignal]) -> Option<Finding>
    requires base { map (λ b. b.now) base.now ≡ base_in solution.now.report.now.groups }
    requires before { HoldsUpTo 5 solution.now }
    ensures { IsFoundUpTo rows_of_report solution.now result }
{
    let report = solution.report;
    if !is_cost(report.cost, base) {
        return Some(Finding::Cost);
    }
    if report.gates != solution.patch.gates().len() as u64 {
        return Some(Finding::Gates);
    }
    None
}

/// Whether the cost is the sum of the reported weights.
fn is_cost(cost: u64, base: &[&BaseSignal]) -> bool
    ensures { IsTrue result ↔ (cost ≡ cost_of (map (λ b. b.now) base.now)) }
{
    let mut left = cost;
    for reported in base {
        let reported: &BaseSignal = reported;
        let weight = u64::from(reported.weight);
        if weight > left {
            return false;
        }
        left -= weight;
    }
    left == 0
}
