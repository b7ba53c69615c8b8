//! The first reported signal that isn't as it is to be.

ghost use Rattle.std.specs.Prelude.{◌≡◌, ◌↔◌, IsTrue, IfOk, MatchOption, All, Some};
ghost use Rattle.eco_meaning.specs.Circuit.{IsSignal};
ghost use Rattle.eco_meaning.specs.Cost.{IsCandidate, weight_of};
ghost use Rattle.eco_meaning.specs.Patch.{OfTarget};
ghost use Rattle.eco_meaning.specs.Report.{PatchReport};
ghost use Rattle.eco_query.specs.Problem.{HasTargetNumber};
ghost use Rattle.eco_audit.specs.Reported.{IsSaidOfAll, IsFirstWrong, IsFirstWrongOf};
ghost use Rattle.eco_audit.specs.Checks.{AtGroup, CanBeChecked, IsCheckable, says};

use crate::reaching::is_in_time;
use eco_meaning::{Name, OutOfMemory};
use eco_netlist::Netlist;
use eco_query::Problem;
use eco_report::{BaseSignal, Report};

/// What is checked of a reported signal.
#[derive(Clone, Copy)]
pub(crate) enum Check {
    /// It is a candidate of the target that tells it.
    Candidate,
    /// It has the reported weight.
    Weight,
    /// The targets whose functions depend on it may read it.
    Reach,
}

/// The name of the first reported signal that doesn't pass the check.
pub(crate) fn first_wrong(
    problem: &Problem,
    patch: &Netlist,
    report: &Report,
    check: Check,
) -> Result<Option<Name>, OutOfMemory>
    requires { CanBeChecked problem.now patch.now report.now check }
    ensures { IfOk result (λ found. MatchOption found (IsSaidOfAll (says check problem.now patch.now) report.now.groups)
        (IsFirstWrong (says check problem.now patch.now) report.now.groups)) }
{
    let groups = report.groups.as_slice();
    for (number, group) in groups.iter().enumerate() {
        let base = group.base.as_slice();
        let found = first_wrong_of(problem, patch, check, number, base)?;
        if let Some(name) = found {
            return Ok(Some(name));
        }
    }
    Ok(None)
}

/// The same of the signals that the group of this number tells.
fn first_wrong_of(
    problem: &Problem,
    patch: &Netlist,
    check: Check,
    number: usize,
    base: &[BaseSignal],
) -> Result<Option<Name>, OutOfMemory>
    requires { All (IsCheckable problem.now patch.now check number) base.now }
    ensures { IfOk result (λ found. (report : PatchReport) → CanBeChecked problem.now patch.now report check →
        AtGroup report number (λ before group. MatchOption found
        (All (says check problem.now patch.now before group) base.now)
        (IsFirstWrongOf (says check problem.now patch.now before group) base.now))) }
{
    for reported in base {
        let passed = passes(problem, patch, check, number, reported)?;
        if !passed {
            return Ok(Some(reported.signal.copy()?));
        }
    }
    Ok(None)
}

/// Whether a signal that the group of this number tells passes the check.
fn passes(
    problem: &Problem,
    patch: &Netlist,
    check: Check,
    number: usize,
    reported: &BaseSignal,
) -> Result<bool, OutOfMemory>
    requires { IsCheckable problem.now patch.now check number reported.now }
    ensures { IfOk result (λ passed. (report : PatchReport) → CanBeChecked problem.now patch.now report check →
        AtGroup report number (λ before group. IsTrue passed ↔ says check problem.now patch.now before group reported.now)) }
{
    match check {
        Check::Candidate => Ok(is_candidate(problem, number, &reported.signal)),
        Check::Weight => Ok(has_weight(problem, reported)),
        Check::Reach => is_in_time(problem, patch, &reported.signal),
    }
}

/// Whether the name is that of a candidate of the target of this number.
fn is_candidate(problem: &Problem, number: usize, name: &Name) -> bool
    requires { HasTargetNumber problem.now.implementation number }
    ensures { OfTarget problem.now.implementation number (λ earlier target. IsTrue result ↔ IsCandidate problem.now.implementation
        problem.now.weights problem.now.input_weight earlier name.now) }
{
    let f = problem.implementation();
    // it is checked
    let _ = f.nets();
    match f.net_of(name) {
        None => false,
        Some(net) => problem.candidate(number as u64, net),
    }
}

/// Whether the signal has the reported weight.
fn has_weight(problem: &Problem, reported: &BaseSignal) -> bool
    requires { IsSignal problem.now.implementation reported.now.signal }
    ensures { IsTrue result ↔ (weight_of problem.now.implementation problem.now.weights problem.now.input_weight reported.now.signal
        ≡ Some reported.now.weight) }
{
    let f = problem.implementation();
    // it is checked
    let _ = f.nets();
    match f.net_of(&reported.signal) {
        None => false,
        Some(net) => is_weight(problem.weight(net), reported.weight),
    }
}

/// Whether the weight is this one.
fn is_weight(weight: Option<u32>, reported: u32) -> bool
    ensures { IsTrue result ↔ (weight ≡ Some reported) }
{
    match weight {
        None => false,
        Some(weight) => weight == reported,
    }
}
