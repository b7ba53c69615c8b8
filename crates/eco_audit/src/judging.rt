//! Whether reported signals are needed.

ghost use Rattle.std.specs.Prelude.{◌≡◌, ◌↔◌, ◌<◌, true, false, IsTrue, IfOk, MatchOption, All, length, map};
ghost use Rattle.eco_netlist.specs.Netlists.{bit_of};
ghost use Rattle.eco_meaning.specs.Circuit.{names};
ghost use Rattle.eco_query.specs.Problem.{IsClosed};
ghost use Rattle.eco_audit.specs.Reported.{IsSaidOfAll, IsFirstWrong, IsFirstWrongOf};
ghost use Rattle.eco_audit.specs.Rows.{rows_of_needs, rows_of_splice};
ghost use Rattle.eco_audit.specs.Judging.{AgreeOnOthers, AgreeUnless, AreBitsOf, AreFilled, AtGroupOf, HoldsUpTo, IsFoundUpTo, IsForcedHere, IsJudged, ShowNeed, needs};

use crate::filling::{value_of, values_at};
use crate::finding::Finding;
use crate::forcing::is_forced;
use crate::naming::{is_same_name, reported_base};
use crate::solution::Solution;
use eco_meaning::{Bits, Name, OutOfMemory};
use eco_netlist::Netlist;
use eco_report::BaseSignal;
use eco_trace::Refuter;

/// The first reported signal that its two inputs don't show to be needed, as a finding. Each input costs one question, which is
/// searched to its end.
pub(crate) fn need_finding<R: Refuter>(
    solution: &Solution<'_>,
    refuter: &mut R,
) -> Result<Option<Finding>, OutOfMemory>
    requires closed { IsClosed solution.now.patch.now }
    requires before { HoldsUpTo rows_of_splice solution.now }
    ensures { IfOk result (IsFoundUpTo rows_of_needs solution.now) }
{
    // all three are checked
    let _ = (
        solution.problem.implementation().nets(),
        solution.patch.nets(),
        solution.out.nets(),
    );
    let found = first_unneeded(solution, refuter)?;
    match found {
        Some(name) => Ok(Some(Finding::Need(name))),
        None => Ok(None),
    }
}

/// The name of the first reported signal that isn't shown to be needed.
fn first_unneeded<R: Refuter>(
    solution: &Solution<'_>,
    refuter: &mut R,
) -> Result<Option<Name>, OutOfMemory>
    requires { IsJudged solution.now }
    ensures { IfOk result (λ found. MatchOption found (IsSaidOfAll (needs solution.now) solution.now.report.now.groups)
        (IsFirstWrong (needs solution.now) solution.now.report.now.groups)) }
{
    let report = solution.report;
    let groups = report.groups.as_slice();
    for (number, group) in groups.iter().enumerate() {
        let base = group.base.as_slice();
        let found = first_unneeded_of(solution, refuter, number, base)?;
        if let Some(name) = found {
            return Ok(Some(name));
        }
    }
    Ok(None)
}

/// The same of the signals that the group of this number tells.
fn first_unneeded_of<R: Refuter>(
    solution: &Solution<'_>,
    refuter: &mut R,
    number: usize,
    base: &[BaseSignal],
) -> Result<Option<Name>, OutOfMemory>
    requires judged { IsJudged solution.now }
    requires number { number < length solution.now.report.now.groups }
    requires base { AtGroupOf solution.now number (λ before group. group.base ≡ base.now) }
    ensures { IfOk result (λ found. AtGroupOf solution.now number (λ before group. MatchOption found
        (All (needs solution.now before group) base.now)
        (IsFirstWrongOf (needs solution.now before group) base.now))) }
{
    for reported in base {
        let needed = is_needed(solution, refuter, number, reported)?;
        if !needed {
            return Ok(Some(reported.signal.copy()?));
        }
    }
    Ok(None)
}

/// Whether the two inputs of the signal, which the group of this number tells, show that it is needed.
fn is_needed<R: Refuter>(
    solution: &Solution<'_>,
    refuter: &mut R,
    number: usize,
    reported: &BaseSignal,
) -> Result<bool, OutOfMemory>
    requires judged { IsJudged solution.now }
    requires number { number < length solution.now.report.now.groups }
    ensures { IfOk result (λ needed. AtGroupOf solution.now number (λ before group.
        IsTrue needed ↔ needs solution.now before group reported.now)) }
{
    let inputs = solution.problem.implementation().inputs().len();
    if reported.force1.as_slice().len() != inputs {
        return Ok(false);
    }
    if reported.force0.as_slice().len() != inputs {
        return Ok(false);
    }
    shows_need(
        solution,
        refuter,
        number,
        &reported.signal,
        &reported.force1,
        &reported.force0,
    )
}

/// Whether two inputs of the right length show that the signal of this name is needed for the group of this number.
fn shows_need<R: Refuter>(
    solution: &Solution<'_>,
    refuter: &mut R,
    number: usize,
    name: &Name,
    force1: &Bits,
    force0: &Bits,
) -> Result<bool, OutOfMemory>
    requires judged { IsJudged solution.now }
    requires number { number < length solution.now.report.now.groups }
    requires force1 { length force1.now ≡ length solution.now.problem.now.implementation.inputs }
    requires force0 { length force0.now ≡ length solution.now.problem.now.implementation.inputs }
    ensures { IfOk result (λ needed. AtGroupOf solution.now number (λ before group.
        IsTrue needed ↔ ShowNeed solution.now name.now force1.now force0.now before group)) }
{
    let report = solution.report;
    let groups = report.groups.as_slice();
    let base = reported_base(solution.alloc, &groups[..number + 1])?;
    let ones = values_at(solution, force1)?;
    let zeros = values_at(solution, force0)?;
    let alike = are_alike(
        solution.out,
        base.as_slice(),
        name,
        ones.as_slice(),
        zeros.as_slice(),
    );
    if alike {
        are_forced(
            solution,
            refuter,
            number,
            force1,
            ones.as_slice(),
            force0,
            zeros.as_slice(),
        )
    } else {
        Ok(false)
    }
}

/// Whether the first input forces the target of the group of this number to 1, and the second to 0. The values are those of all
/// nets at these inputs.
pub(crate) fn are_forced<R: Refuter>(
    solution: &Solution<'_>,
    refuter: &mut R,
    number: usize,
    force1: &Bits,
    ones: &[bool],
    force0: &Bits,
    zeros: &[bool],
) -> Result<bool, OutOfMemory>
    requires judged { IsJudged solution.now }
    requires number { number < length solution.now.report.now.groups }
    requires force1 { length force1.now ≡ length solution.now.problem.now.implementation.inputs }
    requires force0 { length force0.now ≡ length solution.now.problem.now.implementation.inputs }
    requires ones { AreFilled solution.now force1.now ones.now }
    requires zeros { AreFilled solution.now force0.now zeros.now }
    ensures { IfOk result (λ forced. AtGroupOf solution.now number (λ before group. IsTrue forced ↔
        (IsForcedHere solution.now force1.now true before group × IsForcedHere solution.now force0.now false before group))) }
{
    if is_forced(solution, refuter, number, force1, true, ones)? {
        is_forced(solution, refuter, number, force0, false, zeros)
    } else {
        Ok(false)
    }
}

/// Whether the signals but the one of this name have equal values in both.
fn are_alike(
    out: &Netlist,
    base: &[&BaseSignal],
    name: &Name,
    ones: &[bool],
    zeros: &[bool],
) -> bool
    requires ones { AreBitsOf out.now ones.now }
    requires zeros { AreBitsOf out.now zeros.now }
    ensures { IsTrue result ↔ AgreeOnOthers (map (λ b. b.now.signal) base.now) name.now
        (bit_of (names out.now) ones.now) (bit_of (names out.now) zeros.now) }
{
    for reported in base {
        let reported: &BaseSignal = reported;
        if !is_alike(out, &reported.signal, name, ones, zeros) {
            return false;
        }
    }
    true
}

/// Whether the signal has equal values in both, or is the one of this name.
fn is_alike(out: &Netlist, other: &Name, name: &Name, ones: &[bool], zeros: &[bool]) -> bool
    requires ones { AreBitsOf out.now ones.now }
    requires zeros { AreBitsOf out.now zeros.now }
    ensures { IsTrue result ↔ AgreeUnless name.now (bit_of (names out.now) ones.now) (bit_of (names out.now) zeros.now) other.now }
{
    if is_same_name(other, name) {
        return true;
    }
    value_of(out, other, ones) == value_of(out, other, zeros)
}
