//! Whether what the report says that a base costs at least is such a bound.

ghost use Rattle.std.specs.Prelude.{◌≡◌, ◌↔◌, ◌<◌, IsTrue, IfOk, IfSome, All, length};
ghost use Rattle.eco_meaning.specs.Bound.{amount_of};
ghost use Rattle.eco_query.specs.Problem.{IsClosed};
ghost use Rattle.eco_audit.specs.Bounds.{HasInputs, IsBoundHere, IsForcedPartHere};
ghost use Rattle.eco_audit.specs.Judging.{AtGroupOf, HoldsUpTo, IsFoundUpTo, IsJudged};
ghost use Rattle.eco_audit.specs.Rows.{rows_of_bound, rows_of_needs};

use crate::carrying::are_carried;
use crate::filling::values_at;
use crate::finding::Finding;
use crate::judging::are_forced;
use crate::solution::Solution;
use eco_meaning::OutOfMemory;
use eco_report::{Bound, Part};
use eco_trace::Refuter;

/// The finding that what the report says that a base costs at least is no such bound; None where it is one, and where the report
/// says nothing of it. Each part costs two questions, which are searched to their end.
pub(crate) fn bound_finding<R: Refuter>(
    solution: &Solution<'_>,
    refuter: &mut R,
) -> Result<Option<Finding>, OutOfMemory>
    requires closed { IsClosed solution.now.patch.now }
    requires before { HoldsUpTo rows_of_needs solution.now }
    ensures { IfOk result (IsFoundUpTo rows_of_bound solution.now) }
{
    // all three are checked
    let _ = (
        solution.problem.implementation().nets(),
        solution.patch.nets(),
        solution.out.nets(),
    );
    let holds = told_bound_holds(solution, refuter)?;
    if holds {
        Ok(None)
    } else {
        Ok(Some(Finding::Bound))
    }
}

/// Whether the bound that the report tells is one; true where it tells none.
fn told_bound_holds<R: Refuter>(
    solution: &Solution<'_>,
    refuter: &mut R,
) -> Result<bool, OutOfMemory>
    requires { IsJudged solution.now }
    ensures { IfOk result (λ holds. IsTrue holds ↔ IfSome solution.now.report.now.bound (IsBoundHere solution.now)) }
{
    let report = solution.report;
    match &report.bound {
        None => Ok(true),
        Some(bound) => is_bound(solution, refuter, bound),
    }
}

/// Whether this is a bound of what a base costs.
fn is_bound<R: Refuter>(
    solution: &Solution<'_>,
    refuter: &mut R,
    bound: &Bound,
) -> Result<bool, OutOfMemory>
    requires { IsJudged solution.now }
    ensures { IfOk result (λ holds. IsTrue holds ↔ IsBoundHere solution.now bound.now) }
{
    let report = solution.report;
    let parts = bound.parts.as_slice();
    if report.groups.len() != 1 {
        return Ok(false);
    }
    if !is_total(bound.total, parts) {
        return Ok(false);
    }
    if !are_forced_parts(solution, refuter, parts)? {
        return Ok(false);
    }
    are_carried(solution, parts)
}

/// Whether the total is the sum of the parts' amounts.
fn is_total(total: u64, parts: &[Part]) -> bool
    ensures { IsTrue result ↔ (total ≡ amount_of parts.now) }
{
    let mut left = total;
    for part in parts {
        let amount = u64::from(part.amount);
        if amount > left {
            return false;
        }
        left -= amount;
    }
    left == 0
}

/// Whether the inputs of each part force the first target to 1 and to 0.
fn are_forced_parts<R: Refuter>(
    solution: &Solution<'_>,
    refuter: &mut R,
    parts: &[Part],
) -> Result<bool, OutOfMemory>
    requires judged { IsJudged solution.now }
    requires some { 0 < length solution.now.report.now.groups }
    ensures { IfOk result (λ forced. AtGroupOf solution.now 0 (λ before group.
        IsTrue forced ↔ All (IsForcedPartHere solution.now before group) parts.now)) }
{
    for part in parts {
        let forced = is_forced_part(solution, refuter, part)?;
        if !forced {
            return Ok(false);
        }
    }
    Ok(true)
}

/// Whether the first input of the part forces the first target to 1, and the second to 0.
fn is_forced_part<R: Refuter>(
    solution: &Solution<'_>,
    refuter: &mut R,
    part: &Part,
) -> Result<bool, OutOfMemory>
    requires judged { IsJudged solution.now }
    requires some { 0 < length solution.now.report.now.groups }
    ensures { IfOk result (λ forced. AtGroupOf solution.now 0 (λ before group.
        IsTrue forced ↔ IsForcedPartHere solution.now before group part.now)) }
{
    let inputs = solution.problem.implementation().inputs().len();
    if part.force1.as_slice().len() != inputs {
        return Ok(false);
    }
    if part.force0.as_slice().len() != inputs {
        return Ok(false);
    }
    forces_both(solution, refuter, part)
}

/// The same of a part whose inputs have the right length.
fn forces_both<R: Refuter>(
    solution: &Solution<'_>,
    refuter: &mut R,
    part: &Part,
) -> Result<bool, OutOfMemory>
    requires judged { IsJudged solution.now }
    requires some { 0 < length solution.now.report.now.groups }
    requires inputs { HasInputs solution.now.problem.now.implementation part.now }
    ensures { IfOk result (λ forced. AtGroupOf solution.now 0 (λ before group.
        IsTrue forced ↔ IsForcedPartHere solution.now before group part.now)) }
{
    let ones = values_at(solution, &part.force1)?;
    let zeros = values_at(solution, &part.force0)?;
    are_forced(
        solution,
        refuter,
        0,
        &part.force1,
        ones.as_slice(),
        &part.force0,
        zeros.as_slice(),
    )
}
