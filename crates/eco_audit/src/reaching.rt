//! Whether functions of targets depend only on signals that they may read.

ghost use Rattle.std.specs.Prelude.{◌≡◌, ◌↔◌, ◌<◌, ℕ, List, IsTrue, IfOk, Contains, length};
ghost use Rattle.eco_meaning.specs.Circuit.{names, AreTargets};
ghost use Rattle.eco_meaning.specs.Patch.{IsBehindOnly, OfTarget};
ghost use Rattle.eco_query.specs.Problem.{HasTargetNumber};
ghost use Rattle.eco_audit.specs.Checks.{AreReachedMarks, IsOfSomeTarget, IsReadInTimeBy, IsSourceOf};

use eco_meaning::{Name, OutOfMemory};
use eco_netlist::{NetId, Netlist};
use eco_query::Problem;

/// Whether each target whose function depends on the signal may read it.
pub(crate) fn is_in_time(
    problem: &Problem,
    patch: &Netlist,
    name: &Name,
) -> Result<bool, OutOfMemory>
    requires targets { AreTargets problem.now.implementation patch.now.outputs }
    requires input { Contains patch.now.inputs name.now }
    requires candidate { IsOfSomeTarget problem.now name.now }
    ensures { IfOk result (λ holds. IsTrue holds ↔ IsReadInTimeBy problem.now.implementation patch.now name.now) }
{
    let f = problem.implementation();
    // both are checked
    let _ = (f.nets(), patch.nets());
    match (f.net_of(name), patch.net_of(name)) {
        (Some(source), Some(net)) => {
            let marks = patch.fan_out(&[net])?;
            Ok(are_in_time(problem, patch, source, marks.as_slice()))
        }
        _ => Ok(false),
    }
}

/// Whether each marked output may read the signal of this net.
fn are_in_time(problem: &Problem, patch: &Netlist, source: NetId, marks: &[bool]) -> bool
    requires targets { AreTargets problem.now.implementation patch.now.outputs }
    requires source { source.0 < length (names problem.now.implementation) }
    requires marks { length marks.now ≡ length (names patch.now) }
    ensures { (name : List ℕ) → IsSourceOf problem.now source name → AreReachedMarks patch.now name marks.now →
        IsTrue result ↔ IsReadInTimeBy problem.now.implementation patch.now name }
{
    for (place, output) in patch.outputs().iter().enumerate() {
        if !may_read(problem, place, source, marks[output.0 as usize]) {
            return false;
        }
    }
    true
}

/// Whether the target of this number, which the signal of this net reaches or not, may read it.
fn may_read(problem: &Problem, number: usize, source: NetId, reached: bool) -> bool
    requires number { HasTargetNumber problem.now.implementation number }
    requires source { source.0 < length (names problem.now.implementation) }
    ensures { (name : List ℕ) → IsSourceOf problem.now source name → OfTarget problem.now.implementation number
        (λ earlier target. IsTrue result ↔ (IsTrue reached → IsBehindOnly problem.now.implementation earlier name)) }
{
    if reached {
        problem.candidate(number as u64, source)
    } else {
        true
    }
}
