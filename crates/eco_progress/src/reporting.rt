//! How chosen signals are reported.

ghost use Rattle.std.specs.Prelude.{ℕ, ◌≡◌, ◌++◌, ◌∷◌, [], List, Some, None, IfOk, OnOk, All, length, map};
ghost use Rattle.eco_meaning.specs.Report.{TargetGroup as Group};
ghost use Rattle.eco_query.specs.Problem.{HasTargetNumber};
ghost use Rattle.eco_pose.specs.Questions.{AtTarget};
ghost use Rattle.eco_progress.specs.Reported.{IsNet, IsWeighted, least_line, nets_in, reported_as, reported_group};

use eco_base::Based;
use eco_meaning::OutOfMemory;
use eco_netlist::NetId;
use eco_query::Problem;
use eco_report::{BaseSignal, Least, TargetGroup};
use std::alloc::Global;

/// Puts the next target, with the chosen signals, behind the groups of the targets before it.
pub(crate) fn add_group(
    problem: &Problem,
    chosen: &[Based],
    groups: &mut Vec<TargetGroup>,
) -> Result<(), OutOfMemory>
    requires number { HasTargetNumber problem.now.implementation (length groups.old.items) }
    requires nets { All (IsNet problem.now) chosen.now }
    requires weighted { All (IsWeighted problem.now) chosen.now }
    ensures { OnOk result (AtTarget problem.now.implementation (length groups.old.items) (λ before target behind.
        groups.new.items ≡ groups.old.items ++ reported_group problem.now target chosen.now ∷ [])) }
{
    let group = group_of(*groups.allocator(), problem, groups.len() as u64, chosen)?;
    groups.push(group)?;
    Ok(())
}

/// Puts what the target of the last group costs at least, if that is told, behind what is told of the earlier ones.
pub(crate) fn add_least(
    groups: &[TargetGroup],
    told: Option<u64>,
    least: &mut Vec<Least>,
) -> Result<(), OutOfMemory>
    ensures told { OnOk result ((cost : ℕ) (earlier : List Group) (group : Group) → told ≡ Some cost → groups.now ≡ earlier ++ group ∷ [] →
        least.new.items ≡ least.old.items ++ least_line group.target cost ∷ []) }
    ensures untold { OnOk result (told ≡ None → least.new.items ≡ least.old.items) }
{
    match (told, groups.last()) {
        (Some(cost), Some(group)) => {
            let target = group.target.copy()?;
            least.push(Least { target, cost })?;
            Ok(())
        }
        _ => Ok(()),
    }
}

/// The target of this number, with the chosen signals.
fn group_of(
    alloc: Global,
    problem: &Problem,
    i: u64,
    chosen: &[Based],
) -> Result<TargetGroup, OutOfMemory>
    requires number { HasTargetNumber problem.now.implementation i }
    requires nets { All (IsNet problem.now) chosen.now }
    requires weighted { All (IsWeighted problem.now) chosen.now }
    ensures { IfOk result (λ group. AtTarget problem.now.implementation i (λ before target behind.
        group ≡ reported_group problem.now target chosen.now)) }
{
    let f = problem.implementation();
    let base = signals_of(alloc, problem, chosen)?;
    let target = f.name_of(f.targets()[i as usize]).copy()?;
    Ok(TargetGroup { target, base })
}

/// The chosen signals, each with its weight.
fn signals_of(
    alloc: Global,
    problem: &Problem,
    chosen: &[Based],
) -> Result<Vec<BaseSignal>, OutOfMemory>
    requires nets { All (IsNet problem.now) chosen.now }
    requires weighted { All (IsWeighted problem.now) chosen.now }
    ensures { IfOk result (λ reported. reported.items ≡ map (reported_as problem.now) chosen.now) }
{
    let mut reported = Vec::with_capacity(alloc, chosen.len())?;
    for based in chosen {
        reported.push(signal_of(problem, based)?)?;
    }
    Ok(reported)
}

/// The chosen signal, with its weight.
fn signal_of(problem: &Problem, based: &Based) -> Result<BaseSignal, OutOfMemory>
    requires net { IsNet problem.now based.now }
    requires weighted { IsWeighted problem.now based.now }
    ensures { IfOk result (λ reported. reported ≡ reported_as problem.now based.now) }
{
    let signal = problem.implementation().name_of(based.net).copy()?;
    let force1 = based.one.copy()?;
    let force0 = based.zero.copy()?;
    match problem.weight(based.net) {
        Some(weight) => Ok(BaseSignal {
            signal,
            weight,
            force1,
            force0,
        }),
        None => unreachable!(),
    }
}

/// The nets of the chosen signals.
pub(crate) fn nets_of(alloc: Global, chosen: &[Based]) -> Result<Vec<NetId>, OutOfMemory>
    ensures { IfOk result (λ nets. nets.items ≡ nets_in chosen.now) }
{
    Ok(chosen.iter().map(|based| based.net).collect(alloc)?)
}
