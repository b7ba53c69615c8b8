//! Whether candidates carry at most what they weigh.

ghost use Rattle.std.specs.Prelude.{◌≡◌, ◌↔◌, ◌<◌, [], IsTrue, IsSome, IfOk, MatchOption, All, length};
ghost use Rattle.eco_meaning.specs.Circuit.{names};
ghost use Rattle.eco_meaning.specs.Cost.{weight_of};
ghost use Rattle.eco_netlist.specs.Netlists.{AreNets, name_at};
ghost use Rattle.eco_audit.specs.Bounds.{AreCarried, HasInputs};
ghost use Rattle.eco_audit.specs.Carriers.{AreCarriers, AreUnladen, IsPaid, IsShort, IsUnladen, PaysAll, TakesOn};
ghost use Rattle.eco_audit.specs.Judging.{IsJudged};

use crate::filling::values_at;
use crate::solution::Solution;
use eco_meaning::OutOfMemory;
use eco_netlist::NetId;
use eco_query::Problem;
use eco_report::Part;
use std::alloc::Global;

/// A candidate's net, and what it can carry beside the parts so far: its weight less their amounts where it tells them apart.
#[derive(Clone, Copy)]
pub(crate) struct Carrier {
    pub(crate) net: NetId,
    pub(crate) spare: u32,
}

/// Whether no candidate of the single target carries more of the parts than it weighs.
pub(crate) fn are_carried(solution: &Solution<'_>, parts: &[Part]) -> Result<bool, OutOfMemory>
    requires judged { IsJudged solution.now }
    requires single { length solution.now.report.now.groups ≡ 1 }
    requires inputs { All (HasInputs solution.now.problem.now.implementation) parts.now }
    ensures { IfOk result (λ carried. IsTrue carried ↔ AreCarried solution.now parts.now) }
{
    let mut carriers = carriers_of(solution)?;
    for part in parts {
        let taken = take_on(solution, part, &mut carriers)?;
        if !taken {
            return Ok(false);
        }
    }
    Ok(true)
}

/// The candidates of the single target, which carry nothing yet.
fn carriers_of(solution: &Solution<'_>) -> Result<Vec<Carrier>, OutOfMemory>
    requires judged { IsJudged solution.now }
    requires single { length solution.now.report.now.groups ≡ 1 }
    ensures { IfOk result (λ carriers. AreCarriers solution.now [] carriers.items) }
{
    let nets = solution.problem.turns(0, &[])?;
    unladen(solution.alloc, solution.problem, nets.as_slice())
}

/// Carriers of these nets, which carry nothing yet.
fn unladen(alloc: Global, problem: &Problem, nets: &[NetId]) -> Result<Vec<Carrier>, OutOfMemory>
    requires nets { AreNets (names problem.now.implementation) nets.now }
    requires weighted { All (λ net. IsSome (weight_of problem.now.implementation problem.now.weights problem.now.input_weight
        (name_at (names problem.now.implementation) net.0))) nets.now }
    ensures { IfOk result (λ carriers. AreUnladen problem.now nets.now carriers.items) }
{
    let mut carriers = Vec::with_capacity(alloc, nets.len())?;
    for net in nets {
        carriers.push(carrier_of(problem, *net))?;
    }
    Ok(carriers)
}

/// The carrier of this net, which can carry its weight.
fn carrier_of(problem: &Problem, net: NetId) -> Carrier
    requires net { net.0 < length (names problem.now.implementation) }
    requires weighted { IsSome (weight_of problem.now.implementation problem.now.weights problem.now.input_weight
        (name_at (names problem.now.implementation) net.0)) }
    ensures net { result.net ≡ net }
    ensures unladen { IsUnladen problem.now result }
{
    match problem.weight(net) {
        Some(weight) => Carrier { net, spare: weight },
        None => unreachable!(),
    }
}

/// Takes the part on: what is left to a carrier is less by its amount where it tells the part apart. False where that is more
/// than is left to some carrier.
fn take_on(
    solution: &Solution<'_>,
    part: &Part,
    carriers: &mut Vec<Carrier>,
) -> Result<bool, OutOfMemory>
    requires judged { IsJudged solution.now }
    requires inputs { HasInputs solution.now.problem.now.implementation part.now }
    requires nets { All (λ c. c.net.0 < length (names solution.now.problem.now.implementation)) carriers.old.items }
    ensures { IfOk result (TakesOn solution.now part.now carriers.old.items carriers.new.items) }
{
    let ones = values_at(solution, &part.force1)?;
    let zeros = values_at(solution, &part.force0)?;
    Ok(pay(carriers, ones.as_slice(), zeros.as_slice(), part.amount))
}

/// Takes the amount from what is left to each carrier whose values are unlike; false where that is too little.
fn pay(carriers: &mut Vec<Carrier>, ones: &[bool], zeros: &[bool], amount: u32) -> bool
    requires ones { All (λ c. c.net.0 < length ones.now) carriers.old.items }
    requires zeros { All (λ c. c.net.0 < length zeros.now) carriers.old.items }
    ensures { PaysAll ones.now zeros.now amount carriers.old.items carriers.new.items result }
{
    for place in 0..carriers.len() {
        match paid(carriers[place], ones, zeros, amount) {
            Some(carrier) => carriers[place] = carrier,
            None => return false,
        }
    }
    true
}

/// The carrier behind the payment; None where too little is left to it.
fn paid(carrier: Carrier, ones: &[bool], zeros: &[bool], amount: u32) -> Option<Carrier>
    requires ones { carrier.net.0 < length ones.now }
    requires zeros { carrier.net.0 < length zeros.now }
    ensures { MatchOption result (IsShort ones.now zeros.now amount carrier) (IsPaid ones.now zeros.now amount carrier) }
{
    let place = carrier.net.0 as usize;
    if ones[place] == zeros[place] {
        return Some(carrier);
    }
    if carrier.spare < amount {
        return None;
    }
    Some(Carrier {
        net: carrier.net,
        spare: carrier.spare - amount,
    })
}
