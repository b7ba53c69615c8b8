//! The signals that a base may have beside those that are paid, with their weights.

ghost use Rattle.std.specs.Prelude.{◌≡◌, ◌<◌, IfOk, length, map};
ghost use Rattle.eco_meaning.specs.Circuit.{names};
ghost use Rattle.eco_netlist.specs.Netlists.{AreNets};
ghost use Rattle.eco_least.specs.Weighed.{AreWeighed, weight_at};

use eco_base::Target;
use eco_meaning::OutOfMemory;
use eco_netlist::NetId;
use eco_query::Problem;
use eco_trace::Refuter;
use std::alloc::Global;

/// The candidates of a target that aren't paid, in the order of their turns.
#[derive(Drop)]
pub(crate) struct Weighed {
    pub(crate) alloc: Global,
    pub(crate) turns: Vec<NetId>,
    /// The weight of each turn.
    pub(crate) weights: Vec<u32>,
}

/// The turns of the target with their weights.
pub(crate) fn weigh<R: Refuter>(target: &Target<'_, R>) -> Result<Weighed, OutOfMemory>
    ensures { IfOk result (AreWeighed target.now) }
{
    // it is a target of the problem, and its paid signals can be asked about
    let _ = target.number();
    let _ = target.paid();
    let alloc = target.engine.allocator();
    let turns = Vec::from_slice(alloc, target.turns())?;
    let weights = weights_of(alloc, target.problem(), turns.as_slice())?;
    Ok(Weighed {
        alloc,
        turns,
        weights,
    })
}

/// The weights of these nets.
fn weights_of(alloc: Global, problem: &Problem, turns: &[NetId]) -> Result<Vec<u32>, OutOfMemory>
    requires nets { AreNets (names problem.now.implementation) turns.now }
    ensures { IfOk result (λ weights. weights.items ≡ map (weight_at problem.now) turns.now) }
{
    let mut weights = Vec::with_capacity(alloc, turns.len())?;
    for net in turns {
        weights.push(weight_of(problem, *net))?;
    }
    Ok(weights)
}

/// The weight of the net, or 0 where it has none.
pub(crate) fn weight_of(problem: &Problem, net: NetId) -> u32
    requires { net.0 < length (names problem.now.implementation) }
    ensures { result ≡ weight_at problem.now net }
{
    match problem.weight(net) {
        Some(weight) => weight,
        None => 0,
    }
}
