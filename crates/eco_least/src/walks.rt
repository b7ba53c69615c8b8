//! Walks for the base of a target, and what a base costs.

ghost use Rattle.std.specs.Prelude.{◌≡◌, ◌<◌, All, IfOk, IfErr, IfSome, length};
ghost use Rattle.eco_meaning.specs.Circuit.{names};
ghost use Rattle.eco_netlist.specs.Netlists.{AreNets};
ghost use Rattle.eco_pose.specs.Stuck.{IsUnfinished, NoneCompared};
ghost use Rattle.eco_least.specs.Rows.{IsAccount};
ghost use Rattle.eco_least.specs.Weighed.{IsBase, IsWalkedLast};

use crate::account::Account;
use crate::weighed::{Weighed, weight_of};
use bumpalo::Bump;
use eco_base::{Based, Chosen, Plan, Target};
use eco_pose::Unfinished;
use eco_query::Problem;
use eco_trace::Refuter;

/// The base in the order of turns of the plan, if it takes no more questions.
pub(crate) fn walk_last<'t, R: Refuter>(
    weighed: &Weighed,
    target: &mut Target<'_, R>,
    account: &mut Account,
    plan: Plan<'_>,
    arena: &'t Bump,
) -> Result<Option<Chosen<'t>>, Unfinished>
    requires account { IsAccount target.old weighed.now account.old }
    requires last { AreNets (names target.old.problem.implementation) plan.last.now }
    ensures walked { IfOk result (λ chosen. IfSome chosen (IsWalkedLast target.old plan.entry.last.now)) }
    ensures account { IsAccount target.old weighed.now account.new }
    ensures unfinished { IfErr result (IsUnfinished target.old.problem NoneCompared target.old.limit) }
    ensures stays { target.new ≡ target.old }
{
    target.walk(plan, &mut account.known, arena)
}

/// What the base costs.
pub(crate) fn cost_of<R: Refuter>(target: &Target<'_, R>, chosen: &Chosen<'_>) -> u64
    requires { IsBase target.now chosen.now }
{
    // it is a target of the problem
    let _ = target.number();
    sum_of(target.problem(), chosen.new.as_slice())
}

/// What the signals weigh.
fn sum_of(problem: &Problem, base: &[Based]) -> u64
    requires { All (λ based. based.net.0 < length (names problem.now.implementation)) base.now }
{
    let mut sum: u64 = 0;
    for based in base {
        sum = sum.saturating_add(u64::from(weight_of(problem, based.net)));
    }
    sum
}
