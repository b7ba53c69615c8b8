//! What a base costs at least.

ghost use Rattle.std.specs.Prelude.{◌≤◌, All, IfOk, IfErr, OnOk};
ghost use Rattle.eco_meaning.specs.Circuit.{Circuit};
ghost use Rattle.eco_meaning.specs.Meaning.{IsRectifiable};
ghost use Rattle.eco_laws.specs.Kept.{TakesAnyInputs};
ghost use Rattle.eco_pose.specs.Stuck.{IsUnfinished, NoneCompared};
ghost use Rattle.eco_base.specs.Targets.{IsTargetOf};
ghost use Rattle.eco_bound.specs.Accounts.{AreForcing, IsAccount};
ghost use Rattle.eco_bound.specs.Lower.{AreForcedPairs, IsBeginning, IsFirst, IsLowerBound, SpentSuffice};

use crate::account::{Account, open, pay};
use crate::raising::raise;
use eco_base::Target;
use eco_desk::Engine;
use eco_functions::Functions;
use eco_meaning::OutOfMemory;
use eco_netlist::Netlist;
use eco_pose::Unfinished;
use eco_query::Problem;
use eco_report::{BaseSignal, Bound};
use eco_trace::Refuter;
use std::alloc::Global;

/// What a base of the problem's single target costs at least, in parts: two inputs each, of which the first forces the target
/// to 1 and the second to 0, and an amount that telling them apart costs at least.
///
/// The inputs of the base's signals come first, in their order. Of each two inputs the amount is the least weight that is left to
/// a candidate that tells them apart; that much is then taken from what is left to all that do so. Where it is nothing, they
/// are left out. While the candidates that have nothing left don't suffice, two inputs that show this are a further part. Fails
/// where the search gives up on a question, or for want of memory.
pub fn bound<R: Refuter>(
    alloc: Global,
    problem: &Problem,
    base: &[BaseSignal],
    refuter: &mut R,
    limit: u64,
) -> Result<Bound, Unfinished>
    requires limit { 1 ≤ limit }
    requires rectifiable { IsRectifiable problem.now.implementation problem.now.goal }
    requires needed { AreForcedPairs problem.now base.now }
    ensures bound { IfOk result (λ bound. (p : Circuit) → TakesAnyInputs p → IsLowerBound problem.now p bound) }
    ensures unfinished { IfErr result (IsUnfinished problem.now NoneCompared limit) }
{
    let engine = Engine::new(alloc, problem, refuter, limit)?;
    let mut target = first_of(engine)?;
    let found = bound_at(&mut target, base);
    drop(target);
    found
}

/// The first target of the engine's problem.
fn first_of<'a, R: Refuter>(engine: Engine<'a, R>) -> Result<Target<'a, R>, OutOfMemory>
    requires { IsRectifiable engine.problem.implementation engine.problem.goal }
    ensures target { IfOk result (IsTargetOf engine.entry.problem engine.entry.limit) }
    ensures first { IfOk result IsFirst }
{
    match no_patch(engine.allocator(), engine.problem()) {
        Ok(patch) => {
            let target = Target::of(engine, 0, &patch, &[]);
            drop(patch);
            target
        }
        Err(error) => {
            drop(engine);
            Err(error)
        }
    }
}

/// The patch of no target.
fn no_patch(alloc: Global, problem: &Problem) -> Result<Netlist, OutOfMemory>
    requires rectifiable { IsRectifiable problem.now.implementation problem.now.goal }
    ensures { IfOk result (IsBeginning problem.now) }
{
    let f = problem.implementation();
    let functions = Functions::new(alloc, f.hasher())?;
    let patch = functions.patch(f);
    drop(functions);
    patch
}

/// The bound of the first target.
fn bound_at<R: Refuter>(
    target: &mut Target<'_, R>,
    base: &[BaseSignal],
) -> Result<Bound, Unfinished>
    requires first { IsFirst target.old }
    requires needed { AreForcedPairs target.old.problem base.now }
    ensures bound { IfOk result (λ bound. (p : Circuit) → TakesAnyInputs p → IsLowerBound target.old.problem p bound) }
    ensures unfinished { IfErr result (IsUnfinished target.old.problem NoneCompared target.old.limit) }
{
    let mut account = open(target.engine.allocator(), target.problem())?;
    match settle(target, base, &mut account) {
        Ok(()) => Ok(Bound {
            total: account.total,
            parts: account.parts,
        }),
        Err(unfinished) => {
            drop(account);
            Err(unfinished)
        }
    }
}

/// Pays for the inputs of the base's signals, and for further ones.
fn settle<R: Refuter>(
    target: &mut Target<'_, R>,
    base: &[BaseSignal],
    account: &mut Account,
) -> Result<(), Unfinished>
    requires first { IsFirst target.old }
    requires needed { AreForcedPairs target.old.problem base.now }
    requires account { IsAccount target.old.problem account.old }
    ensures account { OnOk result (IsAccount target.old.problem account.new) }
    ensures full { OnOk result (SpentSuffice target.old.problem target.old.patches account.new.payers.items) }
    ensures unfinished { IfErr result (IsUnfinished target.old.problem NoneCompared target.old.limit) }
{
    pay_all(account, target.problem(), base)?;
    raise(target, account)
}

/// Pays for the inputs of each of the signals.
fn pay_all(account: &mut Account, problem: &Problem, base: &[BaseSignal]) -> Result<(), OutOfMemory>
    requires rectifiable { IsRectifiable problem.now.implementation problem.now.goal }
    requires forcing { All (λ b. AreForcing problem.now b.force1 b.force0) base.now }
    requires account { IsAccount problem.now account.old }
    ensures { OnOk result (IsAccount problem.now account.new) }
{
    for signal in base {
        pay(account, problem, &signal.force1, &signal.force0)?;
    }
    Ok(())
}
