//! The problem of a netlist with nets cut.

ghost use Rattle.std.specs.Prelude.{◌≡◌, ◌≤◌, List, IfOk, length, map};
ghost use Rattle.std.specs.Option.{option_copied};
ghost use Rattle.eco_meaning.specs.Circuit.{names};
ghost use Rattle.eco_gates.specs.declared.gate.NetId.{NetId as NetIdValue};
ghost use Rattle.eco_netlist.specs.Netlists.{names_at};
ghost use Rattle.eco_query.specs.declared.problem.PairError.TheVariants as pair_errors;
ghost use Rattle.eco_cutting.specs.Cuts.{AreCuts};
ghost use Rattle.eco_change.specs.CutProblem.{CanBeCut, IsCutBy, IsCutProblem};

use crate::change::Change;
use eco_cutting::{CutError, CutNet, cut_netlist, cuts_for};
use eco_meaning::OutOfMemory;
use eco_netlist::{NetId, Netlist};
use eco_query::{PairError, Problem, pair};
use eco_weight::Weights;
use std::alloc::Global;

/// The problem of the old netlist with these nets cut, in which no signal has a weight. The targets have the nets' order.
///
/// # Errors
///
/// `OutOfMemory` for want of memory, and if too few of the 10^9 names that a new target may have are left.
pub fn cut_problem(alloc: Global, change: &Change, nets: &[NetId]) -> Result<Problem, OutOfMemory>
    requires nets { CanBeCut change.now.old nets.now }
    requires some { 1 ≤ length nets.now }
    ensures { IfOk result (IsCutProblem change.now.old change.now.goal (names_at (names change.now.old) nets.now)) }
{
    let cuts = cuts_of(alloc, change.old(), nets)?;
    let netlist = cut_netlist(alloc, change.old(), cuts.as_slice());
    drop(cuts);
    problem_of(alloc, change, netlist?)
}

/// The cuts of the nets.
fn cuts_of(alloc: Global, f: &Netlist, nets: &[NetId]) -> Result<Vec<CutNet>, OutOfMemory>
    requires { CanBeCut f.now nets.now }
    ensures cuts { IfOk result (λ cuts. AreCuts f.now cuts.items) }
    ensures nets { IfOk result (λ cuts. map (λ c. c.net) cuts.items ≡ names_at (names f.now) nets.now) }
{
    match cuts_for(alloc, f, nets) {
        Ok(cuts) => Ok(cuts),
        Err(CutError::Names | CutError::OutOfMemory) => Err(OutOfMemory),
    }
}

/// The problem of a netlist with nets of the old one cut.
fn problem_of(alloc: Global, change: &Change, netlist: Netlist) -> Result<Problem, OutOfMemory>
    requires { (nets : List NetIdValue) × CanBeCut change.now.old nets × (1 ≤ length nets) × IsCutBy change.now.old (names_at (names change.now.old) nets) netlist }
    ensures implementation { IfOk result (λ problem. problem.implementation ≡ netlist) }
    ensures goal { IfOk result (λ problem. problem.goal ≡ change.now.goal) }
{
    // it is a change
    let _ = change.old();
    match goal_again(change) {
        Ok((specification, care)) => match pair(
            netlist,
            specification,
            care,
            Weights::none(alloc),
            0,
        ) {
            Ok(problem) => Ok(problem),
            Err(error) => Err(want_of_memory(error)),
        },
        Err(error) => {
            drop(netlist);
            Err(error)
        }
    }
}

/// What is asked, again.
fn goal_again(change: &Change) -> Result<(Netlist, Option<Netlist>), OutOfMemory>
    ensures specification { IfOk result (λ again. again.0 ≡ change.now.goal.spec) }
    ensures care { IfOk result (λ again. again.1 ≡ change.now.goal.care) }
{
    let specification = change.specification().copy()?;
    match copied(change.care()) {
        Ok(care) => Ok((specification, care)),
        Err(error) => {
            drop(specification);
            Err(error)
        }
    }
}

/// The netlist again, if there is one.
fn copied(netlist: Option<&Netlist>) -> Result<Option<Netlist>, OutOfMemory>
    ensures { IfOk result (λ copy. copy ≡ option_copied netlist.entry) }
{
    match netlist {
        None => Ok(None),
        Some(netlist) => Ok(Some(netlist.copy()?)),
    }
}

/// The error that is left if nothing else can refuse a problem.
fn want_of_memory(error: PairError) -> OutOfMemory
    requires { error ≡ pair_errors.OutOfMemory }
{
    drop(error);
    OutOfMemory
}
