//! What each patch costs at least.

ghost use Rattle.std.specs.Prelude.{◌≡◌, ◌≤◌, ◌<◌, All, IfOk, IfSome, IsTrue, OnOk, length, map};
ghost use Rattle.eco_meaning.specs.Circuit.{names};
ghost use Rattle.eco_netlist.specs.Netlists.{AreNets, names_at};
ghost use Rattle.eco_query.specs.Problem.{HasTargetNumber};
ghost use Rattle.eco_clash.specs.Costs.{IsClashRow};
ghost use Rattle.eco_tuples.specs.Bounds.{AddsSome, IsTogether, weight_at};
ghost use Rattle.eco_tuples.specs.Graphs.{AreInputsOf};

use crate::asking::{Clash, clashes};
use crate::rows::steady_row;
use eco_floor::{Row, bound};
use eco_meaning::{Bits, OutOfMemory};
use eco_netlist::NetId;
use eco_query::Problem;
use eco_trace::Refuter;
use std::alloc::Global;

/// What is to be shown, and what may be spent on it.
#[derive(Clone, Copy)]
pub struct Aim {
    /// What each patch is thought to cost at least.
    pub cost: u64,
    /// How many clauses may be learnt for each tuple, at least 1.
    pub limit: u64,
    /// How many nodes the search for a floor of the rows may have.
    pub nodes: u64,
}

/// What each patch costs at least that makes the problem's implementation do what is asked, and whose signals lie behind no target
/// but those before the target `i`: of the last target this is each answer to the problem. It is the cost that is aimed at, where
/// that is shown, else less. The tuples are hints: one that has no bit for each input somewhere, or isn't shown to clash, is passed over.
///
/// For each tuple three netlists are compiled at each of its inputs, and the signals once more.
pub fn bound_by<R: Refuter>(
    alloc: Global,
    problem: &Problem,
    i: u64,
    tuples: &[Vec<Bits>],
    refuter: &mut R,
    aim: Aim,
) -> Result<u64, OutOfMemory>
    requires target { HasTargetNumber problem.now.implementation i }
    requires limit { 1 ≤ aim.limit }
    ensures { IfOk result (IsTogether problem.now i) }
{
    // it is a problem
    let _ = problem.implementation();
    let signals = problem.turns(i, &[])?;
    let rows = clash_rows(
        alloc,
        problem,
        signals.as_slice(),
        tuples,
        refuter,
        aim.limit,
    )?;
    let weights = weights_of(alloc, problem, signals.as_slice())?;
    let least = bound(
        alloc,
        rows.as_slice(),
        weights.as_slice(),
        aim.cost,
        aim.nodes,
    )?;
    Ok(least)
}

/// The rows of those tuples that are shown to clash.
fn clash_rows<R: Refuter>(
    alloc: Global,
    problem: &Problem,
    signals: &[NetId],
    tuples: &[Vec<Bits>],
    refuter: &mut R,
    limit: u64,
) -> Result<Vec<Row>, OutOfMemory>
    requires signals { AreNets (names problem.now.implementation) signals.now }
    requires limit { 1 ≤ limit }
    ensures { IfOk result (λ rows. All (IsClashRow problem.now.implementation problem.now.goal
        (names_at (names problem.now.implementation) signals.now)) rows.items) }
{
    let mut rows = Vec::new(alloc);
    for tuple in tuples {
        let row = clash_row(alloc, problem, signals, tuple.as_slice(), refuter, limit)?;
        push_some(&mut rows, row)?;
    }
    Ok(rows)
}

/// Puts the row behind the others, if there is one.
fn push_some(rows: &mut Vec<Row>, row: Option<Row>) -> Result<(), OutOfMemory>
    ensures { OnOk result (AddsSome rows.old.items rows.new.items row) }
{
    match row {
        Some(row) => rows.push(row)?,
        None => {}
    }
    Ok(())
}

/// The row of the tuple, where it is shown to clash.
fn clash_row<R: Refuter>(
    alloc: Global,
    problem: &Problem,
    signals: &[NetId],
    tuple: &[Bits],
    refuter: &mut R,
    limit: u64,
) -> Result<Option<Row>, OutOfMemory>
    requires signals { AreNets (names problem.now.implementation) signals.now }
    requires limit { 1 ≤ limit }
    ensures { IfOk result (λ row. IfSome row (IsClashRow problem.now.implementation problem.now.goal
        (names_at (names problem.now.implementation) signals.now))) }
{
    if !are_inputs(problem, tuple) {
        return Ok(None);
    }
    match clashes(alloc, problem, tuple, refuter, limit)? {
        Clash::Shown => {
            let row = steady_row(alloc, problem.implementation(), signals, tuple)?;
            Ok(Some(row))
        }
        Clash::Fixed(_) | Clash::Open => Ok(None),
    }
}

/// Whether each of them has a bit for each input of the problem's implementation.
fn are_inputs(problem: &Problem, tuple: &[Bits]) -> bool
    ensures { IsTrue result → AreInputsOf problem.now.implementation tuple.now }
{
    let count = inputs_of(problem);
    for input in tuple {
        if input.as_slice().len() != count {
            return false;
        }
    }
    true
}

/// How many inputs the problem's implementation has.
fn inputs_of(problem: &Problem) -> usize
    ensures { result ≡ length problem.now.implementation.inputs }
{
    problem.implementation().inputs().len()
}

/// The weights of these signals.
fn weights_of(alloc: Global, problem: &Problem, signals: &[NetId]) -> Result<Vec<u32>, OutOfMemory>
    requires signals { AreNets (names problem.now.implementation) signals.now }
    ensures { IfOk result (λ weights. weights.items ≡ map (weight_at problem.now) signals.now) }
{
    let mut weights = Vec::with_capacity(alloc, signals.len())?;
    for net in signals {
        weights.push(weight_of(problem, *net))?;
    }
    Ok(weights)
}

/// The weight of the signal, or 0 where it has none.
fn weight_of(problem: &Problem, net: NetId) -> u32
    requires { net.0 < length (names problem.now.implementation) }
    ensures { result ≡ weight_at problem.now net }
{
    match problem.weight(net) {
        Some(weight) => weight,
        None => 0,
    }
}
