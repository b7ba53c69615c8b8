//! The gates before a net.

ghost use Rattle.std.specs.Prelude.{◌≡◌, ◌<◌, ℕ, IfOk, IfSome, OnOk, All, Some, false, length, slice_get};
ghost use Rattle.eco_gates.specs.Gates.{IsTermBelow, IsWithin};
ghost use Rattle.eco_gates.specs.Walk.{AreDriversBelow};
ghost use Rattle.eco_locate.specs.Ranking.{IsCone, IsFurther};

use eco_meaning::OutOfMemory;
use eco_netlist::{Gate, NetId, Term};
use std::alloc::Global;

/// A walk over the gates before a net: for each gate whether it was met, the gates that were, and those of them whose inputs are
/// still to be followed.
#[derive(Drop)]
pub(crate) struct Cone {
    seen: Vec<bool>,
    met: Vec<u64>,
    waiting: Vec<u64>,
}

/// For each net the number of a gate that drives it, if one does.
pub(crate) fn drivers_of(
    alloc: Global,
    gates: &[Gate],
    nets: usize,
) -> Result<Vec<Option<u64>>, OutOfMemory>
    requires { IsWithin nets gates.now }
    ensures length { IfOk result (λ drivers. length drivers.items ≡ nets) }
    ensures below { IfOk result (λ drivers. AreDriversBelow (length gates.now) drivers.items) }
{
    let mut drivers = vec![in alloc; None; nets]?;
    for number in 0..gates.len() {
        let gate = &gates[number];
        drivers[gate.out.0 as usize] = Some(number as u64);
    }
    Ok(drivers)
}

/// The walk before it begins: no gate was met.
pub(crate) fn new_cone(alloc: Global, gates: usize) -> Result<Cone, OutOfMemory>
    ensures stands { IfOk result IsCone }
    ensures length { IfOk result (λ cone. length cone.seen.items ≡ gates) }
{
    let seen = vec![in alloc; false; gates]?;
    Ok(Cone {
        seen,
        met: Vec::new(alloc),
        waiting: Vec::new(alloc),
    })
}

/// How many gates there are in the fan-in cone of the net, with the one that drives it. At the end no gate is marked as met.
pub(crate) fn cone_of(
    cone: &mut Cone,
    gates: &[Gate],
    drivers: &[Option<u64>],
    net: NetId,
) -> Result<u64, OutOfMemory>
    requires within { IsWithin (length drivers.now) gates.now }
    requires drivers { AreDriversBelow (length gates.now) drivers.now }
    requires net { net.0 < length drivers.now }
    requires length { length cone.old.seen.items ≡ length gates.now }
    requires stands { IsCone cone.old }
    ensures stands { OnOk result (IsCone cone.new) }
    ensures length { OnOk result (length cone.new.seen.items ≡ length cone.old.seen.items) }
{
    meet(cone, drivers[net.0 as usize])?;
    while let Some(number) = cone.waiting.pop() {
        let gate = &gates[number as usize];
        meet_all(cone, gate.ins.as_slice(), drivers)?;
    }
    Ok(leave(cone))
}

/// Meets the gates that drive what these terms read.
fn meet_all(cone: &mut Cone, terms: &[Term], drivers: &[Option<u64>]) -> Result<(), OutOfMemory>
    requires terms { All (IsTermBelow (length drivers.now)) terms.now }
    requires drivers { AreDriversBelow (length cone.old.seen.items) drivers.now }
    requires stands { IsCone cone.old }
    ensures { OnOk result (IsFurther cone.old cone.new) }
{
    for term in terms {
        meet(cone, driver_of(drivers, *term))?;
    }
    Ok(())
}

/// The gate that drives what the term reads, if there is one.
fn driver_of(drivers: &[Option<u64>], term: Term) -> Option<u64>
    requires { IsTermBelow (length drivers.now) term }
    ensures { (count : ℕ) → AreDriversBelow count drivers.now → IfSome result (λ i. i < count) }
{
    match term {
        Term::Zero | Term::One => None,
        Term::Net(net) => drivers[net.0 as usize],
    }
}

/// Meets this gate, unless it was met before.
fn meet(cone: &mut Cone, driver: Option<u64>) -> Result<(), OutOfMemory>
    requires driver { IfSome driver (λ i. i < length cone.old.seen.items) }
    requires stands { IsCone cone.old }
    ensures { OnOk result (IsFurther cone.old cone.new) }
{
    match driver {
        Some(number) if !cone.seen[number as usize] => meet_new(cone, number),
        _ => Ok(()),
    }
}

/// Meets this gate for the first time.
fn meet_new(cone: &mut Cone, number: u64) -> Result<(), OutOfMemory>
    requires new { slice_get cone.old.seen.items number ≡ Some false }
    requires stands { IsCone cone.old }
    ensures { OnOk result (IsFurther cone.old cone.new) }
{
    cone.seen[number as usize] = true;
    cone.met.push(number)?;
    cone.waiting.push(number)?;
    Ok(())
}

/// Takes back the marks of the gates that were met, and tells how many they were.
fn leave(cone: &mut Cone) -> u64
    requires { IsCone cone.old }
    ensures stands { IsCone cone.new }
    ensures length { length cone.new.seen.items ≡ length cone.old.seen.items }
{
    unmark(cone.seen.as_mut_slice(), cone.met.as_slice());
    let count = cone.met.len();
    cone.met.clear();
    count as u64
}

/// Takes back these marks.
fn unmark(seen: &mut [bool], met: &[u64])
    requires { All (λ i. i < length seen.old) met.now }
    ensures { length seen.new ≡ length seen.old }
{
    for number in met {
        seen[*number as usize] = false;
    }
}
