//! Orders in which gates can be evaluated, and circles of gates.

ghost use Rattle.std.specs.Prelude.{◌≡◌, ◌<◌, ℕ, List, [], IfOk, IfNone, IfSome, length, ◌==◌, map, position, reverse, drop};
ghost use Rattle.eco_gates.specs.Gates.{IsWithin, IsOnceDriven};
ghost use Rattle.eco_gates.specs.Ordering.{IsArranged};
ghost use Rattle.eco_gates.specs.Walk.{AreDrivers, place_of_gate};
ghost use Rattle.eco_gates.specs.Step.{IsWalkState, HasWalked, HasOpened, IsFresh};

use crate::gate::Gate;
use crate::walk::{Frame, Mark, Step, Walk, advance};
use eco_meaning::OutOfMemory;
use std::alloc::Global;

/// The numbers of all gates in an order in which they can be evaluated, or of gates that read each other's
/// outputs in a circle.
#[derive(Drop)]
pub enum Arranged {
    Order(Vec<u64>),
    Circle(Vec<u64>),
}

/// An order of the gates in which each stands behind those whose outputs it reads, or a circle of gates, each of
/// which reads the output of the one before it, and the first that of the last. It takes time linear in the number
/// of nets and inputs of gates.
pub fn arrange(alloc: Global, gates: &[Gate], nets: usize) -> Result<Arranged, OutOfMemory>
    requires within { IsWithin nets gates.now }
    requires once { IsOnceDriven gates.now }
    ensures arranged { IfOk result (IsArranged gates.now) }
{
    let drivers = drivers_of(alloc, gates, nets)?;
    let mut walk = new_walk(alloc, gates)?;
    for root in 0..gates.len() {
        match walk_from(root, &mut walk, gates, drivers.as_slice())? {
            None => {}
            Some(first) => {
                let circle = circle_of(alloc, walk.stack.as_slice(), first)?;
                return Ok(Arranged::Circle(circle));
            }
        }
    }
    let Walk {
        marks: _,
        order,
        stack: _,
    } = walk;
    Ok(Arranged::Order(order))
}

/// For each net the number of the gate that drives it, if one does.
fn drivers_of(alloc: Global, gates: &[Gate], nets: usize) -> Result<Vec<Option<u64>>, OutOfMemory>
    requires within { IsWithin nets gates.now }
    requires once { IsOnceDriven gates.now }
    ensures drivers { IfOk result (λ drivers. AreDrivers nets gates.now drivers.items) }
{
    let mut drivers = vec![in alloc; None; nets]?;
    for number in 0..gates.len() {
        let gate = &gates[number];
        drivers[gate.out.0 as usize] = Some(number as u64);
    }
    Ok(drivers)
}

/// The walk before its first step: all gates are new.
fn new_walk(alloc: Global, gates: &[Gate]) -> Result<Walk, OutOfMemory>
    ensures fresh { IfOk result (λ walk. IsFresh (length gates.now) walk) }
{
    let marks = vec![in alloc; Mark::New; gates.len()]?;
    let order = Vec::with_capacity(alloc, gates.len())?;
    let stack = Vec::new(alloc);
    Ok(Walk {
        marks,
        order,
        stack,
    })
}

/// Walks from this gate, where it is new, until it and all gates below it are done, or until a gate is met that is
/// on the stack.
fn walk_from(
    root: usize,
    walk: &mut Walk,
    gates: &[Gate],
    drivers: &[Option<u64>],
) -> Result<Option<u64>, OutOfMemory>
    requires root { root < length gates.now }
    requires within { IsWithin (length drivers.now) gates.now }
    requires drivers { AreDrivers (length drivers.now) gates.now drivers.now }
    requires stands { IsWalkState gates.now drivers.now walk.old }
    requires empty { walk.old.stack.items ≡ [] }
    ensures walked { IfOk result (HasWalked gates.now drivers.now root walk.old walk.new) }
{
    open_new(root, walk)?;
    loop {
        match advance(walk, gates, drivers)? {
            Step::Moved => {}
            Step::Finished => return Ok(None),
            Step::Met(first) => return Ok(Some(first)),
        }
    }
}

/// Puts the gate onto the stack if it is new.
fn open_new(root: usize, walk: &mut Walk) -> Result<(), OutOfMemory>
    requires { root < length walk.old.marks.items }
    ensures opened { IfOk result (λ _. HasOpened walk.old walk.new root) }
{
    match walk.marks[root] {
        Mark::New => {
            walk.marks[root] = Mark::Open;
            walk.stack.push(Frame {
                gate: root as u64,
                ready: 0,
            })?;
            Ok(())
        }
        _ => Ok(()),
    }
}

/// The gates of the stack from this one on, last first.
fn circle_of(alloc: Global, stack: &[Frame], first: u64) -> Result<Vec<u64>, OutOfMemory>
    requires { place_of_gate first stack.now < length stack.now }
    ensures circle { IfOk result (λ circle. circle.items
        ≡ map (λ frame. frame.gate) (reverse (drop (place_of_gate first stack.now) stack.now))) }
{
    let place = position_of(stack, first).unwrap_or(0);
    gates_downward(alloc, &stack[place..])
}

fn position_of(stack: &[Frame], gate: u64) -> Option<usize>
    ensures { result ≡ position (λ frame. frame.gate == gate) stack.now }
{
    stack.iter().position(|frame| frame.gate == gate)
}

fn gates_downward(alloc: Global, stack: &[Frame]) -> Result<Vec<u64>, OutOfMemory>
    ensures gates { IfOk result (λ gates. gates.items ≡ map (λ frame. frame.gate) (reverse stack.now)) }
{
    let gates = stack.iter().rev().map(|frame| frame.gate).collect(alloc)?;
    Ok(gates)
}
