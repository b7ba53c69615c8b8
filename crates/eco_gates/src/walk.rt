//! The walk over the gates, from gates to those whose outputs they read, with a stack of its own.

ghost use Rattle.std.specs.Prelude.{◌≡◌, ◌<◌, ◌≤◌, ◌++◌, ◌∷◌, ℕ, [], IfOk, IfNone, IfSome, All, Some, None, length, slice_get, slice_set};
ghost use Rattle.eco_gates.specs.declared.gate.Term.{Term};
ghost use Rattle.eco_gates.specs.Gates.{IsTermBelow, IsWithin};
ghost use Rattle.eco_gates.specs.Walk.{AreDrivers, AreDriversBelow, AreReady, IsLater, unfinished_of, unfinished_driver};
ghost use Rattle.eco_gates.specs.Step.{IsWalkState, Advances, WaitsForNone, WaitsAt, HasLeft, HasEntered};

use crate::gate::{Gate, Term};
use eco_meaning::OutOfMemory;

/// How far the walk has come with a gate.
#[derive(Clone, Copy, PartialEq, Eq)]
pub(crate) enum Mark {
    New,
    Open,
    Done,
}

/// A gate that the walk is at, and how many of its inputs wait for no gate.
#[derive(Clone, Copy)]
pub(crate) struct Frame {
    pub(crate) gate: u64,
    pub(crate) ready: usize,
}

/// The marks of all gates, the gates that the walk is done with, and those that it is at.
#[derive(Drop)]
pub(crate) struct Walk {
    pub(crate) marks: Vec<Mark>,
    pub(crate) order: Vec<u64>,
    pub(crate) stack: Vec<Frame>,
}

/// What came of a step: a gate was entered or left, no gate is left, or a gate was met that is on the stack.
pub(crate) enum Step {
    Moved,
    Finished,
    Met(u64),
}

/// The place of an input that waits for a gate, and the number of that gate.
#[derive(Clone, Copy)]
struct Wait {
    at: usize,
    driver: u64,
}

/// Leaves the last gate of the stack, or enters the gate that it waits for.
pub(crate) fn advance(
    walk: &mut Walk,
    gates: &[Gate],
    drivers: &[Option<u64>],
) -> Result<Step, OutOfMemory>
    requires within { IsWithin (length drivers.now) gates.now }
    requires drivers { AreDrivers (length drivers.now) gates.now drivers.now }
    requires stands { IsWalkState gates.now drivers.now walk.old }
    ensures advances { IfOk result (Advances gates.now drivers.now walk.old walk.new) }
{
    match walk.stack.pop() {
        None => Ok(Step::Finished),
        Some(frame) => match look(frame, gates, drivers, walk.marks.as_slice()) {
            None => leave(walk, frame.gate),
            Some(wait) => enter(walk, frame.gate, wait),
        },
    }
}

/// The first input of the gate that waits for a gate that the walk is not done with.
fn look(frame: Frame, gates: &[Gate], drivers: &[Option<u64>], marks: &[Mark]) -> Option<Wait>
    requires within { IsWithin (length drivers.now) gates.now }
    requires drivers { AreDrivers (length drivers.now) gates.now drivers.now }
    requires marks { length marks.now ≡ length gates.now }
    requires gate { frame.gate < length gates.now }
    ensures none { IfNone result (WaitsForNone gates.now drivers.now marks.now frame) }
    ensures waits { IfSome result (WaitsAt gates.now drivers.now marks.now frame) }
{
    let gate = &gates[frame.gate as usize];
    first_unfinished(gate.ins.as_slice(), frame.ready, drivers, marks)
}

/// The walk is done with the gate.
fn leave(walk: &mut Walk, gate: u64) -> Result<Step, OutOfMemory>
    requires { gate < length walk.old.marks.items }
    ensures left { IfOk result (HasLeft walk.old walk.new gate) }
{
    walk.order.push(gate)?;
    walk.marks[gate as usize] = Mark::Done;
    Ok(Step::Moved)
}

/// Puts the gate back on the stack, and the gate that it waits for onto it, unless that one is there already.
fn enter(walk: &mut Walk, gate: u64, wait: Wait) -> Result<Step, OutOfMemory>
    requires { wait.driver < length walk.old.marks.items }
    ensures entered { IfOk result (HasEntered walk.old walk.new gate wait) }
{
    walk.stack.push(Frame {
        gate,
        ready: wait.at,
    })?;
    if walk.marks[wait.driver as usize] == Mark::New {
        walk.marks[wait.driver as usize] = Mark::Open;
        walk.stack.push(Frame {
            gate: wait.driver,
            ready: 0,
        })?;
        Ok(Step::Moved)
    } else {
        Ok(Step::Met(wait.driver))
    }
}

/// The first input, from this place on, that waits for a gate that the walk is not done with.
fn first_unfinished(
    terms: &[Term],
    from: usize,
    drivers: &[Option<u64>],
    marks: &[Mark],
) -> Option<Wait>
    requires terms { All (IsTermBelow (length drivers.now)) terms.now }
    requires drivers { AreDriversBelow (length marks.now) drivers.now }
    ensures none { IfNone result (AreReady drivers.now marks.now terms.now from (length terms.now)) }
    ensures before { IfSome result (λ wait. AreReady drivers.now marks.now terms.now from wait.at) }
    ensures waits { IfSome result (λ wait. (term : Term) × (slice_get terms.now wait.at ≡ Some term)
        × (unfinished_of drivers.now marks.now term ≡ Some wait.driver)) }
{
    for at in from..terms.len() {
        match unfinished(terms[at], drivers, marks) {
            Some(driver) => return Some(Wait { at, driver }),
            None => {}
        }
    }
    None
}

/// The gate that drives what the term reads, if there is one and the walk is not done with it.
fn unfinished(term: Term, drivers: &[Option<u64>], marks: &[Mark]) -> Option<u64>
    requires term { IsTermBelow (length drivers.now) term }
    requires drivers { AreDriversBelow (length marks.now) drivers.now }
    ensures { result ≡ unfinished_of drivers.now marks.now term }
{
    match term {
        Term::Zero | Term::One => None,
        Term::Net(net) => unless_done(drivers[net.0 as usize], marks),
    }
}

/// The gate, unless there is none or the walk is done with it.
fn unless_done(driver: Option<u64>, marks: &[Mark]) -> Option<u64>
    requires { IfSome driver (λ i. i < length marks.now) }
    ensures { result ≡ unfinished_driver marks.now driver }
{
    match driver {
        None => None,
        Some(number) => match marks[number as usize] {
            Mark::Done => None,
            _ => Some(number),
        },
    }
}
