//! From one line to the next.

ghost use Rattle.std.specs.Prelude.{◌≡◌, IfOk};
ghost use Rattle.eco_report.specs.declared.state.State.TheVariants.{First as AtFirst, Input as AtInput, Cost as AtCost, Gates as AtGates, Target as AtTarget, Base as AtBase, Force1 as AtForce1, Force0 as AtForce0};
ghost use Rattle.eco_report.specs.Reading.{Steps, next_state, with_base};
ghost use Rattle.eco_meaning.specs.Report.{BaseSignal as Meant};

use crate::file::ReportFile;
use crate::line::{base, bits_behind, budget, named, numbered};
use crate::parts::{at_ending, at_part_force0, at_part_force1, at_parts, behind_targets};
use crate::report::{BaseSignal, Report, TargetGroup};
use crate::state::{Open, State};
use crate::words::is_word;
use eco_meaning::{Bits, Name, OutOfMemory};
use std::alloc::Global;

/// What may come behind a line; None where the line can't stand there.
pub(crate) fn step(alloc: Global, state: State, line: &[u8]) -> Result<Option<State>, OutOfMemory>
    ensures { IfOk result (Steps state line.now) }
{
    match state {
        State::First => Ok(at_first(line)),
        State::Input => at_input(alloc, line),
        State::Cost => Ok(at_cost(line)),
        State::Gates(cost) => Ok(at_gates(alloc, cost, line)),
        State::Target(report) => at_target(alloc, report, line),
        State::Base(part) => at_base(alloc, part, line),
        State::Force1(part, name, weight) => at_force1(alloc, part, name, weight, line),
        State::Force0(part, name, weight, force1) => at_force0(
            alloc, part, name, weight, force1, line,
        ),
        State::Parts(part) => Ok(at_parts(part, line)),
        State::PartForce1(part, amount) => at_part_force1(alloc, part, amount, line),
        State::PartForce0(part, amount, force1) => at_part_force0(
            alloc, part, amount, force1, line,
        ),
        State::Ending(report) => at_ending(alloc, report, line),
        State::Over(_) => Ok(None),
    }
}

fn at_first(line: &[u8]) -> Option<State>
    ensures { Steps AtFirst line.now result }
{
    if is_word(line, b"patched") {
        return Some(State::Cost);
    }
    if is_word(line, b"unrectifiable") {
        return Some(State::Input);
    }
    match budget(line) {
        Some((word, limit)) => Some(State::Over(ReportFile::Budget { word, limit })),
        None => None,
    }
}

fn at_input(alloc: Global, line: &[u8]) -> Result<Option<State>, OutOfMemory>
    ensures { IfOk result (Steps AtInput line.now) }
{
    match bits_behind(alloc, line, b"input ")? {
        Some(bits) => Ok(Some(State::Over(ReportFile::Unrectifiable(bits)))),
        None => Ok(None),
    }
}

fn at_cost(line: &[u8]) -> Option<State>
    ensures { Steps AtCost line.now result }
{
    match numbered(line, b"cost ") {
        Some(cost) => Some(State::Gates(cost)),
        None => None,
    }
}

fn at_gates(alloc: Global, cost: u64, line: &[u8]) -> Option<State>
    ensures { Steps (AtGates cost) line.now result }
{
    match numbered(line, b"gates ") {
        Some(gates) => {
            let groups = Vec::new(alloc);
            let least = Vec::new(alloc);
            Some(State::Target(Report {
                cost,
                gates,
                groups,
                bound: None,
                least,
            }))
        }
        None => None,
    }
}

fn at_target(alloc: Global, report: Report, line: &[u8]) -> Result<Option<State>, OutOfMemory>
    ensures { IfOk result (Steps (AtTarget report) line.now) }
{
    match named(alloc, line, b"target ")? {
        Some((target, left)) => {
            let base = Vec::new(alloc);
            let group = TargetGroup { target, base };
            let part = Open {
                report,
                group,
                left,
            };
            Ok(Some(next_state(part)?))
        }
        None => behind_targets(alloc, report, line),
    }
}

fn at_base(alloc: Global, part: Open, line: &[u8]) -> Result<Option<State>, OutOfMemory>
    ensures { IfOk result (Steps (AtBase part) line.now) }
{
    match base(alloc, line)? {
        Some((name, weight)) => Ok(Some(State::Force1(part, name, weight))),
        None => Ok(None),
    }
}

fn at_force1(
    alloc: Global,
    part: Open,
    name: Name,
    weight: u32,
    line: &[u8],
) -> Result<Option<State>, OutOfMemory>
    ensures { IfOk result (Steps (AtForce1 part name weight) line.now) }
{
    match bits_behind(alloc, line, b"force1 ")? {
        Some(bits) => Ok(Some(State::Force0(part, name, weight, bits))),
        None => Ok(None),
    }
}

fn at_force0(
    alloc: Global,
    part: Open,
    signal: Name,
    weight: u32,
    force1: Bits,
    line: &[u8],
) -> Result<Option<State>, OutOfMemory>
    ensures { IfOk result (Steps (AtForce0 part signal weight force1) line.now) }
{
    match bits_behind(alloc, line, b"force0 ")? {
        Some(force0) => {
            let signal = BaseSignal {
                signal,
                weight,
                force1,
                force0,
            };
            Ok(Some(next_state(with_base(part, signal)?)?))
        }
        None => Ok(None),
    }
}

/// A base signal more.
fn with_base(part: Open, signal: BaseSignal) -> Result<Open, OutOfMemory>
    ensures { IfOk result (λ more. more ≡ with_base part signal) }
{
    let Open {
        report,
        mut group,
        left,
    } = part;
    group.base.push(signal)?;
    let left = left.saturating_sub(1);
    Ok(Open {
        report,
        group,
        left,
    })
}

/// The target where it has all its base signals.
fn next_state(part: Open) -> Result<State, OutOfMemory>
    ensures { IfOk result (λ state. state ≡ next_state part) }
{
    if part.left != 0 {
        return Ok(State::Base(part));
    }
    let Open {
        mut report,
        group,
        ..
    } = part;
    report.groups.push(group)?;
    Ok(State::Target(report))
}
