//! From one line behind the targets to the next.

ghost use Rattle.std.specs.Prelude.{◌≡◌, IfOk, MatchOption};
ghost use Rattle.eco_report.specs.declared.state.State.{State as Next};
ghost use Rattle.eco_report.specs.declared.state.State.TheVariants.{Parts as AtParts, PartForce1 as AtForce1, PartForce0 as AtForce0, Ending as AtEnding};
ghost use Rattle.eco_report.specs.Reading.{Steps, NextEnding, next_part, with_least, with_part};

use crate::line::{amount, bits_behind, named, numbers};
use crate::report::{Bound, Least, Part, Report};
use crate::state::{OpenBound, State};
use eco_meaning::{Bits, OutOfMemory};
use std::alloc::Global;

/// What may come behind a bound's line or that of what a target costs at least; None where the line is neither.
pub(crate) fn behind_targets(
    alloc: Global,
    report: Report,
    line: &[u8],
) -> Result<Option<State>, OutOfMemory>
    ensures { IfOk result (λ found. MatchOption found ((next : Next) → NextEnding report line.now next → ⊥)
        (NextEnding report line.now)) }
{
    match numbers(line, b"bound ") {
        Some((total, left)) => {
            let parts = Vec::new(alloc);
            let bound = Bound { total, parts };
            Ok(Some(next_part(OpenBound {
                report,
                bound,
                left,
            })))
        }
        None => at_ending(alloc, report, line),
    }
}

pub(crate) fn at_ending(
    alloc: Global,
    report: Report,
    line: &[u8],
) -> Result<Option<State>, OutOfMemory>
    ensures { IfOk result (Steps (AtEnding report) line.now) }
{
    match named(alloc, line, b"least ")? {
        Some((target, cost)) => {
            let more = Least { target, cost };
            Ok(Some(State::Ending(with_least(report, more)?)))
        }
        None => Ok(None),
    }
}

/// What one more target costs at least.
fn with_least(report: Report, more: Least) -> Result<Report, OutOfMemory>
    ensures { IfOk result (λ longer. longer ≡ with_least report more) }
{
    let mut longer = report;
    longer.least.push(more)?;
    Ok(longer)
}

pub(crate) fn at_parts(part: OpenBound, line: &[u8]) -> Option<State>
    ensures { Steps (AtParts part) line.now result }
{
    match amount(line) {
        Some(amount) => Some(State::PartForce1(part, amount)),
        None => None,
    }
}

pub(crate) fn at_part_force1(
    alloc: Global,
    part: OpenBound,
    amount: u32,
    line: &[u8],
) -> Result<Option<State>, OutOfMemory>
    ensures { IfOk result (Steps (AtForce1 part amount) line.now) }
{
    match bits_behind(alloc, line, b"force1 ")? {
        Some(bits) => Ok(Some(State::PartForce0(part, amount, bits))),
        None => Ok(None),
    }
}

pub(crate) fn at_part_force0(
    alloc: Global,
    part: OpenBound,
    amount: u32,
    force1: Bits,
    line: &[u8],
) -> Result<Option<State>, OutOfMemory>
    ensures { IfOk result (Steps (AtForce0 part amount force1) line.now) }
{
    match bits_behind(alloc, line, b"force0 ")? {
        Some(force0) => {
            let more = Part {
                amount,
                force1,
                force0,
            };
            Ok(Some(next_part(with_part(part, more)?)))
        }
        None => Ok(None),
    }
}

/// A part more.
fn with_part(part: OpenBound, more: Part) -> Result<OpenBound, OutOfMemory>
    ensures { IfOk result (λ longer. longer ≡ with_part part more) }
{
    let OpenBound {
        report,
        mut bound,
        left,
    } = part;
    bound.parts.push(more)?;
    let left = left.saturating_sub(1);
    Ok(OpenBound {
        report,
        bound,
        left,
    })
}

/// The report with its bound where it has all its parts.
fn next_part(part: OpenBound) -> State
    ensures { result ≡ next_part part }
{
    if part.left != 0 {
        return State::Parts(part);
    }
    let OpenBound {
        mut report,
        bound,
        ..
    } = part;
    report.bound = Some(bound);
    State::Ending(report)
}
