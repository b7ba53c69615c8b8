//! From bytes to a report.

ghost use Rattle.std.specs.Prelude.{◌≡◌, ◌⊎◌, ℕ, ◌+◌, ◌≤◌, List, [], IfOk, IfErr, MatchResult, length};
ghost use Rattle.eco_report.specs.declared.error.ReportError.TheVariants.{Line as AtLine, OutOfMemory as NoMemory};
ghost use Rattle.eco_report.specs.declared.file.ReportFile.{ReportFile as Meant};
ghost use Rattle.eco_report.specs.Files.{file_text, IsFree, IsReport, IsReportText, IsFirstBadLine, IsRefused};
ghost use Rattle.eco_report.specs.Reading.{IsReading};

use crate::error::ReportError;
use crate::file::ReportFile;
use crate::state::State;
use crate::step::step;
use crate::words::cut;
use eco_meaning::OutOfMemory;
use std::alloc::Global;

/// What a text tells whose lines are all read, `number` being theirs and one.
fn finish(state: State, number: u64) -> Result<ReportFile, ReportError>
    ensures ok { IfOk result (λ file. (bytes : List ℕ) → IsReading bytes [] number state → IsReportText bytes file) }
    ensures refused { IfErr result (λ e. (bytes : List ℕ) → IsReading bytes [] number state → IsRefused bytes e) }
{
    match state {
        State::Target(report) => Ok(ReportFile::Patched(report)),
        State::Ending(report) => Ok(ReportFile::Patched(report)),
        State::Over(file) => Ok(file),
        _ => Err(ReportError::Line(number)),
    }
}

/// Reads what is left behind the last line feed; it has to be nothing.
fn read_last(
    alloc: Global,
    state: State,
    left: &[u8],
    number: u64,
) -> Result<ReportFile, ReportError>
    requires { number ≤ 9223372036854775808 }
    ensures ok { IfOk result (λ file. (bytes : List ℕ) → IsReading bytes left.now number state → IsFree 10 left.now
        → IsReportText bytes file) }
    ensures refused { IfErr result (λ e. (bytes : List ℕ) → IsReading bytes left.now number state → IsFree 10 left.now
        → IsRefused bytes e) }
{
    if left.is_empty() {
        return finish(state, number);
    }
    let Some(_) = step(alloc, state, left)? else {
        return Err(ReportError::Line(number));
    };
    Err(ReportError::Line(number + 1))
}

fn read_lines(alloc: Global, bytes: &[u8]) -> Result<ReportFile, ReportError>
    ensures ok { IfOk result (IsReportText bytes.now) }
    ensures refused { IfErr result (IsRefused bytes.now) }
{
    let mut state = State::First;
    let mut rest = bytes;
    let mut number = 1;
    while let Some((line, more)) = cut(rest, b'\n') {
        let Some(next) = step(alloc, state, line)? else {
            return Err(ReportError::Line(number));
        };
        state = next;
        rest = more;
        number += 1;
    }
    read_last(alloc, state, rest, number)
}

/// The report whose text the bytes are: `patched`, `cost NUMBER`, `gates NUMBER` and each target's lines, which are
/// `target NAME COUNT` and COUNT times `base NAME WEIGHT`, `force1 BITS`, `force0 BITS`, and behind them perhaps
/// `bound TOTAL COUNT` and COUNT times `amount NUMBER`, `force1 BITS`, `force0 BITS`, and last any number of times
/// `least NAME NUMBER`; or `unrectifiable` and `input BITS`; or `budget WORD LIMIT`. Each line ends in a line feed, one
/// blank parts its fields, numbers are decimal without needless zeros. Weights, amounts and limits have 32 bits and all
/// other numbers 64, and amounts and limits are at least 1. It takes time linear in the text.
///
/// # Errors
///
/// `Line(n)` exactly where line n, counted from 1, is the first that can't stand there, or all lines can, the text
/// ends too early or its last line has no line feed, and n is their number and one; `OutOfMemory` only for want of
/// memory.
pub fn read_report(alloc: Global, bytes: &[u8]) -> Result<ReportFile, ReportError>
    ensures ok { IfOk result (IsReportText bytes.now) }
    ensures refused { IfErr result (IsRefused bytes.now) }
    // Where memory is had, each answer comes wherever it stands.
    ensures ok_there { (file : Meant) → IsReportText bytes.now file
        → MatchResult result (λ found. found ≡ file) (λ e. e ≡ NoMemory) }
    ensures line_there { (n : ℕ) → IsFirstBadLine bytes.now n
        → MatchResult result (λ _. ⊥) (λ e. (e ≡ AtLine n) ⊎ (e ≡ NoMemory)) }
{
    read_lines(alloc, bytes)
}

/// A law of the format: a text is that of at most one report. So `read_report` gives back the report whose text
/// `report_text` wrote.
pub fn report_reads_back()
    ensures { (one other : Meant) → IsReport one → IsReport other → file_text one ≡ file_text other → one ≡ other }
{}
