//! From bytes to the steps of a proof.

ghost use Rattle.std.specs.Prelude.{◌≡◌, ◌⊎◌, ℕ, List, Ok, true, false, IfOk, IfErr, MatchResult};
ghost use Rattle.eco_check.specs.Steps.{StepValue};
ghost use Rattle.eco_prooftext.specs.declared.error.TraceError.TheVariants.{TraceSyntax as AtLine, OutOfMemory as NoMemory};
ghost use Rattle.eco_lists.specs.Lines.{lines_of};
ghost use Rattle.eco_prooftext.specs.TraceFile.{IsSound, AreSteps, IsTraceText, IsFirstBadLine, IsRefused};
ghost use Rattle.eco_prooftext.specs.TraceRead.{TakesLine};

use crate::error::TraceError;
use crate::trace_line::{Line, read_line, without_return};
use eco_check::Step;
use eco_meaning::OutOfMemory;
use std::alloc::Global;

/// Takes the step of a line; false where the line is neither blank nor a step's.
fn take_line(alloc: Global, steps: &mut Vec<Step>, line: &[u8]) -> Result<bool, OutOfMemory>
    ensures sound { result ≡ Ok true → TakesLine line.now steps.old.items steps.new.items }
    ensures fault { result ≡ Ok false → IsSound line.now → ⊥ }
{
    match read_line(alloc, line)? {
        Line::Blank => Ok(true),
        Line::Taken(step) => {
            steps.push(step)?;
            Ok(true)
        }
        Line::Fault => Ok(false),
    }
}

fn read_lines(alloc: Global, bytes: &[u8]) -> Result<Vec<Step>, TraceError>
    ensures ok { IfOk result (λ steps. AreSteps (lines_of bytes.now) steps.items) }
    ensures refused { IfErr result (IsRefused bytes.now) }
{
    let mut steps = Vec::new(alloc);
    for (index, piece) in bytes.split(|byte| *byte == b'\n').enumerate() {
        if !take_line(alloc, &mut steps, without_return(piece))? {
            return Err(TraceError::TraceSyntax(index as u64 + 1));
        }
    }
    Ok(steps)
}

/// The steps of a proof's text. Its lines are what stands between line feeds, each without one carriage return at its
/// end; a line is blank or a step's: the id that it starts with, pairs of a pivot and an id, and `0`, parted by blanks
/// and tabs. All numbers but the last are from 1 to 2^63 - 1, decimal without needless zeros. It takes time linear in
/// the text.
///
/// # Errors
///
/// `TraceSyntax(n)` exactly where line n, counted from 1, is the first that is neither; `OutOfMemory` only for want of
/// memory.
pub fn read_trace(alloc: Global, bytes: &[u8]) -> Result<Vec<Step>, TraceError>
    ensures ok { IfOk result (λ steps. IsTraceText bytes.now steps.items) }
    ensures refused { IfErr result (IsRefused bytes.now) }
    // Where memory is had, each answer comes wherever it stands.
    ensures ok_there { (steps : List StepValue) → IsTraceText bytes.now steps
        → MatchResult result (λ found. found.items ≡ steps) (λ e. e ≡ NoMemory) }
    ensures line_there { (n : ℕ) → IsFirstBadLine (lines_of bytes.now) n
        → MatchResult result (λ _. ⊥) (λ e. (e ≡ AtLine n) ⊎ (e ≡ NoMemory)) }
{
    read_lines(alloc, bytes)
}
