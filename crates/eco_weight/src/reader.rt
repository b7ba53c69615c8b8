//! From bytes to weights.

ghost use Rattle.std.specs.Prelude.{◌≡◌, ℕ, List, Ok, Err, true, false, IfOk, IfErr};
ghost use Rattle.eco_meaning.specs.Cost.{Weights as Lines};
ghost use Rattle.eco_weight.specs.declared.error.WeightError.TheVariants.{Line as AtLine, Twice as NamedTwice};
ghost use Rattle.eco_weight.specs.Lines.{IsSound};
ghost use Rattle.eco_lists.specs.Lines.{lines_of};
ghost use Rattle.eco_weight.specs.Files.{AreWeights, IsFirstBadLine, IsTwice, IsRefused, IsUnlessMemory};
ghost use Rattle.eco_weight.specs.Gathering.{Collects, CollectsMore, IsLineError};

use crate::error::WeightError;
use crate::gathered::Gathered;
use crate::line::{Line, read_line, without_return};
use crate::weights::Weights;
use eco_keyed::Keyed;
use eco_meaning::OutOfMemory;
use std::alloc::Global;

/// Takes what a line says; false where the line is at fault.
fn take_line(gathered: &mut Gathered, alloc: Global, line: &[u8]) -> Result<bool, OutOfMemory>
    ensures sound { result ≡ Ok true → CollectsMore line.now gathered.old gathered.new }
    ensures fault { result ≡ Ok false → IsSound line.now → ⊥ }
{
    match read_line(alloc, line)? {
        Line::Blank => Ok(true),
        Line::Pair(name, weight) => {
            gathered.add(name, weight)?;
            Ok(true)
        }
        Line::Fault => Ok(false),
    }
}

/// What the lines of a file say, where none is at fault.
fn gathered_lines(alloc: Global, bytes: &[u8]) -> Result<Gathered, WeightError>
    ensures ok { IfOk result (Collects (lines_of bytes.now)) }
    ensures fault { IfErr result (IsLineError (lines_of bytes.now)) }
{
    let mut gathered = Gathered::new(alloc, Keyed::by(bytes));
    for (index, piece) in bytes.split(|byte| *byte == b'\n').enumerate() {
        if !take_line(&mut gathered, alloc, without_return(piece))? {
            return Err(WeightError::Line(index as u64 + 1));
        }
    }
    Ok(gathered)
}

/// The weights that a file gives: its lines are what stands between line feeds, each without one carriage return at
/// its end, and each of them is blank or says a name and a weight.
///
/// # Errors
///
/// `Line(n)` exactly where line n, counted from 1, is the first that is neither; `Twice(name)` exactly where there is
/// no such line and the name is the smallest of those that stand on two lines; `OutOfMemory` only for want of memory.
pub fn read(alloc: Global, bytes: &[u8]) -> Result<Weights, WeightError>
    ensures ok { IfOk result (AreWeights bytes.now) }
    ensures refused { IfErr result (IsRefused bytes.now) }
    // Where memory is had, each answer comes wherever it stands.
    ensures ok_there { (weights : Lines) → AreWeights bytes.now weights → IsUnlessMemory result (Ok weights) }
    ensures line_there { (n : ℕ) → IsFirstBadLine (lines_of bytes.now) n → IsUnlessMemory result (Err (AtLine n)) }
    ensures twice_there { (name : List ℕ) → IsTwice bytes.now name → IsUnlessMemory result (Err (NamedTwice name)) }
{
    let gathered = gathered_lines(alloc, bytes)?;
    gathered.finish()
}
