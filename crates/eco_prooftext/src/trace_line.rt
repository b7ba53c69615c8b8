//! What one line of a proof's text says.

ghost use Rattle.std.specs.Prelude.{◌≡◌, ◌≤◌, ◌↔◌, ℕ, List, [], ◌∷◌, ◌++◌, true, false, filter, All, Ok, IsTrue, IfOk, IfSome, IfNone};
ghost use Rattle.std.specs.Str.Lines.{strip_carriage_return};
ghost use Rattle.eco_lists.specs.Lines.{is_blank};
ghost use Rattle.eco_check.specs.Steps.{StepValue};
ghost use Rattle.eco_text.specs.Numbers.{IsNumberUpTo};
ghost use Rattle.eco_prooftext.specs.TraceFile.{is_word, words_of, AreNumbers, pair_numbers};
ghost use Rattle.eco_prooftext.specs.TraceRead.{IsFront, IsRow, Numbered, ReadsAs};

use crate::numbers::number_of;
use eco_check::Step;
use eco_meaning::OutOfMemory;
use std::alloc::Global;

/// What a line is.
#[derive(Drop)]
pub(crate) enum Line {
    /// Blanks alone.
    Blank,
    /// A step.
    Taken(Step),
    /// Neither.
    Fault,
}

/// Whether a byte is a blank or a tab.
fn is_blank(byte: u8) -> bool
    ensures { result ≡ is_blank byte }
{
    matches!(byte, b' ' | b'\t')
}

/// The line without one carriage return at its end.
pub(crate) fn without_return(line: &[u8]) -> &[u8]
    ensures { result.now ≡ strip_carriage_return line.now }
{
    match line {
        [front @ .., b'\r'] => front,
        _ => line,
    }
}

/// Takes the number of a piece between blanks, unless it is empty; false where it isn't, and is no number.
fn take_word(numbers: &mut Vec<u64>, piece: &[u8]) -> Result<bool, OutOfMemory>
    ensures sound { result ≡ Ok true → (words : List (List ℕ)) → AreNumbers words numbers.old.items
        → AreNumbers (words ++ filter is_word (piece.now ∷ [])) numbers.new.items }
    ensures word { result ≡ Ok false → is_word piece.now ≡ true }
    ensures fault { result ≡ Ok false → (number : ℕ) → IsNumberUpTo 9223372036854775807 piece.now number → ⊥ }
{
    if piece.is_empty() {
        return Ok(true);
    }
    match number_of(piece) {
        Some(number) => {
            numbers.push(number)?;
            Ok(true)
        }
        None => Ok(false),
    }
}

/// The numbers that the words of a line are, where they are numbers.
fn numbers_of(alloc: Global, line: &[u8]) -> Result<Option<Vec<u64>>, OutOfMemory>
    ensures some { IfOk result (λ found. IfSome found (λ numbers. AreNumbers (words_of line.now) numbers.items)) }
    ensures none { IfOk result (λ found. IfNone found ((numbers : List ℕ)
        → AreNumbers (words_of line.now) numbers → ⊥)) }
{
    let mut numbers = Vec::new(alloc);
    for piece in line.split(|byte| is_blank(*byte)) {
        if !take_word(&mut numbers, piece)? {
            return Ok(None);
        }
    }
    Ok(Some(numbers))
}

/// The pairs of these numbers; None where their count is odd.
fn pairs_of(alloc: Global, numbers: &[u64]) -> Result<Option<Vec<(u64, u64)>>, OutOfMemory>
    ensures some { IfOk result (λ found. IfSome found (λ pairs. pair_numbers pairs.items ≡ numbers.now)) }
    ensures none { IfOk result (λ found. IfNone found ((pairs : List (ℕ × ℕ))
        → pair_numbers pairs ≡ numbers.now → ⊥)) }
{
    let mut pairs = Vec::with_capacity(alloc, numbers.len() / 2)?;
    let mut rest = numbers;
    while let [first, second, more @ ..] = rest {
        pairs.push((*first, *second))?;
        rest = more;
    }
    if rest.is_empty() {
        Ok(Some(pairs))
    } else {
        Ok(None)
    }
}

fn are_positive(numbers: &[u64]) -> bool
    ensures { IsTrue result ↔ All (λ number. 1 ≤ number) numbers.now }
{
    numbers.iter().all(|number| 1 <= *number)
}

/// The step that starts so, with these pairs.
fn step_with(alloc: Global, start: u64, pairs: &[u64]) -> Result<Option<Step>, OutOfMemory>
    ensures some { IfOk result (λ found. IfSome found (IsRow start pairs.now)) }
    ensures none { IfOk result (λ found. IfNone found ((links : List (ℕ × ℕ))
        → pair_numbers links ≡ pairs.now → ⊥)) }
{
    match pairs_of(alloc, pairs)? {
        Some(links) => Ok(Some(Step { start, links })),
        None => Ok(None),
    }
}

/// The step of the numbers before the last 0.
#[tactic(auto, using(crate::proofs::WordLaws::front_positive))]
fn step_of(alloc: Global, front: &[u64]) -> Result<Option<Step>, OutOfMemory>
    ensures some { IfOk result (λ found. IfSome found (IsFront front.now)) }
    ensures none { IfOk result (λ found. IfNone found ((step : StepValue) → IsFront front.now step → ⊥)) }
{
    if !are_positive(front) {
        return Ok(None);
    }
    match front {
        [start, pairs @ ..] => step_with(alloc, *start, pairs),
        [] => Ok(None),
    }
}

/// What a line with these numbers is.
#[tactic(auto, using(crate::proofs::WordLaws::step_from_front, crate::proofs::WordLaws::front_from_step))]
fn line_of(alloc: Global, numbers: &[u64]) -> Result<Line, OutOfMemory>
    ensures { IfOk result (Numbered numbers.now) }
{
    match numbers {
        [] => Ok(Line::Blank),
        [front @ .., 0] => match step_of(alloc, front)? {
            Some(step) => Ok(Line::Taken(step)),
            None => Ok(Line::Fault),
        },
        _ => Ok(Line::Fault),
    }
}

/// What a line is.
#[tactic(auto, using(crate::proofs::WordLaws::reads_ok, crate::proofs::WordLaws::fault_none))]
pub(crate) fn read_line(alloc: Global, line: &[u8]) -> Result<Line, OutOfMemory>
    ensures { IfOk result (ReadsAs line.now) }
{
    match numbers_of(alloc, line)? {
        Some(numbers) => line_of(alloc, numbers.as_slice()),
        None => Ok(Line::Fault),
    }
}
