//! The fields of a line.

ghost use Rattle.std.specs.Prelude.{◌≡◌, ◌≤◌, length, ◌++◌, ◌↔◌, ℕ, List, Bool, map, IsTrue, IfOk, MatchOption};
ghost use Rattle.eco_report.specs.Texts.{bit_digit};
ghost use Rattle.eco_report.specs.Files.{IsFree};
ghost use Rattle.eco_report.specs.Reading.{IsCut, run_before};

use eco_meaning::{Bits, OutOfMemory};
use std::alloc::Global;

/// What stands before the first such byte, and behind it.
pub(crate) fn cut(bytes: &[u8], mark: u8) -> Option<(&[u8], &[u8])>
    ensures { MatchOption result (IsFree mark bytes.now) (λ parts. IsCut mark bytes.now parts.0.now parts.1.now) }
{
    let (front, rest) = bytes.split_at(run_before(bytes, mark));
    match rest {
        [_, back @ ..] => Some((front, back)),
        [] => None,
    }
}

/// How many bytes stand before the first such byte.
fn run_before(bytes: &[u8], mark: u8) -> usize
    ensures value { result ≡ run_before mark bytes.now }
    ensures bound { result ≤ length bytes.now }
{
    bytes.iter().take_while(|byte| **byte != mark).count()
}

/// What stands behind this word.
pub(crate) fn behind<'a>(line: &'a [u8], word: &[u8]) -> Option<&'a [u8]>
    ensures { MatchOption result ((rest : List ℕ) → line.now ≡ word.now ++ rest → ⊥) (λ rest. line.now ≡ word.now ++ rest.now) }
{
    line.strip_prefix(word)
}

/// Whether the line is this word.
pub(crate) fn is_word(line: &[u8], word: &[u8]) -> bool
    ensures { IsTrue result ↔ (line.now ≡ word.now) }
{
    line == word
}

/// The bit that a digit is.
fn bit_of(digit: u8) -> Option<bool>
    ensures { MatchOption result ((bit : Bool) → digit ≡ bit_digit bit → ⊥) (λ bit. digit ≡ bit_digit bit) }
{
    match digit {
        b'0' => Some(false),
        b'1' => Some(true),
        _ => None,
    }
}

/// The bits that digits are.
pub(crate) fn bits_of(alloc: Global, digits: &[u8]) -> Result<Option<Bits>, OutOfMemory>
    ensures { IfOk result (λ found. MatchOption found ((bits : List Bool) → digits.now ≡ map bit_digit bits → ⊥)
        (λ bits. digits.now ≡ map bit_digit bits)) }
{
    let mut bits = Vec::with_capacity(alloc, digits.len())?;
    for digit in digits {
        match bit_of(*digit) {
            Some(bit) => bits.push(bit)?,
            None => return Ok(None),
        }
    }
    Ok(Some(Bits::of(bits)))
}
