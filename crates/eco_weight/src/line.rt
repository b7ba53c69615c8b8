//! What one line says.

ghost use Rattle.std.specs.Prelude.{◌≡◌, ℕ, List, IfOk};
ghost use Rattle.std.specs.Str.Lines.{strip_carriage_return};
ghost use Rattle.eco_weight.specs.Lines.{Says, IsBlank};
ghost use Rattle.eco_weight.specs.Read.{pair_of, ReadsAs};

use crate::words::{are_blank, named_by, next_word, weight_of};
use eco_meaning::{Name, OutOfMemory};
use std::alloc::Global;

/// What a line is.
#[derive(Drop)]
pub(crate) enum Line {
    /// Blanks alone.
    Blank,
    /// A name and its weight.
    Pair(Name, u32),
    /// Neither.
    Fault,
}

/// The line without one carriage return at its end.
pub(crate) fn without_return(line: &[u8]) -> &[u8]
    ensures { result.now ≡ strip_carriage_return line.now }
{
    match line {
        [front @ .., b'\r'] => front,
        _ => line,
    }
}

/// What a line is.
pub(crate) fn read_line(alloc: Global, line: &[u8]) -> Result<Line, OutOfMemory>
    ensures { IfOk result (ReadsAs line.now) }
{
    let (word, rest) = next_word(line);
    if word.is_empty() {
        return Ok(Line::Blank);
    }
    let (digits, rest) = next_word(rest);
    let name = Name::new(alloc, named_by(word))?;
    Ok(pair_of(name, weight_of(digits), are_blank(rest)))
}

/// The pair, where both of it are there and the line ends behind them.
fn pair_of(name: Option<Name>, weight: Option<u32>, ends: bool) -> Line
    ensures { result ≡ pair_of name weight ends }
{
    match (name, weight, ends) {
        (Some(name), Some(weight), true) => Line::Pair(name, weight),
        _ => Line::Fault,
    }
}

/// A law of the format: a line says at most one name and weight, and a blank line says none.
pub fn says_once()
    ensures one { (line name other : List ℕ) (weight another : ℕ) → Says line name weight → Says line other another
        → (name ≡ other) × (weight ≡ another) }
    ensures none { (line name : List ℕ) (weight : ℕ) → IsBlank line → Says line name weight → ⊥ }
{}
