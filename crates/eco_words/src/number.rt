//! Numbers in decimal digits.

ghost use Rattle.std.specs.Prelude.{ℕ, IfSome, IfNone};
ghost use Rattle.eco_words.specs.CommandLine.{IsNumeral};

use eco_text::spelled_up_to;

/// The number that one to twenty decimal digits spell, where it is at most so large; None where the text is nothing
/// of this kind.
pub(crate) fn number(text: &str, most: u64) -> Option<u64>
    ensures some { IfSome result (IsNumeral most text.now) }
    ensures none { IfNone result ((number : ℕ) → IsNumeral most text.now number → ⊥) }
{
    if text.len() > 20 {
        return None;
    }
    spelled_up_to(text.as_bytes(), most)
}
