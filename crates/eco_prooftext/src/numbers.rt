//! Numbers of texts.

ghost use Rattle.std.specs.Prelude.{ℕ, IfSome, IfNone};
ghost use Rattle.eco_text.specs.Numbers.{IsNumberUpTo};

use eco_text::number_up_to;

/// The largest number of a text.
const MOST: u64 = 9_223_372_036_854_775_807;

/// The number that a word is, where it is one.
pub(crate) fn number_of(word: &[u8]) -> Option<u64>
    ensures some { IfSome result (IsNumberUpTo 9223372036854775807 word.now) }
    ensures none { IfNone result ((number : ℕ) → IsNumberUpTo 9223372036854775807 word.now number → ⊥) }
{
    number_up_to(word, MOST)
}
