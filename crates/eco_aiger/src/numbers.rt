//! Numbers of texts.

ghost use Rattle.std.specs.Prelude.{ℕ, IfSome, IfNone};
ghost use Rattle.eco_text.specs.Numbers.{IsNumberUpTo};
ghost use Rattle.eco_aiger.specs.Grammar.{limit};

use eco_text::number_up_to;

/// The greatest number of a text.
const LIMIT: u64 = 9_223_372_036_854_775_807;

/// The number that a word is, where it is one.
pub(crate) fn number_of(word: &[u8]) -> Option<u64>
    ensures some { IfSome result (IsNumberUpTo limit word.now) }
    ensures none { IfNone result ((number : ℕ) → IsNumberUpTo limit word.now number → ⊥) }
{
    number_up_to(word, LIMIT)
}
