//! Decimal numbers, as words: read where they are written with no sign and no needless zero.

ghost use Rattle.std.specs.Prelude.{◌≡◌, ◌<◌, ◌^◌, ◌↔◌, ℕ, decimal, IsTrue, IfSome, IfNone};
ghost use Rattle.eco_text.specs.Numbers.{IsNumberUpTo};

use itoa::Buffer;

/// The number below 2^64 that a word is, written with no sign and no needless zero.
pub fn number_of(word: &[u8]) -> Option<u64>
    ensures some { IfSome result (λ number. (word.now ≡ decimal number) × (number < 2 ^ 64)) }
    ensures none { IfNone result ((number : ℕ) → number < 2 ^ 64 → word.now ≡ decimal number → ⊥) }
{
    match str::from_utf8(word) {
        Ok(text) => number_of_text(text),
        Err(_) => None,
    }
}

/// The number up to `most` that a word is, written with no sign and no needless zero.
pub fn number_up_to(word: &[u8], most: u64) -> Option<u64>
    ensures some { IfSome result (IsNumberUpTo most word.now) }
    ensures none { IfNone result ((number : ℕ) → IsNumberUpTo most word.now number → ⊥) }
{
    let number = number_of(word)?;
    if number <= most { Some(number) } else { None }
}

fn number_of_text(text: &str) -> Option<u64>
    ensures some { IfSome result (λ number. (text.now ≡ decimal number) × (number < 2 ^ 64)) }
    ensures none { IfNone result ((number : ℕ) → number < 2 ^ 64 → text.now ≡ decimal number → ⊥) }
{
    match text.parse::<u64>() {
        Ok(number) => checked_number(text, number),
        Err(_) => None,
    }
}

/// The number, where the text is the one that it has.
fn checked_number(text: &str, number: u64) -> Option<u64>
    ensures some { IfSome result (λ same. (same ≡ number) × (text.now ≡ decimal number)) }
    ensures none { IfNone result (text.now ≡ decimal number → ⊥) }
{
    if is_decimal(text, number) {
        Some(number)
    } else {
        None
    }
}

fn is_decimal(text: &str, number: u64) -> bool
    ensures { IsTrue result ↔ (text.now ≡ decimal number) }
{
    let mut buffer = Buffer::new();
    buffer.format(number).as_bytes() == text.as_bytes()
}
