//! Numbers that are spelled by decimal digits, with zeros at their front or without.

ghost use Rattle.std.specs.Prelude.{ℕ, IfSome, IfNone};
ghost use Rattle.eco_text.specs.Digits.{HasDigit, IsSpelled};

/// The number with one more decimal digit behind it; None if the byte is no digit or the number is above `most`.
fn with_digit(number: u64, byte: u8, most: u64) -> Option<u64>
    ensures some { IfSome result (HasDigit most number byte) }
    ensures none { IfNone result ((more : ℕ) → HasDigit most number byte more → ⊥) }
{
    if !byte.is_ascii_digit() {
        return None;
    }
    let more = number.checked_mul(10)?.checked_add(u64::from(byte - b'0'))?;
    if more <= most { Some(more) } else { None }
}

/// The number up to `most` that one or more decimal digits spell; zeros at their front count nothing. None if the bytes
/// are none or not all digits, or the number is above `most`.
pub fn spelled_up_to(digits: &[u8], most: u64) -> Option<u64>
    ensures some { IfSome result (IsSpelled most digits.now) }
    ensures none { IfNone result ((number : ℕ) → IsSpelled most digits.now number → ⊥) }
{
    if digits.is_empty() {
        return None;
    }
    let mut number = 0;
    for digit in digits {
        number = with_digit(number, *digit, most)?;
    }
    Some(number)
}
