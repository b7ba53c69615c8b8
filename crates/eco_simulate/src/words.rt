//! Words: a bit for each of 64 inputs.

ghost use Rattle.std.specs.Prelude.{◌≡◌, ◌-◌, ◌^◌, ◌%◌, ◌==◌, if◌then◌else◌};

/// The word that turns all bits of another one by an exclusive or if `complemented`, and else leaves them.
pub fn mask_of(complemented: bool) -> u64
    ensures { result ≡ (if complemented then 2 ^ 64 - 1 else 0) }
{
    if complemented { u64::MAX } else { 0 }
}

/// The word with all bits turned if `complemented`, else the word.
pub fn turned(word: u64, complemented: bool) -> u64
    ensures { result ≡ (if complemented then 2 ^ 64 - 1 - word else word) }
{
    if complemented { !word } else { word }
}

/// The sign of a word, the bit of the first input: it tells a word from its complement.
pub fn sign_of(word: u64) -> bool
    ensures { result ≡ (word % 2 == 1) }
{
    word & 1 == 1
}
