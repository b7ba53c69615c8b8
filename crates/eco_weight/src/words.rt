//! The words of a line: what stands between blanks.

ghost use Rattle.std.specs.Prelude.{◌≡◌, ◌≤◌, ℕ, not, length, IfSome, IfNone};
ghost use Rattle.std.specs.List.{list_all};
ghost use Rattle.eco_lists.specs.Lines.{run_of, is_blank};
ghost use Rattle.eco_weight.specs.Lines.{named_by, IsWeight};
ghost use Rattle.eco_weight.specs.Words.{IsNextWord};

use eco_text::spelled_up_to;

/// Whether a byte is a blank or a tab.
fn is_blank(byte: u8) -> bool
    ensures { result ≡ is_blank byte }
{
    matches!(byte, b' ' | b'\t')
}

fn blank_run(bytes: &[u8]) -> usize
    ensures value { result ≡ run_of is_blank bytes.now }
    ensures bound { result ≤ length bytes.now }
{
    bytes.iter().take_while(|byte| is_blank(**byte)).count()
}

fn word_run(bytes: &[u8]) -> usize
    ensures value { result ≡ run_of (λ b. not (is_blank b)) bytes.now }
    ensures bound { result ≤ length bytes.now }
{
    bytes.iter().take_while(|byte| !is_blank(**byte)).count()
}

/// Whether there is nothing but blanks.
pub(crate) fn are_blank(bytes: &[u8]) -> bool
    ensures { result ≡ list_all is_blank bytes.now }
{
    bytes.iter().all(|byte| is_blank(*byte))
}

/// The first word, which is empty where there is none, and what stands behind it.
pub(crate) fn next_word(bytes: &[u8]) -> (&[u8], &[u8])
    ensures { IsNextWord bytes.now result.0.now result.1.now }
{
    let (_, bytes) = bytes.split_at(blank_run(bytes));
    bytes.split_at(word_run(bytes))
}

/// What a word names: the word without one backslash at its front.
pub(crate) fn named_by(word: &[u8]) -> &[u8]
    ensures { result.now ≡ named_by word.now }
{
    match word {
        [b'\\', name @ ..] => name,
        _ => word,
    }
}

/// The weight that decimal digits spell; None where there is none.
pub(crate) fn weight_of(digits: &[u8]) -> Option<u32>
    ensures some { IfSome result (IsWeight digits.now) }
    ensures none { IfNone result ((weight : ℕ) → IsWeight digits.now weight → ⊥) }
{
    match spelled_up_to(digits, u64::from(u32::MAX)) {
        Some(weight) => Some(weight as u32),
        None => None,
    }
}
