//! The words of a line, and what they spell.

ghost use Rattle.std.specs.Prelude.{◌≡◌, ◌≤◌, ℕ, List, [], ◌∷◌, ◌++◌, IsTrue, ◌↔◌, IfOk, IfSome, IfNone, map, codes};
ghost use Rattle.eco_trace.specs.declared.clause.Lit.{Lit as Literal};
ghost use Rattle.eco_lists.specs.Lines.{cut_at_feeds};
ghost use Rattle.eco_prooftext.specs.CnfFile.{is_blank, is_comment, words_of, IsLiteral};
ghost use Rattle.eco_prooftext.specs.Reading.{Heads, IsVariable};

use crate::numbers::number_of;
use eco_meaning::OutOfMemory;
use eco_trace::{Lit, Var};
use std::alloc::Global;

/// Whether a byte parts words.
fn is_blank(byte: u8) -> bool
    ensures { result ≡ is_blank byte }
{
    matches!(byte, b' ' | b'\t' | b'\r')
}

/// Whether a line is a comment.
pub(crate) fn is_comment(line: &[u8]) -> bool
    ensures { result ≡ is_comment line.now }
{
    match line {
        [first, ..] => *first == b'c',
        [] => false,
    }
}

/// The lines of a text.
pub(crate) fn lines_of(alloc: Global, bytes: &[u8]) -> Result<Vec<&[u8]>, OutOfMemory>
    ensures { IfOk result (λ lines. map (λ line. line.now) lines.items ≡ cut_at_feeds bytes.now) }
{
    let lines = bytes.split(|byte| *byte == b'\n').collect(alloc)?;
    Ok(lines)
}

/// The words of a line.
pub(crate) fn words_of(alloc: Global, line: &[u8]) -> Result<Vec<&[u8]>, OutOfMemory>
    ensures { IfOk result (λ words. map (λ word. word.now) words.items ≡ words_of line.now) }
{
    let words = line
        .split(|byte| is_blank(*byte))
        .filter(|word| !word.is_empty())
        .collect(alloc)?;
    Ok(words)
}

/// The numbers of variables and of clauses in the words of a header.
pub(crate) fn header(words: &[&[u8]]) -> Option<(u64, u64)>
    ensures some { IfSome result (λ head. Heads (map (λ word. word.now) words.now) head.0 head.1) }
    ensures none { IfNone result ((vars count : ℕ) → Heads (map (λ word. word.now) words.now) vars count → ⊥) }
{
    match words {
        [first, second, vars, count] => counts(first, second, vars, count),
        _ => None,
    }
}

fn counts(first: &[u8], second: &[u8], vars: &[u8], count: &[u8]) -> Option<(u64, u64)>
    ensures some { IfSome result (λ head. Heads (first.now ∷ second.now ∷ vars.now ∷ count.now ∷ []) head.0 head.1) }
    ensures none { IfNone result ((v n : ℕ) → Heads (first.now ∷ second.now ∷ vars.now ∷ count.now ∷ []) v n → ⊥) }
{
    if first == b"p".as_slice() && second == b"cnf".as_slice() {
        let vars = number_of(vars)?;
        let count = number_of(count)?;
        Some((vars, count))
    } else {
        None
    }
}

/// Whether the word ends a clause.
pub(crate) fn is_end(word: &[u8]) -> bool
    ensures { IsTrue result ↔ (word.now ≡ codes "0") }
{
    word == b"0".as_slice()
}

/// What stands behind the sign of a word, where it has one.
fn negated(word: &[u8]) -> Option<&[u8]>
    ensures some { IfSome result (λ digits. word.now ≡ codes "-" ++ digits.now) }
    ensures none { IfNone result ((digits : List ℕ) → word.now ≡ codes "-" ++ digits → ⊥) }
{
    match word {
        [b'-', digits @ ..] => Some(digits),
        _ => None,
    }
}

/// The literal that the word spells: a variable from 1 to `vars`, behind `-` where it is negated.
#[tactic(auto, using(crate::proofs::WordReadLaws::negated_some, crate::proofs::WordReadLaws::negated_none, crate::proofs::WordReadLaws::plain_some, crate::proofs::WordReadLaws::plain_none))]
pub(crate) fn literal(vars: u64, word: &[u8]) -> Option<Lit>
    ensures some { IfSome result (IsLiteral vars word.now) }
    ensures none { IfNone result ((lit : Literal) → IsLiteral vars word.now lit → ⊥) }
{
    match negated(word) {
        Some(digits) => signed(vars, digits, false),
        None => signed(vars, word, true),
    }
}

/// The literal of this sign whose variable the digits spell.
fn signed(vars: u64, digits: &[u8], positive: bool) -> Option<Lit>
    ensures some { IfSome result (λ lit. (lit.positive ≡ positive) × IsVariable vars digits.now lit.var.0) }
    ensures none { IfNone result ((n : ℕ) → IsVariable vars digits.now n → ⊥) }
{
    let number = variable(vars, digits)?;
    let var = Var(number);
    Some(Lit { var, positive })
}

/// The number of a variable that the digits spell.
fn variable(vars: u64, digits: &[u8]) -> Option<u64>
    ensures some { IfSome result (IsVariable vars digits.now) }
    ensures none { IfNone result ((n : ℕ) → IsVariable vars digits.now n → ⊥) }
{
    let number = number_of(digits)?;
    if is_between(number, vars) {
        Some(number)
    } else {
        None
    }
}

fn is_between(number: u64, last: u64) -> bool
    ensures { IsTrue result ↔ ((1 ≤ number) × (number ≤ last)) }
{
    1 <= number && number <= last
}
