//! The lines of a report.

ghost use Rattle.std.specs.Prelude.{◌≡◌, ◌≤◌, ◌<◌, ◌^◌, ℕ, List, [], Bool, codes, decimal, IfOk, MatchOption};
ghost use Rattle.eco_report.specs.declared.file.Word.{Word as Kind};
ghost use Rattle.eco_report.specs.Files.{word_text};
ghost use Rattle.eco_report.specs.Reading.{IsNumbered, IsNumbers, AreNumbers, IsAmount, IsNamed, IsPair, IsSpent, IsBudget, IsBase, bits_line};

use crate::file::Word;
use crate::words::{behind, bits_of, cut, is_word};
use eco_meaning::{Bits, Name, OutOfMemory};
use eco_text::number_of;
use std::alloc::Global;

/// The number behind this word.
pub(crate) fn numbered(line: &[u8], word: &[u8]) -> Option<u64>
    ensures { MatchOption result ((number : ℕ) → IsNumbered word.now line.now number → ⊥) (IsNumbered word.now line.now) }
{
    match behind(line, word) {
        Some(digits) => number_of(digits),
        None => None,
    }
}

/// The two numbers behind this word.
pub(crate) fn numbers(line: &[u8], word: &[u8]) -> Option<(u64, u64)>
    ensures { MatchOption result ((one : ℕ) → (other : ℕ) → IsNumbers word.now line.now one other → ⊥)
        (λ pair. IsNumbers word.now line.now pair.0 pair.1) }
{
    match behind(line, word) {
        Some(fields) => two_numbers(fields),
        None => None,
    }
}

fn two_numbers(fields: &[u8]) -> Option<(u64, u64)>
    ensures { MatchOption result ((one : ℕ) → (other : ℕ) → IsNumbers [] fields.now one other → ⊥)
        (λ pair. IsNumbers [] fields.now pair.0 pair.1) }
{
    match cut(fields, b' ') {
        Some((digits, more)) => numbers_of(digits, more),
        None => None,
    }
}

/// The two numbers that these are.
fn numbers_of(digits: &[u8], more: &[u8]) -> Option<(u64, u64)>
    ensures { MatchOption result ((one : ℕ) → (other : ℕ) → AreNumbers digits.now more.now one other → ⊥)
        (λ pair. AreNumbers digits.now more.now pair.0 pair.1) }
{
    match (number_of(digits), number_of(more)) {
        (Some(one), Some(other)) => Some((one, other)),
        _ => None,
    }
}

/// A part's amount.
pub(crate) fn amount(line: &[u8]) -> Option<u32>
    ensures { MatchOption result ((amount : ℕ) → IsAmount line.now amount → ⊥) (IsAmount line.now) }
{
    match behind(line, b"amount ") {
        Some(digits) => limit_of(digits),
        None => None,
    }
}

/// The bits behind this word.
pub(crate) fn bits_behind(
    alloc: Global,
    line: &[u8],
    word: &[u8],
) -> Result<Option<Bits>, OutOfMemory>
    ensures { IfOk result (λ found. MatchOption found ((bits : List Bool) → line.now ≡ bits_line word.now bits → ⊥)
        (λ bits. line.now ≡ bits_line word.now bits)) }
{
    match behind(line, word) {
        Some(digits) => bits_of(alloc, digits),
        None => Ok(None),
    }
}

/// The name and the number behind this word.
pub(crate) fn named(
    alloc: Global,
    line: &[u8],
    word: &[u8],
) -> Result<Option<(Name, u64)>, OutOfMemory>
    ensures { IfOk result (λ found. MatchOption found ((name : List ℕ) → (number : ℕ) → IsNamed word.now line.now name number → ⊥)
        (λ pair. IsNamed word.now line.now pair.0 pair.1)) }
{
    match behind(line, word) {
        Some(fields) => name_and_number(alloc, fields),
        None => Ok(None),
    }
}

fn name_and_number(alloc: Global, fields: &[u8]) -> Result<Option<(Name, u64)>, OutOfMemory>
    ensures { IfOk result (λ found. MatchOption found ((name : List ℕ) → (number : ℕ) → IsNamed [] fields.now name number → ⊥)
        (λ pair. IsNamed [] fields.now pair.0 pair.1)) }
{
    match cut(fields, b' ') {
        Some((name, digits)) => pair_of(alloc, name, digits),
        None => Ok(None),
    }
}

/// The name and the number that these are.
fn pair_of(alloc: Global, name: &[u8], digits: &[u8]) -> Result<Option<(Name, u64)>, OutOfMemory>
    ensures { IfOk result (λ found. MatchOption found ((number : ℕ) → IsPair name.now digits.now name.now number → ⊥)
        (λ pair. IsPair name.now digits.now pair.0 pair.1)) }
{
    match (Name::new(alloc, name)?, number_of(digits)) {
        (Some(name), Some(number)) => Ok(Some((name, number))),
        _ => Ok(None),
    }
}

/// The name and the weight of a base signal.
pub(crate) fn base(alloc: Global, line: &[u8]) -> Result<Option<(Name, u32)>, OutOfMemory>
    ensures { IfOk result (λ found. MatchOption found ((name : List ℕ) → (weight : ℕ) → IsBase line.now name weight → ⊥)
        (λ pair. IsBase line.now pair.0 pair.1)) }
{
    match named(alloc, line, b"base ")? {
        Some((name, number)) => Ok(with_weight(name, number)),
        None => Ok(None),
    }
}

/// The name with a number of 32 bits.
fn with_weight(name: Name, number: u64) -> Option<(Name, u32)>
    ensures { MatchOption result (number < 2 ^ 32 → ⊥)
        (λ pair. (pair.0 ≡ name) × (pair.1 ≡ number) × (number < 2 ^ 32)) }
{
    match u32::try_from(number) {
        Ok(weight) => Some((name, weight)),
        Err(_) => None,
    }
}

/// The kind of question of this word.
fn word_of(bytes: &[u8]) -> Option<Word>
    ensures { MatchOption result ((word : Kind) → bytes.now ≡ word_text word → ⊥) (λ word. bytes.now ≡ word_text word) }
{
    if is_word(bytes, b"rect") {
        Some(Word::Rect)
    } else if is_word(bytes, b"sep") {
        Some(Word::Sep)
    } else if is_word(bytes, b"fix") {
        Some(Word::Fix)
    } else if is_word(bytes, b"eq") {
        Some(Word::Eq)
    } else {
        None
    }
}

/// The limit that digits spell.
fn limit_of(digits: &[u8]) -> Option<u32>
    ensures { MatchOption result ((limit : ℕ) → 1 ≤ limit → limit < 2 ^ 32 → digits.now ≡ decimal limit → ⊥)
        (λ limit. (digits.now ≡ decimal limit) × (1 ≤ limit) × (limit < 2 ^ 32)) }
{
    match number_of(digits) {
        Some(number) => checked_limit(number),
        None => None,
    }
}

/// The number, where it is a limit.
fn checked_limit(number: u64) -> Option<u32>
    ensures { MatchOption result (1 ≤ number → number < 2 ^ 32 → ⊥)
        (λ limit. (limit ≡ number) × (1 ≤ number) × (number < 2 ^ 32)) }
{
    match u32::try_from(number) {
        Ok(limit) if 1 <= limit => Some(limit),
        _ => None,
    }
}

/// The kind of question and the limit of a budget that was spent.
pub(crate) fn budget(line: &[u8]) -> Option<(Word, u32)>
    ensures { MatchOption result ((word : Kind) → (limit : ℕ) → IsBudget (codes "budget ") line.now word limit → ⊥)
        (λ spent. IsBudget (codes "budget ") line.now spent.0 spent.1) }
{
    match behind(line, b"budget ") {
        Some(fields) => word_and_limit(fields),
        None => None,
    }
}

fn word_and_limit(fields: &[u8]) -> Option<(Word, u32)>
    ensures { MatchOption result ((word : Kind) → (limit : ℕ) → IsBudget [] fields.now word limit → ⊥)
        (λ spent. IsBudget [] fields.now spent.0 spent.1) }
{
    match cut(fields, b' ') {
        Some((word, digits)) => spent_of(word, digits),
        None => None,
    }
}

/// The kind of question and the limit that these are.
fn spent_of(word: &[u8], digits: &[u8]) -> Option<(Word, u32)>
    ensures { MatchOption result ((kind : Kind) → (limit : ℕ) → IsSpent word.now digits.now kind limit → ⊥)
        (λ spent. IsSpent word.now digits.now spent.0 spent.1) }
{
    match (word_of(word), limit_of(digits)) {
        (Some(word), Some(limit)) => Some((word, limit)),
        _ => None,
    }
}
