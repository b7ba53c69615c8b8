//! What one line of the header, of a literal or of an and says.

ghost use Rattle.std.specs.Prelude.{◌≡◌, ◌↔◌, ◌≤◌, ◌%◌, ℕ, [], ◌∷◌, map, codes, IsTrue, IfOk, IfSome, IfNone, MatchOption};
ghost use Rattle.eco_aiger.specs.declared.tree.AndLine.{AndLine as And};
ghost use Rattle.eco_aiger.specs.declared.tree.Header.{Header as Head};
ghost use Rattle.eco_aiger.specs.Grammar.{words_of};
ghost use Rattle.eco_aiger.specs.Parts.{IsHeader, IsHeaderOf, IsLiteralWord, IsPlainWord, IsFormRow, IsAndRow};

use crate::lines::words_of;
use crate::numbers::number_of;
use crate::tree::{AndLine, Header};
use eco_netlist::OutOfMemory;
use std::alloc::Global;

/// The literal that a word is, of a variable up to this one.
pub(crate) fn literal(top: u64, word: &[u8]) -> Option<u64>
    ensures some { IfSome result (IsLiteralWord top word.now) }
    ensures none { IfNone result ((n : ℕ) → IsLiteralWord top word.now n → ⊥) }
{
    let number = number_of(word)?;
    if number / 2 <= top {
        Some(number)
    } else {
        None
    }
}

/// Whether a literal is neither a complement nor a constant.
fn can_define(literal: u64) -> bool
    ensures { IsTrue result ↔ ((literal % 2 ≡ 0) × (2 ≤ literal)) }
{
    literal % 2 == 0 && literal >= 2
}

/// The literal that a word is, where it can define a variable up to this one.
pub(crate) fn plain_literal(top: u64, word: &[u8]) -> Option<u64>
    ensures some { IfSome result (IsPlainWord top word.now) }
    ensures none { IfNone result ((n : ℕ) → IsPlainWord top word.now n → ⊥) }
{
    let number = literal(top, word)?;
    if can_define(number) {
        Some(number)
    } else {
        None
    }
}

/// The literal that the one word is, which may be of any form or has to be plain.
fn literal_of(is_plain: bool, top: u64, word: &[u8]) -> Option<u64>
    ensures some { IfSome result (IsFormRow is_plain top (word.now ∷ [])) }
    ensures none { IfNone result ((n : ℕ) → IsFormRow is_plain top (word.now ∷ []) n → ⊥) }
{
    if is_plain {
        plain_literal(top, word)
    } else {
        literal(top, word)
    }
}

/// The literal that stands alone in the words.
fn literal_in(is_plain: bool, top: u64, words: &[&[u8]]) -> Option<u64>
    ensures some { IfSome result (IsFormRow is_plain top (map (λ word. word.now) words.now)) }
    ensures none { IfNone result ((n : ℕ) → IsFormRow is_plain top (map (λ word. word.now) words.now) n → ⊥) }
{
    match words {
        [word] => literal_of(is_plain, top, word),
        _ => None,
    }
}

/// The literal that a line is.
pub(crate) fn read_literal(
    alloc: Global,
    is_plain: bool,
    top: u64,
    line: &[u8],
) -> Result<Option<u64>, OutOfMemory>
    ensures { IfOk result (λ found. MatchOption found
        ((n : ℕ) → IsFormRow is_plain top (words_of line.now) n → ⊥) (IsFormRow is_plain top (words_of line.now))) }
{
    let words = words_of(alloc, line)?;
    Ok(literal_in(is_plain, top, words.as_slice()))
}

/// The and-line of three words.
fn and_of(top: u64, left: &[u8], first: &[u8], second: &[u8]) -> Option<AndLine>
    ensures some { IfSome result (IsAndRow top (left.now ∷ first.now ∷ second.now ∷ [])) }
    ensures none { IfNone result ((a : And) → IsAndRow top (left.now ∷ first.now ∷ second.now ∷ []) a → ⊥) }
{
    let left = plain_literal(top, left)?;
    let first = literal(top, first)?;
    let second = literal(top, second)?;
    Some(AndLine {
        left,
        first,
        second,
    })
}

/// The and-line that the words are.
fn and_in(top: u64, words: &[&[u8]]) -> Option<AndLine>
    ensures some { IfSome result (IsAndRow top (map (λ word. word.now) words.now)) }
    ensures none { IfNone result ((a : And) → IsAndRow top (map (λ word. word.now) words.now) a → ⊥) }
{
    match words {
        [left, first, second] => and_of(top, left, first, second),
        _ => None,
    }
}

/// The and-line that a line is.
pub(crate) fn read_and(alloc: Global, top: u64, line: &[u8]) -> Result<Option<AndLine>, OutOfMemory>
    ensures { IfOk result (λ found. MatchOption found
        ((a : And) → IsAndRow top (words_of line.now) a → ⊥) (IsAndRow top (words_of line.now))) }
{
    let words = words_of(alloc, line)?;
    Ok(and_in(top, words.as_slice()))
}

/// The header of four numbers.
fn header_of(top: &[u8], inputs: &[u8], outputs: &[u8], ands: &[u8]) -> Option<Header>
    ensures some { IfSome result (IsHeaderOf top.now inputs.now outputs.now ands.now) }
    ensures none { IfNone result ((h : Head) → IsHeaderOf top.now inputs.now outputs.now ands.now h → ⊥) }
{
    let top = number_of(top)?;
    let inputs = number_of(inputs)?;
    let outputs = number_of(outputs)?;
    let ands = number_of(ands)?;
    Some(Header {
        top,
        inputs,
        outputs,
        ands,
    })
}

/// Whether these are the words that stand beside the numbers of a header.
fn is_tagged(tag: &[u8], latches: &[u8]) -> bool
    ensures { IsTrue result ↔ ((tag.now ≡ codes "aag") × (latches.now ≡ codes "0")) }
{
    tag == b"aag".as_slice() && latches == b"0".as_slice()
}

/// The header of six words.
fn header_of_words(
    tag: &[u8],
    top: &[u8],
    inputs: &[u8],
    latches: &[u8],
    outputs: &[u8],
    ands: &[u8],
) -> Option<Header>
    ensures some { IfSome result (IsHeader (tag.now ∷ top.now ∷ inputs.now ∷ latches.now ∷ outputs.now ∷ ands.now ∷ [])) }
    ensures none { IfNone result ((h : Head) → IsHeader (tag.now ∷ top.now ∷ inputs.now ∷ latches.now ∷ outputs.now ∷ ands.now ∷ []) h → ⊥) }
{
    if is_tagged(tag, latches) {
        header_of(top, inputs, outputs, ands)
    } else {
        None
    }
}

/// The header that the words are.
fn header_in(words: &[&[u8]]) -> Option<Header>
    ensures some { IfSome result (IsHeader (map (λ word. word.now) words.now)) }
    ensures none { IfNone result ((h : Head) → IsHeader (map (λ word. word.now) words.now) h → ⊥) }
{
    match words {
        [tag, top, inputs, latches, outputs, ands] => {
            header_of_words(tag, top, inputs, latches, outputs, ands)
        }
        _ => None,
    }
}

/// The header that a line is.
pub(crate) fn read_header(alloc: Global, line: &[u8]) -> Result<Option<Header>, OutOfMemory>
    ensures { IfOk result (λ found. MatchOption found
        ((h : Head) → IsHeader (words_of line.now) h → ⊥) (IsHeader (words_of line.now))) }
{
    let words = words_of(alloc, line)?;
    Ok(header_in(words.as_slice()))
}
