//! What stands at the front of a text: a gap, a token, or neither.

ghost use Rattle.std.specs.Prelude.{◌≡◌, ◌==◌, ◌&&◌, ◌+◌, ◌≤◌, false, not, length, IfSome};
ghost use Rattle.std.specs.List.{list_all};
ghost use Rattle.eco_meaning.specs.Names.{is_printing};
ghost use Rattle.eco_lists.specs.Lines.{run_of};
ghost use Rattle.eco_tokens.specs.Forms.{is_simple};
ghost use Rattle.eco_tokens.specs.Bytes.{is_blank, is_first, is_later, is_separator, is_mark, is_pair};
ghost use Rattle.eco_tokens.specs.Front.{end_of, named_of, escape_of, block_of, comment_of, constant_of, mark_size, front_of};

use crate::TokenKind;
use crate::words::is_reserved;

/// What the front of a text is, with its number of bytes.
#[derive(Clone, Copy)]
pub(crate) enum Front {
    /// White space or a comment.
    Gap(usize),
    /// A token.
    Found(TokenKind, usize),
    /// Neither.
    Bad,
}

fn is_blank(byte: u8) -> bool
    ensures { result ≡ is_blank byte }
{
    matches!(byte, b' ' | b'\t' | b'\n' | 0x0c | b'\r')
}

fn is_printing(byte: u8) -> bool
    ensures { result ≡ is_printing byte }
{
    b'!' <= byte && byte <= b'~'
}

fn is_first(byte: u8) -> bool
    ensures { result ≡ is_first byte }
{
    matches!(byte, b'a'..=b'z' | b'A'..=b'Z' | b'_')
}

fn is_later(byte: u8) -> bool
    ensures { result ≡ is_later byte }
{
    is_first(byte) || matches!(byte, b'0'..=b'9' | b'$')
}

fn is_separator(byte: u8) -> bool
    ensures { result ≡ is_separator byte }
{
    matches!(byte, b'(' | b')' | b',' | b';')
}

fn is_mark(byte: u8) -> bool
    ensures { result ≡ is_mark byte }
{
    is_separator(byte) || matches!(byte, b'~' | b'&' | b'^' | b'|' | b'=')
}

/// Whether the two bytes are one mark (IEEE 1364-2005, 5.1).
fn is_pair(first: u8, second: u8) -> bool
    ensures { result ≡ is_pair first second }
{
    match first {
        b'~' => matches!(second, b'^' | b'&' | b'|'),
        b'^' => second == b'~',
        b'&' => second == b'&',
        b'|' => second == b'|',
        _ => false,
    }
}

/// How many bytes the mark has that begins with the first byte.
#[tactic(auto, unfolding(crate::specs::Front::mark_size))]
fn mark_size(first: u8, more: &[u8]) -> usize
    ensures { result ≡ mark_size first more.now }
{
    match more {
        [second, ..] if is_pair(first, *second) => 2,
        _ => 1,
    }
}

fn later_run(bytes: &[u8]) -> usize
    ensures value { result ≡ run_of is_later bytes.now }
    ensures bound { result ≤ length bytes.now }
{
    bytes.iter().take_while(|byte| is_later(**byte)).count()
}

fn printing_run(bytes: &[u8]) -> usize
    ensures value { result ≡ run_of is_printing bytes.now }
    ensures bound { result ≤ length bytes.now }
{
    bytes.iter().take_while(|byte| is_printing(**byte)).count()
}

fn line_run(bytes: &[u8]) -> usize
    ensures value { result ≡ run_of (λ c. not (c == 10)) bytes.now }
    ensures bound { result ≤ length bytes.now }
{
    bytes.iter().take_while(|byte| **byte != b'\n').count()
}

fn are_later(bytes: &[u8]) -> bool
    ensures { result ≡ list_all is_later bytes.now }
{
    bytes.iter().all(|byte| is_later(*byte))
}

/// Whether the text has the form of a simple identifier (IEEE 1364-2005, 3.7).
#[tactic(auto, unfolding(crate::specs::Forms::is_simple))]
pub(crate) fn is_simple(text: &[u8]) -> bool
    ensures { result ≡ is_simple text.now }
{
    match text {
        [first, more @ ..] => is_first(*first) && are_later(more),
        [] => false,
    }
}

/// Whether a comment ends with this byte, `star` where a `*` stands before it.
fn is_close(star: bool, byte: u8) -> bool
    ensures { result ≡ (star && byte == 47) }
{
    star && byte == b'/'
}

/// The bytes up to and with the first `*/`.
#[tactic(auto, using(crate::proofs::Ends::end_steps))]
fn block_end(bytes: &[u8]) -> Option<usize>
    ensures value { result ≡ end_of false bytes.now }
    ensures bound { IfSome result (λ n. n ≤ length bytes.now) }
{
    let mut star = false;
    for (i, byte) in bytes.iter().enumerate() {
        if is_close(star, *byte) {
            return Some(i + 1);
        }
        star = *byte == b'*';
    }
    None
}

/// An identifier or a word, at a text that begins with a letter or `_`.
#[tactic(auto, unfolding(crate::specs::Front::named_of))]
fn named(bytes: &[u8], count: usize) -> Front
    requires { count ≤ length bytes.now }
    ensures { result ≡ named_of count bytes.now }
{
    let kind = if is_reserved(&bytes[..count]) {
        TokenKind::Word
    } else {
        TokenKind::Simple
    };
    Front::Found(kind, count)
}

/// An escaped identifier, from the byte behind its backslash on.
#[tactic(auto, unfolding(crate::specs::Front::escape_of))]
fn escape(more: &[u8]) -> Front
    ensures { result ≡ escape_of more.now }
{
    match printing_run(more) {
        0 => Front::Bad,
        count => Front::Found(TokenKind::Escaped, count + 1),
    }
}

/// A comment, from the byte behind its first slash on.
#[tactic(auto, unfolding(crate::specs::Front::comment_of, crate::specs::Front::block_of))]
fn comment(more: &[u8]) -> Front
    ensures { result ≡ comment_of more.now }
{
    match more {
        [b'/', rest @ ..] => Front::Gap(line_run(rest) + 2),
        [b'*', rest @ ..] => match block_end(rest) {
            Some(count) => Front::Gap(count + 2),
            None => Front::Bad,
        },
        _ => Front::Bad,
    }
}

/// A constant, from the byte behind its `1` on.
#[tactic(auto, unfolding(crate::specs::Front::constant_of))]
fn constant(more: &[u8]) -> Front
    ensures { result ≡ constant_of more.now }
{
    match more {
        [b'\'', b'b', b'0' | b'1', ..] => Front::Found(TokenKind::Constant, 4),
        _ => Front::Bad,
    }
}

/// What the front of the text is.
#[tactic(auto, unfolding(crate::specs::Front::front_of))]
pub(crate) fn read_front(bytes: &[u8]) -> Front
    ensures { result ≡ front_of bytes.now }
{
    let Some((first, more)) = bytes.split_first() else {
        return Front::Bad;
    };
    match *first {
        byte if is_blank(byte) => Front::Gap(1),
        byte if is_mark(byte) => Front::Found(TokenKind::Mark, mark_size(byte, more)),
        byte if is_first(byte) => named(bytes, later_run(more) + 1),
        b'\\' => escape(more),
        b'/' => comment(more),
        b'1' => constant(more),
        _ => Front::Bad,
    }
}
