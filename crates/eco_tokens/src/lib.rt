//! The tokens of structural Verilog: what a reader of netlists reads, and a writer writes.
//!
//! White space (blank, tab, line feed, form feed, carriage return) and comments may stand between any
//! two tokens. A token is a simple identifier, a reserved word, an escaped identifier, one of the
//! constants `1'b0` and `1'b1`, or a mark: `(`, `)`, `,`, `;`, `=`, or an operator `~`, `&`, `^`, `|`, `~^`, `^~`,
//! `~&`, `~|`, `&&` or `||` (IEEE 1364-2005, clause 3). That some of these stand in no grammar is the parser's matter.
#![tactic(auto)]

ghost use Rattle.std.specs.Prelude.{◌≡◌, ◌+◌, ◌<◌, ◌≤◌, ℕ, true, map, length, Err, IfOk, IfSome, All};
ghost use Rattle.eco_tokens.specs.declared.LexError.TheVariants.{OutOfMemory, Syntax};
ghost use Rattle.eco_tokens.specs.Forms.{is_plain, has_form};
ghost use Rattle.eco_tokens.specs.Said.{said_of, said_in, token_of, is_name_kind};
ghost use Rattle.eco_tokens.specs.Ahead.{nothing, tokens_ahead, tokens_from};
ghost use Rattle.eco_tokens.specs.Tokens.{AreTokens, ArePlaces};
ghost use Rattle.eco_tokens.specs.Finds.{Finds};
ghost use Rattle.eco_tokens.specs.Stops.{StopsAt};

mod fronts;
mod words;

use crate::fronts::{Front, is_simple, read_front};
use crate::words::is_reserved;
use std::alloc::{AllocError, AllocFailed, Global};
use std::fmt::{self, Debug, Display, Formatter};
use thiserror::Error;

/// The kinds of tokens.
#[derive(Clone, Copy, PartialEq, Eq)]
pub enum TokenKind {
    /// A simple identifier that isn't reserved (IEEE 1364-2005, 3.7).
    Simple,
    /// A simple identifier that is reserved (IEEE 1364-2005, 3.7.2).
    Word,
    /// An escaped identifier (IEEE 1364-2005, 3.7.1).
    Escaped,
    /// `1'b0` or `1'b1` (IEEE 1364-2005, 3.5.1).
    Constant,
    /// One of `(`, `)`, `,`, `;` and `=`, or an operator (IEEE 1364-2005, 3.4).
    Mark,
}

/// A token as a parser sees it.
#[derive(Clone, Copy)]
pub struct Lexeme<'a> {
    /// What kind it is of.
    pub kind: TokenKind,
    /// Its bytes; an escaped identifier's with the backslash.
    pub text: &'a [u8],
    /// How many bytes of the text stand before it.
    pub start: u64,
}

/// A token's kind and place: its bytes are those of the text from `start` up to `end`, which isn't among them.
#[derive(Clone, Copy)]
pub struct Token {
    /// What kind it is of.
    pub kind: TokenKind,
    /// How many bytes of the text stand before it.
    pub start: u64,
    /// How many bytes of the text stand before its end.
    pub end: u64,
}

/// Why a text has no tokens.
#[derive(Drop, Error)]
pub enum LexError {
    /// The text isn't white space, comments and tokens. At `at` a byte stands where none of these
    /// begins with it, or a `/*` without its end.
    #[error("no token begins at byte {at}")]
    Syntax {
        /// How many bytes of the text stand before that one.
        at: u64,
    },
    /// The memory didn't suffice.
    #[error("out of memory")]
    OutOfMemory,
}

/// As it is displayed.
impl Debug for LexError {
    fn fmt<W: fmt::Write>(&self, f: &mut Formatter<W>) -> fmt::Result {
        Display::fmt(self, f)
    }
}

impl From<AllocError> for LexError {
    ghost from_gives = { λ _ e. e ≡ OutOfMemory };

    fn from(_error: AllocError) -> LexError {
        LexError::OutOfMemory
    }
}

impl<T: Drop> From<AllocFailed<T>> for LexError {
    ghost from_gives = { λ _ e. e ≡ OutOfMemory };

    fn from(_error: AllocFailed<T>) -> LexError {
        LexError::OutOfMemory
    }
}

/// Whether a text is a simple identifier that isn't reserved, so that a name of it is written as it is
/// (IEEE 1364-2005, 3.7). A name of any other visible characters is written with a backslash before
/// it and white space behind it.
#[tactic(auto, unfolding(crate::specs::Forms::is_plain))]
pub fn is_plain(text: &[u8]) -> bool
    ensures { result ≡ is_plain text.now }
{
    is_simple(text) && !is_reserved(text)
}

/// The tokens of a text, in order.
///
/// # Errors
///
/// `Syntax` exactly where the text isn't white space, comments and tokens, one after another, each
/// token the longest at its place, and then at the first byte with which none of these begins;
/// `OutOfMemory` only for want of memory.
pub fn lex<'a>(alloc: Global, bytes: &'a [u8]) -> Result<Vec<Lexeme<'a>>, LexError>
    ensures found { Finds (λ v. map said_of v.items) result (AreTokens bytes.now) }
    ensures placed { Finds (λ v. map token_of v.items) result (ArePlaces bytes.now) }
    ensures within { IfOk result (λ v. All (λ l. l.start + length l.text.now ≤ length bytes.now) v.items) }
    ensures forms { IfOk result (λ v. All (λ l. has_form l.kind l.text.now ≡ true) v.items) }
    ensures fault { (at : ℕ) → result ≡ Err (Syntax at) → StopsAt bytes.now at }
{
    let mut lexemes = Vec::new(alloc);
    let mut rest = bytes;
    while !rest.is_empty() {
        let start = (bytes.len() - rest.len()) as u64;
        match read_front(rest) {
            Front::Gap(count) => {
                let (_, after) = rest.split_at(count);
                rest = after;
            }
            Front::Found(kind, count) => {
                let (text, after) = rest.split_at(count);
                lexemes.push(Lexeme { kind, text, start })?;
                rest = after;
            }
            Front::Bad => return Err(LexError::Syntax { at: start }),
        }
    }
    Ok(lexemes)
}

/// The first token of a text, and what stands behind it; None where white space and comments alone are left. Where a
/// byte begins neither these nor a token, that is told as a mark without bytes, which no text has, with nothing behind.
pub fn first_token<'a>(bytes: &'a [u8]) -> Option<(Lexeme<'a>, &'a [u8])>
    ensures value { tokens_ahead bytes.now ≡ tokens_from result }
    ensures names { IfSome result (λ found. is_name_kind found.0.kind ≡ true → has_form found.0.kind found.0.text.now ≡ true) }
    ensures fewer { IfSome result (λ found. length found.1.now < length bytes.now) }
{
    let mut rest = bytes;
    while !rest.is_empty() {
        let start = (bytes.len() - rest.len()) as u64;
        match read_front(rest) {
            Front::Gap(count) => {
                let (_, after) = rest.split_at(count);
                rest = after;
            }
            Front::Found(kind, count) => {
                let (text, behind) = rest.split_at(count);
                return Some((Lexeme { kind, text, start }, behind));
            }
            Front::Bad => return Some((nothing(start), &[])),
        }
    }
    None
}

/// A mark without bytes, at this place.
fn nothing<'a>(start: u64) -> Lexeme<'a>
    ensures { said_of result ≡ nothing }
{
    Lexeme {
        kind: TokenKind::Mark,
        text: &[],
        start,
    }
}

/// The kinds and places of the tokens of a text, in order.
///
/// # Errors
///
/// As [`lex`].
pub fn tokens(alloc: Global, bytes: &[u8]) -> Result<Vec<Token>, LexError>
    ensures placed { Finds (λ v. v.items) result (ArePlaces bytes.now) }
    // What stands at these places is what the tokens say.
    ensures texts { Finds (λ v. map (said_in bytes.now) v.items) result (AreTokens bytes.now) }
    ensures fault { (at : ℕ) → result ≡ Err (Syntax at) → StopsAt bytes.now at }
{
    let lexemes = lex(alloc, bytes)?;
    let mut tokens = Vec::new(alloc);
    for lexeme in &lexemes {
        let end = lexeme.start + lexeme.text.len() as u64;
        tokens.push(Token {
            kind: lexeme.kind,
            start: lexeme.start,
            end,
        })?;
    }
    Ok(tokens)
}
