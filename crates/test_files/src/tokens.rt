//! Tokens of Verilog: their kinds and places.

use eco_tokens::{LexError, Lexeme, Token, TokenKind, lex, tokens};
use std::alloc::Global;
use std::test::Fail;

/// A text, and the kinds and places of its tokens.
const TEXT: &[u8] = b"module f_$1(\\x,y[0] ,NOT);// buf\n\tbuf/*/ ;*/(1'b0,\x0c\\buf";

const PLACES: [(TokenKind, u64, u64); 13] = [
    (TokenKind::Word, 0, 6),
    (TokenKind::Simple, 7, 11),
    (TokenKind::Mark, 11, 12),
    (TokenKind::Escaped, 12, 19),
    (TokenKind::Mark, 20, 21),
    (TokenKind::Simple, 21, 24),
    (TokenKind::Mark, 24, 25),
    (TokenKind::Mark, 25, 26),
    (TokenKind::Word, 34, 37),
    (TokenKind::Mark, 44, 45),
    (TokenKind::Constant, 45, 49),
    (TokenKind::Mark, 49, 50),
    (TokenKind::Escaped, 51, 55),
];

/// Whether these are the tokens of the text.
fn have_places(found: &[Token]) -> bool {
    if found.len() != PLACES.len() {
        return false;
    }
    for (token, (kind, start, end)) in found.iter().zip(PLACES) {
        if token.kind != kind || token.start != start || token.end != end {
            return false;
        }
    }
    true
}

#[test]
fn kinds_and_places(rt: HostRuntime) -> Result<(), Fail> {
    let found = tokens(rt.alloc(), TEXT)?;
    assert!(rt; have_places(found.as_slice()));
    Ok(())
}

/// The longest marks of a text.
const MARKS: [&[u8]; 11] = [
    b"=", b"~^", b"~&", b"&", b"||", b"|", b"~|", b"~", b"~&", b"&", b"^",
];

/// Whether these are the marks, in order.
fn are_marks(found: &[Lexeme<'_>]) -> bool {
    if found.len() != MARKS.len() {
        return false;
    }
    for (lexeme, text) in found.iter().zip(MARKS) {
        if lexeme.kind != TokenKind::Mark || lexeme.text != text {
            return false;
        }
    }
    true
}

#[test]
fn operators_are_the_longest_marks(rt: HostRuntime) -> Result<(), Fail> {
    let found = lex(rt.alloc(), b"=~^~&&|||~|~~& &^")?;
    assert!(rt; are_marks(found.as_slice()));
    Ok(())
}

fn error_of(alloc: Global, text: &[u8]) -> Option<u64> {
    match lex(alloc, text) {
        Err(LexError::Syntax { at }) => Some(at),
        _ => None,
    }
}

/// Texts, each with the place of the error.
const ERRORS: [(&[u8], Option<u64>); 9] = [
    (b"", None),
    (b"a # b", Some(2)),
    (b"a /* b", Some(2)),
    (b"/*/", Some(0)),
    (b"a /b", Some(2)),
    (b"\\ a", Some(0)),
    (b" \\a\x80", Some(3)),
    (b"1'b2", Some(0)),
    (b"a\x0b", Some(1)),
];

#[test]
fn errors(rt: HostRuntime) {
    for (text, at) in &ERRORS {
        assert_eq!(rt; error_of(rt.alloc(), text), *at, "at {text:?}");
    }
}
