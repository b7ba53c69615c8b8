//! The words that statements begin with.

ghost use Rattle.std.specs.Prelude.{◌≡◌};
ghost use Rattle.std.specs.Str.{bytes_eq};
ghost use Rattle.eco_vread.specs.Parse.{kind_of, opening_of};

use eco_netlist::Kind;

/// What a statement's first word says of it.
#[derive(Clone, Copy, Drop)]
pub(crate) enum Opening {
    Input,
    Output,
    Wire,
    Gate(Kind),
    Assign,
}

/// Whether the text is this word.
pub(crate) fn is_text(text: &[u8], word: &[u8]) -> bool
    ensures { result ≡ bytes_eq text.now word.now }
{
    text == word
}

/// The kind of gate that the word names (IEEE 1364-2005, 7.1.1).
#[tactic(auto, unfolding(crate::specs::Parse::kind_of))]
fn kind_of(text: &[u8]) -> Option<Kind>
    ensures { result ≡ kind_of text.now }
{
    if is_text(text, b"and") {
        Some(Kind::And)
    } else if is_text(text, b"nand") {
        Some(Kind::Nand)
    } else if is_text(text, b"or") {
        Some(Kind::Or)
    } else if is_text(text, b"nor") {
        Some(Kind::Nor)
    } else if is_text(text, b"xor") {
        Some(Kind::Xor)
    } else if is_text(text, b"xnor") {
        Some(Kind::Xnor)
    } else if is_text(text, b"buf") {
        Some(Kind::Buf)
    } else if is_text(text, b"not") {
        Some(Kind::Not)
    } else {
        None
    }
}

/// What a statement is that begins with the word.
#[tactic(auto, unfolding(crate::specs::Parse::opening_of))]
pub(crate) fn opening_of(text: &[u8]) -> Option<Opening>
    ensures { result ≡ opening_of text.now }
{
    if is_text(text, b"input") {
        Some(Opening::Input)
    } else if is_text(text, b"output") {
        Some(Opening::Output)
    } else if is_text(text, b"wire") {
        Some(Opening::Wire)
    } else if is_text(text, b"assign") {
        Some(Opening::Assign)
    } else {
        kind_of(text).map(Opening::Gate)
    }
}
