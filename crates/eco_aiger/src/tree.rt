//! The syntax tree of a text.

use eco_keyed::Keyed;

/// An and-line: the literals of its left side and of its right side.
#[derive(Clone, Copy, PartialEq, Eq)]
pub struct AndLine {
    /// The literal whose variable the line defines.
    pub left: u64,
    /// The first literal of the right side.
    pub first: u64,
    /// The second literal of the right side.
    pub second: u64,
}

/// A symbol: the place of the port that it names, inputs first, and the name as it is written.
#[derive(Clone, Copy, Drop)]
pub(crate) struct Symbol<'a> {
    pub(crate) port: u64,
    pub(crate) text: &'a [u8],
}

/// The numbers of a header: the greatest variable, and how many inputs, outputs and and-lines there are.
#[derive(Clone, Copy, Drop)]
pub(crate) struct Header {
    pub(crate) top: u64,
    pub(crate) inputs: u64,
    pub(crate) outputs: u64,
    pub(crate) ands: u64,
}

/// A file, with the key for the tables of what it holds.
#[derive(Drop)]
pub(crate) struct Tree<'a> {
    pub(crate) keyed: Keyed,
    pub(crate) top: u64,
    pub(crate) inputs: Vec<u64>,
    pub(crate) outputs: Vec<u64>,
    pub(crate) ands: Vec<AndLine>,
    pub(crate) symbols: Vec<Symbol<'a>>,
}
