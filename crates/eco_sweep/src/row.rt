//! Rows of words: the bits of a node under many inputs, 64 a word.

ghost use Rattle.std.specs.Prelude.{◌<◌};

use eco_simulate::{drawn_from, mask_of, sign_of};

/// The words that stay.
pub(crate) const FIXED: usize = 4;

/// The words that counterexamples take in turn.
pub(crate) const RING: usize = 28;

/// The words of a row.
pub(crate) const LAYERS: usize = 32;

/// The words of a node.
pub(crate) type Row = [u64; LAYERS];

/// The place of the word that a counterexample takes, by its number.
pub(crate) fn layer_of(turn: usize) -> usize
    ensures { result < LAYERS }
{
    FIXED + turn % RING
}

/// The word of an input for the layer, after so many counterexamples.
pub(crate) fn drawn_word(node: u64, layer: usize, turn: usize) -> u64 {
    let place = (turn as u64).wrapping_mul(64).wrapping_add(layer as u64);
    drawn_from(drawn_from(node) ^ place)
}

/// The words of an input that was not there before, after so many counterexamples.
pub(crate) fn drawn(node: u64, turn: usize) -> Row {
    let mut row = [0; LAYERS];
    for layer in 0..LAYERS {
        row[layer] = drawn_word(node, layer, turn);
    }
    row
}

/// The words of a conjunction.
pub(crate) fn conjunction(first: &Row, first_mask: u64, second: &Row, second_mask: u64) -> Row {
    let mut row = [0; LAYERS];
    for layer in 0..LAYERS {
        row[layer] = (first[layer] ^ first_mask) & (second[layer] ^ second_mask);
    }
    row
}

/// The sign of the row's first word: rows that are each other's complements differ in it.
pub(crate) fn sign(row: &Row) -> bool {
    sign_of(row[0])
}

/// Whether the rows are equal, or each other's complements.
pub(crate) fn are_like(first: &Row, second: &Row) -> bool {
    let mask = mask_of(sign(first) != sign(second));
    for layer in 0..LAYERS {
        if first[layer] ^ mask != second[layer] {
            return false;
        }
    }
    true
}

/// A key with one more word.
fn joined(key: u64, word: u64) -> u64 {
    (key ^ word)
        .wrapping_mul(0xbf58_476d_1ce4_e5b9)
        .rotate_left(29)
}

/// A number that rows that are alike have in common. It is made of the words that stay, and of those that are taken last
/// after the counterexample of this number: the next `RING / 2` of them change no key.
pub(crate) fn key_of(row: &Row, turn: usize) -> u64 {
    let mask = mask_of(sign(row));
    let mut key = 0;
    for layer in 0..FIXED {
        key = joined(key, row[layer] ^ mask);
    }
    for step in RING / 2..RING {
        key = joined(key, row[layer_of(turn.wrapping_add(step))] ^ mask);
    }
    key
}
