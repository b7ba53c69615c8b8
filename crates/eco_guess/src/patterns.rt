//! The patterns: inputs at which netlists are simulated, 64 in a word.

use crate::bounds::{SEEN_WORDS, WORDS};
use eco_meaning::Bits;
use eco_simulate::{SplitMix, mixed};

/// Keeps apart the seeds of different inputs.
const INPUT_STEP: u64 = 0x9e37_79b9_7f4a_7c15;

/// The patterns, in words: first those that were seen, then some that are drawn.
#[derive(Clone, Copy)]
pub(crate) struct Patterns<'p> {
    seen: &'p [Bits],
}

impl<'p> Patterns<'p> {
    /// These patterns, and behind them those that are drawn.
    pub(crate) fn new(seen: &'p [Bits]) -> Patterns<'p> {
        Patterns { seen }
    }

    /// How many words have patterns that were seen.
    pub(crate) fn seen_words(&self) -> usize {
        let words = self.seen.len().saturating_add(63) / 64;
        if words < SEEN_WORDS {
            words
        } else {
            SEEN_WORDS
        }
    }

    /// How many words there are.
    pub(crate) fn words(&self) -> usize {
        self.seen_words().saturating_add(WORDS)
    }

    /// The bits of the input of this number at the patterns of a word. What is left of the last word of those that were seen is
    /// drawn.
    pub(crate) fn word(&self, input: usize, place: usize) -> u64 {
        let first = place.saturating_mul(64);
        let patterns = self.seen.get(first..).unwrap_or(&[]);
        let mut word = drawn_word(input, place);
        for (number, pattern) in patterns.iter().take(64).enumerate() {
            let bit = pattern.as_slice().get(input).copied().unwrap_or(false);
            word = with_bit(word, number, bit);
        }
        word
    }
}

/// A word that is drawn. Of eight words four have as many ones as zeros, two few ones and two many.
fn drawn_word(input: usize, place: usize) -> u64 {
    let seed = mixed((input as u64).wrapping_mul(INPUT_STEP)).wrapping_add(place as u64);
    let mut draws = SplitMix::new(mixed(seed));
    let first = draws.next();
    let second = draws.next();
    let third = draws.next();
    match place % 8 {
        4 => first & second & third,
        5 => first | second | third,
        6 => first & second,
        7 => first | second,
        _ => first,
    }
}

/// The word with this bit in this place.
fn with_bit(word: u64, place: usize, bit: bool) -> u64 {
    let mask = 1_u64 << (place % 64);
    if bit { word | mask } else { word & !mask }
}
