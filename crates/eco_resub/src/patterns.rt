//! Inputs at which it is known what the function has to be.

use crate::signature::{PATTERNS, Signature};
use eco_meaning::OutOfMemory;
use std::alloc::Global;

/// The patterns. Those that come when there is no room left take the places of the oldest.
#[derive(Drop)]
pub(crate) struct Patterns {
    /// The bits of each input.
    pub(crate) inputs: Vec<Signature>,
    /// Which places have a pattern.
    pub(crate) valid: Signature,
    ones: usize,
    zeros: usize,
}

impl Patterns {
    /// No pattern of no inputs.
    pub(crate) fn new(alloc: Global) -> Patterns {
        Patterns {
            inputs: Vec::new(alloc),
            valid: Signature::EMPTY,
            ones: 0,
            zeros: 0,
        }
    }

    /// Makes room for patterns of so many inputs.
    pub(crate) fn begin(&mut self, inputs: usize) -> Result<(), OutOfMemory> {
        for _ in 0..inputs {
            self.inputs.push(Signature::EMPTY)?;
        }
        Ok(())
    }

    /// Adds the pattern of these bits, at which the function has to be `part`. Answers the number of the word that it is in.
    pub(crate) fn add(&mut self, part: bool, bits: &[bool]) -> usize {
        let count = self.count(part) % PATTERNS;
        let bit = count % 64;
        let first = (count / 64).saturating_mul(2);
        let word = if part { first } else { first.saturating_add(1) };
        for (signature, value) in self.inputs.iter_mut().zip(bits.iter()) {
            signature.put(word, bit, *value);
        }
        self.valid.put(word, bit, true);
        word
    }

    /// Counts a pattern of this part. Answers how many there were.
    fn count(&mut self, part: bool) -> usize {
        if part {
            self.ones = self.ones.saturating_add(1);
            return self.ones.saturating_sub(1);
        }
        self.zeros = self.zeros.saturating_add(1);
        self.zeros.saturating_sub(1)
    }
}
