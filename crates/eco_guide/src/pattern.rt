//! Values of the inputs at which an output differs.

use crate::network::Network;
use crate::signal::{Signal, truth_of};
use crate::words::Words;
use eco_cdcl::Advice;
use eco_learn::{Trail, Truth};
use eco_meaning::OutOfMemory;
use eco_trace::Lit;
use std::alloc::Global;

/// The inputs' literals, once values were found.
#[derive(Drop)]
pub(crate) struct Pattern {
    lits: Vec<Lit>,
    /// No literal before this place is open.
    place: usize,
    is_found: bool,
}

impl Pattern {
    /// None was found.
    pub(crate) fn new(alloc: Global) -> Pattern {
        Pattern {
            lits: Vec::new(alloc),
            place: 0,
            is_found: false,
        }
    }

    /// Forgets what was found.
    pub(crate) fn begin(&mut self) {
        self.lits.clear();
        self.place = 0;
        self.is_found = false;
    }

    pub(crate) fn is_found(&self) -> bool {
        self.is_found
    }

    /// Looks among the present words. Whether there is one now.
    pub(crate) fn find(&mut self, network: &Network, words: &Words) -> Result<bool, OutOfMemory> {
        if self.is_found {
            return Ok(true);
        }
        for difference in &network.differences {
            if network.gate(difference.node).is_some() {
                let word = words.word(*difference);
                if word != 0 {
                    self.take(network, words, word.trailing_zeros())?;
                    return Ok(true);
                }
            }
        }
        Ok(false)
    }

    /// Takes the values at this bit of the inputs' words.
    fn take(&mut self, network: &Network, words: &Words, bit: u32) -> Result<(), OutOfMemory> {
        for node in &network.inputs {
            let signal = Signal::plain(*node);
            let is_one = (words.word(signal) >> (bit % 64)) & 1 == 1;
            self.lits.push(signal.turned(!is_one).lit())?;
        }
        self.is_found = true;
        Ok(())
    }

    /// Literals before the place may be open again.
    pub(crate) fn rewind(&mut self) {
        self.place = 0;
    }

    /// The next of the literals that is open.
    pub(crate) fn advice(&mut self, trail: &Trail) -> Advice {
        for place in self.place..self.lits.len() {
            self.place = place;
            if let Some(lit) = self.lits.get(place).copied() {
                if matches!(truth_of(trail, lit), Truth::Open) {
                    return Advice::Decide(lit);
                }
            }
        }
        self.place = self.lits.len();
        Advice::Nothing
    }
}
