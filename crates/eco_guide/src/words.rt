//! The values of nodes at many values of the inputs, 64 at a time.

use crate::network::Network;
use crate::reader::Gate;
use crate::signal::{Signal, truth_at};
use eco_learn::{Trail, Truth};
use eco_meaning::OutOfMemory;
use eco_simulate::{SplitMix, drawn_from, mask_of, mixed, sign_of, turned};
use std::alloc::Global;

/// Where drawing begins.
const SEED: u64 = 0x1234_5678;

/// How many values of nodes are found at most for nodes that differ, 64 of one node counted as one.
const MOST_VALUES: u64 = 1 << 32;

/// The values: of each node the present word of 64 bits, and a sign of all its words so far, which is the same for the
/// complement.
#[derive(Drop)]
pub(crate) struct Words {
    words: Vec<u64>,
    signs: Vec<u64>,
    /// Whether the first bit of a node's first word is 1: then its complement is counted.
    phases: Vec<bool>,
    draws: SplitMix,
    count: u64,
}

impl Words {
    /// No nodes.
    pub(crate) fn new(alloc: Global) -> Words {
        Words {
            words: Vec::new(alloc),
            signs: Vec::new(alloc),
            phases: Vec::new(alloc),
            draws: SplitMix::new(SEED),
            count: 0,
        }
    }

    /// So many nodes, without words.
    pub(crate) fn begin(&mut self, nodes: usize) -> Result<(), OutOfMemory> {
        self.words.clear();
        self.signs.clear();
        self.phases.clear();
        for _ in 0..nodes {
            self.words.push(0)?;
            self.signs.push(0)?;
            self.phases.push(false)?;
        }
        self.draws = SplitMix::new(SEED);
        self.count = 0;
        Ok(())
    }

    /// The node's sign.
    pub(crate) fn sign(&self, node: usize) -> u64 {
        self.signs.get(node).copied().unwrap_or(0)
    }

    /// Whether the node's complement is counted.
    pub(crate) fn phase(&self, node: usize) -> bool {
        self.phases.get(node).copied().unwrap_or(false)
    }

    /// The present word of the signal.
    pub(crate) fn word(&self, signal: Signal) -> u64 {
        let word = self.words.get(signal.node).copied().unwrap_or(0);
        turned(word, signal.complemented)
    }

    /// Takes one more word, in which the inputs' bits are drawn.
    pub(crate) fn draw(&mut self, network: &Network) {
        for node in &network.inputs {
            let word = self.draws.next();
            self.set(*node, word);
        }
        self.simulate(network);
    }

    /// Whether so many values were found that no more are to be.
    pub(crate) fn is_spent(&self) -> bool {
        self.count.saturating_mul(self.words.len() as u64) > MOST_VALUES
    }

    /// Takes one more word, in which the inputs have the values that the trail knows, but for a few bits; the bits of the
    /// other inputs are drawn. The first bits are all as the trail has them.
    pub(crate) fn follow(&mut self, network: &Network, trail: &Trail) {
        for node in &network.inputs {
            let drawn = self.draws.next();
            let few = self.few();
            let word = match truth_at(trail, Signal::plain(*node)) {
                Truth::Open => drawn,
                Truth::True => !few,
                Truth::False => few,
            };
            self.set(*node, word);
        }
        self.simulate(network);
    }

    /// A word in which a bit is 1 one time in 32, and the first one never.
    fn few(&mut self) -> u64 {
        let mut few = !1_u64;
        for _ in 0..5 {
            few = few & self.draws.next();
        }
        few
    }

    fn set(&mut self, node: usize, word: u64) {
        if let Some(old) = self.words.get_mut(node) {
            *old = word;
        }
    }

    /// Gives all nodes the words that the inputs' words give, and counts them.
    fn simulate(&mut self, network: &Network) {
        if let Some(truth) = network.truth() {
            self.set(truth.node, mask_of(!truth.complemented));
        }
        for node in &network.order {
            if let Some(gate) = network.gate(*node) {
                let word = self.result(gate, network.operands(gate));
                self.set(*node, word);
            }
            self.count_word(*node);
        }
        self.count = self.count.wrapping_add(1);
    }

    /// The word of the node whose gate this is.
    fn result(&self, gate: Gate, operands: &[Signal]) -> u64 {
        let word = if gate.is_xor {
            self.parity(operands)
        } else {
            self.conjunction(operands)
        };
        turned(word, gate.out.complemented)
    }

    fn conjunction(&self, operands: &[Signal]) -> u64 {
        let mut word = !0_u64;
        for operand in operands {
            word = word & self.word(*operand);
        }
        word
    }

    fn parity(&self, operands: &[Signal]) -> u64 {
        let mut word = 0;
        for operand in operands {
            word = word ^ self.word(*operand);
        }
        word
    }

    /// Lets the node's sign depend on its present word too.
    fn count_word(&mut self, node: usize) {
        let word = self.word(Signal::plain(node));
        if self.count == 0 {
            if let Some(phase) = self.phases.get_mut(node) {
                *phase = sign_of(word);
            }
        }
        let counted = turned(word, self.phase(node));
        let key = drawn_from(self.count);
        if let Some(sign) = self.signs.get_mut(node) {
            *sign = mixed(*sign ^ mixed(counted ^ key));
        }
    }
}
