//! The words that an instance is drawn from.

ghost use Rattle.std.specs.Prelude.{◌≡◌, ℕ, ◌+◌, ◌-◌, ◌*◌, ◌<◌, ◌≤◌, vec_len, slice_index, IfOk};
ghost use Rattle.eco_gen.specs.declared.TheConstants.{INPUTS, MOST_GATES};
ghost use Rattle.eco_gen.specs.Drawn.{word, draw, numbered_kind, gate_kind, first_signal, second_signal, drawn_weight};

use crate::{INPUTS, MOST_GATES};
use eco_meaning::{Kind, OutOfMemory};
use rand_core::SeedableRng;
use rand_core::utils::NextWord;
use rand_pcg::Lcg64Xsh32;
use std::alloc::Global;

/// The seed of an instance, the number of its gates, and the first words of the generator with that seed.
#[derive(Drop)]
pub(crate) struct Draws {
    pub(crate) seed: u64,
    pub(crate) size: u64,
    words: Vec<u32>,
    ghost few_gates: { size ≤ MOST_GATES },
    ghost drawn: { (k : ℕ) → k < vec_len words → slice_index words.items k ≡ word seed k },
    ghost for_gates: { 3 * size + INPUTS ≤ vec_len words },
}

/// The first words of the generator with this seed.
#[tactic(auto, using(crate::proofs::Words::drawing))]
fn first_words(alloc: Global, seed: u64, count: u64) -> Result<Vec<u32>, OutOfMemory>
    ensures len { IfOk result (λ words. vec_len words ≡ count) }
    ensures drawn { IfOk result (λ words. (k : ℕ) → k < count → slice_index words.items k ≡ word seed k) }
{
    let mut generator = Lcg64Xsh32::seed_from_u64(seed);
    let mut words = Vec::new(alloc);
    for number in 0..count {
        words.push(generator.next_word())?;
    }
    Ok(words)
}

/// The kind of this number.
fn numbered_kind(number: u32) -> Kind
    requires { number < 6 }
    ensures { result ≡ numbered_kind number }
{
    match number {
        0 => Kind::And,
        1 => Kind::Nand,
        2 => Kind::Or,
        3 => Kind::Nor,
        4 => Kind::Xor,
        _ => Kind::Xnor,
    }
}

impl Draws {
    /// The words for this many gates, and for the weights of the inputs and of this many gates.
    pub(crate) fn new(alloc: Global, seed: u64, size: u64, kept: u64) -> Result<Draws, OutOfMemory>
        requires few_gates { size ≤ MOST_GATES }
        requires few_kept { kept ≤ size }
        ensures seed { IfOk result (λ draws. draws.seed ≡ seed) }
        ensures size { IfOk result (λ draws. draws.size ≡ size) }
        ensures words { IfOk result (λ draws. vec_len draws.words ≡ 3 * size + INPUTS + kept) }
    {
        let words = first_words(alloc, seed, 3 * size + INPUTS + kept)?;
        Ok(Draws { seed, size, words })
    }

    /// The number of words.
    pub(crate) fn count(&self) -> u64
        ensures { result ≡ vec_len self.now.words }
    {
        self.words.len() as u64
    }

    /// The draw of this number: a number below the bound.
    fn draw(&self, number: u64, bound: u32) -> u32
        requires number { number < vec_len self.now.words }
        requires bound { 0 < bound }
        ensures value { result ≡ draw self.now.seed number bound }
        ensures below { result < bound }
    {
        self.words[number as usize] % bound
    }

    /// The kind of a gate.
    pub(crate) fn kind(&self, gate: u64) -> Kind
        requires { gate < self.now.size }
        ensures { result ≡ gate_kind self.now.seed gate }
    {
        numbered_kind(self.draw(3 * gate, 6))
    }

    /// The first signal that a gate reads, which comes before its own.
    pub(crate) fn first(&self, gate: u64) -> u64
        requires { gate < self.now.size }
        ensures value { result ≡ first_signal self.now.seed gate }
        ensures before { result < INPUTS + gate }
    {
        u64::from(self.draw(3 * gate + 1, (INPUTS + gate) as u32))
    }

    /// The second signal that a gate reads, which comes before its own.
    pub(crate) fn second(&self, gate: u64) -> u64
        requires { gate < self.now.size }
        ensures value { result ≡ second_signal self.now.seed gate }
        ensures before { result < INPUTS + gate }
    {
        u64::from(self.draw(3 * gate + 2, (INPUTS + gate) as u32))
    }

    /// The weight of this number.
    pub(crate) fn weight(&self, number: u64) -> u32
        requires { 3 * self.now.size + number < vec_len self.now.words }
        ensures { result ≡ drawn_weight self.now.seed self.now.size number }
    {
        self.draw(3 * self.size + number, 100) + 1
    }
}
