//! The values of gates in 64 rows at once.

ghost use Rattle.std.specs.Prelude.{◌≡◌, ◌<◌, ℕ, Bool, List, length, map, not};
ghost use Rattle.std.specs.List.{list_all, list_any};
ghost use Rattle.eco_meaning.specs.Gates.{FitsKind, is_odd};
ghost use Rattle.eco_gates.specs.Gates.{IsWithin, IsOnceDriven};
ghost use Rattle.eco_gates.specs.Evaluation.{IsConsistentAt, AgreeUndriven, gate_value, term_value};
ghost use Rattle.eco_gates.specs.Ordering.{IsOrder};
ghost use Rattle.eco_gates.specs.Words.{is_set, lane};

use crate::gate::{Gate, Term};
use eco_meaning::Kind;

/// Gives each net that a gate drives its word, in the given order of the gates, and leaves the others as they are: the
/// bits at each place of the words are those that `fill` gives.
pub fn fill_words(gates: &[Gate], order: &[u64], words: &mut [u64])
    requires within { IsWithin (length words.old) gates.now }
    requires once { IsOnceDriven gates.now }
    requires order { IsOrder gates.now order.now }
    ensures length { length words.new ≡ length words.old }
    ensures consistent { (place : ℕ) → place < 64 → IsConsistentAt gates.now (lane words.new place) }
    ensures kept { (place : ℕ) → place < 64 → AgreeUndriven gates.now (lane words.new place) (lane words.old place) }
    ensures only { (place : ℕ) → place < 64 → (bits : List Bool) → length bits ≡ length words.old
        → IsConsistentAt gates.now bits → AgreeUndriven gates.now bits (lane words.old place) → bits ≡ lane words.new place }
{
    for number in order {
        let gate = &gates[*number as usize];
        let word = evaluate(gate, words);
        words[gate.out.0 as usize] = word;
    }
}

/// The word of the gate where the nets have these words.
fn evaluate(gate: &Gate, words: &[u64]) -> u64
    requires { FitsKind gate.now.kind (length gate.now.ins) }
    ensures { (place : ℕ) → place < 64 → is_set result place ≡ gate_value (lane words.now place) gate.now }
{
    let terms = gate.ins.as_slice();
    match gate.kind {
        Kind::And => all_ones(terms, words),
        Kind::Nand => inverted(all_ones(terms, words)),
        Kind::Or => some_one(terms, words),
        Kind::Nor => inverted(some_one(terms, words)),
        Kind::Xor => odd_ones(terms, words),
        Kind::Xnor => inverted(odd_ones(terms, words)),
        Kind::Buf => word_of(terms[0], words),
        Kind::Not => inverted(word_of(terms[0], words)),
    }
}

#[tactic(auto, using(crate::proofs::WordLemmas::set_not))]
fn inverted(word: u64) -> u64
    ensures { (place : ℕ) → place < 64 → is_set result place ≡ not (is_set word place) }
{
    !word
}

fn all_ones(terms: &[Term], words: &[u64]) -> u64
    ensures { (place : ℕ) → place < 64 →
        is_set result place ≡ list_all (λ bit. bit) (map (term_value (lane words.now place)) terms.now) }
{
    let mut word = u64::MAX;
    for term in terms {
        word &= word_of(*term, words);
    }
    word
}

fn some_one(terms: &[Term], words: &[u64]) -> u64
    ensures { (place : ℕ) → place < 64 →
        is_set result place ≡ list_any (λ bit. bit) (map (term_value (lane words.now place)) terms.now) }
{
    let mut word = 0;
    for term in terms {
        word |= word_of(*term, words);
    }
    word
}

fn odd_ones(terms: &[Term], words: &[u64]) -> u64
    ensures { (place : ℕ) → place < 64 → is_set result place ≡ is_odd (map (term_value (lane words.now place)) terms.now) }
{
    let mut word = 0;
    for term in terms {
        word ^= word_of(*term, words);
    }
    word
}

fn word_of(term: Term, words: &[u64]) -> u64
    ensures { (place : ℕ) → place < 64 → is_set result place ≡ term_value (lane words.now place) term }
{
    match term {
        Term::Zero => 0,
        Term::One => u64::MAX,
        Term::Net(net) => words.get(net.0 as usize).copied().unwrap_or(0),
    }
}
