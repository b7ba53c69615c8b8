//! The values of gates in 64 rows at once, with other nets turned in each.

ghost use Rattle.std.specs.Prelude.{◌≡◌, ◌<◌, ℕ, Bool, List, Contains, length, map, slice_set};
ghost use Rattle.eco_gates.specs.declared.gate.Term.TheVariants.{Net};
ghost use Rattle.eco_gates.specs.Gates.{IsGateWithin, IsWithin, IsOnceDriven};
ghost use Rattle.eco_gates.specs.Evaluation.{IsConsistentAt, AgreeUndriven, gate_value};
ghost use Rattle.eco_gates.specs.Ordering.{IsOrder};
ghost use Rattle.eco_gates.specs.Words.{is_set, lane};
ghost use Rattle.eco_lanes.specs.Turning.{turned_gate};

use eco_gates::{Gate, fill_words};
use std::slice;

/// Gives each net that a gate drives its word, in the given order of the gates, and leaves the others as they are: a bit is
/// the opposite of what `fill` gives, if the same bit of the net's word in `turns` is 1.
pub fn fill_turned(gates: &[Gate], order: &[u64], turns: &[u64], words: &mut [u64])
    requires within { IsWithin (length words.old) gates.now }
    requires once { IsOnceDriven gates.now }
    requires order { IsOrder gates.now order.now }
    requires turns { length turns.now ≡ length words.old }
    ensures length { length words.new ≡ length words.old }
    ensures turned { (place : ℕ) → place < 64 →
        IsConsistentAt (map (turned_gate (lane turns.now place)) gates.now) (lane words.new place) }
    ensures kept { (place : ℕ) → place < 64 → AgreeUndriven gates.now (lane words.new place) (lane words.old place) }
    ensures only { (place : ℕ) → place < 64 → (bits : List Bool) → length bits ≡ length words.old
        → IsConsistentAt (map (turned_gate (lane turns.now place)) gates.now) bits
        → AgreeUndriven gates.now bits (lane words.old place) → bits ≡ lane words.new place }
{
    for number in order {
        let gate = &gates[*number as usize];
        fill_gate(gate, turns, words);
    }
}

/// Gives the net of one gate its word, turned.
fn fill_gate(gate: &Gate, turns: &[u64], words: &mut [u64])
    requires within { IsGateWithin (length words.old) gate.now }
    requires apart { Contains gate.now.ins (Net gate.now.out) → ⊥ }
    requires turns { length turns.now ≡ length words.old }
    ensures length { length words.new ≡ length words.old }
    ensures turned { (place : ℕ) → place < 64 → lane words.new place ≡ slice_set (lane words.old place) gate.now.out.0
        (gate_value (lane words.old place) (turned_gate (lane turns.now place) gate.now)) }
{
    fill_words(slice::from_ref(gate), &[0], words);
    let net = gate.out.0 as usize;
    words[net] = words[net] ^ turns[net];
}
