//! The values of gates.

ghost use Rattle.std.specs.Prelude.{◌≡◌, Bool, List, length, map};
ghost use Rattle.std.specs.List.{list_all, list_any};
ghost use Rattle.eco_meaning.specs.Gates.{FitsKind, is_odd};
ghost use Rattle.eco_gates.specs.Gates.{IsWithin, IsOnceDriven};
ghost use Rattle.eco_gates.specs.Evaluation.{IsConsistentAt, AgreeUndriven, gate_value, term_value};
ghost use Rattle.eco_gates.specs.Ordering.{IsOrder};

use crate::gate::{Gate, Term};
use eco_meaning::Kind;

/// Gives each net that a gate drives its value, in the given order of the gates, and leaves the others as they are.
pub fn fill(gates: &[Gate], order: &[u64], values: &mut [bool])
    requires within { IsWithin (length values.old) gates.now }
    requires once { IsOnceDriven gates.now }
    requires order { IsOrder gates.now order.now }
    ensures length { length values.new ≡ length values.old }
    ensures consistent { IsConsistentAt gates.now values.new }
    ensures kept { AgreeUndriven gates.now values.new values.old }
    ensures only { (bits : List Bool) → length bits ≡ length values.old → IsConsistentAt gates.now bits
        → AgreeUndriven gates.now bits values.old → bits ≡ values.new }
{
    for number in order {
        let gate = &gates[*number as usize];
        let bit = evaluate(gate, values);
        values[gate.out.0 as usize] = bit;
    }
}

/// The value of the gate where the nets have these bits.
fn evaluate(gate: &Gate, values: &[bool]) -> bool
    requires { FitsKind gate.now.kind (length gate.now.ins) }
    ensures { result ≡ gate_value values.now gate.now }
{
    let terms = gate.ins.as_slice();
    match gate.kind {
        Kind::And => are_all_ones(terms, values),
        Kind::Nand => !are_all_ones(terms, values),
        Kind::Or => has_one(terms, values),
        Kind::Nor => !has_one(terms, values),
        Kind::Xor => has_odd_ones(terms, values),
        Kind::Xnor => !has_odd_ones(terms, values),
        Kind::Buf => bit_of(terms[0], values),
        Kind::Not => !bit_of(terms[0], values),
    }
}

fn are_all_ones(terms: &[Term], values: &[bool]) -> bool
    ensures { result ≡ list_all (λ bit. bit) (map (term_value values.now) terms.now) }
{
    terms
        .iter()
        .map(|term| bit_of(*term, values))
        .all(|bit| bit)
}

fn has_one(terms: &[Term], values: &[bool]) -> bool
    ensures { result ≡ list_any (λ bit. bit) (map (term_value values.now) terms.now) }
{
    terms
        .iter()
        .map(|term| bit_of(*term, values))
        .any(|bit| bit)
}

fn has_odd_ones(terms: &[Term], values: &[bool]) -> bool
    ensures { result ≡ is_odd (map (term_value values.now) terms.now) }
{
    terms.iter().filter(|term| bit_of(**term, values)).count() % 2 == 1
}

fn bit_of(term: Term, values: &[bool]) -> bool
    ensures { result ≡ term_value values.now term }
{
    match term {
        Term::Zero => false,
        Term::One => true,
        Term::Net(net) => values.get(net.0 as usize).copied().unwrap_or(false),
    }
}
