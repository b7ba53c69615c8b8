//! Netlists that are the same.

ghost use Rattle.std.specs.Prelude.{◌≡◌, ◌↔◌, IsTrue, length};

use crate::netlist::Netlist;
use eco_gates::{Gate, NetId, Term};
use eco_meaning::Name;

impl Netlist {
    ghost use Rattle.std.specs.Prelude.{◌≡◌, ◌↔◌, IsTrue};

    /// Whether the two netlists are the same, module names included.
    pub fn same(&self, other: &Netlist) -> bool
        ensures { IsTrue result ↔ (self.now ≡ other.now) }
    {
        if self.title != other.title {
            return false;
        }
        if !have_same_names(self.names.as_slice(), other.names.as_slice()) {
            return false;
        }
        if !are_same_nets(self.ports.as_slice(), other.ports.as_slice()) {
            return false;
        }
        if !are_same_nets(self.inputs.as_slice(), other.inputs.as_slice()) {
            return false;
        }
        if !are_same_nets(self.outputs.as_slice(), other.outputs.as_slice()) {
            return false;
        }
        are_same_gates(self.gates.as_slice(), other.gates.as_slice())
    }
}

// Whether the names are the same.
fn have_same_names(first: &[Name], second: &[Name]) -> bool
    ensures { IsTrue result ↔ (first.now ≡ second.now) }
{
    first == second
}

// Whether the nets are the same.
fn are_same_nets(first: &[NetId], second: &[NetId]) -> bool
    ensures { IsTrue result ↔ (first.now ≡ second.now) }
{
    first == second
}

// Whether the terms are the same.
fn are_same_terms(first: &[Term], second: &[Term]) -> bool
    ensures { IsTrue result ↔ (first.now ≡ second.now) }
{
    if first.len() != second.len() {
        return false;
    }
    for (place, term) in first.iter().enumerate() {
        if !is_same_term(*term, second[place]) {
            return false;
        }
    }
    true
}

// Whether the two are one term.
fn is_same_term(first: Term, second: Term) -> bool
    ensures { IsTrue result ↔ (first ≡ second) }
{
    match (first, second) {
        (Term::Zero, Term::Zero) => true,
        (Term::One, Term::One) => true,
        (Term::Net(net), Term::Net(other)) => net == other,
        _ => false,
    }
}

// Whether the gates are the same.
fn are_same_gates(first: &[Gate], second: &[Gate]) -> bool
    ensures { IsTrue result ↔ (first.now ≡ second.now) }
{
    if first.len() != second.len() {
        return false;
    }
    for (place, gate) in first.iter().enumerate() {
        let other = &second[place];
        if !is_same_gate(gate, other) {
            return false;
        }
    }
    true
}

// Whether the two are one gate.
fn is_same_gate(first: &Gate, second: &Gate) -> bool
    ensures { IsTrue result ↔ (first.now ≡ second.now) }
{
    if first.kind != second.kind {
        return false;
    }
    if first.out != second.out {
        return false;
    }
    are_same_terms(first.ins.as_slice(), second.ins.as_slice())
}
