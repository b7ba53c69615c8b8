//! Texts of gates alone: what they are and which netlists they are texts of, told without the forms of Verilog that they don't
//! use. The definitions are in `specs/`.
#![tactic(auto)]

ghost use Rattle.eco_plain.specs.Plain.{GatesTextIsText};

/// A law of texts: each text in gates alone is, by the whole grammar, a text of its netlist.
pub fn gates_are_verilog()
    ensures text { GatesTextIsText }
{}
