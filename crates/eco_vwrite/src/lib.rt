//! Netlists as structural Verilog.
//!
//! The canonical text of a netlist is in lines, each of which ends in a line feed: `module NAME (PORTS);`, then
//! `input NAME;` or `output NAME;` for each port, `wire NAME;` for each wire, `KIND (OUTPUT, INPUTS);` for each gate,
//! and `endmodule`. A name is plain where it is a simple identifier that isn't reserved, and else an escaped
//! identifier (IEEE 1364-2005, 3.7).
#![tactic(auto)]

ghost use Rattle.std.specs.Prelude.{◌≡◌, IfOk, ℕ, List};
ghost use Rattle.eco_meaning.specs.Circuit.{IsTarget};
ghost use Rattle.eco_netlist.specs.declared.draft.TargetRule.TheVariants.{Allowed, Never};
ghost use Rattle.eco_plain.specs.Plain.{IsGatesText};
ghost use Rattle.eco_vwrite.specs.Written.{written};

mod lines;
mod terms;

use crate::lines::{push_gates, push_header, push_ports, push_wires};
use eco_netlist::{Netlist, OutOfMemory};
use std::alloc::Global;

/// The canonical text of a netlist, which is in gates alone: it is read back to the same netlist where targets are allowed,
/// and, where the netlist has no target, also where they aren't.
pub fn write(alloc: Global, netlist: &Netlist) -> Result<Vec<u8>, OutOfMemory>
    ensures text { IfOk result (λ text. text.items ≡ written netlist.now) }
    ensures read_back { IfOk result (λ text. IsGatesText Allowed text.items netlist.now) }
    ensures closed { IfOk result (λ text.
        ((name : List ℕ) → IsTarget netlist.now name → ⊥) → IsGatesText Never text.items netlist.now) }
{
    let mut text = Vec::new(alloc);
    push_header(&mut text, netlist)?;
    push_ports(&mut text, netlist)?;
    push_wires(&mut text, netlist)?;
    push_gates(&mut text, netlist)?;
    text.extend_from_slice(b"endmodule\n")?;
    Ok(text)
}
