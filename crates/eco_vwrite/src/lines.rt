//! The lines of a netlist's text.

ghost use Rattle.std.specs.Prelude.{◌≡◌, ◌<◌, ◌++◌, ◌↔◌, codes, IsTrue, List, Some, length, map, slice_get, OnOk, if◌then◌else◌};
ghost use Rattle.std.specs.List.{flat_map, list_all};
ghost use Rattle.eco_meaning.specs.Names.{is_name};
ghost use Rattle.eco_meaning.specs.Circuit.{names};
ghost use Rattle.eco_gates.specs.Gates.{IsGateWithin, IsWithin};
ghost use Rattle.eco_netlist.specs.Netlists.{name_at, named_gate, IsChecked};
ghost use Rattle.eco_vread.specs.Grammar.{kind_word};
ghost use Rattle.eco_vwrite.specs.Written.{name_text, header_line, port_line, wire_line, gate_line};

use crate::terms::{push_name, push_net, push_nets, push_terms};
use eco_netlist::{Gate, Kind, NetId, Netlist, OutOfMemory};

/// The line of the module's name and its ports.
pub(crate) fn push_header(text: &mut Vec<u8>, netlist: &Netlist) -> Result<(), OutOfMemory>
    ensures ok { OnOk result (text.new.items ≡ text.old.items ++ header_line netlist.now) }
    ensures named { OnOk result (IsTrue (is_name netlist.now.title)) }
{
    text.extend_from_slice(b"module ")?;
    push_name(text, netlist.module())?;
    text.extend_from_slice(b" (")?;
    push_nets(text, netlist, netlist.ports())?;
    text.extend_from_slice(b");\n")?;
    Ok(())
}

/// A word, the name of a net and a semicolon.
fn push_declaration(
    text: &mut Vec<u8>,
    word: &[u8],
    netlist: &Netlist,
    net: NetId,
) -> Result<(), OutOfMemory>
    requires { net.0 < length (names netlist.now) }
    ensures ok { OnOk result (text.new.items ≡ text.old.items
        ++ (word.now ++ name_text (name_at (names netlist.now) net.0) ++ codes ";\n")) }
    ensures named { OnOk result (IsTrue (is_name (name_at (names netlist.now) net.0))) }
{
    text.extend_from_slice(word)?;
    push_net(text, netlist, net)?;
    text.extend_from_slice(b";\n")?;
    Ok(())
}

fn direction(is_input: bool) -> &'static [u8]
    ensures { result.now ≡ (if is_input then codes "input " else codes "output ") }
{
    if is_input { b"input " } else { b"output " }
}

/// Whether the net stands at this place of the list.
fn is_at(nets: &[NetId], place: usize, net: NetId) -> bool
    ensures { IsTrue result ↔ (slice_get nets.now place ≡ Some net) }
{
    match nets.get(place) {
        Some(other) => other.0 == net.0,
        None => false,
    }
}

/// The lines of the ports. The inputs stand in the order of the ports, so that each port is an input exactly where it
/// is the next of them.
pub(crate) fn push_ports(text: &mut Vec<u8>, netlist: &Netlist) -> Result<(), OutOfMemory>
    ensures ok { OnOk result (text.new.items ≡ text.old.items ++ flat_map (port_line netlist.now) netlist.now.ports) }
    ensures named { OnOk result (IsTrue (list_all is_name netlist.now.ports)) }
{
    let ports = netlist.ports();
    let inputs = netlist.inputs();
    // The netlist is checked, by what `nets` ensures.
    let _nets = netlist.nets();
    let mut next = 0;
    for port in ports {
        let is_input = is_at(inputs, next, *port);
        push_declaration(text, direction(is_input), netlist, *port)?;
        if is_input {
            next += 1;
        }
    }
    Ok(())
}

/// The lines of the wires: the nets behind the ports.
pub(crate) fn push_wires(text: &mut Vec<u8>, netlist: &Netlist) -> Result<(), OutOfMemory>
    ensures ok { OnOk result (text.new.items ≡ text.old.items ++ flat_map wire_line netlist.now.wires) }
    ensures named { OnOk result (IsTrue (list_all is_name netlist.now.wires)) }
    ensures checked { IsChecked netlist.now }
{
    let ports = netlist.ports().len() as u64;
    let nets = netlist.nets();
    for number in ports..nets {
        push_declaration(text, b"wire ", netlist, NetId(number))?;
    }
    Ok(())
}

fn kind_word(kind: Kind) -> &'static [u8]
    ensures { result.now ≡ kind_word kind }
{
    match kind {
        Kind::And => b"and",
        Kind::Nand => b"nand",
        Kind::Or => b"or",
        Kind::Nor => b"nor",
        Kind::Xor => b"xor",
        Kind::Xnor => b"xnor",
        Kind::Buf => b"buf",
        Kind::Not => b"not",
    }
}

fn push_gate(text: &mut Vec<u8>, netlist: &Netlist, gate: &Gate) -> Result<(), OutOfMemory>
    requires { IsGateWithin (length (names netlist.now)) gate.now }
    ensures ok { OnOk result (text.new.items ≡ text.old.items ++ gate_line (named_gate (names netlist.now) gate.now)) }
{
    text.extend_from_slice(kind_word(gate.kind))?;
    text.extend_from_slice(b" (")?;
    push_net(text, netlist, gate.out)?;
    push_terms(text, netlist, gate.ins.as_slice())?;
    text.extend_from_slice(b");\n")?;
    Ok(())
}

fn push_each_gate(text: &mut Vec<u8>, netlist: &Netlist, gates: &[Gate]) -> Result<(), OutOfMemory>
    requires { IsWithin (length (names netlist.now)) gates.now }
    ensures ok { OnOk result (text.new.items ≡ text.old.items
        ++ flat_map gate_line (map (named_gate (names netlist.now)) gates.now)) }
{
    for gate in gates {
        push_gate(text, netlist, gate)?;
    }
    Ok(())
}

/// The lines of the gates.
pub(crate) fn push_gates(text: &mut Vec<u8>, netlist: &Netlist) -> Result<(), OutOfMemory>
    ensures ok { OnOk result (text.new.items ≡ text.old.items ++ flat_map gate_line netlist.now.gates) }
{
    push_each_gate(text, netlist, netlist.gates())
}
