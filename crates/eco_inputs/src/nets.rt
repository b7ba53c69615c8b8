//! The nets that the words name, to be cut together.

ghost use Rattle.std.specs.Prelude.{◌≡◌, ◌<◌, IfOk, MatchOption, MatchResult, length, map};
ghost use Rattle.std.specs.List.{list_any};
ghost use Rattle.std.specs.Str.{bytes_eq};
ghost use Rattle.eco_meaning.specs.Circuit.{IsDriven};
ghost use Rattle.eco_inputs.specs.Nets.{AreNamed, IsDrivenNet, IsNetFault, IsNext, net_fault_text};

use crate::lines::{line, number_line};
use eco_netlist::{NetId, Netlist, OutOfMemory};
use eco_query::MOST_TARGETS;
use std::alloc::Global;

/// Why the nets that the words name can't be cut together.
#[derive(Clone, Copy)]
pub enum NetFault {
    /// They are this many, which is more than a problem may have targets.
    TooMany(u64),
    /// The net at this place among them, from 0, is driven by no gate, or is named before it too.
    NoNet(usize),
}

/// The nets of these names, if they can be cut together, and else why they can't.
///
/// # Errors
///
/// `OutOfMemory` only for want of memory.
pub fn named_nets(
    alloc: Global,
    f: &Netlist,
    named: &[&str],
) -> Result<Result<Vec<NetId>, NetFault>, OutOfMemory>
    ensures { IfOk result (λ naming. MatchResult naming (λ nets. AreNamed f.now (map (λ name. name.now) named.now) nets.items)
        (IsNetFault f.now (map (λ name. name.now) named.now))) }
{
    let count = named.len() as u64;
    if count > MOST_TARGETS {
        return Ok(Err(NetFault::TooMany(count)));
    }
    let mut nets = Vec::new(alloc);
    for place in 0..named.len() {
        match next_net(f, named, place) {
            Some(net) => nets.push(net)?,
            None => return Ok(Err(NetFault::NoNet(place))),
        }
    }
    Ok(Ok(nets))
}

/// The net of the name at this place, unless it is named before it too.
fn next_net(f: &Netlist, named: &[&str], place: usize) -> Option<NetId>
    requires { place < length named.now }
    ensures { IsNext f.now (map (λ name. name.now) named.now) place result }
{
    let name = named[place];
    if is_among(&named[..place], name) {
        return None;
    }
    driven_net(f, name.as_bytes())
}

/// Whether the name is one of these.
fn is_among(named: &[&str], name: &str) -> bool
    ensures { result ≡ list_any (λ other. bytes_eq name.now other.now) named.now }
{
    named.iter().any(|other| name == *other)
}

/// The net of this name, if a gate drives it.
fn driven_net(f: &Netlist, name: &[u8]) -> Option<NetId>
    ensures { MatchOption result (IsDriven f.now name.now → ⊥) (IsDrivenNet f.now name.now) }
{
    let gates = f.gates();
    for gate in gates {
        if f.name_of(gate.out).bytes() == name {
            return Some(gate.out);
        }
    }
    None
}

/// What is printed of a fault of these names.
pub fn net_fault_text(
    alloc: Global,
    named: &[&str],
    fault: NetFault,
) -> Result<Vec<u8>, OutOfMemory>
    ensures { IfOk result (λ text. text.items ≡ net_fault_text (map (λ name. name.now) named.now) fault) }
{
    match fault {
        NetFault::TooMany(count) => number_line(alloc, b"refused toomanynets ", count),
        NetFault::NoNet(place) => match named.get(place) {
            Some(name) => line(alloc, b"refused net ", name.as_bytes()),
            None => line(alloc, b"refused net ", b""),
        },
    }
}
