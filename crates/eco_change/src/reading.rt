//! The values of nets, read by the names that they have in another netlist.

ghost use Rattle.std.specs.Prelude.{◌≡◌, IfOk, false, map};
ghost use Rattle.std.specs.List.{slice_index_or};
ghost use Rattle.eco_meaning.specs.Circuit.{names};
ghost use Rattle.eco_netlist.specs.Netlists.{AreNets, bit_of, names_at};
ghost use Rattle.eco_change.specs.Asked.{AreBits};

use eco_meaning::{Name, OutOfMemory};
use eco_netlist::{NetId, Netlist};
use std::alloc::Global;

/// The values that these nets of one netlist have by their names in the other one, 0 where it has no such net.
pub(crate) fn values_of(
    alloc: Global,
    other: &Netlist,
    values: &[bool],
    netlist: &Netlist,
    nets: &[NetId],
) -> Result<Vec<bool>, OutOfMemory>
    requires values { AreBits other.now values.now }
    requires within { AreNets (names netlist.now) nets.now }
    ensures { IfOk result (λ bits. bits.items ≡ map (bit_of (names other.now) values.now) (names_at (names netlist.now) nets.now)) }
{
    let mut bits = Vec::new(alloc);
    for net in nets {
        bits.push(value_of(other, values, netlist.name_of(*net)))?;
    }
    Ok(bits)
}

/// The values of the outputs.
pub(crate) fn outputs_of(
    alloc: Global,
    netlist: &Netlist,
    values: &[bool],
) -> Result<Vec<bool>, OutOfMemory>
    requires { AreBits netlist.now values.now }
    ensures { IfOk result (λ bits. bits.items ≡ map (bit_of (names netlist.now) values.now) netlist.now.outputs) }
{
    values_of(alloc, netlist, values, netlist, netlist.outputs())
}

/// The value of the net of this name, 0 if there is none.
fn value_of(netlist: &Netlist, values: &[bool], name: &Name) -> bool
    requires { AreBits netlist.now values.now }
    ensures { result ≡ bit_of (names netlist.now) values.now name.now }
{
    match netlist.net_of(name) {
        None => false,
        Some(net) => bit_at(values, net),
    }
}

/// The value of a net.
fn bit_at(values: &[bool], net: NetId) -> bool
    ensures { result ≡ slice_index_or values.now net.0 false }
{
    values.get(net.0 as usize).copied().unwrap_or(false)
}
