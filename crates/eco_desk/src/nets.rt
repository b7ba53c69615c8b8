//! The nets of a netlist.

ghost use Rattle.std.specs.Prelude.{◌≡◌, IfOk};
ghost use Rattle.eco_meaning.specs.Circuit.{names};
ghost use Rattle.eco_netlist.specs.Netlists.{AreNets, names_at};

use eco_meaning::OutOfMemory;
use eco_netlist::{NetId, Netlist};
use std::alloc::Global;

/// All nets of the netlist, in order.
pub(crate) fn every_net(alloc: Global, netlist: &Netlist) -> Result<Vec<NetId>, OutOfMemory>
    ensures nets { IfOk result (λ nets. AreNets (names netlist.now) nets.items) }
    ensures all { IfOk result (λ nets. names_at (names netlist.now) nets.items ≡ names netlist.now) }
{
    let count = netlist.nets();
    let mut nets = Vec::with_capacity(alloc, count as usize)?;
    for net in 0..count {
        nets.push(NetId(net))?;
    }
    Ok(nets)
}
