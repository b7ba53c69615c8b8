//! When two netlists can be compared.

ghost use Rattle.std.specs.Prelude.{◌↔◌, IsTrue};
ghost use Rattle.eco_query.specs.Problem.{IsClosed};
ghost use Rattle.eco_equality.specs.Equality.{HaveSamePorts};

use eco_netlist::Netlist;
use eco_query::unlike_port;

/// Whether the netlists have the same inputs and the same outputs.
pub fn have_same_ports(left: &Netlist, right: &Netlist) -> bool
    ensures { IsTrue result ↔ HaveSamePorts left.now right.now }
{
    // they are checked: each port is an input or an output
    let _ = left.nets();
    let _ = right.nets();
    match unlike_port(left, right) {
        None => true,
        Some(_) => false,
    }
}

/// Whether the netlist has no target.
pub fn is_closed(netlist: &Netlist) -> bool
    ensures { IsTrue result ↔ IsClosed netlist.now }
{
    netlist.targets().is_empty()
}
