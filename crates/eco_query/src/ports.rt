//! Whether two netlists have the same ports.

ghost use Rattle.std.specs.Prelude.{◌≡◌, ◌<◌, true, length, [], ◌∷◌, MatchOption};
ghost use Rattle.std.specs.Option.{option_copied};
ghost use Rattle.eco_meaning.specs.Names.{has};
ghost use Rattle.eco_meaning.specs.Circuit.{names};
ghost use Rattle.eco_netlist.specs.Refusals.{IsFirst, NeverComes};
ghost use Rattle.eco_netlist.specs.Netlists.{IsChecked, name_at};
ghost use Rattle.eco_query.specs.Ports.{is_unlike, IsLeastOf, earlier_of};

use crate::inputs::is_input;
use eco_meaning::Name;
use eco_netlist::{NetId, Netlist};

/// The smallest name that is a port of one netlist alone, or an input of one and an output of the other; None exactly
/// where there is no such name.
pub fn unlike_port<'a>(left: &'a Netlist, right: &'a Netlist) -> Option<&'a Name>
    ensures { MatchOption result (NeverComes (is_unlike left.now right.now))
        (λ name. IsFirst (is_unlike left.now right.now) name.now) }
{
    let _checked = (left.nets(), right.nets());
    let first = least_unlike(left, right);
    let second = least_unlike(right, left);
    earlier(first, second)
}

// The smallest port of the netlist that differs from the ports of the other one.
fn least_unlike<'a>(netlist: &'a Netlist, other: &Netlist) -> Option<&'a Name>
    requires checked { IsChecked netlist.now }
    requires other_checked { IsChecked other.now }
    ensures { IsLeastOf (is_unlike netlist.now other.now) netlist.now.ports (option_copied result) }
{
    let mut least = None;
    for port in netlist.ports() {
        least = earlier(least, unlike(netlist, *port, other));
    }
    least
}

// The name of the port, where it differs from the ports of the other netlist.
fn unlike<'a>(netlist: &'a Netlist, port: NetId, other: &Netlist) -> Option<&'a Name>
    requires checked { IsChecked netlist.now }
    requires other_checked { IsChecked other.now }
    requires net { port.0 < length (names netlist.now) }
    requires port { has netlist.now.ports (name_at (names netlist.now) port.0) ≡ true }
    ensures { IsLeastOf (is_unlike netlist.now other.now) (name_at (names netlist.now) port.0 ∷ []) (option_copied result) }
{
    let name = netlist.name_of(port);
    if differs(netlist, port, other) {
        Some(name)
    } else {
        None
    }
}

// Whether the port is no port of the other netlist, or has the other direction there.
fn differs(netlist: &Netlist, port: NetId, other: &Netlist) -> bool
    requires checked { IsChecked netlist.now }
    requires other_checked { IsChecked other.now }
    requires net { port.0 < length (names netlist.now) }
    requires port { has netlist.now.ports (name_at (names netlist.now) port.0) ≡ true }
    ensures { result ≡ is_unlike netlist.now other.now (name_at (names netlist.now) port.0) }
{
    match other.net_of(netlist.name_of(port)) {
        None => true,
        Some(net) => !is_port(other, net) || is_input(netlist, port) != is_input(other, net),
    }
}

// Whether the net is a port: the ports are the nets with the first numbers.
fn is_port(netlist: &Netlist, net: NetId) -> bool
    requires checked { IsChecked netlist.now }
    requires net { net.0 < length (names netlist.now) }
    ensures { result ≡ has netlist.now.ports (name_at (names netlist.now) net.0) }
{
    net.0 < netlist.ports().len() as u64
}

/// The smaller of the names, where there are two.
pub(crate) fn earlier<'a>(first: Option<&'a Name>, second: Option<&'a Name>) -> Option<&'a Name>
    ensures { option_copied result ≡ earlier_of (option_copied first.entry) (option_copied second.entry) }
{
    match (first, second) {
        (None, _) => second,
        (_, None) => first,
        (Some(a), Some(b)) => if b < a { second } else { first },
    }
}
