//! Whether a net is an input, and whether two netlists have the same inputs.

ghost use Rattle.std.specs.Prelude.{◌≡◌, ◌<◌, true, length, [], ◌∷◌, MatchOption};
ghost use Rattle.std.specs.Option.{option_copied};
ghost use Rattle.eco_meaning.specs.Names.{has};
ghost use Rattle.eco_meaning.specs.Circuit.{names};
ghost use Rattle.eco_netlist.specs.Refusals.{IsFirst, NeverComes};
ghost use Rattle.eco_netlist.specs.Netlists.{IsChecked, name_at};
ghost use Rattle.eco_query.specs.Ports.{is_alone, IsLeastOf};

use crate::ports::earlier;
use eco_meaning::Name;
use eco_netlist::{NetId, Netlist};

/// The smallest name that is an input of one netlist alone; None exactly where there is no such name.
pub(crate) fn input_alone<'a>(left: &'a Netlist, right: &'a Netlist) -> Option<&'a Name>
    ensures { MatchOption result (NeverComes (is_alone left.now right.now))
        (λ name. IsFirst (is_alone left.now right.now) name.now) }
{
    let _checked = (left.nets(), right.nets());
    let first = least_alone(left, right);
    let second = least_alone(right, left);
    earlier(first, second)
}

// The smallest input of the netlist that is none of the other one.
fn least_alone<'a>(netlist: &'a Netlist, other: &Netlist) -> Option<&'a Name>
    requires checked { IsChecked netlist.now }
    requires other_checked { IsChecked other.now }
    ensures { IsLeastOf (is_alone netlist.now other.now) netlist.now.inputs (option_copied result) }
{
    let mut least = None;
    for input in netlist.inputs() {
        least = earlier(least, alone(netlist, *input, other));
    }
    least
}

// The name of the input, where it is none of the other netlist.
fn alone<'a>(netlist: &'a Netlist, input: NetId, other: &Netlist) -> Option<&'a Name>
    requires other_checked { IsChecked other.now }
    requires net { input.0 < length (names netlist.now) }
    requires input { has netlist.now.inputs (name_at (names netlist.now) input.0) ≡ true }
    ensures { IsLeastOf (is_alone netlist.now other.now) (name_at (names netlist.now) input.0 ∷ []) (option_copied result) }
{
    let name = netlist.name_of(input);
    if has_input(other, name) {
        None
    } else {
        Some(name)
    }
}

// Whether the netlist has an input of this name.
fn has_input(netlist: &Netlist, name: &Name) -> bool
    requires { IsChecked netlist.now }
    ensures { result ≡ has netlist.now.inputs name.now }
{
    match netlist.net_of(name) {
        None => false,
        Some(net) => is_input(netlist, net),
    }
}

/// Whether the net is an input: the inputs stand in the order of their numbers.
pub(crate) fn is_input(netlist: &Netlist, net: NetId) -> bool
    requires checked { IsChecked netlist.now }
    requires net { net.0 < length (names netlist.now) }
    ensures { result ≡ has netlist.now.inputs (name_at (names netlist.now) net.0) }
{
    netlist.inputs().binary_search(&net).is_ok()
}
