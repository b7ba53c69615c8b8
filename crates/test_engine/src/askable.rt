//! What questions take as given.

ghost use Rattle.std.specs.Prelude.{◌≡◌, ◌≤◌, IsTrue, length};
ghost use Rattle.eco_equality.specs.Equality.{HaveSamePorts};
ghost use Rattle.eco_meaning.specs.Circuit.{names};
ghost use Rattle.eco_netlist.specs.Netlists.{AreNets};
ghost use Rattle.eco_query.specs.Problem.{HasTargetNumber};

use eco_equality::have_same_ports;
use eco_netlist::{NetId, Netlist};
use eco_query::Problem;
use std::process::Abort;

/// Stops the test where the numbers differ.
pub fn expect_same(rt: &impl Abort, one: usize, other: usize)
    ensures { one ≡ other }
{
    assert!(rt; one == other);
}

/// Stops the test where the number is above the most that may be.
pub fn expect_at_most(rt: &impl Abort, count: usize, most: usize)
    ensures { count ≤ most }
{
    assert!(rt; count <= most);
}

/// Stops the test where the netlists have other ports.
pub fn expect_same_ports(rt: &impl Abort, left: &Netlist, right: &Netlist)
    ensures { HaveSamePorts left.now right.now }
{
    assert!(rt; have_same_ports(left, right));
}

/// Whether the implementation has a target of this number.
fn has_target(problem: &Problem, target: u64) -> bool
    ensures { IsTrue result → HasTargetNumber problem.now.implementation target }
{
    target < problem.implementation().targets().len() as u64
}

/// Stops the test where the implementation has no target of this number.
pub fn expect_target(rt: &impl Abort, problem: &Problem, target: u64)
    ensures { HasTargetNumber problem.now.implementation target }
{
    assert!(rt; has_target(problem, target));
}

/// Whether these are nets of the netlist.
fn are_nets(netlist: &Netlist, nets: &[NetId]) -> bool
    ensures { IsTrue result → AreNets (names netlist.now) nets.now }
{
    let count = netlist.nets();
    nets.iter().all(|net| net.0 < count)
}

/// Stops the test where these aren't nets of the netlist.
pub fn expect_nets(rt: &impl Abort, netlist: &Netlist, nets: &[NetId])
    ensures { AreNets (names netlist.now) nets.now }
{
    assert!(rt; are_nets(netlist, nets));
}
