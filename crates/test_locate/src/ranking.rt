//! How the nets of small netlists are ranked, beside figures that were counted by hand.

ghost use Rattle.std.specs.Prelude.{IsTrue};
ghost use Rattle.eco_meaning.specs.Circuit.{names};
ghost use Rattle.eco_netlist.specs.Netlists.{AreNets};

use eco_locate::{Ranked, ranked};
use eco_netlist::{NetId, Netlist, TargetRule};
use std::alloc::Global;
use std::process::Abort;

/// A net by its name, how many gates there are in its fan-in cone, and how often it is read.
type Figures<'a> = (&'a str, u64, u64);

/// The net of this name.
fn net_named(rt: &impl Abort, netlist: &Netlist, name: &str) -> NetId {
    for number in 0..netlist.nets() {
        if netlist.name_of(NetId(number)).bytes() == name.as_bytes() {
            return NetId(number);
        }
    }
    panic!(rt; "no net of this name")
}

/// The nets of these names, last first.
fn nets_named(
    rt: &impl Abort,
    alloc: Global,
    netlist: &Netlist,
    wanted: &[Figures<'_>],
) -> Vec<NetId> {
    let mut nets = Vec::new(alloc);
    for figures in wanted.iter().rev() {
        nets.push(net_named(rt, netlist, figures.0))
            .expect(rt, "memory");
    }
    nets
}

/// Whether all of these are nets of the netlist.
fn are_nets(netlist: &Netlist, nets: &[NetId]) -> bool
    ensures { IsTrue result → AreNets (names netlist.now) nets.now }
{
    nets.iter().all(|net| net.0 < netlist.nets())
}

/// The choice has this name and these figures.
fn expect_choice(rt: &impl Abort, netlist: &Netlist, choice: Ranked, wanted: Figures<'_>) {
    assert!(rt; choice.net.0 < netlist.nets());
    assert!(rt; netlist.name_of(choice.net).bytes() == wanted.0.as_bytes());
    assert_eq!(rt; choice.cone, wanted.1);
    assert_eq!(rt; choice.readers, wanted.2);
}

/// The nets, given last first, are ranked in this order with these figures.
fn try_ranking(rt: &(impl Abort + AllocGlobal), text: &str, wanted: &[Figures<'_>]) {
    let alloc = rt.alloc();
    let netlist = eco_vread::read(alloc, text.as_bytes(), TargetRule::Allowed).expect(
        rt,
        "a netlist",
    );
    let nets = nets_named(rt, alloc, &netlist, wanted);
    assert!(rt; are_nets(&netlist, nets.as_slice()));
    let found = ranked(alloc, &netlist, nets.as_slice()).expect(rt, "memory");
    assert_eq!(rt; found.len(), wanted.len());
    for (choice, figures) in found.iter().zip(wanted) {
        expect_choice(rt, &netlist, *choice, *figures);
    }
    drop(found);
    drop(nets);
    drop(netlist);
}

/// The gate n lies before both inputs of y and is counted once there; the gate q reads it at two inputs and is counted once.
#[test]
fn gates_are_counted_once(rt: HostRuntime) {
    let text = "module m (a, b, c, y, z); input a, b, c; output y, z; wire n, p, q;
and (n, a, b); or (p, n, c); nand (q, n, n); xor (y, p, q); not (z, n); endmodule";
    try_ranking(
        &rt,
        text,
        &[
            ("n", 1, 3),
            ("p", 2, 1),
            ("q", 2, 1),
            ("z", 2, 1),
            ("y", 4, 1),
        ],
    );
}

/// The output y is read by a gate that stands before its own, which makes two with its port; nothing reads u.
#[test]
fn ports_are_counted_with_gates(rt: HostRuntime) {
    let text = "module m (a, b, y, z); input a, b; output y, z; wire u;
not (z, y); buf (u, z); and (y, a, b); endmodule";
    try_ranking(&rt, text, &[("y", 1, 2), ("z", 2, 2), ("u", 3, 0)]);
}

/// No gate lies before an input, and cones that are as large are ranked by name, byte by byte.
#[test]
fn equal_cones_are_ranked_by_name(rt: HostRuntime) {
    let text = "module m (a, b, n2, n10, B); input a, b; output n2, n10, B;
or (n2, a, b); and (n10, a, 1'b1, b); xor (B, a, b); endmodule";
    try_ranking(
        &rt,
        text,
        &[
            ("a", 0, 3),
            ("b", 0, 3),
            ("B", 1, 1),
            ("n10", 1, 1),
            ("n2", 1, 1),
        ],
    );
}
