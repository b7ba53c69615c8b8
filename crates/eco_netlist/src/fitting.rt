//! Whether a netlist is a patch of another one.

ghost use Rattle.std.specs.Prelude.{◌≡◌, ◌↔◌, ◌<◌, [], IfOk, MatchOption, IsTrue, Contains, length};
ghost use Rattle.std.specs.Option.{option_copied};
ghost use Rattle.eco_meaning.specs.Circuit.{names};
ghost use Rattle.eco_meaning.specs.Patch.{Fits};
ghost use Rattle.eco_netlist.specs.Netlists.{AreNets, name_at, names_at, IsChecked};
ghost use Rattle.eco_netlist.specs.Misfits.{Misfits, DrivesTargets, IsUnfit, IsLeastIn};
ghost use Rattle.eco_netlist.specs.Reached.{AreFirstOutputs, AreLasts};

use crate::netlist::Netlist;
use crate::reasons::Misfit;
use crate::refusal_kind::smaller;
use eco_gates::NetId;
use eco_meaning::{Name, OutOfMemory};

/// The first reason for which `p` is no patch of `f`; None exactly where it is one.
pub fn misfit(f: &Netlist, p: &Netlist) -> Result<Option<Misfit>, OutOfMemory>
    ensures exactly { IfOk result (λ reason. MatchOption reason (Fits f.now p.now []) (Misfits f.now p.now)) }
{
    if !drives_targets(f, p) {
        return Ok(Some(Misfit::Outputs));
    }
    let lasts = f.lasts()?;
    let firsts = p.first_outputs()?;
    match least_unfit(f, lasts.as_slice(), p, firsts.as_slice()) {
        Some(name) => Ok(Some(Misfit::Input(name.copy()?))),
        None => match least_taken(f, p) {
            Some(name) => Ok(Some(Misfit::Inner(name.copy()?))),
            None => Ok(None),
        },
    }
}

// Whether `p` has no target of its own, and its outputs are the targets of `f` in order.
fn drives_targets(f: &Netlist, p: &Netlist) -> bool
    ensures { IsTrue result ↔ DrivesTargets f.now p.now }
{
    if !p.targets().is_empty() {
        return false;
    }
    are_named_alike(f, f.targets(), p, p.outputs())
}

// Whether the nets of the one netlist have the names of those of the other.
fn are_named_alike(f: &Netlist, nets: &[NetId], p: &Netlist, others: &[NetId]) -> bool
    requires nets { AreNets (names f.now) nets.now }
    requires others { AreNets (names p.now) others.now }
    ensures { IsTrue result ↔ (names_at (names f.now) nets.now ≡ names_at (names p.now) others.now) }
{
    if nets.len() != others.len() {
        return false;
    }
    for (place, net) in nets.iter().enumerate() {
        if !is_same_name(f.name_of(*net), p.name_of(others[place])) {
            return false;
        }
    }
    true
}

// Whether the two are one name.
fn is_same_name(name: &Name, other: &Name) -> bool
    ensures { IsTrue result ↔ (name.now ≡ other.now) }
{
    name == other
}

// The smallest input of `p` that it may not read, by the last targets of `f` and the first outputs of `p`.
fn least_unfit<'a>(f: &Netlist, lasts: &[u64], p: &'a Netlist, firsts: &[u64]) -> Option<&'a Name>
    requires checked { IsChecked f.now }
    requires checked_patch { IsChecked p.now }
    requires drives { DrivesTargets f.now p.now }
    requires lasts { AreLasts f.now p.now.outputs lasts.now }
    requires firsts { AreFirstOutputs p.now firsts.now }
    ensures { IsLeastIn (IsUnfit f.now p.entry.now) p.entry.now.inputs (option_copied result) }
{
    let mut least = None;
    for net in p.inputs() {
        let name = p.name_of(*net);
        least = smaller(least, name, is_unfit(f, lasts, p, firsts, *net));
    }
    least
}

// Whether the patch `p` of `f` may not read this input of it: it is no net of `f`, or the last target before it there is
// not before the first output behind it.
fn is_unfit(f: &Netlist, lasts: &[u64], p: &Netlist, firsts: &[u64], net: NetId) -> bool
    requires checked { IsChecked f.now }
    requires checked_patch { IsChecked p.now }
    requires drives { DrivesTargets f.now p.now }
    requires lasts { AreLasts f.now p.now.outputs lasts.now }
    requires firsts { AreFirstOutputs p.now firsts.now }
    requires net { net.0 < length (names p.now) }
    requires input { Contains p.now.inputs (name_at (names p.now) net.0) }
    ensures { IsTrue result ↔ IsUnfit f.now p.now (name_at (names p.now) net.0) }
{
    match f.net_of(p.name_of(net)) {
        Some(source) => firsts[net.0 as usize] < lasts[source.0 as usize],
        None => true,
    }
}

/// The smallest wire of `p` whose name is that of a net of `f`, if there is one.
pub fn least_taken<'a>(f: &Netlist, p: &'a Netlist) -> Option<&'a Name>
    ensures least { IsLeastIn (Contains (names f.now)) p.entry.now.wires (option_copied result) }
    ensures checked { IsChecked p.entry.now }
{
    let mut least = None;
    for net in p.ports().len() as u64..p.nets() {
        let name = p.name_of(NetId(net));
        least = smaller(least, name, has_net(f, name));
    }
    least
}

// Whether the netlist has a net of this name.
fn has_net(f: &Netlist, name: &Name) -> bool
    ensures { IsTrue result ↔ Contains (names f.now) name.now }
{
    match f.net_of(name) {
        Some(_) => true,
        None => false,
    }
}
