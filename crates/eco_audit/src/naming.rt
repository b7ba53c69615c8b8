//! Whether the reported names are those of nets.

ghost use Rattle.std.specs.Prelude.{◌≡◌, ◌↔◌, ◌++◌, IsTrue, IfOk, OnOk, map};
ghost use Rattle.eco_meaning.specs.Circuit.{names, AreTargets};
ghost use Rattle.eco_meaning.specs.Report.{base_in, targets_in, PatchReport};
ghost use Rattle.eco_netlist.specs.Netlists.{AreNets, names_at};
ghost use Rattle.eco_audit.specs.Findings.{HasReportedPorts};

use eco_meaning::{Name, OutOfMemory};
use eco_netlist::{NetId, Netlist};
use eco_report::{BaseSignal, Report, TargetGroup};
use std::alloc::Global;

/// The signals that the groups tell, in order.
pub(crate) fn reported_base<'a>(
    alloc: Global,
    groups: &'a [TargetGroup],
) -> Result<Vec<&'a BaseSignal>, OutOfMemory>
    ensures { IfOk result (λ base. map (λ b. b.now) base.items ≡ base_in groups.now) }
{
    let mut base = Vec::new(alloc);
    for group in groups {
        add_base(&mut base, group.base.as_slice())?;
    }
    Ok(base)
}

/// Adds these signals.
fn add_base<'a>(base: &mut Vec<&'a BaseSignal>, more: &'a [BaseSignal]) -> Result<(), OutOfMemory>
    ensures { OnOk result (map (λ b. b.now) base.new.items ≡ map (λ b. b.now) base.old.items ++ more.now) }
{
    for reported in more {
        base.push(reported)?;
    }
    Ok(())
}

/// Whether the reported targets are those of the netlist, in order.
pub(crate) fn are_targets(f: &Netlist, groups: &[TargetGroup]) -> bool
    ensures { IsTrue result ↔ AreTargets f.now (targets_in groups.now) }
{
    are_reported_targets(f, f.targets(), groups)
}

/// Whether the nets have the names of the reported targets.
fn are_reported_targets(n: &Netlist, nets: &[NetId], groups: &[TargetGroup]) -> bool
    requires nets { AreNets (names n.now) nets.now }
    ensures { IsTrue result ↔ (names_at (names n.now) nets.now ≡ targets_in groups.now) }
{
    if nets.len() != groups.len() {
        return false;
    }
    for (place, net) in nets.iter().enumerate() {
        let group = &groups[place];
        if !is_same_name(n.name_of(*net), &group.target) {
            return false;
        }
    }
    true
}

/// Whether the nets have the names of the reported signals.
fn are_reported_signals(n: &Netlist, nets: &[NetId], base: &[&BaseSignal]) -> bool
    requires nets { AreNets (names n.now) nets.now }
    ensures { IsTrue result ↔ (names_at (names n.now) nets.now ≡ map (λ b. b.now.signal) base.now) }
{
    if nets.len() != base.len() {
        return false;
    }
    for (place, net) in nets.iter().enumerate() {
        let reported: &BaseSignal = base[place];
        if !is_same_name(n.name_of(*net), &reported.signal) {
            return false;
        }
    }
    true
}

/// Whether the two are one name.
pub(crate) fn is_same_name(name: &Name, other: &Name) -> bool
    ensures { IsTrue result ↔ (name.now ≡ other.now) }
{
    name == other
}

/// Whether the patch's ports are the reported targets as outputs and then the reported signals as inputs, in order.
pub(crate) fn has_reported_ports(p: &Netlist, report: &Report, base: &[&BaseSignal]) -> bool
    requires base { map (λ b. b.now) base.now ≡ base_in report.now.groups }
    ensures { IsTrue result ↔ HasReportedPorts p.now report.now }
{
    let groups = report.groups.as_slice();
    if !are_reported_targets(p, p.outputs(), groups) {
        return false;
    }
    if !are_reported_signals(p, p.inputs(), base) {
        return false;
    }
    are_reported_ports(p, groups, base)
}

/// Whether the ports are in this order.
fn are_reported_ports(p: &Netlist, groups: &[TargetGroup], base: &[&BaseSignal]) -> bool
    ensures { IsTrue result ↔ (p.now.ports ≡ targets_in groups.now ++ map (λ b. b.now.signal) base.now) }
{
    let ports = p.ports();
    if ports.len() < groups.len() {
        return false;
    }
    if !are_reported_targets(p, &ports[..groups.len()], groups) {
        return false;
    }
    are_reported_signals(p, &ports[groups.len()..], base)
}
