//! The names of the nets of a patch.

ghost use Rattle.std.specs.Prelude.{◌≡◌, ◌<◌, ◌≤◌, IfOk, IfSome, IsTrue, All, length};
ghost use Rattle.std.specs.List.{list_all};
ghost use Rattle.eco_meaning.specs.Names.{is_printing};
ghost use Rattle.eco_meaning.specs.Circuit.{names};
ghost use Rattle.eco_netlist.specs.Netlists.{AreNets, name_at, names_at};
ghost use Rattle.eco_splice.specs.LineGates.{own_wires, wire_count, out_name, nets_in};

use crate::line::Line;
use crate::nets::base_names;
use crate::roots::Frame;
use eco_netlist::{Name, NetId, OutOfMemory};
use eco_text::numbered;
use std::alloc::Global;

// The names of the base signals, then those of the nets of the lines: a target's, or that of a wire.
pub(crate) fn net_names(
    frame: &Frame<'_>,
    base: &[NetId],
    lines: &[Line],
) -> Result<Vec<Name>, OutOfMemory>
    requires printing { IsTrue (list_all is_printing frame.now.prefix.now) }
    requires targets { AreNets (names frame.now.f.now) frame.now.targets.now }
    requires nets { AreNets (names frame.now.f.now) base.now }
    requires within { All (λ line. IfSome line.target (λ target. target < length frame.now.targets.now)) lines.now }
    ensures { IfOk result (λ list. list.items
        ≡ nets_in frame.now.prefix.now (names_at (names frame.now.f.now) frame.now.targets.now) (names_at (names frame.now.f.now) base.now) lines.now) }
{
    let mut list = base_names(frame.alloc, frame.f, base)?;
    let mut number = 1;
    for line in lines {
        list.push(out_name(frame, number, line.target)?)?;
        number += own_wires(line.target);
    }
    Ok(list)
}

// The name of the net of a line: its target's, or that of the wire of this number.
fn out_name(frame: &Frame<'_>, number: u64, target: Option<u64>) -> Result<Name, OutOfMemory>
    requires printing { IsTrue (list_all is_printing frame.now.prefix.now) }
    requires targets { AreNets (names frame.now.f.now) frame.now.targets.now }
    requires within { IfSome target (λ target. target < length frame.now.targets.now) }
    ensures { IfOk result (λ name. name ≡ out_name frame.now.prefix.now (names_at (names frame.now.f.now) frame.now.targets.now) number target) }
{
    match target {
        None => Ok(numbered(frame.alloc, frame.prefix, number)?),
        Some(target) => target_name(frame, target),
    }
}

// The name of the target of this number.
fn target_name(frame: &Frame<'_>, target: u64) -> Result<Name, OutOfMemory>
    requires targets { AreNets (names frame.now.f.now) frame.now.targets.now }
    requires within { target < length frame.now.targets.now }
    ensures { IfOk result (λ name. name ≡ name_at (names_at (names frame.now.f.now) frame.now.targets.now) target) }
{
    let name = frame.f.name_of(frame.targets[target as usize]).copy()?;
    Ok(name)
}

// How many wires a line of this target has.
fn own_wires(target: Option<u64>) -> u64
    ensures { result ≡ own_wires target }
{
    match target {
        None => 1,
        Some(_) => 0,
    }
}

// How many wires the lines have.
pub(crate) fn wire_count(lines: &[Line]) -> u64
    ensures count { result ≡ wire_count lines.now }
    ensures few { result ≤ length lines.now }
{
    let mut count = 0;
    for line in lines {
        count += own_wires(line.target);
    }
    count
}
