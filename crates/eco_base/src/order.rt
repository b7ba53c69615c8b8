//! Another order of turns.

ghost use Rattle.std.specs.Prelude.{◌≡◌, ◌<◌, false, not, IfOk, All, length};
ghost use Rattle.std.specs.List.{filter, slice_index_or};
ghost use Rattle.eco_meaning.specs.Circuit.{names};
ghost use Rattle.eco_gates.specs.Reach.{AreMarked};
ghost use Rattle.eco_netlist.specs.Netlists.{AreNets, names_at};
ghost use Rattle.eco_base.specs.Walks.{put_last};

use crate::values::bit_at;
use eco_meaning::OutOfMemory;
use eco_netlist::{NetId, Netlist};
use std::alloc::Global;

/// The nets in their order, but those that are among the last ones behind all others.
pub(crate) fn in_order(
    alloc: Global,
    n: &Netlist,
    turns: &[NetId],
    last: &[NetId],
) -> Result<Vec<NetId>, OutOfMemory>
    requires turns { AreNets (names n.now) turns.now }
    requires last { AreNets (names n.now) last.now }
    ensures nets { IfOk result (λ nets. AreNets (names n.now) nets.items) }
    ensures order { IfOk result (λ nets. names_at (names n.now) nets.items
        ≡ put_last (names_at (names n.now) last.now) (names_at (names n.now) turns.now)) }
{
    let marks = marks_of(alloc, n.nets(), last)?;
    let mut nets = unmarked(alloc, turns, marks.as_slice())?;
    let behind = marked(alloc, turns, marks.as_slice())?;
    nets.extend_from_slice(behind.as_slice())?;
    Ok(nets)
}

/// One bit for each net: whether it is among these.
fn marks_of(alloc: Global, count: u64, nets: &[NetId]) -> Result<Vec<bool>, OutOfMemory>
    requires { All (λ net. net.0 < count) nets.now }
    ensures { IfOk result (λ marks. AreMarked count nets.now (length nets.now) marks.items) }
{
    let mut marks = vec![in alloc; false; count as usize]?;
    for net in nets {
        marks[net.0 as usize] = true;
    }
    Ok(marks)
}

/// The nets that have no mark, in their order.
fn unmarked(alloc: Global, nets: &[NetId], marks: &[bool]) -> Result<Vec<NetId>, OutOfMemory>
    ensures { IfOk result (λ kept. kept.items ≡ filter (λ net. not (slice_index_or marks.now net.0 false)) nets.now) }
{
    let kept = nets
        .iter()
        .copied()
        .filter(|net| !bit_at(marks, *net))
        .collect(alloc)?;
    Ok(kept)
}

/// The nets that have a mark, in their order.
fn marked(alloc: Global, nets: &[NetId], marks: &[bool]) -> Result<Vec<NetId>, OutOfMemory>
    ensures { IfOk result (λ kept. kept.items ≡ filter (λ net. slice_index_or marks.now net.0 false) nets.now) }
{
    let kept = nets
        .iter()
        .copied()
        .filter(|net| bit_at(marks, *net))
        .collect(alloc)?;
    Ok(kept)
}
