//! The order of the choices.

ghost use Rattle.std.specs.Prelude.{◌≡◌, IfOk, map};
ghost use Rattle.std.specs.List.Sorted.{IsPermutation};
ghost use Rattle.eco_meaning.specs.Circuit.{names};
ghost use Rattle.eco_netlist.specs.Netlists.{AreNets};
ghost use Rattle.eco_locate.specs.Moves.{IsRearranged};

use crate::ranking::{Entry, Ranked, entries_of};
use eco_meaning::OutOfMemory;
use eco_netlist::{NetId, Netlist};
use std::alloc::Global;
use std::cmp::Ordering;

/// The nets by rising number of gates in their fan-in cone, then by name.
pub fn ranked(alloc: Global, f: &Netlist, nets: &[NetId]) -> Result<Vec<Ranked>, OutOfMemory>
    requires within { AreNets (names f.now) nets.now }
    ensures { IfOk result (λ ranked. IsRearranged nets.now (map (λ r. r.net) ranked.items)) }
{
    let mut entries = entries_of(alloc, f, nets)?;
    sort_entries(&mut entries);
    choices_of(alloc, entries.as_slice())
}

/// The choices of these entries.
fn choices_of(alloc: Global, entries: &[Entry<'_>]) -> Result<Vec<Ranked>, OutOfMemory>
    ensures { IfOk result (λ ranked. ranked.items ≡ map (λ e. e.ranked) entries.now) }
{
    Ok(entries.iter().map(|entry| entry.ranked).collect(alloc)?)
}

/// Puts the entries in order.
fn sort_entries(entries: &mut Vec<Entry<'_>>)
    ensures { IsPermutation entries.old.items entries.new.items }
{
    entries.sort_unstable_by(|first, second| compare(first, second));
}

/// The smaller cone comes first, of equal ones the earlier name.
fn compare(first: &Entry<'_>, second: &Entry<'_>) -> Ordering {
    let by_cone = first.ranked.cone.cmp(&second.ranked.cone);
    by_cone.then_with(|| first.name.cmp(second.name))
}
