//! Numbers as sets.

ghost use Rattle.std.specs.Prelude.{◌≡◌, [], nat_eq, IfOk};
ghost use Rattle.indexmap.specs.IndexSet.{insert_all};

use eco_keyed::Keyed;
use eco_netlist::OutOfMemory;
use indexmap::IndexSet;
use std::alloc::Global;

/// The numbers of a list, each where it stands first.
pub(crate) fn set_of(
    alloc: Global,
    keyed: Keyed,
    list: &[u64],
) -> Result<IndexSet<u64, Keyed>, OutOfMemory>
    ensures { IfOk result (λ set. set.keys ≡ insert_all nat_eq [] list.now) }
{
    let mut set = IndexSet::with_hasher(alloc, keyed);
    for number in list {
        set.insert(*number)?;
    }
    Ok(set)
}
