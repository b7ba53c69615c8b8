//! Names, each once, with numbers in the order in which they were added.

ghost use Rattle.std.specs.Prelude.{◌≡◌, ◌++◌, false, Some, IfOk, OnOk, MatchOption, slice_get};
ghost use Rattle.std.specs.List.{IsDistinct};
ghost use Rattle.std.specs.Str.{bytes_eq};
ghost use Rattle.eco_meaning.specs.Names.{has};
ghost use Rattle.eco_netlist.specs.Drafted.{Extends};
ghost use Rattle.eco_netlist.specs.Netlists.{names_at, AreNets};

use eco_gates::NetId;
use eco_keyed::Keyed;
use eco_meaning::{Name, OutOfMemory};
use indexmap::IndexSet;

/// Names, each once.
pub(crate) type NameSet = IndexSet<Name, Keyed>;

/// The number of a name, which is added behind the others where it isn't there yet.
pub(crate) fn number(names: &mut NameSet, name: Name) -> Result<NetId, OutOfMemory>
    ensures grown { Extends names.old.keys names.new.keys }
    ensures named { IfOk result (λ net. slice_get names.new.keys net.0 ≡ Some name) }
{
    let (index, _) = names.insert_full(name)?;
    Ok(NetId(index as u64))
}

/// The number of a name, where it is there.
pub(crate) fn number_of(names: &NameSet, name: &Name) -> Option<NetId>
    ensures { MatchOption result (has names.now.keys name.now ≡ false)
        (λ net. slice_get names.now.keys net.0 ≡ Some name.now) }
{
    match names.get_index_of(name) {
        Some(index) => Some(NetId(index as u64)),
        None => None,
    }
}

/// Puts other names behind those that are there.
pub(crate) fn add_names(names: &mut NameSet, added: &[Name]) -> Result<(), OutOfMemory>
    requires { IsDistinct bytes_eq (names.old.keys ++ added.now) }
    ensures { OnOk result (names.new.keys ≡ names.old.keys ++ added.now) }
{
    for name in added {
        names.insert(name.copy()?)?;
    }
    Ok(())
}

/// The names of the first list, then those of the second.
pub(crate) fn joined(
    names: &NameSet,
    first: &[Name],
    second: &[Name],
) -> Result<NameSet, OutOfMemory>
    requires { IsDistinct bytes_eq (first.now ++ second.now) }
    ensures { IfOk result (λ joined. joined.keys ≡ first.now ++ second.now) }
{
    let room = first.len().saturating_add(second.len());
    let alloc = *names.allocator();
    let mut joined = IndexSet::with_capacity_and_hasher(alloc, room, *names.hasher())?;
    add_names(&mut joined, first)?;
    add_names(&mut joined, second)?;
    Ok(joined)
}

/// The names with these numbers, in this order.
pub(crate) fn chosen(names: &NameSet, nets: &[NetId]) -> Result<NameSet, OutOfMemory>
    requires within { AreNets names.now.keys nets.now }
    requires distinct { IsDistinct bytes_eq (names_at names.now.keys nets.now) }
    ensures { IfOk result (λ chosen. chosen.keys ≡ names_at names.now.keys nets.now) }
{
    let alloc = *names.allocator();
    let mut chosen = IndexSet::with_capacity_and_hasher(alloc, nets.len(), *names.hasher())?;
    for net in nets {
        chosen.insert(names.as_slice()[net.0 as usize].copy()?)?;
    }
    Ok(chosen)
}
