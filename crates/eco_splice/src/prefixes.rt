//! The prefix of a patch's own wires.

ghost use Rattle.std.specs.Prelude.{◌≡◌, map, codes, IfOk};
ghost use Rattle.eco_meaning.specs.Circuit.{names};
ghost use Rattle.eco_text.specs.Prefix.{IsFreshPrefix};

use eco_netlist::{NetId, Netlist, OutOfMemory};
use std::alloc::Global;

// The shortest of `eco_`, `eco__`, `eco___` and so on with which no name of `f` begins.
pub(crate) fn fresh_prefix(alloc: Global, f: &Netlist) -> Result<Vec<u8>, OutOfMemory>
    ensures fresh { IfOk result (λ prefix. IsFreshPrefix (codes "eco") (names f.now) prefix.items) }
{
    let names = names_of(alloc, f)?;
    eco_text::fresh_prefix(alloc, b"eco", names.as_slice())
}

// The names of the nets, in order.
fn names_of<'a>(alloc: Global, f: &'a Netlist) -> Result<Vec<&'a [u8]>, OutOfMemory>
    ensures { IfOk result (λ list. map (λ name. name.now) list.items ≡ names f.now) }
{
    let mut list = Vec::new(alloc);
    for net in 0..f.nets() {
        list.push(f.name_of(NetId(net)).bytes())?;
    }
    Ok(list)
}
