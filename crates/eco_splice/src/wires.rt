//! The declarations of a patch's own wires.

ghost use Rattle.std.specs.Prelude.{◌≡◌, ◌++◌, OnOk, IsTrue};
ghost use Rattle.std.specs.List.{list_all};
ghost use Rattle.eco_meaning.specs.Names.{is_printing};
ghost use Rattle.eco_splice.specs.GraphPatch.{wires_from};

use eco_netlist::{Draft, OutOfMemory};
use eco_text::numbered;
use std::alloc::Global;

// Adds the wires with the numbers from 1 up to `count`.
pub(crate) fn add_wires(
    draft: &mut Draft,
    alloc: Global,
    prefix: &[u8],
    count: u64,
) -> Result<(), OutOfMemory>
    requires { IsTrue (list_all is_printing prefix.now) }
    ensures { OnOk result (draft.new ≡ record draft.old { wires = draft.old.wires ++ wires_from prefix.now 1 count }) }
{
    for before in 0..count {
        draft.add_wire(numbered(alloc, prefix, before + 1)?)?;
    }
    Ok(())
}
