//! Inputs at which the old netlist is wrong, with what is asked for at them.

ghost use Rattle.std.specs.Prelude.{◌≡◌, IfOk, length};
ghost use Rattle.eco_change.specs.Failing.{TellsFailing};

use crate::asked::wrong_at;
use crate::change::Change;
use eco_meaning::{Bits, OutOfMemory};
use std::alloc::Global;

/// A wrong input, and the outputs that are asked for at it.
#[derive(Drop)]
pub struct Failing {
    pub input: Bits,
    pub wanted: Bits,
}

/// The input, if it is wrong.
pub fn failing_at(
    alloc: Global,
    change: &Change,
    input: Bits,
) -> Result<Option<Failing>, OutOfMemory>
    requires { length input ≡ length change.now.old.inputs }
    ensures { IfOk result (TellsFailing change.now.old change.now.goal input) }
{
    match wrong_at(alloc, change, input.as_slice())? {
        None => Ok(None),
        Some(wanted) => Ok(Some(Failing { input, wanted })),
    }
}
