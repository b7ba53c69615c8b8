//! The names of nets.

ghost use Rattle.std.specs.Prelude.{◌≡◌, IfOk};
ghost use Rattle.eco_gen.specs.Drawn.{signal_name, name_behind};
ghost use Rattle.eco_gen.specs.Cutting.{MayCut};

use crate::INPUTS;
use crate::cutting::target_at;
use eco_meaning::{Name, OutOfMemory};
use eco_text::numbered;
use std::alloc::Global;

/// The name of the net behind a gate that this target cuts, or that none does.
fn name_behind(alloc: Global, target: Option<u64>, gate: u64) -> Result<Name, OutOfMemory>
    ensures { IfOk result (λ name. name ≡ name_behind target gate) }
{
    match target {
        Some(target) => numbered(alloc, b"t_", target),
        None => numbered(alloc, b"g", gate),
    }
}

/// The name of a signal in the netlist with this many targets.
#[tactic(auto, unfolding(crate::specs::Drawn::signal_name))]
pub(crate) fn signal_name(
    alloc: Global,
    size: u64,
    targets: u64,
    signal: u64,
) -> Result<Name, OutOfMemory>
    requires { MayCut size targets }
    ensures { IfOk result (λ name. name ≡ signal_name size targets signal) }
{
    if signal < INPUTS {
        numbered(alloc, b"x", signal)
    } else {
        let gate = signal - INPUTS;
        name_behind(alloc, target_at(size, targets, gate), gate)
    }
}
