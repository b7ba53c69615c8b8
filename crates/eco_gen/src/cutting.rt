//! Which gates are cut loose, and by which targets.

ghost use Rattle.std.specs.Prelude.{◌≡◌, ◌≤◌, IfOk};
ghost use Rattle.eco_gen.specs.Drawn.{kept_gates, target_at};
ghost use Rattle.eco_gen.specs.Cutting.{MayCut};

use eco_meaning::OutOfMemory;
use std::alloc::Global;

/// The target that cuts the gate, where there is one.
#[tactic(auto, using(crate::proofs::Cuts::target_found, crate::proofs::Cuts::target_missing))]
pub(crate) fn target_at(size: u64, targets: u64, gate: u64) -> Option<u64>
    requires { MayCut size targets }
    ensures { result ≡ target_at size targets gate }
{
    for target in 0..targets {
        if target * size / targets == gate {
            return Some(target);
        }
    }
    None
}

/// The gates that no target cuts.
#[tactic(auto, unfolding(crate::specs::Drawn::kept_gates))]
pub(crate) fn kept_gates(alloc: Global, size: u64, targets: u64) -> Result<Vec<u64>, OutOfMemory>
    requires { MayCut size targets }
    ensures { IfOk result (λ gates. gates.items ≡ kept_gates size targets) }
{
    let gates = (0..size)
        .filter(|gate| target_at(size, targets, *gate).is_none())
        .collect(alloc)?;
    Ok(gates)
}
