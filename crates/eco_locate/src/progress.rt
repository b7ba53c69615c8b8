//! The nets on their way into the lists.

ghost use Rattle.std.specs.Prelude.{◌≡◌, ℕ, IfOk, map};
ghost use Rattle.eco_meaning.specs.Meaning.{Goal};
ghost use Rattle.eco_locate.specs.Judged.{AreDrivenNets, IsJudgedTo};

use crate::answer::Located;
use eco_meaning::OutOfMemory;
use eco_netlist::{Gate, NetId, Netlist};
use std::alloc::Global;

/// The nets that are left, and what is told of the others.
#[derive(Drop)]
pub(crate) struct Progress {
    pub(crate) left: Vec<NetId>,
    pub(crate) located: Located,
}

/// All nets that gates drive are left.
pub(crate) fn begin(alloc: Global, f: &Netlist) -> Result<Progress, OutOfMemory>
    ensures { IfOk result (λ progress. (goal : Goal) (limit : ℕ) →
        IsJudgedTo f.now goal limit progress.left.items progress.located) }
{
    let left = driven_nets(alloc, f)?;
    Ok(Progress {
        left,
        located: Located {
            listed: Vec::new(alloc),
            over: Vec::new(alloc),
            excluding: Vec::new(alloc),
        },
    })
}

/// The nets that gates drive.
fn driven_nets(alloc: Global, f: &Netlist) -> Result<Vec<NetId>, OutOfMemory>
    ensures { IfOk result (λ nets. AreDrivenNets f.now nets.items) }
{
    // it is checked
    let _ = f.nets();
    outputs_of(alloc, f.gates())
}

/// The nets that these gates drive.
fn outputs_of(alloc: Global, gates: &[Gate]) -> Result<Vec<NetId>, OutOfMemory>
    ensures { IfOk result (λ nets. nets.items ≡ map (λ g. g.out) gates.now) }
{
    Ok(gates.iter().map(|gate| gate.out).collect(alloc)?)
}
