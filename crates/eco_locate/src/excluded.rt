//! The nets that inputs exclude.

ghost use Rattle.std.specs.Prelude.{◌≡◌, IfOk};
ghost use Rattle.eco_locate.specs.Judged.{excluded_nets};

use crate::answer::Excluding;
use eco_meaning::OutOfMemory;
use eco_netlist::NetId;
use std::alloc::Global;

/// The nets that these inputs exclude, in the inputs' order.
pub fn excluded_nets(alloc: Global, excluding: &[Excluding]) -> Result<Vec<NetId>, OutOfMemory>
    ensures { IfOk result (λ nets. nets.items ≡ excluded_nets excluding.now) }
{
    let mut nets = Vec::new(alloc);
    for one in excluding {
        nets.extend_from_slice(one.nets.as_slice())?;
    }
    Ok(nets)
}
