//! The values of signals at an input.

ghost use Rattle.std.specs.Prelude.{◌≡◌, IfOk, false, length, map};
ghost use Rattle.std.specs.List.{slice_index_or};
ghost use Rattle.eco_meaning.specs.Circuit.{names};
ghost use Rattle.eco_netlist.specs.Netlists.{AreNets};
ghost use Rattle.eco_base.specs.Scenes.{AtScene, IsStage, IsReadAt, splice_at};
ghost use Rattle.eco_base.specs.Asking.{names_here};

use crate::stage::Stage;
use eco_meaning::OutOfMemory;
use eco_netlist::{NetId, Netlist};
use std::alloc::Global;

/// The values of the implementation's nets at the input, in a map that the patches leave there.
pub(crate) fn values_at(
    stage: &Stage<'_>,
    spliced: &Netlist,
    input: &[bool],
    nets: &[NetId],
) -> Result<Vec<bool>, OutOfMemory>
    requires stage { IsStage stage.now }
    requires spliced { spliced.now ≡ splice_at stage.now }
    requires input { length input.now ≡ length stage.now.problem.now.implementation.inputs }
    requires nets { AreNets (names stage.now.problem.now.implementation) nets.now }
    ensures { IfOk result (λ bits. AtScene stage.now (λ s. IsReadAt s (names_here stage.now nets.now) input.now bits.items)) }
{
    let values = spliced.values_at(input)?;
    bits_at(stage.alloc, values.as_slice(), nets)
}

/// The bits at these nets.
pub(crate) fn bits_at(
    alloc: Global,
    values: &[bool],
    nets: &[NetId],
) -> Result<Vec<bool>, OutOfMemory>
    ensures { IfOk result (λ bits. bits.items ≡ map (λ net. slice_index_or values.now net.0 false) nets.now) }
{
    Ok(nets.iter().map(|net| bit_at(values, *net)).collect(alloc)?)
}

/// The bit at a net.
pub(crate) fn bit_at(values: &[bool], net: NetId) -> bool
    ensures { result ≡ slice_index_or values.now net.0 false }
{
    values.get(net.0 as usize).copied().unwrap_or(false)
}
