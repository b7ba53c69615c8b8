//! Loops by the names of their gates' outputs.

ghost use Rattle.std.specs.Prelude.{◌≡◌, ◌<◌, ◌++◌, [], length, vec_len, map, take, drop, All, IfOk, slice_index_or};
ghost use Rattle.eco_gates.specs.Gates.{IsWithin};
ghost use Rattle.eco_netlist.specs.Building.{output_name, IsTurned};
ghost use Rattle.eco_netlist.specs.Refusals.{IsNoLater, StartsSmallest};

use crate::names::NameSet;
use crate::refusal::Names;
use eco_gates::Gate;
use eco_meaning::{Name, OutOfMemory};

/// The name of the net that a gate drives.
fn output_name(names: &NameSet, gates: &[Gate], index: u64) -> Result<Name, OutOfMemory>
    requires within { IsWithin (length names.now.keys) gates.now }
    requires index { index < length gates.now }
    ensures { IfOk result (λ name. name ≡ output_name names.now.keys gates.now index) }
{
    let gate = &gates[index as usize];
    let name = names.as_slice()[gate.out.0 as usize].copy()?;
    Ok(name)
}

/// The names of the nets that these gates drive.
fn output_names(names: &NameSet, gates: &[Gate], circle: &[u64]) -> Result<Vec<Name>, OutOfMemory>
    requires within { IsWithin (length names.now.keys) gates.now }
    requires numbers { All (λ i. i < length gates.now) circle.now }
    ensures { IfOk result (λ outputs. outputs.items ≡ map (output_name names.now.keys gates.now) circle.now) }
{
    let mut outputs = Vec::new(*names.allocator());
    for index in circle {
        outputs.push(output_name(names, gates, *index)?)?;
    }
    Ok(outputs)
}

/// The place of the smaller of two names.
fn smaller_place(names: &[Name], least: usize, place: usize) -> usize
    requires least { least < length names.now }
    requires place { place < length names.now }
    ensures within { result < length names.now }
    ensures least { IsNoLater (slice_index_or names.now result []) (slice_index_or names.now least []) }
    ensures place { IsNoLater (slice_index_or names.now result []) (slice_index_or names.now place []) }
{
    let old = &names[least];
    let new = &names[place];
    if *new < *old { place } else { least }
}

/// The place of the smallest name.
fn smallest_place(names: &[Name]) -> usize
    requires { 0 < length names.now }
    ensures within { result < length names.now }
    ensures smallest { All (IsNoLater (slice_index_or names.now result [])) names.now }
{
    let mut least = 0;
    for place in 0..names.len() {
        least = smaller_place(names, least, place);
    }
    least
}

/// The names begun at this place.
fn turned(names: Vec<Name>, first: usize) -> Vec<Name>
    requires { first < vec_len names }
    ensures { result.items ≡ drop first names.items ++ take first names.items }
{
    let mut names = names;
    names.as_mut_slice().rotate_left(first);
    names
}

/// The names of the nets that the gates of a circle drive, in its order, the smallest first.
pub(crate) fn loop_names(
    names: &NameSet,
    gates: &[Gate],
    circle: &[u64],
) -> Result<Names, OutOfMemory>
    requires within { IsWithin (length names.now.keys) gates.now }
    requires numbers { All (λ i. i < length gates.now) circle.now }
    requires some { 0 < length circle.now }
    ensures turned { IfOk result (IsTurned (map (output_name names.now.keys gates.now) circle.now)) }
    ensures smallest { IfOk result StartsSmallest }
{
    let outputs = output_names(names, gates, circle)?;
    let first = smallest_place(outputs.as_slice());
    Ok(Names::of(turned(outputs, first)))
}
