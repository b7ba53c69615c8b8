//! Which of 64 nets make all outputs as they are wanted at an input.

ghost use Rattle.std.specs.Prelude.{◌≡◌, ◌<◌, ◌≤◌, ℕ, List, IfOk, Some, length, slice_get};
ghost use Rattle.eco_meaning.specs.Circuit.{names, IsTarget};
ghost use Rattle.eco_gates.specs.declared.gate.NetId.{NetId};
ghost use Rattle.eco_gates.specs.Words.{is_set};
ghost use Rattle.eco_netlist.specs.Netlists.{AreNets};
ghost use Rattle.eco_choices.specs.Turned.{CanBeTurned, IsMendedBit};

use crate::lanes::{input_words, turned_words, wanted_lanes};
use crate::turning::fill_turned;
use eco_meaning::OutOfMemory;
use eco_netlist::{NetId, Netlist};
use std::alloc::Global;

/// A word that has a bit for each of up to 64 nets, in order: 1 exactly if all outputs are as wanted at the input with this
/// net turned. The netlist has no targets.
pub fn mended(
    alloc: Global,
    f: &Netlist,
    input: &[bool],
    wanted: &[bool],
    nets: &[NetId],
) -> Result<u64, OutOfMemory>
    requires closed { (name : List ℕ) → IsTarget f.now name → ⊥ }
    requires input { length input.now ≡ length f.now.inputs }
    requires wanted { length wanted.now ≡ length f.now.outputs }
    requires within { AreNets (names f.now) nets.now }
    requires few { length nets.now ≤ 64 }
    ensures bits { IfOk result (λ word. (place : ℕ) (net : NetId) (name : List ℕ) → slice_get nets.now place ≡ Some net →
        slice_get (names f.now) net.0 ≡ Some name → IsMendedBit f.now input.now wanted.now name (is_set word place)) }
    ensures turned { IfOk result (λ word. (place : ℕ) (net : NetId) (name : List ℕ) → slice_get nets.now place ≡ Some net →
        slice_get (names f.now) net.0 ≡ Some name → CanBeTurned f.now input.now name) }
{
    let count = f.nets() as usize;
    let turns = turned_words(alloc, count, nets)?;
    let mut words = input_words(alloc, count, f.inputs(), input)?;
    fill_turned(f.gates(), f.order(), turns.as_slice(), words.as_mut_slice());
    Ok(wanted_lanes(words.as_slice(), f.outputs(), wanted))
}
