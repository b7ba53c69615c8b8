//! Words of 64 lanes: the same input in each, another net turned in each, and in which lanes the outputs are as wanted.

ghost use Rattle.std.specs.Prelude.{◌≡◌, ◌≢◌, ◌↔◌, ◌<◌, ◌≤◌, ℕ, Bool, true, false, not, List, All, AllPairs, IfOk, Some, length, map, replicate, slice_get, slice_set, if◌then◌else◌};
ghost use Rattle.std.specs.List.{slice_index_or};
ghost use Rattle.eco_gates.specs.declared.gate.NetId.{NetId};
ghost use Rattle.eco_gates.specs.Words.{is_set, lane};
ghost use Rattle.eco_netlist.specs.Values.{HasInputBits};

use eco_meaning::OutOfMemory;
use eco_netlist::NetId;
use std::alloc::Global;

/// A word for each net: each lane has the bits of the input at the nets of the inputs, and 0 at the others.
pub(crate) fn input_words(
    alloc: Global,
    nets: usize,
    inputs: &[NetId],
    input: &[bool],
) -> Result<Vec<u64>, OutOfMemory>
    requires count { length inputs.now ≡ length input.now }
    requires within { All (λ net. net.0 < nets) inputs.now }
    requires apart { AllPairs (λ a b. a.0 ≢ b.0) inputs.now }
    ensures length { IfOk result (λ words. length words.items ≡ nets) }
    ensures bits { IfOk result (λ words. (place : ℕ) → place < 64 →
        HasInputBits nets inputs.now input.now (length inputs.now) (lane words.items place)) }
{
    let mut words = vec![in alloc; 0u64; nets]?;
    for (place, net) in inputs.iter().enumerate() {
        words[net.0 as usize] = all_lanes(input[place]);
    }
    Ok(words)
}

/// A word for each net: each lane has 1 at the net that is turned in it, and 0 at the others.
pub(crate) fn turned_words(
    alloc: Global,
    count: usize,
    nets: &[NetId],
) -> Result<Vec<u64>, OutOfMemory>
    requires within { All (λ net. net.0 < count) nets.now }
    requires few { length nets.now ≤ 64 }
    ensures length { IfOk result (λ words. length words.items ≡ count) }
    ensures one { IfOk result (λ words. (place : ℕ) (net : NetId) → slice_get nets.now place ≡ Some net →
        lane words.items place ≡ slice_set (replicate count false) net.0 true) }
{
    let mut words = vec![in alloc; 0u64; count]?;
    for (place, net) in nets.iter().enumerate() {
        let number = net.0 as usize;
        words[number] = words[number] | 1 << place;
    }
    Ok(words)
}

/// The lanes in which the outputs have the wanted bits.
pub(crate) fn wanted_lanes(words: &[u64], outputs: &[NetId], wanted: &[bool]) -> u64
    requires count { length outputs.now ≡ length wanted.now }
    requires within { All (λ net. net.0 < length words.now) outputs.now }
    ensures { (place : ℕ) → place < 64 → (is_set result place ≡ true) ↔
        (map (λ net. slice_index_or (lane words.now place) net.0 false) outputs.now ≡ wanted.now) }
{
    let mut lanes = u64::MAX;
    for (place, net) in outputs.iter().enumerate() {
        lanes = lanes & same_lanes(words[net.0 as usize], wanted[place]);
    }
    lanes
}

/// The bit in each lane.
fn all_lanes(bit: bool) -> u64
    ensures { (place : ℕ) → place < 64 → is_set result place ≡ bit }
{
    if bit { u64::MAX } else { 0 }
}

/// The lanes in which the word has the bit.
fn same_lanes(word: u64, bit: bool) -> u64
    ensures { (place : ℕ) → place < 64 →
        is_set result place ≡ (if bit then is_set word place else not (is_set word place)) }
{
    if bit { word } else { !word }
}
