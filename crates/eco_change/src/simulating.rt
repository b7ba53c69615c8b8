//! Inputs at which the old netlist is wrong, found by simulation of both netlists at 64 inputs at a time.

ghost use Rattle.std.specs.Prelude.{◌≡◌, ◌<◌, All, IfOk, OnOk, length};
ghost use Rattle.eco_meaning.specs.Circuit.{names};
ghost use Rattle.eco_netlist.specs.Netlists.{AreNets};
ghost use Rattle.eco_change.specs.Failing.{IsFailing};

use crate::change::Change;
use crate::failing::{Failing, failing_at};
use eco_meaning::{Bits, OutOfMemory};
use eco_netlist::{NetId, Netlist};
use eco_simulate::SplitMix;
use std::alloc::Global;

/// How many words of 64 inputs are simulated.
const WORDS: u64 = 256;

/// How many wrong inputs are kept at most.
const MOST_KEPT: usize = 256;

/// How many of them come from one word at most.
const MOST_OF_A_WORD: usize = 16;

/// Where the drawing begins.
const SEED: u64 = 1;

/// A net of the old netlist, and the net of the same name in another one.
#[derive(Clone, Copy)]
struct Twins {
    old: NetId,
    other: NetId,
}

/// Which nets of the other netlists have the names of nets of the old one.
#[derive(Drop)]
struct Ports {
    inputs: Vec<Twins>,
    outputs: Vec<Twins>,
    care_inputs: Vec<Twins>,
}

/// Wrong inputs that simulation finds, up to 256 of them. There may be others, also if it finds none.
pub fn simulated(alloc: Global, change: &Change) -> Result<Vec<Failing>, OutOfMemory>
    ensures { IfOk result (λ failing. All (IsFailing change.now.old change.now.goal) failing.items) }
{
    let ports = ports_of(alloc, change)?;
    let mut failing = Vec::new(alloc);
    match simulate(alloc, change, &ports, &mut failing) {
        Ok(()) => Ok(failing),
        Err(error) => {
            drop(failing);
            Err(error)
        }
    }
}

/// The ports of the netlists.
fn ports_of(alloc: Global, change: &Change) -> Result<Ports, OutOfMemory> {
    let old = change.old();
    let specification = change.specification();
    let inputs = twins_of(alloc, old, specification, specification.inputs())?;
    let outputs = twins_of(alloc, old, specification, specification.outputs())?;
    let care_inputs = match change.care() {
        None => Vec::new(alloc),
        Some(care) => twins_of(alloc, old, care, care.inputs())?,
    };
    Ok(Ports {
        inputs,
        outputs,
        care_inputs,
    })
}

/// These nets of the other netlist with those of the old one that have their names.
fn twins_of(
    alloc: Global,
    old: &Netlist,
    other: &Netlist,
    nets: &[NetId],
) -> Result<Vec<Twins>, OutOfMemory>
    requires { AreNets (names other.now) nets.now }
{
    let mut twins = Vec::new(alloc);
    for net in nets {
        if let Some(found) = old.net_of(other.name_of(*net)) {
            twins.push(Twins {
                old: found,
                other: *net,
            })?;
        }
    }
    Ok(twins)
}

/// Simulates all words, until enough wrong inputs are kept.
fn simulate(
    alloc: Global,
    change: &Change,
    ports: &Ports,
    failing: &mut Vec<Failing>,
) -> Result<(), OutOfMemory>
    requires { All (IsFailing change.now.old change.now.goal) failing.old.items }
    ensures { OnOk result (All (IsFailing change.now.old change.now.goal) failing.new.items) }
{
    let mut draws = SplitMix::new(SEED);
    for number in 0..WORDS {
        if failing.len() >= MOST_KEPT {
            break;
        }
        simulate_word(alloc, change, ports, &mut draws, number, failing)?;
    }
    Ok(())
}

/// Simulates the word of this number, and keeps wrong inputs of it.
fn simulate_word(
    alloc: Global,
    change: &Change,
    ports: &Ports,
    draws: &mut SplitMix,
    number: u64,
    failing: &mut Vec<Failing>,
) -> Result<(), OutOfMemory>
    requires { All (IsFailing change.now.old change.now.goal) failing.old.items }
    ensures { OnOk result (All (IsFailing change.now.old change.now.goal) failing.new.items) }
{
    let words = drawn(alloc, change.old(), draws, number)?;
    let lanes = wrong_lanes(alloc, change, ports, words.as_slice())?;
    keep_wrong(alloc, change, words.as_slice(), lanes, failing)
}

/// A word for each net of the netlist, at inputs that are drawn: of three words in a row, the first has about as many 0 as 1, the
/// second mostly 0 and the third mostly 1.
fn drawn(
    alloc: Global,
    netlist: &Netlist,
    draws: &mut SplitMix,
    number: u64,
) -> Result<Vec<u64>, OutOfMemory> {
    let mut words = vec![in alloc; 0u64; netlist.nets() as usize]?;
    for net in netlist.inputs() {
        put_word(&mut words, *net, drawn_word(draws, number));
    }
    netlist.fill_words(words.as_mut_slice());
    Ok(words)
}

/// A word of an input in the word of this number.
fn drawn_word(draws: &mut SplitMix, number: u64) -> u64 {
    match number % 3 {
        0 => draws.next(),
        1 => draws.next() & draws.next() & draws.next(),
        _ => draws.next() | draws.next() | draws.next(),
    }
}

/// At which places an output differs from the specification's, and the input is cared.
fn wrong_lanes(
    alloc: Global,
    change: &Change,
    ports: &Ports,
    words: &[u64],
) -> Result<u64, OutOfMemory> {
    let wanted = transferred(
        alloc,
        change.specification(),
        words,
        ports.inputs.as_slice(),
    )?;
    let mut lanes = 0;
    for twins in ports.outputs.as_slice() {
        lanes |= word_of(words, twins.old) ^ word_of(wanted.as_slice(), twins.other);
    }
    Ok(lanes & cared_lanes(alloc, change, ports, words)?)
}

/// At which places the input is cared.
fn cared_lanes(
    alloc: Global,
    change: &Change,
    ports: &Ports,
    words: &[u64],
) -> Result<u64, OutOfMemory> {
    let Some(care) = change.care() else {
        return Ok(u64::MAX);
    };
    let cared = transferred(alloc, care, words, ports.care_inputs.as_slice())?;
    let outputs = care.outputs();
    Ok(match outputs.first() {
        None => 0,
        Some(net) => word_of(cared.as_slice(), *net),
    })
}

/// The words of the other netlist, at the inputs at which the old one has these words.
fn transferred(
    alloc: Global,
    other: &Netlist,
    words: &[u64],
    inputs: &[Twins],
) -> Result<Vec<u64>, OutOfMemory> {
    let mut transferred = vec![in alloc; 0u64; other.nets() as usize]?;
    for twins in inputs {
        put_word(&mut transferred, twins.other, word_of(words, twins.old));
    }
    other.fill_words(transferred.as_mut_slice());
    Ok(transferred)
}

/// The word of a net, 0 if there is none.
fn word_of(words: &[u64], net: NetId) -> u64 {
    words.get(net.0 as usize).copied().unwrap_or(0)
}

/// Gives a net its word, if there is such a net.
fn put_word(words: &mut Vec<u64>, net: NetId, word: u64)
    ensures { length words.new.items ≡ length words.old.items }
{
    if let Some(place) = words.get_mut(net.0 as usize) {
        *place = word;
    }
}

/// Keeps the inputs at these places that are wrong, up to 16 of them.
fn keep_wrong(
    alloc: Global,
    change: &Change,
    words: &[u64],
    lanes: u64,
    failing: &mut Vec<Failing>,
) -> Result<(), OutOfMemory>
    requires { All (IsFailing change.now.old change.now.goal) failing.old.items }
    ensures { OnOk result (All (IsFailing change.now.old change.now.goal) failing.new.items) }
{
    let mut kept = 0usize;
    for lane in 0..64u32 {
        if kept < MOST_OF_A_WORD && (lanes >> lane) & 1 == 1 {
            kept = kept.saturating_add(1);
            keep_lane(alloc, change, words, lane, failing)?;
        }
    }
    Ok(())
}

/// Keeps the input at this place, if it is wrong.
fn keep_lane(
    alloc: Global,
    change: &Change,
    words: &[u64],
    lane: u32,
    failing: &mut Vec<Failing>,
) -> Result<(), OutOfMemory>
    requires lane { lane < 64 }
    requires failing { All (IsFailing change.now.old change.now.goal) failing.old.items }
    ensures { OnOk result (All (IsFailing change.now.old change.now.goal) failing.new.items) }
{
    let input = input_at(alloc, change.old(), words, lane)?;
    if let Some(found) = failing_at(alloc, change, input)? {
        failing.push(found)?;
    }
    Ok(())
}

/// The input at this place of the words.
fn input_at(alloc: Global, netlist: &Netlist, words: &[u64], lane: u32) -> Result<Bits, OutOfMemory>
    requires lane { lane < 64 }
    ensures { IfOk result (λ input. length input ≡ length netlist.now.inputs) }
{
    let nets = netlist.inputs();
    let bits: Vec<bool> = nets
        .iter()
        .map(|net| (word_of(words, *net) >> lane) & 1 == 1)
        .collect(alloc)?;
    Ok(Bits::of(bits))
}
