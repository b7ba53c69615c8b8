//! The weights of signals.

ghost use Rattle.std.specs.Prelude.{◌≡◌, ◌+◌, ◌*◌, ◌++◌, ◌<◌, ◌≤◌, codes, ℕ, List, length, map, slice_index, vec_len, IfOk, OnOk};
ghost use Rattle.std.specs.Fmt.{decimal};
ghost use Rattle.std.specs.List.{range_with_len};
ghost use Rattle.eco_meaning.specs.Cost.{Weights as Lines};
ghost use Rattle.eco_weight.specs.Files.{AreWeights};
ghost use Rattle.eco_gen.specs.declared.TheConstants.{INPUTS};
ghost use Rattle.eco_gen.specs.Drawn.{drawn_weight, drawn_weights, gate_name, input_name, kept_gates};
ghost use Rattle.eco_gen.specs.Lines.{weight_line, weight_text};
ghost use Rattle.eco_gen.specs.Cutting.{MayCut};

use crate::INPUTS;
use crate::draws::Draws;
use eco_meaning::OutOfMemory;
use eco_weight::{WeightError, Weights, read};
use itoa::Buffer;
use std::alloc::Global;

/// A line: the name of a letter and a number, and its weight.
fn push_line(text: &mut Vec<u8>, letter: &[u8], number: u64, weight: u32) -> Result<(), OutOfMemory>
    ensures { OnOk result (text.new.items ≡ text.old.items ++ weight_line (letter.now ++ decimal number, weight)) }
{
    let mut buffer = Buffer::new();
    text.extend_from_slice(letter)?;
    text.extend_from_slice(buffer.format(number).as_bytes())?;
    text.extend_from_slice(b" ")?;
    text.extend_from_slice(buffer.format(weight).as_bytes())?;
    text.extend_from_slice(b"\n")?;
    Ok(())
}

/// The lines of the inputs.
fn push_inputs(text: &mut Vec<u8>, draws: &Draws) -> Result<(), OutOfMemory>
    ensures { OnOk result (text.new.items ≡ text.old.items
        ++ weight_text (map (λ k. (input_name k, drawn_weight draws.now.seed draws.now.size k)) (range_with_len 0 INPUTS))) }
{
    for number in 0..INPUTS {
        push_line(text, b"x", number, draws.weight(number))?;
    }
    Ok(())
}

/// The lines of gates.
fn push_gates(text: &mut Vec<u8>, draws: &Draws, gates: &[u64]) -> Result<(), OutOfMemory>
    requires { 3 * draws.now.size + INPUTS + length gates.now ≤ vec_len draws.now.words }
    ensures { OnOk result (text.new.items ≡ text.old.items
        ++ weight_text (map (λ k. (gate_name (slice_index gates.now k), drawn_weight draws.now.seed draws.now.size (INPUTS + k)))
        (range_with_len 0 (length gates.now)))) }
{
    for (place, gate) in gates.iter().enumerate() {
        push_line(text, b"g", *gate, draws.weight(INPUTS + place as u64))?;
    }
    Ok(())
}

/// The file of the weights, where the gates are those that aren't cut.
pub(crate) fn weight_text(
    alloc: Global,
    draws: &Draws,
    kept: &[u64],
) -> Result<Vec<u8>, OutOfMemory>
    requires words { 3 * draws.now.size + INPUTS + length kept.now ≤ vec_len draws.now.words }
    ensures text { (targets : ℕ) → kept.now ≡ kept_gates draws.now.size targets
        → IfOk result (λ text. text.items ≡ weight_text (drawn_weights draws.now.seed draws.now.size targets)) }
    ensures weights { (targets : ℕ) → MayCut draws.now.size targets → kept.now ≡ kept_gates draws.now.size targets
        → IfOk result (λ text. AreWeights text.items (drawn_weights draws.now.seed draws.now.size targets)) }
{
    let mut text = Vec::new(alloc);
    push_inputs(&mut text, draws)?;
    push_gates(&mut text, draws, kept)?;
    Ok(text)
}

/// The weights that a sound file gives.
pub(crate) fn read_back(alloc: Global, text: &[u8]) -> Result<Weights, OutOfMemory>
    requires { (lines : Lines) × AreWeights text.now lines }
    ensures { (lines : Lines) → AreWeights text.now lines → IfOk result (λ weights. weights ≡ lines) }
{
    match read(alloc, text) {
        Ok(weights) => Ok(weights),
        Err(WeightError::OutOfMemory) => Err(OutOfMemory),
        Err(_) => unreachable!(),
    }
}
