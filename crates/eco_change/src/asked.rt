//! What the outputs are to be at an input, and whether they are wrong there.

ghost use Rattle.std.specs.Prelude.{◌≡◌, ◌↔◌, Bool, List, Some, IfOk, IsTrue, length};
ghost use Rattle.eco_meaning.specs.Circuit.{names};
ghost use Rattle.eco_netlist.specs.Netlists.{bit_of};
ghost use Rattle.eco_netlist.specs.Values.{AreValuesAt};
ghost use Rattle.eco_query.specs.Problem.{IsCareOf};
ghost use Rattle.eco_change.specs.Asked.{AreBits, TellsAsked, TellsCared, TellsWrong};

use crate::change::Change;
use crate::reading::{outputs_of, values_of};
use eco_meaning::{Bits, OutOfMemory};
use eco_netlist::Netlist;
use std::alloc::Global;

/// The outputs that are asked for at the input, in the order of the old netlist's; None if the input isn't cared.
pub fn asked_at(alloc: Global, change: &Change, input: &[bool]) -> Result<Option<Bits>, OutOfMemory>
    requires { length input.now ≡ length change.now.old.inputs }
    ensures { IfOk result (TellsAsked change.now.old change.now.goal input.now) }
{
    let values = change.old().values_at(input)?;
    asked_by(alloc, change, values.as_slice())
}

/// The outputs that are asked for at the input, if it is wrong; None if it isn't.
pub fn wrong_at(alloc: Global, change: &Change, input: &[bool]) -> Result<Option<Bits>, OutOfMemory>
    requires { length input.now ≡ length change.now.old.inputs }
    ensures { IfOk result (TellsWrong change.now.old change.now.goal input.now) }
{
    let old = change.old();
    let values = old.values_at(input)?;
    let Some(wanted) = asked_by(alloc, change, values.as_slice())? else {
        return Ok(None);
    };
    let outputs = outputs_of(alloc, old, values.as_slice())?;
    if are_same(outputs.as_slice(), wanted.as_slice()) {
        return Ok(None);
    }
    Ok(Some(wanted))
}

/// The outputs that are asked for at the input at which the old netlist has these values.
fn asked_by(alloc: Global, change: &Change, values: &[bool]) -> Result<Option<Bits>, OutOfMemory>
    requires { AreBits change.now.old values.now }
    ensures { IfOk result (λ asked. (x : List Bool) → AreValuesAt change.now.old x values.now →
        TellsAsked change.now.old change.now.goal x asked) }
{
    let old = change.old();
    if !is_cared(alloc, change, values)? {
        return Ok(None);
    }
    let specification = change.specification();
    let input = values_of(alloc, old, values, specification, specification.inputs())?;
    let found = specification.values_at(input.as_slice())?;
    let outputs = values_of(alloc, specification, found.as_slice(), old, old.outputs())?;
    Ok(Some(Bits::of(outputs)))
}

/// Whether the input at which the old netlist has these values is cared.
fn is_cared(alloc: Global, change: &Change, values: &[bool]) -> Result<bool, OutOfMemory>
    requires { AreBits change.now.old values.now }
    ensures { IfOk result (TellsCared change.now.goal.care (bit_of (names change.now.old) values.now)) }
{
    match change.care() {
        None => Ok(true),
        Some(care) => is_cared_by(alloc, change.old(), values, care),
    }
}

/// Whether the cared netlist has the output 1 there.
fn is_cared_by(
    alloc: Global,
    old: &Netlist,
    values: &[bool],
    care: &Netlist,
) -> Result<bool, OutOfMemory>
    requires values { AreBits old.now values.now }
    requires care { IsCareOf old.now care.now }
    ensures { IfOk result (TellsCared (Some care.now) (bit_of (names old.now) values.now)) }
{
    let input = values_of(alloc, old, values, care, care.inputs())?;
    let found = care.values_at(input.as_slice())?;
    let outputs = outputs_of(alloc, care, found.as_slice())?;
    Ok(outputs[0])
}

/// Whether the bits are the same.
fn are_same(first: &[bool], second: &[bool]) -> bool
    ensures { IsTrue result ↔ (first.now ≡ second.now) }
{
    first == second
}
