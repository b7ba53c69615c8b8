//! Reports as text.

ghost use Rattle.std.specs.Prelude.{◌≡◌, ◌++◌, decimal, IfOk, OnOk};
ghost use Rattle.std.specs.List.{flat_map};
ghost use Rattle.eco_report.specs.Texts.{base_text, bits_text, group_text, part_text, bound_text, least_text, text_of, unrectifiable_text};

use crate::report::{BaseSignal, Bound, Least, Part, Report, TargetGroup};
use eco_meaning::OutOfMemory;
use itoa::Buffer;
use std::alloc::Global;

/// The text of a report.
pub fn report_text(alloc: Global, report: &Report) -> Result<Vec<u8>, OutOfMemory>
    ensures text { IfOk result (λ text. text.items ≡ text_of report.now) }
{
    let mut text = Vec::from_slice(alloc, b"patched\ncost ")?;
    push_number(&mut text, report.cost)?;
    text.extend_from_slice(b"\ngates ")?;
    push_number(&mut text, report.gates)?;
    text.extend_from_slice(b"\n")?;
    push_groups(alloc, &mut text, report.groups.as_slice())?;
    push_bound(alloc, &mut text, &report.bound)?;
    push_leasts(&mut text, report.least.as_slice())?;
    Ok(text)
}

/// The text that names an input at which no values of the targets help.
pub fn unrectifiable_text(alloc: Global, input: &[bool]) -> Result<Vec<u8>, OutOfMemory>
    ensures text { IfOk result (λ text. text.items ≡ unrectifiable_text input.now) }
{
    let mut text = Vec::from_slice(alloc, b"unrectifiable\n")?;
    push_bits(alloc, &mut text, b"input", input)?;
    Ok(text)
}

/// A line of this word and these bits.
fn push_bits(
    alloc: Global,
    text: &mut Vec<u8>,
    word: &[u8],
    bits: &[bool],
) -> Result<(), OutOfMemory>
    ensures ok { OnOk result (text.new.items ≡ text.old.items ++ bits_text word.now bits.now) }
{
    let digits: Vec<u8> = bits
        .iter()
        .map(|bit| if *bit { b'1' } else { b'0' })
        .collect(alloc)?;
    text.extend_from_slice(word)?;
    text.push(b' ')?;
    text.extend_from_slice(digits.as_slice())?;
    text.extend_from_slice(b"\n")?;
    Ok(())
}

fn push_group(alloc: Global, text: &mut Vec<u8>, group: &TargetGroup) -> Result<(), OutOfMemory>
    ensures ok { OnOk result (text.new.items ≡ text.old.items ++ group_text group.now) }
{
    text.extend_from_slice(b"target ")?;
    text.extend_from_slice(group.target.bytes())?;
    text.extend_from_slice(b" ")?;
    push_number(text, group.base.len() as u64)?;
    text.extend_from_slice(b"\n")?;
    push_signals(alloc, text, group.base.as_slice())
}

fn push_groups(alloc: Global, text: &mut Vec<u8>, groups: &[TargetGroup]) -> Result<(), OutOfMemory>
    ensures ok { OnOk result (text.new.items ≡ text.old.items ++ flat_map group_text groups.now) }
{
    for group in groups {
        push_group(alloc, text, group)?;
    }
    Ok(())
}

fn push_signals(
    alloc: Global,
    text: &mut Vec<u8>,
    signals: &[BaseSignal],
) -> Result<(), OutOfMemory>
    ensures ok { OnOk result (text.new.items ≡ text.old.items ++ flat_map base_text signals.now) }
{
    for signal in signals {
        push_signal(alloc, text, signal)?;
    }
    Ok(())
}

fn push_signal(alloc: Global, text: &mut Vec<u8>, signal: &BaseSignal) -> Result<(), OutOfMemory>
    ensures ok { OnOk result (text.new.items ≡ text.old.items ++ base_text signal.now) }
{
    text.extend_from_slice(b"base ")?;
    text.extend_from_slice(signal.signal.bytes())?;
    text.extend_from_slice(b" ")?;
    push_number(text, u64::from(signal.weight))?;
    text.extend_from_slice(b"\n")?;
    push_bits(alloc, text, b"force1", signal.force1.as_slice())?;
    push_bits(alloc, text, b"force0", signal.force0.as_slice())
}

fn push_bound(alloc: Global, text: &mut Vec<u8>, bound: &Option<Bound>) -> Result<(), OutOfMemory>
    ensures ok { OnOk result (text.new.items ≡ text.old.items ++ bound_text bound.now) }
{
    let Some(bound) = bound else {
        return Ok(());
    };
    text.extend_from_slice(b"bound ")?;
    push_number(text, bound.total)?;
    text.extend_from_slice(b" ")?;
    push_number(text, bound.parts.len() as u64)?;
    text.extend_from_slice(b"\n")?;
    push_parts(alloc, text, bound.parts.as_slice())
}

fn push_parts(alloc: Global, text: &mut Vec<u8>, parts: &[Part]) -> Result<(), OutOfMemory>
    ensures ok { OnOk result (text.new.items ≡ text.old.items ++ flat_map part_text parts.now) }
{
    for part in parts {
        push_part(alloc, text, part)?;
    }
    Ok(())
}

fn push_part(alloc: Global, text: &mut Vec<u8>, part: &Part) -> Result<(), OutOfMemory>
    ensures ok { OnOk result (text.new.items ≡ text.old.items ++ part_text part.now) }
{
    text.extend_from_slice(b"amount ")?;
    push_number(text, u64::from(part.amount))?;
    text.extend_from_slice(b"\n")?;
    push_bits(alloc, text, b"force1", part.force1.as_slice())?;
    push_bits(alloc, text, b"force0", part.force0.as_slice())
}

fn push_leasts(text: &mut Vec<u8>, lines: &[Least]) -> Result<(), OutOfMemory>
    ensures ok { OnOk result (text.new.items ≡ text.old.items ++ flat_map least_text lines.now) }
{
    for line in lines {
        push_least(text, line)?;
    }
    Ok(())
}

fn push_least(text: &mut Vec<u8>, line: &Least) -> Result<(), OutOfMemory>
    ensures ok { OnOk result (text.new.items ≡ text.old.items ++ least_text line.now) }
{
    text.extend_from_slice(b"least ")?;
    text.extend_from_slice(line.target.bytes())?;
    text.extend_from_slice(b" ")?;
    push_number(text, line.cost)?;
    text.extend_from_slice(b"\n")?;
    Ok(())
}

fn push_number(text: &mut Vec<u8>, number: u64) -> Result<(), OutOfMemory>
    ensures ok { OnOk result (text.new.items ≡ text.old.items ++ decimal number) }
{
    let mut buffer = Buffer::new();
    text.extend_from_slice(buffer.format(number).as_bytes())?;
    Ok(())
}
