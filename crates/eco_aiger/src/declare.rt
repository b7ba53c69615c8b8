//! From the syntax tree to declarations.

ghost use Rattle.std.specs.Prelude.{◌≡◌, ◌+◌, ◌≤◌, [], ◌∷◌, length, take, drop, OnOk, IfOk};
ghost use Rattle.eco_aiger.specs.Meaning.{complement_gate, complement_gates, and_gate, line_gates, line_seen, and_gates, with_literal, output_gate, output_gates, declared_by};
ghost use Rattle.eco_aiger.specs.Parts.{file_of};
ghost use Rattle.eco_aiger.specs.Declaring.{with_gates, with_header, with_inputs, with_outputs, output_kind};

use crate::naming::{Names, is_complement};
use crate::tree::{AndLine, Tree};
use eco_keyed::Keyed;
use eco_netlist::{Draft, Kind, Name, OutOfMemory};
use eco_text::name_from;
use indexmap::IndexSet;
use std::alloc::Global;

/// Adds the gate of a complement.
fn add_complement(
    alloc: Global,
    draft: &mut Draft,
    names: &Names,
    literal: u64,
) -> Result<(), OutOfMemory>
    requires { 1 ≤ literal }
    ensures { OnOk result (draft.new ≡ with_gates draft.old (complement_gate names.now literal ∷ [])) }
{
    let out = names.complement_name(alloc, literal)?;
    let term = names.operand(alloc, literal - 1)?;
    let mut terms = Vec::new(alloc);
    terms.push(term)?;
    draft.add_gate(Kind::Not, out, terms)
}

/// Adds the gate of a complement, if a literal is one and was not seen; it is then.
fn add_operand(
    alloc: Global,
    draft: &mut Draft,
    names: &Names,
    seen: &mut IndexSet<u64, Keyed>,
    literal: u64,
) -> Result<(), OutOfMemory>
    ensures gates { OnOk result (draft.new ≡ with_gates draft.old (complement_gates names.now seen.old.keys literal)) }
    ensures seen { OnOk result (seen.new.keys ≡ with_literal seen.old.keys literal) }
{
    let is_new = seen.insert(literal)?;
    if is_complement(literal) && is_new {
        add_complement(alloc, draft, names, literal)
    } else {
        Ok(())
    }
}

/// Adds the gate of an and-line alone.
fn add_and(alloc: Global, draft: &mut Draft, names: &Names, and: AndLine) -> Result<(), OutOfMemory>
    ensures { OnOk result (draft.new ≡ with_gates draft.old (and_gate names.now and ∷ [])) }
{
    let out = names.wire_name(alloc, and.left)?;
    let first = names.operand(alloc, and.first)?;
    let second = names.operand(alloc, and.second)?;
    let mut terms = Vec::new(alloc);
    terms.push(first)?;
    terms.push(second)?;
    draft.add_gate(Kind::And, out, terms)
}

/// Adds the gates of an and-line: of the complements that its right side reads first, then its own.
fn add_line(
    alloc: Global,
    draft: &mut Draft,
    names: &Names,
    seen: &mut IndexSet<u64, Keyed>,
    and: AndLine,
) -> Result<(), OutOfMemory>
    ensures gates { OnOk result (draft.new ≡ with_gates draft.old (line_gates names.now seen.old.keys and)) }
    ensures seen { OnOk result (seen.new.keys ≡ line_seen seen.old.keys and) }
{
    add_operand(alloc, draft, names, seen, and.first)?;
    add_operand(alloc, draft, names, seen, and.second)?;
    add_and(alloc, draft, names, and)
}

/// Adds the gates of and-lines, where none was seen; their operands are then.
fn add_seen_lines(
    alloc: Global,
    draft: &mut Draft,
    names: &Names,
    seen: &mut IndexSet<u64, Keyed>,
    ands: &[AndLine],
) -> Result<(), OutOfMemory>
    requires { seen.old.keys ≡ [] }
    ensures { OnOk result (draft.new ≡ with_gates draft.old (and_gates names.now [] ands.now)) }
{
    for and in ands {
        add_line(alloc, draft, names, seen, *and)?;
    }
    Ok(())
}

/// Adds the gates of and-lines.
fn add_lines(
    alloc: Global,
    keyed: Keyed,
    draft: &mut Draft,
    names: &Names,
    ands: &[AndLine],
) -> Result<(), OutOfMemory>
    ensures { OnOk result (draft.new ≡ with_gates draft.old (and_gates names.now [] ands.now)) }
{
    let mut seen = IndexSet::with_hasher(alloc, keyed);
    let added = add_seen_lines(alloc, draft, names, &mut seen, ands);
    drop(seen);
    added
}

/// The kind of an output's gate, and the literal that it reads: the complement of a variable's net, or a copy.
fn output_kind(literal: u64) -> (Kind, u64)
    ensures { result ≡ output_kind literal }
{
    if is_complement(literal) {
        (Kind::Not, literal - 1)
    } else {
        (Kind::Buf, literal)
    }
}

/// Adds the gate of an output.
fn add_output_gate(
    alloc: Global,
    draft: &mut Draft,
    names: &Names,
    name: &Name,
    literal: u64,
) -> Result<(), OutOfMemory>
    ensures { OnOk result (draft.new ≡ with_gates draft.old (output_gate names.now name.now literal ∷ [])) }
{
    let (kind, read) = output_kind(literal);
    let term = names.operand(alloc, read)?;
    let mut terms = Vec::new(alloc);
    terms.push(term)?;
    let out = name.copy()?;
    draft.add_gate(kind, out, terms)
}

/// Adds the gates of outputs, each with its name.
fn add_output_gates(
    alloc: Global,
    draft: &mut Draft,
    names: &Names,
    outputs: &[Name],
    literals: &[u64],
) -> Result<(), OutOfMemory>
    requires { length outputs.now ≡ length literals.now }
    ensures { OnOk result (draft.new ≡ with_gates draft.old (output_gates names.now outputs.now literals.now)) }
{
    for (name, literal) in outputs.iter().zip(literals) {
        add_output_gate(alloc, draft, names, name, *literal)?;
    }
    Ok(())
}

fn add_header(draft: &mut Draft, names: &[Name]) -> Result<(), OutOfMemory>
    ensures { OnOk result (draft.new ≡ with_header draft.old names.now) }
{
    for name in names {
        draft.add_port(name.copy()?)?;
    }
    Ok(())
}

fn add_inputs(draft: &mut Draft, names: &[Name]) -> Result<(), OutOfMemory>
    ensures { OnOk result (draft.new ≡ with_inputs draft.old names.now) }
{
    for name in names {
        draft.add_input(name.copy()?)?;
    }
    Ok(())
}

fn add_outputs(draft: &mut Draft, names: &[Name]) -> Result<(), OutOfMemory>
    ensures { OnOk result (draft.new ≡ with_outputs draft.old names.now) }
{
    for name in names {
        draft.add_output(name.copy()?)?;
    }
    Ok(())
}

/// Adds what a file declares, where its nets are named so.
fn add_file(alloc: Global, draft: &mut Draft, names: &Names, tree: &Tree) -> Result<(), OutOfMemory>
    requires { length names.now.ports ≡ length tree.now.inputs.items + length tree.now.outputs.items }
    ensures { OnOk result (draft.new ≡ with_gates (with_gates (with_outputs (with_inputs (with_header draft.old names.now.ports)
        (take (length tree.now.inputs.items) names.now.ports)) (drop (length tree.now.inputs.items) names.now.ports))
        (and_gates names.now [] tree.now.ands.items))
        (output_gates names.now (drop (length tree.now.inputs.items) names.now.ports) tree.now.outputs.items)) }
{
    let (inputs, outputs) = names.ports().split_at(tree.inputs.len());
    add_header(draft, names.ports())?;
    add_inputs(draft, inputs)?;
    add_outputs(draft, outputs)?;
    add_lines(alloc, tree.keyed, draft, names, tree.ands.as_slice())?;
    add_output_gates(alloc, draft, names, outputs, tree.outputs.as_slice())
}

/// What a file declares, where its nets are named so.
pub(crate) fn declare(alloc: Global, names: &Names, tree: &Tree) -> Result<Draft, OutOfMemory>
    requires { length names.now.ports ≡ length tree.now.inputs.items + length tree.now.outputs.items }
    ensures { IfOk result (λ draft. draft ≡ declared_by names.now (file_of tree.now)) }
{
    let title = name_from(alloc, b"aiger")?;
    let mut draft = Draft::keyed(alloc, title, tree.keyed);
    match add_file(alloc, &mut draft, names, tree) {
        Ok(()) => Ok(draft),
        Err(error) => {
            drop(draft);
            Err(error)
        }
    }
}
