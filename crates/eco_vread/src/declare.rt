//! From the syntax tree to declarations.

ghost use Rattle.std.specs.Prelude.{◌≡◌, ◌+◌, ◌<◌, ◌^◌, map, length, [], ◌∷◌, Some, OnOk, IfOk, IsTrue};
ghost use Rattle.std.specs.List.{flat_map, list_all};
ghost use Rattle.eco_meaning.specs.Gates.{FitsKind};
ghost use Rattle.eco_vread.specs.Syntax.{name_of};
ghost use Rattle.eco_vread.specs.Grammar.{is_proper, is_proper_statement, is_proper_instance};
ghost use Rattle.eco_vread.specs.Meaning.{instance_gates, direction_from, has_directions, numbered_nets, declared_of};
ghost use Rattle.eco_vread.specs.Views.{identifier_of};
ghost use Rattle.eco_vread.specs.Trees.{instance_of, statement_of, port_of, header_of, file_of};
ghost use Rattle.eco_vread.specs.Declaring.{with_names, with_gates, with_directions, with_header, with_statement, with_statements, gates_of, section_of, all_numbered_nets};
ghost use Rattle.eco_vread.specs.OwnGates.{HasOwnGates};
ghost use Rattle.eco_vread.specs.declared.declare.Section.TheVariants.{Header};
ghost use Rattle.eco_vread.specs.declared.tree.Direction.TheVariants.{In};

use crate::named::{name, operands};
use crate::operators::add_assignments;
use crate::prefix::Prefix;
use crate::tree::{Direction, GateInstance, Ident, Item, Module, Port, Terminal};
use eco_keyed::Keyed;
use eco_netlist::{Draft, Kind, Name, OutOfMemory};
use std::alloc::Global;

/// One of a module's lists of names.
#[derive(Clone, Copy, Drop)]
enum Section {
    Header,
    Inputs,
    Outputs,
    Wires,
}

/// Adds a gate for each output, all with the same inputs.
fn add_gates(
    alloc: Global,
    draft: &mut Draft,
    kind: Kind,
    outputs: &[Ident],
    inputs: &[Terminal],
) -> Result<(), OutOfMemory>
    requires { FitsKind kind (length inputs.now) }
    ensures { OnOk result (draft.new ≡ with_gates draft.old (gates_of kind outputs.now inputs.now)) }
{
    for output in outputs {
        let out = name(alloc, *output)?;
        let terms = operands(alloc, inputs)?;
        draft.add_gate(kind, out, terms)?;
    }
    Ok(())
}

/// Adds the gates of instances of one kind, each of which is dropped as soon as its gates are added.
fn add_instances(
    alloc: Global,
    draft: &mut Draft,
    kind: Kind,
    instances: Vec<GateInstance>,
) -> Result<(), OutOfMemory>
    requires { IsTrue (list_all (λ i. is_proper_instance kind (instance_of i)) instances.items) }
    ensures { OnOk result (draft.new ≡ with_gates draft.old (flat_map (λ i. instance_gates kind (instance_of i)) instances.entry.items)) }
{
    for instance in instances {
        let outputs = instance.outputs.as_slice();
        let added = add_gates(alloc, draft, kind, outputs, instance.inputs.as_slice());
        drop(instance);
        added?;
    }
    Ok(())
}

fn add_name(draft: &mut Draft, section: Section, name: Name) -> Result<(), OutOfMemory>
    ensures { OnOk result (draft.new ≡ with_names section draft.old (name ∷ [])) }
{
    match section {
        Section::Header => draft.add_port(name),
        Section::Inputs => draft.add_input(name),
        Section::Outputs => draft.add_output(name),
        Section::Wires => draft.add_wire(name),
    }
}

fn add_names(
    alloc: Global,
    draft: &mut Draft,
    section: Section,
    names: &[Ident],
) -> Result<(), OutOfMemory>
    ensures { OnOk result (draft.new ≡ with_names section draft.old (map (λ i. name_of (identifier_of i)) names.now)) }
{
    for ident in names {
        let name = name(alloc, *ident)?;
        add_name(draft, section, name)?;
    }
    Ok(())
}

/// Adds what a statement declares, before which so many nets are numbered; how many are then. The `wire` of
/// `input wire` and `output wire` adds nothing.
fn add_statement(
    alloc: Global,
    draft: &mut Draft,
    prefix: Prefix,
    before: u64,
    item: Item,
) -> Result<u64, OutOfMemory>
    requires proper { IsTrue (is_proper_statement (statement_of item)) }
    requires few { before + numbered_nets (statement_of item) + 2 < 2 ^ 64 }
    ensures declared { OnOk result (draft.new ≡ with_statement draft.old prefix.entry.bytes.now before (statement_of item.entry)) }
    ensures count { IfOk result (λ count. count ≡ before + numbered_nets (statement_of item.entry)) }
{
    match item {
        Item::Input(_, names) => add_names(alloc, draft, Section::Inputs, names.as_slice())?,
        Item::Output(_, names) => add_names(alloc, draft, Section::Outputs, names.as_slice())?,
        Item::Wire(names) => add_names(alloc, draft, Section::Wires, names.as_slice())?,
        Item::Gates(kind, instances) => add_instances(alloc, draft, kind, instances)?,
        Item::Assign(assignments) => {
            return add_assignments(alloc, draft, prefix, before, assignments.as_slice());
        }
    }
    Ok(before)
}

/// Adds what statements declare, each of which is dropped then.
fn add_statements(
    alloc: Global,
    draft: &mut Draft,
    prefix: Prefix,
    items: Vec<Item>,
) -> Result<(), OutOfMemory>
    requires proper { IsTrue (list_all (λ i. is_proper_statement (statement_of i)) items.items) }
    requires few { all_numbered_nets (map statement_of items.items) + 2 < 2 ^ 64 }
    ensures { OnOk result (draft.new ≡ with_statements draft.old prefix.entry.bytes.now 0 (map statement_of items.entry.items)) }
{
    let mut count = 0;
    for item in items {
        count = add_statement(alloc, draft, prefix, count, item)?;
    }
    Ok(())
}

/// Adds the names of ports to the header.
fn add_ports(alloc: Global, draft: &mut Draft, ports: &[Port]) -> Result<(), OutOfMemory>
    ensures { OnOk result (draft.new ≡ with_names Header draft.old (map (λ p. name_of (identifier_of p.name)) ports.now)) }
{
    for port in ports {
        let name = name(alloc, port.name)?;
        draft.add_port(name)?;
    }
    Ok(())
}

/// The list for names of this direction.
fn section_of(direction: Direction) -> Section
    ensures { result ≡ section_of direction }
{
    match direction {
        Direction::In => Section::Inputs,
        Direction::Out => Section::Outputs,
    }
}

/// The direction of a port: that before its name, or else that of the port before it (IEEE 1364-2005, 12.3.4).
fn direction_from(before: Direction, port: &Port) -> Direction
    ensures { result ≡ direction_from before port.now.direction }
{
    match port.direction {
        Some((direction, _)) => direction,
        None => before,
    }
}

/// Adds each port as an input or an output, by its direction.
fn add_directions(alloc: Global, draft: &mut Draft, ports: &[Port]) -> Result<(), OutOfMemory>
    ensures { OnOk result (draft.new ≡ with_directions draft.old In (map port_of ports.now)) }
{
    let mut direction = Direction::In;
    for port in ports {
        direction = direction_from(direction, port);
        let name = name(alloc, port.name)?;
        add_name(draft, section_of(direction), name)?;
    }
    Ok(())
}

/// Whether the first port has a direction.
fn has_directions(ports: &[Port]) -> bool
    ensures { result ≡ has_directions (map port_of ports.now) }
{
    match ports.split_first() {
        Some((first, _)) => first.direction.is_some(),
        None => false,
    }
}

/// Adds what the ports of a header declare: nothing but their names where the first has no direction.
fn add_declared(alloc: Global, draft: &mut Draft, ports: &[Port]) -> Result<(), OutOfMemory>
    ensures { OnOk result (draft.new ≡ with_header draft.old (Some (map port_of ports.now))) }
{
    add_ports(alloc, draft, ports)?;
    if has_directions(ports) {
        add_directions(alloc, draft, ports)?;
    }
    Ok(())
}

fn add_header(
    alloc: Global,
    draft: &mut Draft,
    header: &Option<Vec<Port>>,
) -> Result<(), OutOfMemory>
    ensures { OnOk result (draft.new ≡ with_header draft.old (header_of header.now)) }
{
    match header {
        Some(ports) => add_declared(alloc, draft, ports.as_slice()),
        None => Ok(()),
    }
}

/// Adds what a file declares to a draft without declarations.
fn add_module(
    alloc: Global,
    draft: &mut Draft,
    tree: Module,
    prefix: Prefix,
) -> Result<(), OutOfMemory>
    requires proper { IsTrue (is_proper (file_of tree)) }
    requires few { all_numbered_nets (file_of tree).statements + 2 < 2 ^ 64 }
    ensures { OnOk result (draft.new ≡ with_statements (with_header draft.old (header_of tree.entry.header))
        prefix.entry.bytes.now 0 (map statement_of tree.entry.statements.items)) }
{
    let Module {
        title: _,
        header,
        statements,
    } = tree;
    let added = add_header(alloc, draft, &header);
    drop(header);
    match added {
        Ok(()) => add_statements(alloc, draft, prefix, statements),
        Err(error) => {
            drop(statements);
            Err(error)
        }
    }
}

/// What a file declares. The names of the nets that its assignments number begin with `prefix`; `keyed` is keyed by the
/// file.
pub(crate) fn declare(
    alloc: Global,
    keyed: Keyed,
    tree: Module,
    prefix: Prefix,
) -> Result<Draft, OutOfMemory>
    requires proper { IsTrue (is_proper (file_of tree)) }
    requires own { HasOwnGates prefix.bytes.now (file_of tree) }
    requires few { all_numbered_nets (file_of tree).statements + 2 < 2 ^ 64 }
    ensures { IfOk result (λ draft. draft ≡ declared_of (file_of tree.entry)) }
{
    let title = match name(alloc, tree.title) {
        Ok(title) => title,
        Err(error) => {
            drop(tree);
            return Err(error);
        }
    };
    let mut draft = Draft::keyed(alloc, title, keyed);
    match add_module(alloc, &mut draft, tree, prefix) {
        Ok(()) => Ok(draft),
        Err(error) => {
            drop(draft);
            Err(error)
        }
    }
}
