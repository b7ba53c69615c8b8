//! Drawn netlists.

ghost use Rattle.std.specs.Prelude.{IsTrue};
ghost use Rattle.eco_meaning.specs.Gates.{FitsKind};

use crate::draws::{below, between, kind};
use eco_meaning::{Kind, Name, Operand};
use eco_netlist::{Draft, Netlist, TargetRule};
use itoa::Buffer;
use rand_pcg::Pcg32;
use std::alloc::Global;
use std::process::Abort;

/// What is drawn: how many inputs, targets, gates and outputs there are. The last gates drive the outputs.
#[derive(Clone, Copy)]
pub struct Shape {
    pub inputs: u64,
    pub targets: u64,
    pub gates: u64,
    pub outputs: u64,
    /// Whether gates that read inputs drive the nets with the names of targets.
    pub is_closed: bool,
    /// The gate of this number has the kind of its complement, where there is one of this number.
    pub changed: u64,
}

/// The next shape of an implementation.
pub fn draw_shape(draws: &mut Pcg32) -> Shape {
    Shape {
        inputs: between(draws, 2, 4),
        targets: between(draws, 1, 3),
        gates: between(draws, 3, 8),
        outputs: between(draws, 1, 3),
        is_closed: false,
        changed: u64::MAX,
    }
}

/// The name of these bytes.
pub fn name(rt: &impl Abort, alloc: Global, text: &[u8]) -> Name {
    Name::new(alloc, text)
        .expect(rt, "memory")
        .expect(rt, "a name")
}

/// The name of a letter and a number.
pub fn numbered(rt: &impl Abort, alloc: Global, front: &[u8], number: u64) -> Name {
    let mut buffer = Buffer::new();
    let mut text = Vec::from_slice(alloc, front).expect(rt, "memory");
    text.extend_from_slice(buffer.format(number).as_bytes())
        .expect(rt, "memory");
    name(rt, alloc, text.as_slice())
}

/// The name of what the gate drives.
pub fn gate_name(rt: &impl Abort, alloc: Global, shape: Shape, gate: u64) -> Name {
    let wires = shape.gates.saturating_sub(shape.outputs);
    if gate < wires {
        numbered(rt, alloc, b"g", gate)
    } else {
        numbered(rt, alloc, b"y", gate - wires)
    }
}

/// The name of this number among the inputs, the targets and what the gates drive.
fn signal_name(rt: &impl Abort, alloc: Global, shape: Shape, signal: u64) -> Name {
    if signal < shape.inputs {
        return numbered(rt, alloc, b"x", signal);
    }
    let signal = signal - shape.inputs;
    if signal < shape.targets {
        return numbered(rt, alloc, b"t_", signal);
    }
    gate_name(rt, alloc, shape, signal - shape.targets)
}

/// The next operand, among so many signals.
fn operand(
    rt: &impl Abort,
    alloc: Global,
    draws: &mut Pcg32,
    shape: Shape,
    signals: u64,
) -> Operand {
    match below(draws, 24) {
        0 => Operand::Zero,
        1 => Operand::One,
        _ => Operand::Named(signal_name(rt, alloc, shape, below(draws, signals))),
    }
}

/// How many terms a gate of this kind has.
fn term_count(draws: &mut Pcg32, kind: Kind) -> u64 {
    match kind {
        Kind::Buf | Kind::Not => 1,
        _ => between(draws, 1, 3),
    }
}

/// What the next gate reads, among so many signals.
fn terms(
    rt: &impl Abort,
    alloc: Global,
    draws: &mut Pcg32,
    shape: Shape,
    kind: Kind,
    signals: u64,
) -> Vec<Operand> {
    let mut terms = Vec::new(alloc);
    for _ in 0..term_count(draws, kind) {
        terms
            .push(operand(rt, alloc, draws, shape, signals))
            .expect(rt, "memory");
    }
    terms
}

/// Whether a gate of this kind may have so many terms.
fn fits(kind: Kind, count: usize) -> bool
    ensures { IsTrue result → FitsKind kind count }
{
    match kind {
        Kind::Buf | Kind::Not => count == 1,
        _ => count >= 1,
    }
}

/// Adds the gate.
pub fn add_gate(rt: &impl Abort, draft: &mut Draft, kind: Kind, out: Name, terms: Vec<Operand>) {
    assert!(rt; fits(kind, terms.len()));
    draft.add_gate(kind, out, terms).expect(rt, "memory");
}

/// Declares the port as an input.
pub fn add_input(rt: &impl Abort, draft: &mut Draft, port: Name) {
    draft
        .add_port(port.copy().expect(rt, "memory"))
        .expect(rt, "memory");
    draft.add_input(port).expect(rt, "memory");
}

/// Declares the port as an output.
pub fn add_output(rt: &impl Abort, draft: &mut Draft, port: Name) {
    draft
        .add_port(port.copy().expect(rt, "memory"))
        .expect(rt, "memory");
    draft.add_output(port).expect(rt, "memory");
}

/// Declares the inputs.
fn add_inputs(rt: &impl Abort, draft: &mut Draft, alloc: Global, shape: Shape) {
    for number in 0..shape.inputs {
        add_input(rt, draft, numbered(rt, alloc, b"x", number));
    }
}

/// Declares the outputs, the last one first.
fn add_outputs(rt: &impl Abort, draft: &mut Draft, alloc: Global, shape: Shape) {
    for number in 0..shape.outputs {
        let output = numbered(rt, alloc, b"y", shape.outputs - 1 - number);
        add_output(rt, draft, output);
    }
}

/// Declares the nets with the names of targets.
fn add_targets(rt: &impl Abort, draft: &mut Draft, alloc: Global, shape: Shape) {
    for number in 0..shape.targets {
        draft
            .add_wire(numbered(rt, alloc, b"t_", number))
            .expect(rt, "memory");
    }
}

/// Declares the nets of gates that drive no outputs.
fn add_wires(rt: &impl Abort, draft: &mut Draft, alloc: Global, shape: Shape) {
    for number in 0..shape.gates.saturating_sub(shape.outputs) {
        draft
            .add_wire(numbered(rt, alloc, b"g", number))
            .expect(rt, "memory");
    }
}

/// Adds the next gate, which has this number.
fn draw_gate(
    rt: &impl Abort,
    draft: &mut Draft,
    alloc: Global,
    draws: &mut Pcg32,
    shape: Shape,
    gate: u64,
) {
    let kind = kind(draws, gate == shape.changed);
    let signals = shape.inputs.wrapping_add(shape.targets).wrapping_add(gate);
    let terms = terms(rt, alloc, draws, shape, kind, signals);
    add_gate(rt, draft, kind, gate_name(rt, alloc, shape, gate), terms);
}

/// Adds the gates.
fn draw_gates(rt: &impl Abort, draft: &mut Draft, alloc: Global, draws: &mut Pcg32, shape: Shape) {
    for gate in 0..shape.gates {
        draw_gate(rt, draft, alloc, draws, shape, gate);
    }
}

/// Adds a gate that reads inputs and drives the net with the name of the target of this number.
fn draw_closing(
    rt: &impl Abort,
    draft: &mut Draft,
    alloc: Global,
    draws: &mut Pcg32,
    shape: Shape,
    target: u64,
) {
    let kind = kind(draws, false);
    let terms = terms(rt, alloc, draws, shape, kind, shape.inputs);
    add_gate(rt, draft, kind, numbered(rt, alloc, b"t_", target), terms);
}

/// Adds gates that drive the nets with the names of targets, where the shape has them.
fn close(rt: &impl Abort, draft: &mut Draft, alloc: Global, draws: &mut Pcg32, shape: Shape) {
    let count = if shape.is_closed { shape.targets } else { 0 };
    for target in 0..count {
        draw_closing(rt, draft, alloc, draws, shape, target);
    }
}

/// Declares all nets.
fn declare(rt: &impl Abort, draft: &mut Draft, alloc: Global, shape: Shape) {
    add_inputs(rt, draft, alloc, shape);
    add_outputs(rt, draft, alloc, shape);
    add_targets(rt, draft, alloc, shape);
    add_wires(rt, draft, alloc, shape);
}

/// The next netlist of this shape.
pub fn netlist(rt: &impl Abort, alloc: Global, draws: &mut Pcg32, shape: Shape) -> Netlist {
    let mut draft = Draft::new(alloc, name(rt, alloc, b"drawn"));
    declare(rt, &mut draft, alloc, shape);
    draw_gates(rt, &mut draft, alloc, draws, shape);
    close(rt, &mut draft, alloc, draws, shape);
    draft.finish(TargetRule::Allowed).expect(rt, "a netlist")
}
