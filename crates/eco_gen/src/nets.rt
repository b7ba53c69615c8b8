//! The drawn netlists.

ghost use Rattle.std.specs.Prelude.{◌≡◌, ◌+◌, [], ◌∷◌, ◌++◌, ◌<◌, ◌≤◌, length, map, IfOk, OnOk};
ghost use Rattle.std.specs.List.{range_with_len};
ghost use Rattle.eco_meaning.specs.declared.kind.Kind.TheVariants.{Buf};
ghost use Rattle.eco_meaning.specs.declared.name.Operand.TheVariants.{Named};
ghost use Rattle.eco_netlist.specs.Plain.{as_declared};
ghost use Rattle.eco_gen.specs.declared.TheConstants.{INPUTS};
ghost use Rattle.eco_gen.specs.Drawn.{drawn_gate, drawn_netlist, input_names, kept_gates, output_name, port_gate, signal_name, unread_gates};
ghost use Rattle.eco_gen.specs.Cutting.{MayCut};

use crate::INPUTS;
use crate::cutting::kept_gates;
use crate::draws::Draws;
use crate::naming::signal_name;
use crate::unread::unread_gates;
use eco_meaning::{Kind, Name, Operand, OutOfMemory};
use eco_netlist::{Draft, Netlist};
use eco_text::{name_from, numbered};
use std::alloc::Global;

/// Declares an input of this name.
fn add_input(draft: &mut Draft, name: Name) -> Result<(), OutOfMemory>
    ensures { OnOk result (draft.new ≡ record draft.old {
      header = draft.old.header ++ name ∷ [];
      inputs = draft.old.inputs ++ name ∷ [];
    }) }
{
    draft.add_port(name.copy()?)?;
    draft.add_input(name)
}

/// Declares the inputs.
fn add_inputs(draft: &mut Draft, alloc: Global) -> Result<(), OutOfMemory>
    ensures { OnOk result (draft.new ≡ record draft.old {
      header = draft.old.header ++ input_names;
      inputs = draft.old.inputs ++ input_names;
    }) }
{
    for number in 0..INPUTS {
        add_input(draft, numbered(alloc, b"x", number)?)?;
    }
    Ok(())
}

/// Declares an output of this name.
fn add_output(draft: &mut Draft, name: Name) -> Result<(), OutOfMemory>
    ensures { OnOk result (draft.new ≡ record draft.old {
      header = draft.old.header ++ name ∷ [];
      outputs = draft.old.outputs ++ name ∷ [];
    }) }
{
    draft.add_port(name.copy()?)?;
    draft.add_output(name)
}

/// Declares so many outputs.
fn add_outputs(draft: &mut Draft, alloc: Global, count: u64) -> Result<(), OutOfMemory>
    ensures { OnOk result (draft.new ≡ record draft.old {
      header = draft.old.header ++ map output_name (range_with_len 0 count);
      outputs = draft.old.outputs ++ map output_name (range_with_len 0 count);
    }) }
{
    for number in 0..count {
        add_output(draft, numbered(alloc, b"y", number)?)?;
    }
    Ok(())
}

/// Declares the nets behind the gates.
fn add_wires(draft: &mut Draft, alloc: Global, size: u64, targets: u64) -> Result<(), OutOfMemory>
    requires { MayCut size targets }
    ensures { OnOk result (draft.new ≡ record draft.old {
      wires = draft.old.wires ++ map (λ j. signal_name size targets (INPUTS + j)) (range_with_len 0 size);
    }) }
{
    for gate in 0..size {
        draft.add_wire(signal_name(alloc, size, targets, INPUTS + gate)?)?;
    }
    Ok(())
}

/// Adds a gate.
fn add_gate(
    draft: &mut Draft,
    alloc: Global,
    draws: &Draws,
    targets: u64,
    gate: u64,
) -> Result<(), OutOfMemory>
    requires numbers { MayCut draws.now.size targets }
    requires gate { gate < draws.now.size }
    ensures { OnOk result (draft.new ≡ record draft.old {
      gates = draft.old.gates ++ drawn_gate draws.now.seed draws.now.size targets gate ∷ [];
    }) }
{
    let out = signal_name(alloc, draws.size, targets, INPUTS + gate)?;
    let first = signal_name(alloc, draws.size, targets, draws.first(gate))?;
    let second = signal_name(alloc, draws.size, targets, draws.second(gate))?;
    let terms = vec![in alloc; Operand::Named(first), Operand::Named(second)]?;
    draft.add_gate(draws.kind(gate), out, terms)
}

/// Adds the gates that aren't cut.
fn add_gates(
    draft: &mut Draft,
    alloc: Global,
    draws: &Draws,
    targets: u64,
    kept: &[u64],
) -> Result<(), OutOfMemory>
    requires numbers { MayCut draws.now.size targets }
    requires kept { kept.now ≡ kept_gates draws.now.size targets }
    ensures { OnOk result (draft.new ≡ record draft.old {
      gates = draft.old.gates ++ map (drawn_gate draws.now.seed draws.now.size targets) (kept_gates draws.now.size targets);
    }) }
{
    for gate in kept {
        add_gate(draft, alloc, draws, targets, *gate)?;
    }
    Ok(())
}

/// Adds the gate that leads a signal to an output port.
fn add_port_gate(
    draft: &mut Draft,
    alloc: Global,
    port: u64,
    signal: Name,
) -> Result<(), OutOfMemory>
    ensures { OnOk result (draft.new ≡ record draft.old {
      gates = draft.old.gates ++ record { kind = Buf; out = output_name port; terms = Named signal ∷ [] } ∷ [];
    }) }
{
    let terms = vec![in alloc; Operand::Named(signal)]?;
    draft.add_gate(Kind::Buf, numbered(alloc, b"y", port)?, terms)
}

/// Adds the gates that lead to the output ports.
fn add_port_gates(
    draft: &mut Draft,
    alloc: Global,
    draws: &Draws,
    targets: u64,
    unread: &[u64],
) -> Result<(), OutOfMemory>
    requires numbers { MayCut draws.now.size targets }
    requires unread { unread.now ≡ unread_gates draws.now.seed draws.now.size }
    ensures { OnOk result (draft.new ≡ record draft.old {
      gates = draft.old.gates ++ map (port_gate draws.now.seed draws.now.size targets)
          (range_with_len 0 (length (unread_gates draws.now.seed draws.now.size)));
    }) }
{
    for (port, gate) in unread.iter().enumerate() {
        let signal = signal_name(alloc, draws.size, targets, INPUTS + *gate)?;
        add_port_gate(draft, alloc, port as u64, signal)?;
    }
    Ok(())
}

/// The declarations of the netlist of which so many targets cut gates loose.
fn declared(alloc: Global, draws: &Draws, targets: u64) -> Result<Draft, OutOfMemory>
    requires { MayCut draws.now.size targets }
    ensures { IfOk result (λ draft. as_declared draft ≡ drawn_netlist draws.now.seed draws.now.size targets) }
{
    let kept = kept_gates(alloc, draws.size, targets)?;
    let unread = unread_gates(alloc, draws)?;
    let unread = unread.as_slice();
    let mut draft = Draft::new(alloc, name_from(alloc, b"gen")?);
    add_inputs(&mut draft, alloc)?;
    add_outputs(&mut draft, alloc, unread.len() as u64)?;
    add_wires(&mut draft, alloc, draws.size, targets)?;
    add_gates(&mut draft, alloc, draws, targets, kept.as_slice())?;
    add_port_gates(&mut draft, alloc, draws, targets, unread)?;
    Ok(draft)
}

/// The implementation: the netlist of which so many targets cut gates loose.
pub(crate) fn implementation(
    alloc: Global,
    draws: &Draws,
    targets: u64,
) -> Result<Netlist, OutOfMemory>
    requires { MayCut draws.now.size targets }
    ensures { IfOk result (λ netlist. netlist ≡ drawn_netlist draws.now.seed draws.now.size targets) }
{
    declared(alloc, draws, targets)?.finish_plain()
}

/// The specification: the whole netlist.
pub(crate) fn specification(alloc: Global, draws: &Draws) -> Result<Netlist, OutOfMemory>
    ensures { IfOk result (λ netlist. netlist ≡ drawn_netlist draws.now.seed draws.now.size 0) }
{
    declared(alloc, draws, 0)?.finish_plain()
}
