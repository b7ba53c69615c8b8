//! Netlists that are written with nets cut.

ghost use Rattle.std.specs.Prelude.{◌≡◌, ◌≢◌, ◌<◌, ◌++◌, [], ◌∷◌, ℕ, IfOk, OnOk, MatchOption, All, AllPairs, Contains, Some, map, filter, length, slice_get};
ghost use Rattle.eco_meaning.specs.declared.name.Operand.TheVariants.{Named};
ghost use Rattle.eco_meaning.specs.Names.{has};
ghost use Rattle.eco_meaning.specs.Circuit.{names};
ghost use Rattle.eco_gates.specs.GateValue.{GateValue};
ghost use Rattle.eco_gates.specs.Gates.{IsGateWithin, IsTermBelow};
ghost use Rattle.eco_netlist.specs.Netlists.{named_gate, named_term, names_at, AreNets};
ghost use Rattle.eco_cutting.specs.Cuts.{AreCuts, cut_of, cut_gate, port_gate, read_for, driven_for, read_operand};

use crate::cut_net::CutNet;
use eco_meaning::{Kind, Name, Operand, OutOfMemory};
use eco_netlist::{Draft, Gate, NetId, Netlist, Term};
use std::alloc::Global;

/// The cut of the net of this name, if it is cut.
fn cut_of_net<'a>(cuts: &'a [CutNet], name: &Name) -> Option<&'a CutNet>
    ensures { MatchOption result (Contains (map (λ c. c.net) cuts.now) name.now → ⊥)
        (λ cut. Contains cuts.now cut.now × (cut.now.net ≡ name.now)) }
{
    for cut in cuts {
        if cut.net == *name {
            return Some(cut);
        }
    }
    None
}

/// The name that is read in place of a name.
fn read_name(cuts: &[CutNet], name: &Name) -> Result<Name, OutOfMemory>
    requires once { AllPairs (λ a b. a ≢ b) (map (λ c. c.net) cuts.now) }
    ensures { IfOk result (λ read. read ≡ read_for cuts.now name.now) }
{
    match cut_of_net(cuts, name) {
        Some(cut) => cut.target.copy(),
        None => name.copy(),
    }
}

/// The name that is driven in place of a name.
fn driven_name(cuts: &[CutNet], name: &Name) -> Result<Name, OutOfMemory>
    requires once { AllPairs (λ a b. a ≢ b) (map (λ c. c.net) cuts.now) }
    ensures { IfOk result (λ driven. driven ≡ driven_for cuts.now name.now) }
{
    match cut_of_net(cuts, name) {
        Some(cut) => cut.old.copy(),
        None => name.copy(),
    }
}

/// What is read in place of a gate's input.
fn cut_term(f: &Netlist, cuts: &[CutNet], term: Term) -> Result<Operand, OutOfMemory>
    requires once { AllPairs (λ a b. a ≢ b) (map (λ c. c.net) cuts.now) }
    requires within { IsTermBelow (length (names f.now)) term }
    ensures { IfOk result (λ operand. operand ≡ read_operand cuts.now (named_term (names f.now) term)) }
{
    match term {
        Term::Zero => Ok(Operand::Zero),
        Term::One => Ok(Operand::One),
        Term::Net(net) => Ok(Operand::Named(read_name(cuts, f.name_of(net))?)),
    }
}

/// What is read in place of a gate's inputs.
fn cut_terms(
    alloc: Global,
    f: &Netlist,
    cuts: &[CutNet],
    terms: &[Term],
) -> Result<Vec<Operand>, OutOfMemory>
    requires once { AllPairs (λ a b. a ≢ b) (map (λ c. c.net) cuts.now) }
    requires within { All (IsTermBelow (length (names f.now))) terms.now }
    ensures { IfOk result (λ operands.
        operands.items ≡ map (read_operand cuts.now) (map (named_term (names f.now)) terms.now)) }
{
    let mut operands = Vec::new(alloc);
    for term in terms {
        operands.push(cut_term(f, cuts, *term)?)?;
    }
    Ok(operands)
}

/// Adds a gate with the cuts.
fn add_gate(
    alloc: Global,
    f: &Netlist,
    cuts: &[CutNet],
    gate: &Gate,
    draft: &mut Draft,
) -> Result<(), OutOfMemory>
    requires once { AllPairs (λ a b. a ≢ b) (map (λ c. c.net) cuts.now) }
    requires within { IsGateWithin (length (names f.now)) gate.now }
    ensures { OnOk result (draft.new ≡ record draft.old {
      gates = draft.old.gates ++ cut_gate cuts.now (named_gate (names f.now) gate.now) ∷ [];
    }) }
{
    let terms = cut_terms(alloc, f, cuts, gate.ins.as_slice())?;
    match driven_name(cuts, f.name_of(gate.out)) {
        Ok(out) => draft.add_gate(gate.kind, out, terms),
        Err(error) => {
            drop(terms);
            Err(error)
        }
    }
}

/// Adds all gates with the cuts.
fn add_gates(
    alloc: Global,
    f: &Netlist,
    cuts: &[CutNet],
    draft: &mut Draft,
) -> Result<(), OutOfMemory>
    requires once { AllPairs (λ a b. a ≢ b) (map (λ c. c.net) cuts.now) }
    ensures { OnOk result (draft.new ≡ record draft.old {
      gates = draft.old.gates ++ map (cut_gate cuts.now) f.now.gates;
    }) }
{
    let gates = f.gates();
    for gate in gates {
        add_gate(alloc, f, cuts, gate, draft)?;
    }
    Ok(())
}

/// Declares the ports.
fn add_ports(f: &Netlist, draft: &mut Draft) -> Result<(), OutOfMemory>
    ensures { OnOk result (draft.new ≡ record draft.old { header = draft.old.header ++ f.now.ports }) }
{
    let nets = f.ports();
    for net in nets {
        draft.add_port(f.name_of(*net).copy()?)?;
    }
    Ok(())
}

/// Declares the inputs.
fn add_inputs(f: &Netlist, draft: &mut Draft) -> Result<(), OutOfMemory>
    ensures { OnOk result (draft.new ≡ record draft.old { inputs = draft.old.inputs ++ f.now.inputs }) }
{
    let nets = f.inputs();
    for net in nets {
        draft.add_input(f.name_of(*net).copy()?)?;
    }
    Ok(())
}

/// Declares the outputs.
fn add_outputs(f: &Netlist, draft: &mut Draft) -> Result<(), OutOfMemory>
    ensures { OnOk result (draft.new ≡ record draft.old { outputs = draft.old.outputs ++ f.now.outputs }) }
{
    let nets = f.outputs();
    for net in nets {
        draft.add_output(f.name_of(*net).copy()?)?;
    }
    Ok(())
}

/// Declares the targets of the cuts.
fn add_targets(cuts: &[CutNet], draft: &mut Draft) -> Result<(), OutOfMemory>
    ensures { OnOk result (draft.new ≡ record draft.old { wires = draft.old.wires ++ map (λ c. c.target) cuts.now }) }
{
    for cut in cuts {
        draft.add_wire(cut.target.copy()?)?;
    }
    Ok(())
}

/// Declares the wires.
fn add_wires(f: &Netlist, draft: &mut Draft) -> Result<(), OutOfMemory>
    ensures { OnOk result (draft.new ≡ record draft.old { wires = draft.old.wires ++ f.now.wires }) }
{
    let ports = f.ports().len() as u64;
    for number in ports..f.nets() {
        draft.add_wire(f.name_of(NetId(number)).copy()?)?;
    }
    Ok(())
}

/// Whether the net of this name is an output.
pub(crate) fn is_output(f: &Netlist, name: &Name) -> bool
    ensures { result ≡ has f.now.outputs name.now }
{
    let outputs = f.outputs();
    for net in outputs {
        if f.name_of(*net) == name {
            return true;
        }
    }
    false
}

/// Declares the net that the gate of an output drives from now on, if the cut is of one.
fn add_old(f: &Netlist, cut: &CutNet, draft: &mut Draft) -> Result<(), OutOfMemory>
    ensures { OnOk result (draft.new ≡ record draft.old {
      wires = draft.old.wires ++ map (λ c. c.old) (filter (λ c. has f.now.outputs c.net) (cut.now ∷ []));
    }) }
{
    if !is_output(f, &cut.net) {
        return Ok(());
    }
    draft.add_wire(cut.old.copy()?)
}

/// Declares these nets of all cuts.
fn add_olds(f: &Netlist, cuts: &[CutNet], draft: &mut Draft) -> Result<(), OutOfMemory>
    ensures { OnOk result (draft.new ≡ record draft.old {
      wires = draft.old.wires ++ map (λ c. c.old) (filter (λ c. has f.now.outputs c.net) cuts.now);
    }) }
{
    for cut in cuts {
        add_old(f, cut, draft)?;
    }
    Ok(())
}

/// The terms of a gate that reads this net alone.
fn one_term(alloc: Global, name: &Name) -> Result<Vec<Operand>, OutOfMemory>
    ensures { IfOk result (λ terms. terms.items ≡ Named name.now ∷ []) }
{
    let mut terms = Vec::new(alloc);
    terms.push(Operand::Named(name.copy()?))?;
    Ok(terms)
}

/// Adds the gate that drives an output, if the cut is of one.
fn add_port_gate(
    alloc: Global,
    f: &Netlist,
    cut: &CutNet,
    draft: &mut Draft,
) -> Result<(), OutOfMemory>
    ensures { OnOk result (draft.new ≡ record draft.old {
      gates = draft.old.gates ++ map port_gate (filter (λ c. has f.now.outputs c.net) (cut.now ∷ []));
    }) }
{
    if !is_output(f, &cut.net) {
        return Ok(());
    }
    let terms = one_term(alloc, &cut.target)?;
    match cut.net.copy() {
        Ok(out) => draft.add_gate(Kind::Buf, out, terms),
        Err(error) => {
            drop(terms);
            Err(error)
        }
    }
}

/// Adds these gates of all cuts.
fn add_port_gates(
    alloc: Global,
    f: &Netlist,
    cuts: &[CutNet],
    draft: &mut Draft,
) -> Result<(), OutOfMemory>
    ensures { OnOk result (draft.new ≡ record draft.old {
      gates = draft.old.gates ++ map port_gate (filter (λ c. has f.now.outputs c.net) cuts.now);
    }) }
{
    for cut in cuts {
        add_port_gate(alloc, f, cut, draft)?;
    }
    Ok(())
}

/// Declares the netlist with the cuts.
fn declare(
    alloc: Global,
    f: &Netlist,
    cuts: &[CutNet],
    draft: &mut Draft,
) -> Result<(), OutOfMemory>
    requires once { AllPairs (λ a b. a ≢ b) (map (λ c. c.net) cuts.now) }
    ensures { OnOk result (draft.new ≡ record {
      title = draft.old.title;
      header = draft.old.header ++ f.now.ports;
      inputs = draft.old.inputs ++ f.now.inputs;
      outputs = draft.old.outputs ++ f.now.outputs;
      wires = ((draft.old.wires ++ f.now.wires) ++ map (λ c. c.target) cuts.now)
          ++ map (λ c. c.old) (filter (λ c. has f.now.outputs c.net) cuts.now);
      gates = (draft.old.gates ++ map (cut_gate cuts.now) f.now.gates)
          ++ map port_gate (filter (λ c. has f.now.outputs c.net) cuts.now);
    }) }
{
    add_ports(f, draft)?;
    add_inputs(f, draft)?;
    add_outputs(f, draft)?;
    add_wires(f, draft)?;
    add_targets(cuts, draft)?;
    add_olds(f, cuts, draft)?;
    add_gates(alloc, f, cuts, draft)?;
    add_port_gates(alloc, f, cuts, draft)
}

/// The netlist with these cuts.
///
/// # Errors
///
/// `OutOfMemory` only for want of memory.
pub fn cut_netlist(alloc: Global, f: &Netlist, cuts: &[CutNet]) -> Result<Netlist, OutOfMemory>
    requires { AreCuts f.now cuts.now }
    ensures { IfOk result (λ netlist. netlist ≡ cut_of f.now cuts.now) }
{
    let _ = f.nets();
    let mut draft = Draft::keyed(alloc, f.module().copy()?, f.hasher());
    match declare(alloc, f, cuts, &mut draft) {
        Ok(()) => draft.finish_plain(),
        Err(error) => {
            drop(draft);
            Err(error)
        }
    }
}
