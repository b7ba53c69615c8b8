//! The gates of a patch from a graph.

ghost use Rattle.std.specs.Prelude.{◌≡◌, ◌<◌, [], ◌∷◌, ◌++◌, map, IfOk, OnOk, All, Contains, length, if◌then◌else◌};
ghost use Rattle.std.specs.List.{zip};
ghost use Rattle.eco_meaning.specs.declared.name.Operand.TheVariants.{Zero, One, Named};
ghost use Rattle.eco_meaning.specs.Circuit.{names};
ghost use Rattle.eco_netlist.specs.Netlists.{AreNets, names_at};
ghost use Rattle.eco_aig.specs.Reached.{operands_at};
ghost use Rattle.eco_splice.specs.GraphPatch.{net_of, sources, edge_gate, root_kind, root_term, root_gate};
ghost use Rattle.eco_splice.specs.Marking.{AreNetted, HasGate, HasNode};

use crate::nets::Nets;
use crate::roots::Frame;
use crate::wiring::edge_to;
use eco_aig::{Aig, Edge};
use eco_netlist::{Draft, Kind, Name, Operand, OutOfMemory};
use std::alloc::Global;

// Adds the gates of these edges.
pub(crate) fn add_edge_gates(
    draft: &mut Draft,
    alloc: Global,
    aig: &Aig,
    nets: &Nets,
    edges: &[Edge],
) -> Result<(), OutOfMemory>
    requires netted { AreNetted nets.now }
    requires gates { All (HasGate aig.now nets.now.edges.items) edges.now }
    ensures { OnOk result (draft.new ≡ record draft.old {
      gates = draft.old.gates ++ map (edge_gate aig.now nets.now.edges.items nets.now.names.items) edges.now;
    }) }
{
    for edge in edges {
        add_edge_gate(draft, alloc, aig, nets, *edge)?;
    }
    Ok(())
}

// Adds the gate of an edge.
fn add_edge_gate(
    draft: &mut Draft,
    alloc: Global,
    aig: &Aig,
    nets: &Nets,
    edge: Edge,
) -> Result<(), OutOfMemory>
    requires netted { AreNetted nets.now }
    requires gate { HasGate aig.now nets.now.edges.items edge }
    ensures { OnOk result (draft.new ≡ record draft.old {
      gates = draft.old.gates ++ edge_gate aig.now nets.now.edges.items nets.now.names.items edge ∷ [];
    }) }
{
    let terms = source_terms(alloc, aig, nets, edge)?;
    let kind = if edge.complemented {
        Kind::Not
    } else {
        Kind::And
    };
    draft.add_gate(kind, nets.name(edge)?, terms)
}

// What the gate of an edge reads.
fn source_terms(
    alloc: Global,
    aig: &Aig,
    nets: &Nets,
    edge: Edge,
) -> Result<Vec<Operand>, OutOfMemory>
    requires netted { AreNetted nets.now }
    requires sources { All (Contains nets.now.edges.items) (sources aig.now edge) }
    ensures { IfOk result (λ terms. terms.items
        ≡ map (λ x. Named (net_of nets.now.edges.items nets.now.names.items x)) (sources aig.now edge)) }
{
    let mut terms = Vec::with_capacity(alloc, 2)?;
    if edge.complemented {
        add_term(&mut terms, nets, edge_to(edge.node))?;
    } else {
        add_operands(&mut terms, aig, nets, edge.node)?;
    }
    Ok(terms)
}

// Adds what the gate of an and-node reads.
fn add_operands(
    terms: &mut Vec<Operand>,
    aig: &Aig,
    nets: &Nets,
    node: u64,
) -> Result<(), OutOfMemory>
    requires netted { AreNetted nets.now }
    requires operands { All (Contains nets.now.edges.items) (operands_at aig.now node) }
    ensures { OnOk result (terms.new.items ≡ terms.old.items
        ++ map (λ x. Named (net_of nets.now.edges.items nets.now.names.items x)) (operands_at aig.now node)) }
{
    match aig.pair(node) {
        None => Ok(()),
        Some((first, second)) => {
            add_term(terms, nets, first)?;
            add_term(terms, nets, second)
        }
    }
}

// Adds the net of an edge.
fn add_term(terms: &mut Vec<Operand>, nets: &Nets, edge: Edge) -> Result<(), OutOfMemory>
    requires netted { AreNetted nets.now }
    requires listed { Contains nets.now.edges.items edge }
    ensures { OnOk result (terms.new.items ≡ terms.old.items
        ++ Named (net_of nets.now.edges.items nets.now.names.items edge) ∷ []) }
{
    terms.push(Operand::Named(nets.name(edge)?))?;
    Ok(())
}

// Adds the gates of the targets, whose roots are these.
pub(crate) fn add_root_gates(
    draft: &mut Draft,
    frame: &Frame<'_>,
    nets: &Nets,
    roots: &[Edge],
) -> Result<(), OutOfMemory>
    requires netted { AreNetted nets.now }
    requires targets { AreNets (names frame.now.f.now) frame.now.targets.now }
    requires count { length frame.now.targets.now ≡ length roots.now }
    requires roots { All (HasNode nets.now.edges.items) roots.now }
    ensures { OnOk result (draft.new ≡ record draft.old {
      gates = draft.old.gates ++ map (λ p. root_gate nets.now.edges.items nets.now.names.items p.0 p.1)
          (zip (names_at (names frame.now.f.now) frame.now.targets.now) roots.now);
    }) }
{
    for place in 0..roots.len() {
        let target = frame.f.name_of(frame.targets[place]);
        add_root_gate(draft, frame.alloc, nets, target, roots[place])?;
    }
    Ok(())
}

// Adds the gate of a target of this name.
fn add_root_gate(
    draft: &mut Draft,
    alloc: Global,
    nets: &Nets,
    target: &Name,
    root: Edge,
) -> Result<(), OutOfMemory>
    requires netted { AreNetted nets.now }
    requires root { HasNode nets.now.edges.items root }
    ensures { OnOk result (draft.new ≡ record draft.old {
      gates = draft.old.gates ++ root_gate nets.now.edges.items nets.now.names.items target.now root ∷ [];
    }) }
{
    let mut terms = Vec::with_capacity(alloc, 1)?;
    terms.push(root_term(nets, root)?)?;
    draft.add_gate(root_kind(root), target.copy()?, terms)
}

// What the gate of a target reads.
fn root_term(nets: &Nets, root: Edge) -> Result<Operand, OutOfMemory>
    requires netted { AreNetted nets.now }
    requires root { HasNode nets.now.edges.items root }
    ensures { IfOk result (λ term. term ≡ root_term nets.now.edges.items nets.now.names.items root) }
{
    if root.node == 0 {
        Ok(constant_term(root.complemented))
    } else {
        Ok(Operand::Named(nets.name(edge_to(root.node))?))
    }
}

// The constant.
pub(crate) fn constant_term(is_one: bool) -> Operand
    ensures { result ≡ (if is_one then One else Zero) }
{
    if is_one { Operand::One } else { Operand::Zero }
}

// The kind of the gate of a target.
fn root_kind(root: Edge) -> Kind
    ensures { result ≡ root_kind root }
{
    if root.complemented && root.node != 0 {
        Kind::Not
    } else {
        Kind::Buf
    }
}
