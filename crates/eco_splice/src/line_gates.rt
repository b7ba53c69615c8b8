//! The gates of lines.

ghost use Rattle.std.specs.Prelude.{◌≡◌, ◌<◌, ◌+◌, ◌++◌, ◌∷◌, [], IfOk, OnOk, All, length, drop, map};
ghost use Rattle.eco_meaning.specs.declared.name.Operand.TheVariants.{Named};
ghost use Rattle.eco_meaning.specs.Gates.{FitsKind};
ghost use Rattle.eco_splice.specs.GraphPatch.{net_of};
ghost use Rattle.eco_splice.specs.LineGates.{first_place, StandsBefore, line_term, line_gate, line_gates};
ghost use Rattle.eco_splice.specs.Tables.{ArePlaced};

use crate::gates::constant_term;
use crate::line::Line;
use crate::places::Places;
use eco_aig::Edge;
use eco_netlist::{Draft, Name, Operand, OutOfMemory};
use std::alloc::Global;

// The places of edges with the names of their nets.
#[derive(Clone, Copy)]
pub(crate) struct NamedPlaces<'n> {
    pub(crate) places: &'n Places,
    pub(crate) names: &'n [Name],
}

// Adds the gates of the lines, which drive the nets behind those of so many inputs.
pub(crate) fn add_line_gates(
    draft: &mut Draft,
    alloc: Global,
    nets: &NamedPlaces<'_>,
    inputs: usize,
    lines: &[Line],
) -> Result<(), OutOfMemory>
    requires placed { ArePlaced (length nets.now.places.now.plain.items) nets.now.places.now }
    requires nets { length nets.now.names.now ≡ length nets.now.places.now.edges.items }
    requires count { length nets.now.names.now ≡ inputs + length lines.now }
    requires fits { All (λ line. FitsKind line.kind (length line.operands.items)) lines.now }
    requires stand { All (λ line. All (StandsBefore nets.now.places.now.edges.items (length nets.now.places.now.edges.items)) line.operands.items) lines.now }
    ensures { OnOk result (draft.new ≡ record draft.old {
      gates = draft.old.gates ++ line_gates nets.now.places.now.edges.items nets.now.names.now lines.now (drop inputs nets.now.names.now);
    }) }
{
    for place in 0..lines.len() {
        let out = &nets.names[inputs + place];
        add_line_gate(draft, alloc, nets, &lines[place], out)?;
    }
    Ok(())
}

// Adds the gate of a line, which drives the net of this name.
fn add_line_gate(
    draft: &mut Draft,
    alloc: Global,
    nets: &NamedPlaces<'_>,
    line: &Line,
    out: &Name,
) -> Result<(), OutOfMemory>
    requires placed { ArePlaced (length nets.now.places.now.plain.items) nets.now.places.now }
    requires nets { length nets.now.names.now ≡ length nets.now.places.now.edges.items }
    requires fits { FitsKind line.now.kind (length line.now.operands.items) }
    requires stand { All (StandsBefore nets.now.places.now.edges.items (length nets.now.places.now.edges.items)) line.now.operands.items }
    ensures { OnOk result (draft.new ≡ record draft.old {
      gates = draft.old.gates ++ line_gate nets.now.places.now.edges.items nets.now.names.now line.now out.now ∷ [];
    }) }
{
    let terms = line_terms(alloc, nets, line.operands.as_slice())?;
    draft.add_gate(line.kind, out.copy()?, terms)
}

// What the gate of a line of these operands reads.
fn line_terms(
    alloc: Global,
    nets: &NamedPlaces<'_>,
    operands: &[Edge],
) -> Result<Vec<Operand>, OutOfMemory>
    requires placed { ArePlaced (length nets.now.places.now.plain.items) nets.now.places.now }
    requires nets { length nets.now.names.now ≡ length nets.now.places.now.edges.items }
    requires stand { All (StandsBefore nets.now.places.now.edges.items (length nets.now.places.now.edges.items)) operands.now }
    ensures { IfOk result (λ terms. terms.items ≡ map (line_term nets.now.places.now.edges.items nets.now.names.now) operands.now) }
{
    let mut terms = Vec::with_capacity(alloc, operands.len())?;
    for operand in operands {
        terms.push(line_term(nets, *operand)?)?;
    }
    Ok(terms)
}

// What a gate reads for an operand.
fn line_term(nets: &NamedPlaces<'_>, operand: Edge) -> Result<Operand, OutOfMemory>
    requires placed { ArePlaced (length nets.now.places.now.plain.items) nets.now.places.now }
    requires nets { length nets.now.names.now ≡ length nets.now.places.now.edges.items }
    requires stands { StandsBefore nets.now.places.now.edges.items (length nets.now.places.now.edges.items) operand }
    ensures { IfOk result (λ term. term ≡ line_term nets.now.places.now.edges.items nets.now.names.now operand) }
{
    if operand.node == 0 {
        Ok(constant_term(operand.complemented))
    } else {
        net_term(nets, operand)
    }
}

// The net of an edge that has a place.
fn net_term(nets: &NamedPlaces<'_>, operand: Edge) -> Result<Operand, OutOfMemory>
    requires placed { ArePlaced (length nets.now.places.now.plain.items) nets.now.places.now }
    requires nets { length nets.now.names.now ≡ length nets.now.places.now.edges.items }
    requires listed { first_place nets.now.places.now.edges.items operand < length nets.now.places.now.edges.items }
    ensures { IfOk result (λ term. term ≡ Named (net_of nets.now.places.now.edges.items nets.now.names.now operand)) }
{
    let place = nets.places.place(operand);
    Ok(Operand::Named(nets.names[place].copy()?))
}
