//! The lists and gates of a netlist by the places of its nets.

ghost use Rattle.std.specs.Prelude.{◌≡◌, ◌<◌, length, map, filter, All, IfOk, nat_lt};
ghost use Rattle.eco_gates.specs.Gates.{IsTermBelow, IsGateWithin, IsWithin};
ghost use Rattle.eco_meaning.specs.Gates.{FitsKind};
ghost use Rattle.eco_netlist.specs.Numbering.{term_nets, gate_nets, term_at, gate_at, ArePlaced, HasNets};
ghost use Rattle.eco_netlist.specs.Tallies.{tally_at, count_in};

use crate::numbering::Numbering;
use crate::tally::{Place, Tally};
use eco_gates::{Gate, NetId, Term, Terms};
use eco_meaning::OutOfMemory;
use smallvec::SmallVec;
use std::alloc::Global;

/// The places of these names.
pub(crate) fn places_of(
    alloc: Global,
    numbering: &Numbering,
    list: &[NetId],
) -> Result<Vec<NetId>, OutOfMemory>
    requires { HasNets numbering.now.nets list.now }
    ensures { IfOk result (λ places. ArePlaced numbering.now.nets list.now places.items) }
{
    let mut places = Vec::with_capacity(alloc, list.len())?;
    for net in list {
        places.push(numbering.place(*net))?;
    }
    Ok(places)
}

/// Those of these names that also stand in this place of the declarations.
fn counted_in(
    alloc: Global,
    tallies: &[Tally],
    place: Place,
    list: &[NetId],
) -> Result<Vec<NetId>, OutOfMemory>
    requires { All (λ net. net.0 < length tallies.now) list.now }
    ensures { IfOk result (λ counted. counted.items
        ≡ filter (λ net. nat_lt 0 (count_in place (tally_at tallies.now net.0))) list.now) }
{
    let mut counted = Vec::new(alloc);
    for net in list {
        if tallies[net.0 as usize].count(place) > 0 {
            counted.push(*net)?;
        }
    }
    Ok(counted)
}

/// The places of those of these names that also stand in this place of the declarations.
pub(crate) fn counted_places(
    alloc: Global,
    numbering: &Numbering,
    tallies: &[Tally],
    place: Place,
    list: &[NetId],
) -> Result<Vec<NetId>, OutOfMemory>
    requires within { All (λ net. net.0 < length tallies.now) list.now }
    requires has { HasNets numbering.now.nets list.now }
    ensures { IfOk result (λ places. ArePlaced numbering.now.nets
        (filter (λ net. nat_lt 0 (count_in place (tally_at tallies.now net.0))) list.now) places.items) }
{
    let counted = counted_in(alloc, tallies, place, list)?;
    let places = places_of(alloc, numbering, counted.as_slice())?;
    Ok(places)
}

/// What a gate's input reads, by its place.
fn placed_term(numbering: &Numbering, term: Term) -> Term
    requires { HasNets numbering.now.nets (term_nets term) }
    ensures placed { term_at numbering.now.nets result ≡ term }
    ensures within { IsTermBelow (length numbering.now.nets) result }
{
    match term {
        Term::Zero => Term::Zero,
        Term::One => Term::One,
        Term::Net(net) => Term::Net(numbering.place(net)),
    }
}

/// What a gate's inputs read, by their places.
fn placed_terms(alloc: Global, numbering: &Numbering, terms: &[Term]) -> Result<Terms, OutOfMemory>
    requires { All (λ term. HasNets numbering.now.nets (term_nets term)) terms.now }
    ensures placed { IfOk result (λ ins. map (term_at numbering.now.nets) ins.items ≡ terms.now) }
    ensures within { IfOk result (λ ins. All (IsTermBelow (length numbering.now.nets)) ins.items) }
{
    let mut ins = SmallVec::new(alloc);
    for term in terms {
        ins.push(placed_term(numbering, *term))?;
    }
    Ok(ins)
}

/// A gate by the places of its nets.
fn placed_gate(alloc: Global, numbering: &Numbering, gate: &Gate) -> Result<Gate, OutOfMemory>
    requires has { HasNets numbering.now.nets (gate_nets gate.now) }
    requires fits { FitsKind gate.now.kind (length gate.now.ins) }
    ensures placed { IfOk result (λ placed. gate_at numbering.now.nets placed ≡ gate.now) }
    ensures within { IfOk result (IsGateWithin (length numbering.now.nets)) }
{
    let out = numbering.place(gate.out);
    let ins = placed_terms(alloc, numbering, gate.ins.as_slice())?;
    Ok(Gate {
        kind: gate.kind,
        out,
        ins,
    })
}

/// Gates by the places of their nets.
pub(crate) fn placed_gates(
    alloc: Global,
    numbering: &Numbering,
    gates: &[Gate],
) -> Result<Vec<Gate>, OutOfMemory>
    requires has { All (λ gate. HasNets numbering.now.nets (gate_nets gate)) gates.now }
    requires fits { All (λ gate. FitsKind gate.kind (length gate.ins)) gates.now }
    ensures placed { IfOk result (λ placed. map (gate_at numbering.now.nets) placed.items ≡ gates.now) }
    ensures within { IfOk result (λ placed. IsWithin (length numbering.now.nets) placed.items) }
{
    let mut placed = Vec::with_capacity(alloc, gates.len())?;
    for gate in gates {
        placed.push(placed_gate(alloc, numbering, gate)?)?;
    }
    Ok(placed)
}
