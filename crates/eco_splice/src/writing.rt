//! The patch whose gates are given by lines.

ghost use Rattle.std.specs.Prelude.{◌≡◌, ◌<◌, ◌^◌, ◌+◌, ◌↔◌, [], codes, IfOk, IfSome, IsSome, OnOk, IsTrue, All, length};
ghost use Rattle.std.specs.List.{IsDistinct, list_all};
ghost use Rattle.std.specs.Str.{bytes_eq};
ghost use Rattle.eco_meaning.specs.Names.{is_printing};
ghost use Rattle.eco_meaning.specs.Circuit.{names, IsSignal};
ghost use Rattle.eco_netlist.specs.Netlists.{AreNets, names_at};
ghost use Rattle.eco_netlist.specs.Plain.{as_declared};
ghost use Rattle.eco_aig.specs.Graph.{IsEdge, IsGraph, inputs_of};
ghost use Rattle.eco_splice.specs.GraphPatch.{HasTargets, AreRooted};
ghost use Rattle.eco_splice.specs.Lines.{IsLine};
ghost use Rattle.eco_splice.specs.Written.{IsWrittenPatch};
ghost use Rattle.eco_splice.specs.LineGates.{edges_in, wire_count, line_circuit, AreReady, IsLinePatch};
ghost use Rattle.eco_splice.specs.Tables.{ArePlaced};

use crate::graph::{add_inputs, add_outputs};
use crate::line::Line;
use crate::line_gates::{NamedPlaces, add_line_gates};
use crate::line_nets::{net_names, wire_count};
use crate::places::{Places, are_within, netted_edges};
use crate::prefixes::fresh_prefix;
use crate::readiness::is_ready;
use crate::roots::{Frame, Roots};
use crate::wires::add_wires;
use eco_netlist::{Draft, Netlist, OutOfMemory};
use eco_text::name_from;
use std::alloc::Global;

/// The patch that gives the first targets of `f` the values of these roots, as functions of the base signals, which stand for
/// the inputs of the graph in order. Its module is `patch`; its outputs are the targets, its inputs are the base signals. Its
/// gates are those of the lines in order, each over the nets of its operands; a line that drives no target has a wire. None just
/// where a line's edge is none of the graph, where a line reads an edge that neither an input nor a line before it has, where some
/// target has no line or two, or one of another edge than its root, or where no line reads a base signal that a root reaches. It takes time and memory linear in the
/// graph and the lines, beside those for the names, and fails only for want of memory.
pub fn written_patch(
    alloc: Global,
    f: &Netlist,
    roots: &Roots<'_>,
    lines: &[Line],
) -> Result<Option<Netlist>, OutOfMemory>
    requires nets { AreNets (names f.now) roots.now.base.now }
    requires distinct { IsDistinct bytes_eq (names_at (names f.now) roots.now.base.now) }
    requires signals { All (IsSignal f.now) (names_at (names f.now) roots.now.base.now) }
    requires inputs { length (inputs_of roots.now.aig.now) ≡ length roots.now.base.now }
    requires edges { All (IsEdge roots.now.aig.now) roots.now.edges.now }
    requires targets { HasTargets f.now (length roots.now.edges.now) }
    requires rooted { AreRooted f.now roots.now.aig.now roots.now.edges.now (names_at (names f.now) roots.now.base.now) }
    requires lines { All (IsLine roots.now.aig.now) lines.now }
    ensures exactly { IfOk result (λ made. IsSome made ↔ AreReady roots.now.aig.now roots.now.edges.now lines.now) }
    ensures written { IfOk result (λ made. IfSome made
        (IsWrittenPatch f.now roots.now.aig.now roots.now.edges.now (names_at (names f.now) roots.now.base.now) (length lines.now))) }
{
    let nodes = roots.aig.nodes();
    let edges = netted_edges(alloc, roots.aig, lines)?;
    if !are_within(edges.as_slice(), nodes) {
        return Ok(None);
    }
    let places = Places::new(alloc, nodes, edges)?;
    let made = placed_patch(alloc, f, roots, lines, &places);
    drop(places);
    made
}

// The same, where the edges that have nets have their places.
fn placed_patch(
    alloc: Global,
    f: &Netlist,
    roots: &Roots<'_>,
    lines: &[Line],
    places: &Places,
) -> Result<Option<Netlist>, OutOfMemory>
    requires nets { AreNets (names f.now) roots.now.base.now }
    requires distinct { IsDistinct bytes_eq (names_at (names f.now) roots.now.base.now) }
    requires signals { All (IsSignal f.now) (names_at (names f.now) roots.now.base.now) }
    requires inputs { length (inputs_of roots.now.aig.now) ≡ length roots.now.base.now }
    requires edges { All (IsEdge roots.now.aig.now) roots.now.edges.now }
    requires targets { HasTargets f.now (length roots.now.edges.now) }
    requires rooted { AreRooted f.now roots.now.aig.now roots.now.edges.now (names_at (names f.now) roots.now.base.now) }
    requires lines { All (IsLine roots.now.aig.now) lines.now }
    requires placed { ArePlaced (length roots.now.aig.now) places.now }
    requires netted { places.now.edges.items ≡ edges_in roots.now.aig.now lines.now }
    ensures exactly { IfOk result (λ made. IsSome made ↔ AreReady roots.now.aig.now roots.now.edges.now lines.now) }
    ensures written { IfOk result (λ made. IfSome made
        (IsWrittenPatch f.now roots.now.aig.now roots.now.edges.now (names_at (names f.now) roots.now.base.now) (length lines.now))) }
{
    if !is_ready(alloc, roots.aig, roots.edges, lines, places)? {
        return Ok(None);
    }
    let patch = ready_patch(alloc, f, roots, lines, places)?;
    Ok(Some(patch))
}

// The patch of lines that make one.
fn ready_patch(
    alloc: Global,
    f: &Netlist,
    roots: &Roots<'_>,
    lines: &[Line],
    places: &Places,
) -> Result<Netlist, OutOfMemory>
    requires nets { AreNets (names f.now) roots.now.base.now }
    requires distinct { IsDistinct bytes_eq (names_at (names f.now) roots.now.base.now) }
    requires signals { All (IsSignal f.now) (names_at (names f.now) roots.now.base.now) }
    requires inputs { length (inputs_of roots.now.aig.now) ≡ length roots.now.base.now }
    requires targets { HasTargets f.now (length roots.now.edges.now) }
    requires rooted { AreRooted f.now roots.now.aig.now roots.now.edges.now (names_at (names f.now) roots.now.base.now) }
    requires lines { All (IsLine roots.now.aig.now) lines.now }
    requires placed { ArePlaced (length roots.now.aig.now) places.now }
    requires netted { places.now.edges.items ≡ edges_in roots.now.aig.now lines.now }
    requires ready { AreReady roots.now.aig.now roots.now.edges.now lines.now }
    ensures written { IfOk result
        (IsWrittenPatch f.now roots.now.aig.now roots.now.edges.now (names_at (names f.now) roots.now.base.now) (length lines.now)) }
{
    let draft = line_draft(alloc, f, roots, lines, places)?;
    let patch = draft.finish_plain()?;
    Ok(patch)
}

// The draft of the patch, with the prefix and the targets that it takes.
fn line_draft(
    alloc: Global,
    f: &Netlist,
    roots: &Roots<'_>,
    lines: &[Line],
    places: &Places,
) -> Result<Draft, OutOfMemory>
    requires nets { AreNets (names f.now) roots.now.base.now }
    requires inputs { length (inputs_of roots.now.aig.now) ≡ length roots.now.base.now }
    requires targets { HasTargets f.now (length roots.now.edges.now) }
    requires lines { All (IsLine roots.now.aig.now) lines.now }
    requires placed { ArePlaced (length roots.now.aig.now) places.now }
    requires netted { places.now.edges.items ≡ edges_in roots.now.aig.now lines.now }
    requires ready { AreReady roots.now.aig.now roots.now.edges.now lines.now }
    ensures exactly { IfOk result (λ draft. IsLinePatch f.now roots.now.aig.now (length roots.now.edges.now)
        (names_at (names f.now) roots.now.base.now) lines.now (as_declared draft)) }
    ensures graph { OnOk result (IsGraph roots.now.aig.now) }
    ensures room { OnOk result (wire_count lines.now + 1 < 2 ^ 64) }
{
    // it is a graph
    let _ = roots.aig.nodes();
    let prefix = fresh_prefix(alloc, f)?;
    let targets = &f.targets()[..roots.edges.len()];
    let frame = Frame {
        alloc,
        f,
        targets,
        prefix: prefix.as_slice(),
    };
    let draft = prefixed_draft(&frame, roots, lines, places)?;
    Ok(draft)
}

// The draft of the patch, where its wires have this prefix.
fn prefixed_draft(
    frame: &Frame<'_>,
    roots: &Roots<'_>,
    lines: &[Line],
    places: &Places,
) -> Result<Draft, OutOfMemory>
    requires printing { IsTrue (list_all is_printing frame.now.prefix.now) }
    requires targets { AreNets (names frame.now.f.now) frame.now.targets.now }
    requires count { length frame.now.targets.now ≡ length roots.now.edges.now }
    requires nets { AreNets (names frame.now.f.now) roots.now.base.now }
    requires inputs { length (inputs_of roots.now.aig.now) ≡ length roots.now.base.now }
    requires lines { All (IsLine roots.now.aig.now) lines.now }
    requires placed { ArePlaced (length roots.now.aig.now) places.now }
    requires netted { places.now.edges.items ≡ edges_in roots.now.aig.now lines.now }
    requires ready { AreReady roots.now.aig.now roots.now.edges.now lines.now }
    ensures made { IfOk result (λ draft. as_declared draft ≡ line_circuit frame.now.prefix.now (edges_in roots.now.aig.now lines.now) lines.now
        (names_at (names frame.now.f.now) frame.now.targets.now) (names_at (names frame.now.f.now) roots.now.base.now)) }
    ensures room { OnOk result (wire_count lines.now + 1 < 2 ^ 64) }
{
    let name = name_from(frame.alloc, b"patch")?;
    let mut draft = Draft::new(frame.alloc, name);
    match add_patch(&mut draft, frame, roots, lines, places) {
        Ok(()) => Ok(draft),
        Err(error) => {
            drop(draft);
            Err(error)
        }
    }
}

// Adds what the patch has to a draft that has nothing yet.
fn add_patch(
    draft: &mut Draft,
    frame: &Frame<'_>,
    roots: &Roots<'_>,
    lines: &[Line],
    places: &Places,
) -> Result<(), OutOfMemory>
    requires empty { draft.old ≡ record { title = codes "patch"; header = []; inputs = []; outputs = []; wires = []; gates = [] } }
    requires printing { IsTrue (list_all is_printing frame.now.prefix.now) }
    requires targets { AreNets (names frame.now.f.now) frame.now.targets.now }
    requires count { length frame.now.targets.now ≡ length roots.now.edges.now }
    requires nets { AreNets (names frame.now.f.now) roots.now.base.now }
    requires inputs { length (inputs_of roots.now.aig.now) ≡ length roots.now.base.now }
    requires lines { All (IsLine roots.now.aig.now) lines.now }
    requires placed { ArePlaced (length roots.now.aig.now) places.now }
    requires netted { places.now.edges.items ≡ edges_in roots.now.aig.now lines.now }
    requires ready { AreReady roots.now.aig.now roots.now.edges.now lines.now }
    ensures made { OnOk result (as_declared draft.new ≡ line_circuit frame.now.prefix.now (edges_in roots.now.aig.now lines.now) lines.now
        (names_at (names frame.now.f.now) frame.now.targets.now) (names_at (names frame.now.f.now) roots.now.base.now)) }
    ensures room { OnOk result (wire_count lines.now + 1 < 2 ^ 64) }
{
    let names = net_names(frame, roots.base, lines)?;
    let nets = NamedPlaces {
        places,
        names: names.as_slice(),
    };
    add_outputs(draft, frame.f, frame.targets)?;
    add_inputs(draft, frame.f, roots.base)?;
    add_wires(draft, frame.alloc, frame.prefix, wire_count(lines))?;
    add_line_gates(draft, frame.alloc, &nets, roots.base.len(), lines)
}
