//! Whether lines make a patch.

ghost use Rattle.std.specs.Prelude.{◌≡◌, ◌<◌, ◌≤◌, ◌+◌, ◌^◌, ◌↔◌, ℕ, Bool, true, false, List, [], ◌∷◌, Some, IfOk, IsTrue, All, Contains, length, slice_get, slice_index_or};
ghost use Rattle.std.specs.List.{list_all};
ghost use Rattle.eco_splice.specs.declared.line.Line.{Line};
ghost use Rattle.eco_aig.specs.Graph.{IsEdge};
ghost use Rattle.eco_splice.specs.LineGates.{edges_in, StandsBefore, ReadEarlier, DriveTargets, ReadInputs, AreReady};
ghost use Rattle.eco_splice.specs.Tables.{ArePlaced, AreMarked, AreMarkedFor, AreReadMarks, HasMark, MarksTarget};

use crate::line::Line;
use crate::places::Places;
use eco_aig::{Aig, Edge, reached};
use eco_netlist::OutOfMemory;
use std::alloc::Global;

// Whether each line reads what stands before it, each target is driven once, by its root, and each input that a root
// reaches is read.
pub(crate) fn is_ready(
    alloc: Global,
    aig: &Aig,
    roots: &[Edge],
    lines: &[Line],
    places: &Places,
) -> Result<bool, OutOfMemory>
    requires roots { All (IsEdge aig.now) roots.now }
    requires placed { ArePlaced (length aig.now) places.now }
    requires edges { places.now.edges.items ≡ edges_in aig.now lines.now }
    ensures { IfOk result (λ is. IsTrue is ↔ AreReady aig.now roots.now lines.now) }
{
    if !read_earlier(places, aig.inputs().len(), lines) {
        return Ok(false);
    }
    if !drive_targets(alloc, roots, lines)? {
        return Ok(false);
    }
    read_inputs(alloc, aig, roots, lines)
}

// Whether each line reads what stands before it; the nets of so many inputs stand before the first.
fn read_earlier(places: &Places, inputs: usize, lines: &[Line]) -> bool
    requires placed { ArePlaced (length places.now.plain.items) places.now }
    requires few { inputs < 2 ^ 63 }
    requires edges { length places.now.edges.items ≡ inputs + length lines.now }
    ensures { IsTrue result ↔ ReadEarlier places.now.edges.items inputs lines.now }
{
    for place in 0..lines.len() {
        if !reads_earlier(places, inputs, lines, place) {
            return false;
        }
    }
    true
}

// Whether the line at this place reads what stands before it.
fn reads_earlier(places: &Places, inputs: usize, lines: &[Line], place: usize) -> bool
    requires placed { ArePlaced (length places.now.plain.items) places.now }
    requires few { inputs < 2 ^ 63 }
    requires edges { length places.now.edges.items ≡ inputs + length lines.now }
    requires place { place < length lines.now }
    ensures { IsTrue result ↔ ((line : Line) → slice_get lines.now place ≡ Some line
        → All (StandsBefore places.now.edges.items (inputs + place)) line.operands.items) }
{
    let line = &lines[place];
    stand_before(places, inputs + place, line.operands.as_slice())
}

// Whether each of these is a constant or has a place before this one.
fn stand_before(places: &Places, place: usize, operands: &[Edge]) -> bool
    requires placed { ArePlaced (length places.now.plain.items) places.now }
    requires place { place ≤ length places.now.edges.items }
    ensures { IsTrue result ↔ All (StandsBefore places.now.edges.items place) operands.now }
{
    for operand in operands {
        if !places.stands_before(place, *operand) {
            return false;
        }
    }
    true
}

// Whether each target is driven by just one line, and that by the edge of its root.
fn drive_targets(alloc: Global, roots: &[Edge], lines: &[Line]) -> Result<bool, OutOfMemory>
    ensures { IfOk result (λ is. IsTrue is ↔ DriveTargets roots.now lines.now) }
{
    let mut driven = vec![in alloc; false; roots.len()]?;
    if !mark_targets(roots, lines, &mut driven) {
        return Ok(false);
    }
    Ok(all_marked(driven.as_slice()))
}

// Whether each mark stands.
fn all_marked(marks: &[bool]) -> bool
    ensures { result ≡ list_all (λ mark. mark) marks.now }
{
    marks.iter().all(|mark| *mark)
}

// Marks the targets that the lines drive, until one drives a target that is marked, or has another edge than its root.
fn mark_targets(roots: &[Edge], lines: &[Line], driven: &mut Vec<bool>) -> bool
    requires none { AreMarked roots.now lines.now 0 driven.old.items }
    ensures marked { result ≡ true → AreMarked roots.now lines.now (length lines.now) driven.new.items }
    ensures refused { result ≡ false → DriveTargets roots.now lines.now → ⊥ }
{
    for place in 0..lines.len() {
        let line = &lines[place];
        if !mark_target(roots, line.edge, line.target, driven) {
            return false;
        }
    }
    true
}

// Marks the target of a line of this edge, unless it is marked, or has another root.
fn mark_target(roots: &[Edge], edge: Edge, target: Option<u64>, driven: &mut Vec<bool>) -> bool
    requires { length driven.old.items ≡ length roots.now }
    ensures marked { result ≡ true → MarksTarget roots.now edge driven.old.items driven.new.items target }
    ensures refused { result ≡ false → (marks : List Bool) → MarksTarget roots.now edge driven.old.items marks target → ⊥ }
{
    match target {
        None => true,
        Some(target) => mark_new(roots, edge, target, driven),
    }
}

// Marks the target, unless it is marked, or has another root than this edge.
fn mark_new(roots: &[Edge], edge: Edge, target: u64, driven: &mut Vec<bool>) -> bool
    requires { length driven.old.items ≡ length roots.now }
    ensures marked { result ≡ true → MarksTarget roots.now edge driven.old.items driven.new.items (Some target) }
    ensures refused { result ≡ false → (marks : List Bool) → MarksTarget roots.now edge driven.old.items marks (Some target) → ⊥ }
{
    if roots.len() as u64 <= target {
        return false;
    }
    let target = target as usize;
    if driven[target] || roots[target] != edge {
        return false;
    }
    driven[target] = true;
    true
}

// Whether each input that a root reaches is an operand of some line.
fn read_inputs(
    alloc: Global,
    aig: &Aig,
    roots: &[Edge],
    lines: &[Line],
) -> Result<bool, OutOfMemory>
    requires { All (IsEdge aig.now) roots.now }
    ensures { IfOk result (λ is. IsTrue is ↔ ReadInputs aig.now roots.now lines.now) }
{
    let marks = reached(alloc, aig, roots)?;
    let mut read = vec![in alloc; false; aig.nodes() as usize]?;
    mark_lines(lines, &mut read);
    Ok(are_marked(aig.inputs(), marks.as_slice(), read.as_slice()))
}

// Marks the nodes whose plain edges the lines read.
fn mark_lines(lines: &[Line], read: &mut Vec<bool>)
    requires none { AreReadMarks (length read.old.items) [] read.old.items }
    ensures { AreReadMarks (length read.old.items) lines.now read.new.items }
{
    for place in 0..lines.len() {
        let line = &lines[place];
        mark_operands(line.operands.as_slice(), read);
    }
}

// Marks the nodes whose plain edges these are.
fn mark_operands(operands: &[Edge], read: &mut Vec<bool>)
    ensures { AreMarkedFor operands.now read.old.items read.new.items }
{
    for operand in operands {
        mark_plain(*operand, read);
    }
}

// Marks the node of an edge that is no complement.
fn mark_plain(operand: Edge, read: &mut Vec<bool>)
    ensures { AreMarkedFor (operand ∷ []) read.old.items read.new.items }
{
    if !operand.complemented && operand.node < read.len() as u64 {
        read[operand.node as usize] = true;
    }
}

// Whether each of these nodes that has the first mark has the second one.
fn are_marked(nodes: &[u64], first: &[bool], second: &[bool]) -> bool
    ensures { IsTrue result ↔ ((node : ℕ) → Contains nodes.now node → HasMark first.now node → HasMark second.now node) }
{
    for node in nodes {
        if !keeps_mark(first, second, *node) {
            return false;
        }
    }
    true
}

// Whether the node has the second mark, if it has the first one.
fn keeps_mark(first: &[bool], second: &[bool], node: u64) -> bool
    ensures { IsTrue result ↔ (HasMark first.now node → HasMark second.now node) }
{
    !has_mark(first, node) || has_mark(second, node)
}

// Whether the node has a mark.
fn has_mark(marks: &[bool], node: u64) -> bool
    ensures { result ≡ slice_index_or marks.now node false }
{
    node < marks.len() as u64 && marks[node as usize]
}
