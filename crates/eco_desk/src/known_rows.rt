//! Edges of rows of bits, each of which is made once.

ghost use Rattle.std.specs.Prelude.{◌≡◌, ◌+◌, ℕ, List, length, All, IfOk, IfSome, IsTrue};
ghost use Rattle.eco_meaning.specs.Meaning.{Goal};
ghost use Rattle.eco_compile.specs.Compiled.{HasOpenNets};
ghost use Rattle.eco_pose.specs.Boards.{AreRowEdges, IsRowEdge};
ghost use Rattle.eco_desk.specs.Boards.{AreMerged, Continues, AreKnown, AreKnownOfSome, StayKnown, IsListed};

use crate::swept::SweptBoard;
use eco_aig::Edge;
use eco_meaning::{Bits, OutOfMemory};
use eco_netlist::Netlist;

/// A row of bits of a netlist's targets, and the edge that is 1 where the netlist isn't right with it.
#[derive(Drop)]
pub(crate) struct KnownRow {
    pub(crate) row: Bits,
    pub(crate) edge: Edge,
}

/// The edges of these rows, in order. Those that are listed aren't made again, and the others are listed from now on.
pub(crate) fn row_edges(
    swept: &mut SweptBoard,
    netlist: &Netlist,
    known: &mut Vec<KnownRow>,
    rows: &[Bits],
) -> Result<Vec<Edge>, OutOfMemory>
    requires known { AreKnownOfSome netlist.now swept.old.board known.old.items }
    requires count { All (λ row. HasOpenNets netlist.now (length netlist.now.inputs + length row)) rows.now }
    requires merged { AreMerged swept.old }
    ensures continues { Continues swept.old swept.new }
    ensures known { StayKnown netlist.now swept.old.board known.old.items swept.new.board known.new.items }
    ensures edges { IfOk result (λ edges. (goal : Goal) (targets : List (List ℕ)) →
        AreKnown netlist.now goal targets swept.old.board known.old.items →
        AreRowEdges netlist.now goal targets swept.new.board.graph swept.new.board.inputs.items rows.now edges.items) }
{
    let mut edges = Vec::with_capacity(swept.alloc, rows.len())?;
    for (place, row) in rows.iter().enumerate() {
        edges.push(row_edge(swept, netlist, known, place, row.as_slice())?)?;
    }
    Ok(edges)
}

/// The edge of the row. It is looked for at this place first.
fn row_edge(
    swept: &mut SweptBoard,
    netlist: &Netlist,
    known: &mut Vec<KnownRow>,
    place: usize,
    row: &[bool],
) -> Result<Edge, OutOfMemory>
    requires known { AreKnownOfSome netlist.now swept.old.board known.old.items }
    requires count { HasOpenNets netlist.now (length netlist.now.inputs + length row.now) }
    requires merged { AreMerged swept.old }
    ensures continues { Continues swept.old swept.new }
    ensures known { StayKnown netlist.now swept.old.board known.old.items swept.new.board known.new.items }
    ensures edge { IfOk result (λ e. (goal : Goal) (targets : List (List ℕ)) →
        AreKnown netlist.now goal targets swept.old.board known.old.items →
        IsRowEdge netlist.now goal targets swept.new.board.graph swept.new.board.inputs.items row.now e) }
{
    match listed(known.as_slice(), place, row) {
        Some(edge) => Ok(edge),
        None => new_edge(swept, netlist, known, row),
    }
}

/// The edge of a row that isn't listed yet.
fn new_edge(
    swept: &mut SweptBoard,
    netlist: &Netlist,
    known: &mut Vec<KnownRow>,
    row: &[bool],
) -> Result<Edge, OutOfMemory>
    requires known { AreKnownOfSome netlist.now swept.old.board known.old.items }
    requires count { HasOpenNets netlist.now (length netlist.now.inputs + length row.now) }
    requires merged { AreMerged swept.old }
    ensures continues { Continues swept.old swept.new }
    ensures known { StayKnown netlist.now swept.old.board known.old.items swept.new.board known.new.items }
    ensures edge { IfOk result (λ e. (goal : Goal) (targets : List (List ℕ)) →
        AreKnown netlist.now goal targets swept.old.board known.old.items →
        IsRowEdge netlist.now goal targets swept.new.board.graph swept.new.board.inputs.items row.now e) }
{
    let edge = swept.row_edge(netlist, row)?;
    let row = Bits::of(Vec::from_slice(swept.alloc, row)?);
    known.push(KnownRow { row, edge })?;
    Ok(edge)
}

/// The edge beside the row, where it is listed: at this place, or anywhere.
fn listed(known: &[KnownRow], place: usize, row: &[bool]) -> Option<Edge>
    ensures { IfSome result (IsListed known.now row.now) }
{
    match known.get(place) {
        None => listed_anywhere(known, row),
        Some(here) => {
            if is_of_row(here, row) {
                Some(here.edge)
            } else {
                listed_anywhere(known, row)
            }
        }
    }
}

/// The edge beside the row, where it is listed.
fn listed_anywhere(known: &[KnownRow], row: &[bool]) -> Option<Edge>
    ensures { IfSome result (IsListed known.now row.now) }
{
    for here in known {
        if is_of_row(here, row) {
            return Some(here.edge);
        }
    }
    None
}

/// Whether it is the row that is listed here.
fn is_of_row(here: &KnownRow, row: &[bool]) -> bool
    ensures { IsTrue result → here.now.row ≡ row.now }
{
    here.row.as_slice() == row
}
