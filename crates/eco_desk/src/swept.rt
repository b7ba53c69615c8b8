//! A board in whose graph equal nodes are merged.

ghost use Rattle.std.specs.Prelude.{◌≡◌, ◌≤◌, ◌+◌, ℕ, List, [], length, IfOk};
ghost use Rattle.eco_meaning.specs.Meaning.{Goal};
ghost use Rattle.eco_meaning.specs.Circuit.{Circuit, names};
ghost use Rattle.eco_netlist.specs.Netlists.{AreNets, names_at};
ghost use Rattle.eco_compile.specs.Compiled.{AreEdges, HasOpenNets};
ghost use Rattle.eco_aig.specs.Edges.{value_of};
ghost use Rattle.eco_aig.specs.Graph.{IsEdge, HasValue};
ghost use Rattle.eco_aig.specs.Swept.{AreImages};
ghost use Rattle.eco_pose.specs.Boards.{AreBaseEdges, IsLaidOut, IsRowEdge};
ghost use Rattle.eco_desk.specs.Boards.{IsSweptBoardOf, AreMerged, Continues, AreNetEdges, AreKnown, AreKnownOfSome};

use crate::nets::every_net;
use eco_affine::Forms;
use eco_aig::{Edge, new_graph};
use eco_cdcl::Watched;
use eco_compile::picked_edges;
use eco_meaning::OutOfMemory;
use eco_netlist::{NetId, Netlist};
use eco_pose::{Board, Problem, base_edges, lay_out};
use eco_sweep::Sweeper;
use std::alloc::Global;

/// A board, and what is known of equal nodes of its graph.
#[derive(Drop)]
pub(crate) struct SweptBoard {
    pub(crate) alloc: Global,
    pub(crate) board: Board,
    pub(crate) forms: Forms,
    pub(crate) sweeper: Sweeper,
    pub(crate) refuter: Watched,
}

impl SweptBoard {
    /// The board of the problem's implementation. Nothing is merged yet. The limit is the most clauses that may be learnt to compare
    /// two nodes, and the most atoms of a form by which they are merged.
    pub(crate) fn new(
        alloc: Global,
        problem: &Problem,
        limit: u64,
    ) -> Result<SweptBoard, OutOfMemory>
        requires limit { 1 ≤ limit }
        ensures board { IfOk result (IsSweptBoardOf problem.now.implementation problem.now.goal) }
        ensures limit { IfOk result (λ swept. swept.sweeper.limit ≡ limit) }
    {
        let f = problem.implementation();
        let (graph, inputs) = new_graph(alloc, f.hasher(), f.inputs().len())?;
        let board = lay_out(
            alloc,
            f,
            problem.specification(),
            problem.care(),
            graph,
            inputs,
        )?;
        Ok(SweptBoard {
            alloc,
            board,
            forms: Forms::new(alloc, f.hasher(), limit),
            sweeper: Sweeper::new(alloc, f.hasher(), limit),
            refuter: Watched::new(),
        })
    }

    /// Edges that have the values of these, where equal nodes are merged: first those that are parities of the same nodes, and
    /// then those that a comparison finds.
    pub(crate) fn merged(&mut self, edges: &[Edge]) -> Result<Vec<Edge>, OutOfMemory>
        requires edges { AreEdges self.old.board.graph edges.now }
        requires merged { AreMerged self.old }
        ensures continues { Continues self.old self.new }
        ensures images { IfOk result (λ images. AreImages self.new.board.graph edges.now images.items) }
    {
        let straight = self.forms.reduce(&mut self.board.graph, edges)?;
        self.sweeper.reduce(
            &mut self.board.graph,
            straight.as_slice(),
            &mut self.refuter,
        )
    }

    /// The merged edge that has the value of this one.
    fn merged_edge(&mut self, edge: Edge) -> Result<Edge, OutOfMemory>
        requires edge { IsEdge self.old.board.graph edge }
        requires merged { AreMerged self.old }
        ensures continues { Continues self.old self.new }
        ensures image { IfOk result (λ image. HasValue self.new.board.graph image (λ w. value_of w edge)) }
    {
        let images = self.merged(&[edge])?;
        Ok(images[0])
    }

    /// The edge that is 1 where the netlist isn't right with this row of its targets.
    pub(crate) fn row_edge(&mut self, netlist: &Netlist, row: &[bool]) -> Result<Edge, OutOfMemory>
        requires known { AreKnownOfSome netlist.now self.old.board [] }
        requires count { HasOpenNets netlist.now (length netlist.now.inputs + length row.now) }
        requires merged { AreMerged self.old }
        ensures continues { Continues self.old self.new }
        ensures edge { IfOk result (λ e. (goal : Goal) (targets : List (List ℕ)) → AreKnown netlist.now goal targets self.old.board [] →
            IsRowEdge netlist.now goal targets self.new.board.graph self.new.board.inputs.items row.now e) }
    {
        let plain = self.board.row_edge(self.alloc, netlist, row)?;
        self.merged_edge(plain)
    }

    /// The edges of all nets of the netlist, where its targets are 0. Nothing is merged in them yet.
    pub(crate) fn every_edge(&mut self, netlist: &Netlist) -> Result<Vec<Edge>, OutOfMemory>
        requires laid_out { IsLaidOut netlist.now self.old.board }
        requires merged { AreMerged self.old }
        ensures continues { Continues self.old self.new }
        ensures edges { IfOk result (λ edges. AreNetEdges netlist.now self.new.board edges.items) }
    {
        let nets = every_net(self.alloc, netlist)?;
        let edges = base_edges(self.alloc, netlist, nets.as_slice(), &mut self.board)?;
        Ok(edges)
    }

    /// The merged edges of these nets of a netlist, all of whose nets have the given edges.
    pub(crate) fn net_edges(
        &mut self,
        edges: &[Edge],
        nets: &[NetId],
    ) -> Result<Vec<Edge>, OutOfMemory>
        requires nets { (n : Circuit) × AreNetEdges n self.old.board edges.now × AreNets (names n) nets.now }
        requires merged { AreMerged self.old }
        ensures continues { Continues self.old self.new }
        ensures edges { IfOk result (λ merged. (n : Circuit) → AreNetEdges n self.old.board edges.now → AreNets (names n) nets.now →
            AreBaseEdges n (names_at (names n) nets.now) self.new.board.graph self.new.board.inputs.items merged.items) }
        ensures count { IfOk result (λ merged. length merged.items ≡ length nets.now) }
    {
        let picked = picked_edges(self.alloc, nets, edges)?;
        self.merged(picked.as_slice())
    }
}
