//! The graph that a question is posed over.

ghost use Rattle.std.specs.Prelude.{◌≡◌, ◌+◌, ◌*◌, ℕ, List, map, length, All, IfOk};
ghost use Rattle.std.specs.Option.{option_copied};
ghost use Rattle.eco_meaning.specs.Circuit.{Circuit, names, AreTargets};
ghost use Rattle.eco_meaning.specs.Meaning.{Goal};
ghost use Rattle.eco_netlist.specs.Netlists.{AreNets, names_at};
ghost use Rattle.eco_aig.specs.Graph.{IsEdge, IsGraph, Grows};
ghost use Rattle.eco_compile.specs.Compiled.{AreEdges, HasOpenNets, needed_nodes};
ghost use Rattle.eco_compile.specs.Goals.{IsGoalOf, goal_nodes};
ghost use Rattle.eco_compile.specs.Wrong.{IsWrongEdge};
ghost use Rattle.eco_pose.specs.Boards.{constant_edge, IsRowEdge, AreRowEdges, IsLaidOut, AsksOf, KeepsEdges, row_nodes};

use eco_aig::{Aig, Edge};
use eco_compile::{GoalEdges, goal_edges, miter, valued_edges};
use eco_meaning::{Bits, OutOfMemory};
use eco_netlist::Netlist;
use std::alloc::Global;

/// A graph with edges for the inputs of an implementation, and with what is asked of it at them: `inputs` are the edges of
/// its inputs, in order, and `goal` those of what is asked.
#[derive(Drop)]
pub struct Board {
    pub graph: Aig,
    pub inputs: Vec<Edge>,
    pub goal: GoalEdges,
}

/// The board over this graph, whose edges `inputs` are those of the inputs of `f`. The specification and the cared netlist are
/// compiled once.
pub fn lay_out(
    alloc: Global,
    f: &Netlist,
    spec: &Netlist,
    care: Option<&Netlist>,
    graph: Aig,
    inputs: Vec<Edge>,
) -> Result<Board, OutOfMemory>
    requires goal { IsGoalOf f.now (record { spec = spec.now; care = option_copied care }) }
    requires count { length inputs.items ≡ length f.now.inputs }
    requires edges { AreEdges graph inputs.items }
    ensures laid_out { IfOk result (IsLaidOut f.now) }
    ensures asks { IfOk result (AsksOf f.now (record { spec = spec.now; care = option_copied care.entry })) }
    ensures graph { IfOk result (λ board. IsGraph board.graph) }
    ensures inputs { IfOk result (λ board. board.inputs ≡ inputs) }
    ensures grows { IfOk result (λ board. Grows graph board.graph (goal_nodes (record { spec = spec.now; care = option_copied care.entry }))) }
{
    let mut graph = graph;
    let goal = goal_edges(alloc, f, spec, care, inputs.as_slice(), &mut graph);
    // it is a graph
    let _ = graph.nodes();
    match goal {
        Ok(goal) => Ok(Board {
            graph,
            inputs,
            goal,
        }),
        Err(error) => {
            drop(graph);
            Err(error)
        }
    }
}

/// The edges that have these bits in each graph.
pub fn constants(alloc: Global, bits: &[bool]) -> Result<Vec<Edge>, OutOfMemory>
    ensures { IfOk result (λ edges. edges.items ≡ map constant_edge bits.now) }
{
    let mut edges = Vec::with_capacity(alloc, bits.len())?;
    for bit in bits {
        edges.push(constant(*bit))?;
    }
    Ok(edges)
}

/// The edge that has this bit in each graph.
fn constant(bit: bool) -> Edge
    ensures { result ≡ constant_edge bit }
{
    if bit { Edge::ONE } else { Edge::ZERO }
}

impl Board {
    /// The edge that is 1 where the netlist, whose ports are those of the board, isn't right with these edges at its
    /// targets.
    pub fn wrong_edge(
        &mut self,
        alloc: Global,
        netlist: &Netlist,
        opens: &[Edge],
    ) -> Result<Edge, OutOfMemory>
        requires laid_out { IsLaidOut netlist.now self.old }
        requires count { HasOpenNets netlist.now (length self.old.inputs.items + length opens.now) }
        requires opens { AreEdges self.old.graph opens.now }
        ensures edge { IfOk result (IsEdge self.new.graph) }
        ensures wrong { IfOk result (λ e. (f : Circuit) (goal : Goal) (targets : List (List ℕ)) →
            netlist.now.inputs ≡ f.inputs → netlist.now.outputs ≡ f.outputs → AreTargets netlist.now targets →
            AsksOf f goal self.old → IsWrongEdge netlist.now goal targets self.new.graph self.old.inputs.items opens.now e) }
        ensures keeps { KeepsEdges self.old self.new }
        ensures grows { Grows self.old.graph self.new.graph (row_nodes netlist.now) }
    {
        // it is checked
        let _ = netlist.nets();
        let inputs = self.inputs.as_slice();
        let outputs = valued_edges(
            alloc,
            netlist,
            inputs,
            opens,
            netlist.outputs(),
            &mut self.graph,
        )?;
        miter(
            outputs.as_slice(),
            self.goal.outputs.as_slice(),
            self.goal.cared,
            &mut self.graph,
        )
    }

    /// The edge that is 1 where the netlist isn't right with this row of its targets. After `OutOfMemory` the graph may have
    /// nodes more.
    pub fn row_edge(
        &mut self,
        alloc: Global,
        netlist: &Netlist,
        row: &[bool],
    ) -> Result<Edge, OutOfMemory>
        requires laid_out { IsLaidOut netlist.now self.old }
        requires count { HasOpenNets netlist.now (length self.old.inputs.items + length row.now) }
        ensures edge { IfOk result (IsEdge self.new.graph) }
        ensures wrong { IfOk result (λ e. (f : Circuit) (goal : Goal) (targets : List (List ℕ)) →
            netlist.now.inputs ≡ f.inputs → netlist.now.outputs ≡ f.outputs → AreTargets netlist.now targets →
            AsksOf f goal self.old → IsRowEdge netlist.now goal targets self.new.graph self.old.inputs.items row.now e) }
        ensures keeps { KeepsEdges self.old self.new }
        ensures grows { Grows self.old.graph self.new.graph (row_nodes netlist.now) }
    {
        let opens = constants(alloc, row)?;
        self.wrong_edge(alloc, netlist, opens.as_slice())
    }

    /// Such an edge for each row.
    pub fn row_edges(
        &mut self,
        alloc: Global,
        netlist: &Netlist,
        rows: &[Bits],
    ) -> Result<Vec<Edge>, OutOfMemory>
        requires laid_out { IsLaidOut netlist.now self.old }
        requires count { All (λ row. HasOpenNets netlist.now (length self.old.inputs.items + length row)) rows.now }
        ensures edges { IfOk result (λ edges. AreEdges self.new.graph edges.items) }
        ensures wrong { IfOk result (λ edges. (f : Circuit) (goal : Goal) (targets : List (List ℕ)) →
            netlist.now.inputs ≡ f.inputs → netlist.now.outputs ≡ f.outputs → AreTargets netlist.now targets →
            AsksOf f goal self.old → AreRowEdges netlist.now goal targets self.new.graph self.old.inputs.items rows.now edges.items) }
        ensures keeps { KeepsEdges self.old self.new }
        ensures grows { Grows self.old.graph self.new.graph (length rows.now * row_nodes netlist.now) }
    {
        let mut edges = Vec::with_capacity(alloc, rows.len())?;
        for row in rows {
            edges.push(self.row_edge(alloc, netlist, row.as_slice())?)?;
        }
        Ok(edges)
    }
}
