//! The clauses that ask for two inputs that no function of a base tells apart.

ghost use Rattle.std.specs.Prelude.{◌≡◌, ◌∷◌, ◌+◌, ◌*◌, ◌≤◌, ℕ, Bool, true, false, List, map, length, All, IfOk};
ghost use Rattle.eco_meaning.specs.Circuit.{Circuit, names, AreTargets};
ghost use Rattle.eco_meaning.specs.Meaning.{Goal};
ghost use Rattle.eco_meaning.specs.Patch.{splice_of};
ghost use Rattle.eco_netlist.specs.Netlists.{AreNets, names_at};
ghost use Rattle.eco_aig.specs.Graph.{Grows};
ghost use Rattle.eco_compile.specs.Compiled.{HasOpenNets, needed_nodes};
ghost use Rattle.eco_trace.specs.Clauses.{IsVarWithin};
ghost use Rattle.eco_query.specs.Problem.{HasTargetNumber};
ghost use Rattle.eco_aig.specs.Inputs.{AreInputs};
ghost use Rattle.eco_compile.specs.Goals.{goal_nodes};
ghost use Rattle.eco_tseitin.specs.Encoded.{IsReady};
ghost use Rattle.eco_pose.specs.Boards.{AreBaseEdges, AsksOf, IsLaidOut, IsSideGraph, KeepsEdges, row_nodes};
ghost use Rattle.eco_pose.specs.Posing.{posed_of};
ghost use Rattle.eco_pose.specs.Questions.{AtTarget, IsSeparable};
ghost use Rattle.eco_pose.specs.Answers.{AsksSeparate};
ghost use Rattle.eco_pose.specs.Shapes.{IsEncodedTwice};

use crate::board::{Board, constants, lay_out};
use crate::posed::Posed;
use eco_aig::{Edge, new_graph};
use eco_compile::valued_edges;
use eco_meaning::{Bits, OutOfMemory};
use eco_netlist::{NetId, Netlist, splice};
use eco_query::Problem;
use eco_tseitin::{EncodedSide, TwoSides, encode_side, join};
use std::alloc::Global;

/// The clauses that ask for two inputs with equal values of the base, the targets before the target `i` following the
/// patches: at the first, this target at 0 is right with none of the rests, at the second this target at 1.
pub(crate) fn pose_separated(
    alloc: Global,
    problem: &Problem,
    i: u64,
    patches: &Netlist,
    base: &[NetId],
    rest: &[Bits],
) -> Result<Posed, OutOfMemory>
    requires number { HasTargetNumber problem.now.implementation i }
    requires base { AreNets (names problem.now.implementation) base.now }
    requires separable { AtTarget problem.now.implementation i
        (IsSeparable problem.now.implementation patches.now (names_at (names problem.now.implementation) base.now) rest.now) }
    ensures asks { IfOk result (λ posed. AtTarget problem.now.implementation i (λ before target behind.
        AsksSeparate problem.now.implementation problem.now.goal patches.now before target behind rest.now
        (names_at (names problem.now.implementation) base.now) posed)) }
    ensures shape { IfOk result IsEncodedTwice }
    ensures reads { IfOk result (λ posed. (length posed.first ≡ length problem.now.implementation.inputs)
        × (length posed.second ≡ length problem.now.implementation.inputs)) }
    ensures few { IfOk result (λ posed. posed.clauses.vars ≤ 2 * (1 + length problem.now.implementation.inputs
        + goal_nodes problem.now.goal + needed_nodes (splice_of problem.now.implementation patches.now)
        + length rest.now * row_nodes (splice_of problem.now.implementation patches.now)) + length base.now) }
{
    // both are checked
    let _ = (problem.implementation().nets(), patches.nets());
    let spliced = splice(problem.implementation(), patches)?;
    let first = match side(alloc, problem, &spliced, base, false, rest) {
        Ok(first) => first,
        Err(error) => {
            drop(spliced);
            return Err(error);
        }
    };
    let second = side(alloc, problem, &spliced, base, true, rest);
    drop(spliced);
    let sides = match second {
        Ok(second) => join(alloc, first, second)?,
        Err(error) => {
            drop(first);
            return Err(error);
        }
    };
    posed_pair(alloc, sides)
}

/// The side that asks for an input at which the netlist `n`, a splice of the implementation, is right with none of the rests
/// where its first target has this bit.
fn side(
    alloc: Global,
    problem: &Problem,
    n: &Netlist,
    base: &[NetId],
    bit: bool,
    rest: &[Bits],
) -> Result<EncodedSide, OutOfMemory>
    requires inputs { n.now.inputs ≡ problem.now.implementation.inputs }
    requires outputs { n.now.outputs ≡ problem.now.implementation.outputs }
    requires base { AreNets (names n.now) base.now }
    requires rests { All (λ row. HasOpenNets n.now (length n.now.inputs + (1 + length row))) rest.now }
    ensures graph { IfOk result (λ side. (targets : List (List ℕ)) → AreTargets n.now targets →
        IsSideGraph n.now problem.now.goal targets (map (λ row. bit ∷ row) rest.now) (names_at (names n.now) base.now) side) }
    ensures ready { IfOk result IsReady }
    ensures base_count { IfOk result (λ side. length side.base.items ≡ length base.now) }
    ensures few { IfOk result (λ side. side.cnf.vars ≤ 1 + length problem.now.implementation.inputs
        + goal_nodes problem.now.goal + needed_nodes n.now + length rest.now * row_nodes n.now) }
{
    let rows = with_first(alloc, bit, rest)?;
    let f = problem.implementation();
    let (graph, inputs) = new_graph(alloc, f.hasher(), f.inputs().len())?;
    let mut board = lay_out(
        alloc,
        f,
        problem.specification(),
        problem.care(),
        graph,
        inputs,
    )?;
    let side = side_over(alloc, n, base, rows.as_slice(), &mut board);
    drop(board);
    side
}

/// The side of the board that asks for an input at which the netlist is right with none of these rows of its targets.
fn side_over(
    alloc: Global,
    n: &Netlist,
    base: &[NetId],
    rows: &[Bits],
    board: &mut Board,
) -> Result<EncodedSide, OutOfMemory>
    requires laid_out { IsLaidOut n.now board.old }
    requires inputs { AreInputs board.old.graph board.old.inputs.items }
    requires base { AreNets (names n.now) base.now }
    requires rows { All (λ row. HasOpenNets n.now (length n.now.inputs + length row)) rows.now }
    ensures graph { IfOk result (λ side. (f : Circuit) (goal : Goal) (targets : List (List ℕ)) →
        n.now.inputs ≡ f.inputs → n.now.outputs ≡ f.outputs → AreTargets n.now targets → AsksOf f goal board.old →
        IsSideGraph n.now goal targets rows.now (names_at (names n.now) base.now) side) }
    ensures ready { IfOk result IsReady }
    ensures base_count { IfOk result (λ side. length side.base.items ≡ length base.now) }
    ensures few { IfOk result (λ side. side.cnf.vars ≤ length board.old.graph + needed_nodes n.now + length rows.now * row_nodes n.now) }
{
    let base_edges = base_edges(alloc, n, base, board)?;
    let wrong = board.row_edges(alloc, n, rows)?;
    // it is a graph
    let _ = board.graph.nodes();
    encode_side(
        alloc,
        &board.graph,
        board.inputs.as_slice(),
        base_edges.as_slice(),
        wrong.as_slice(),
    )
}

/// The edges of the base, where the netlist's targets are 0.
pub fn base_edges(
    alloc: Global,
    n: &Netlist,
    base: &[NetId],
    board: &mut Board,
) -> Result<Vec<Edge>, OutOfMemory>
    requires laid_out { IsLaidOut n.now board.old }
    requires base { AreNets (names n.now) base.now }
    ensures edges { IfOk result (λ edges. AreBaseEdges n.now (names_at (names n.now) base.now) board.new.graph board.old.inputs.items edges.items) }
    ensures count { IfOk result (λ edges. length edges.items ≡ length base.now) }
    ensures keeps { KeepsEdges board.old board.new }
    ensures grows { Grows board.old.graph board.new.graph (needed_nodes n.now) }
{
    let zeros = vec![in alloc; false; n.targets().len()]?;
    let opens = constants(alloc, zeros.as_slice())?;
    // it is a graph
    let _ = board.graph.nodes();
    valued_edges(
        alloc,
        n,
        board.inputs.as_slice(),
        opens.as_slice(),
        base,
        &mut board.graph,
    )
}

/// Each rest with this bit before it.
pub fn with_first(alloc: Global, bit: bool, rest: &[Bits]) -> Result<Vec<Bits>, OutOfMemory>
    ensures { IfOk result (λ rows. rows.items ≡ map (λ row. bit ∷ row) rest.now) }
{
    let mut rows = Vec::with_capacity(alloc, rest.len())?;
    for row in rest {
        rows.push(joined(alloc, bit, row.as_slice())?)?;
    }
    Ok(rows)
}

/// The bit, then the row.
fn joined(alloc: Global, bit: bool, row: &[bool]) -> Result<Bits, OutOfMemory>
    ensures { IfOk result (λ bits. bits ≡ bit ∷ row.now) }
{
    let mut bits = vec![in alloc; bit]?;
    bits.extend_from_slice(row)?;
    Ok(Bits::of(bits))
}

/// Two sides as a posed question for two inputs.
pub fn posed_pair(alloc: Global, sides: TwoSides) -> Result<Posed, OutOfMemory>
    requires one { All (IsVarWithin sides.cnf.vars) sides.one.items }
    requires other { All (IsVarWithin sides.cnf.vars) sides.other.items }
    ensures { IfOk result (λ posed. posed ≡ posed_of sides) }
{
    Ok(Posed {
        alloc,
        cnf: sides.cnf,
        side: sides.side,
        shared: sides.shared,
        first: sides.one,
        second: sides.other,
        targets: Vec::new(alloc),
    })
}
