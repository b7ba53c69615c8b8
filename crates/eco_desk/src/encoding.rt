//! Edges of a graph as posed questions.

ghost use Rattle.std.specs.Prelude.{◌≡◌, ℕ, Bool, List, length, IfOk};
ghost use Rattle.eco_meaning.specs.Circuit.{Circuit};
ghost use Rattle.eco_meaning.specs.Meaning.{Goal};
ghost use Rattle.eco_compile.specs.Compiled.{AreEdges};
ghost use Rattle.eco_aig.specs.Inputs.{AreInputs};
ghost use Rattle.eco_laws.specs.Asked.{IsMissed};
ghost use Rattle.eco_pose.specs.Boards.{AreRowEdges};
ghost use Rattle.eco_pose.specs.Answers.{AsksFor};
ghost use Rattle.eco_pose.specs.Shapes.{IsEncodedOnce};
ghost use Rattle.eco_desk.specs.Pairs.{IsPairOf};

use eco_aig::{Aig, Edge};
use eco_meaning::OutOfMemory;
use eco_pose::{Posed, posed_input, posed_pair};
use eco_tseitin::{encode_side, join, one_side};
use std::alloc::Global;

/// The clauses that ask for an input at which all these edges are 1, the edges of rows with which a netlist isn't right.
pub(crate) fn pose_missed(
    alloc: Global,
    graph: &Aig,
    inputs: &[Edge],
    wrong: &[Edge],
) -> Result<Posed, OutOfMemory>
    requires inputs { AreInputs graph.now inputs.now }
    requires wrong { AreEdges graph.now wrong.now }
    ensures asks { IfOk result (λ posed. (n : Circuit) (goal : Goal) (targets : List (List ℕ)) (rows : List (List Bool)) →
        length inputs.now ≡ length n.inputs → AreRowEdges n goal targets graph.now inputs.now rows wrong.now →
        AsksFor (IsMissed n goal targets rows) posed.first posed.clauses.clauses) }
    ensures shape { IfOk result (λ posed. IsEncodedOnce posed posed.first) }
    ensures reads { IfOk result (λ posed. length posed.first ≡ length inputs.now) }
{
    let side = one_side(alloc, graph, inputs, wrong)?;
    posed_input(alloc, side)
}

/// The clauses that ask for two inputs with equal values of the base, at the first of which these edges are 1, and at the
/// second those.
pub(crate) fn pose_pair(
    alloc: Global,
    graph: &Aig,
    inputs: &[Edge],
    base: &[Edge],
    first: &[Edge],
    second: &[Edge],
) -> Result<Posed, OutOfMemory>
    requires inputs { AreEdges graph.now inputs.now }
    requires base { AreEdges graph.now base.now }
    requires first { AreEdges graph.now first.now }
    requires second { AreEdges graph.now second.now }
    ensures { IfOk result (IsPairOf graph.now inputs.now base.now first.now second.now) }
{
    let one = encode_side(alloc, graph, inputs, base, first)?;
    let other = match encode_side(alloc, graph, inputs, base, second) {
        Ok(other) => other,
        Err(error) => {
            drop(one);
            return Err(error);
        }
    };
    let sides = join(alloc, one, other)?;
    posed_pair(alloc, sides)
}
