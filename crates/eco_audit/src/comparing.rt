//! Whether the patched netlist has the specification's outputs.

ghost use Rattle.std.specs.Prelude.{◌≡◌, ◌≤◌, IfOk, IfErr};
ghost use Rattle.eco_pose.specs.declared.question.Question.TheVariants as questions;
ghost use Rattle.eco_pose.specs.Stuck.{CanBeRead, IsLeft};
ghost use Rattle.eco_query.specs.Problem.{IsClosed};
ghost use Rattle.eco_audit.specs.Outputs.{AreGivenBy, TellsOutputs};

use bumpalo::Bump;
use eco_meaning::{Bits, OutOfMemory};
use eco_netlist::Netlist;
use eco_pose::{Asked, Unfinished, ask_equal};
use eco_query::Problem;
use eco_trace::Refuter;
use std::alloc::Global;

/// What is reported of the outputs of a patched netlist.
#[derive(Drop)]
pub(crate) enum Outputs {
    /// They are the specification's on every cared input.
    Same,
    /// On this cared input they aren't.
    Differ(Bits),
}

/// Whether the patched netlist has the specification's outputs on every cared input, by one question with at most `limit`
/// learnt clauses. It fails where the search gives up on the question, and where memory runs out.
pub(crate) fn outputs_of<R: Refuter>(
    alloc: Global,
    problem: &Problem,
    out: &Netlist,
    refuter: &mut R,
    limit: u64,
) -> Result<Outputs, Unfinished>
    requires closed { IsClosed out.now }
    requires inputs { out.now.inputs ≡ problem.now.implementation.inputs }
    requires outputs { out.now.outputs ≡ problem.now.implementation.outputs }
    requires limit { 1 ≤ limit }
    ensures outputs { IfOk result (TellsOutputs problem.now out.now) }
    ensures unfinished { IfErr result (IsLeft problem.now limit (questions.Equal out.now problem.now.goal.spec problem.now.goal.care)) }
{
    // it is a problem, and the netlist is checked
    let _ = problem.implementation();
    let _ = out.nets();
    let arena = Bump::new(alloc);
    let asked = ask_equal(
        alloc,
        out,
        problem.specification(),
        problem.care(),
        refuter,
        limit,
        &arena,
    )?;
    Ok(read_outputs(asked)?)
}

/// What the answer tells of the outputs.
fn read_outputs(asked: Asked<'_>) -> Result<Outputs, OutOfMemory>
    requires { CanBeRead asked }
    ensures { IfOk result (AreGivenBy asked.entry) }
{
    match asked {
        Asked::Never { posed, trace } => {
            let _ = trace.ends_empty();
            drop(posed);
            drop(trace);
            Ok(Outputs::Same)
        }
        Asked::Found { posed, model } => {
            let input = posed.input1(&model);
            drop(posed);
            drop(model);
            Ok(Outputs::Differ(input?))
        }
    }
}
