//! Questions about a graph, put to a search.

ghost use Rattle.std.specs.Prelude.{◌≤◌, [], IfOk};
ghost use Rattle.eco_aig.specs.Graph.{IsEdge};
ghost use Rattle.eco_trace.specs.Clauses.{Satisfies, Valuation};
ghost use Rattle.eco_trace.specs.Resolution.{Proof};
ghost use Rattle.eco_trace.specs.Verdicts.{IsSpent};
ghost use Rattle.eco_tseitin.specs.Encoding.{IsEncoding};
ghost use Rattle.eco_sweep.specs.Questions.{IsAsserted, IsNever, IsQuestionSpent, IfNever, IfSpent};

use bumpalo::Bump;
use eco_aig::{Aig, Edge};
use eco_meaning::OutOfMemory;
use eco_trace::{Cnf, Model, Refuter, Var, Verdict};
use eco_tseitin::Encoder;
use std::alloc::Global;

/// What is known of something that inputs may bring about.
#[derive(Drop)]
pub(crate) enum Answer {
    /// No input does.
    Never,
    /// An input does: its bits, in the order of the graph's inputs.
    Sometimes(Vec<bool>),
    /// It isn't known: the search learnt as many clauses as it may.
    Spent,
    /// It isn't known: nothing was asked.
    Unasked,
}

/// What a comparison of two edges tells.
#[derive(Clone, Copy)]
pub(crate) enum Outcome {
    /// They are equal.
    Equal,
    /// They differ.
    Apart,
    /// The search may not go on for so long as to tell.
    Spent,
    /// More nodes have to be looked at.
    Cut,
}

/// Whether the edge's bit is 1 under some input, as far as the search can tell within `limit` learnt clauses.
pub(crate) fn can_be_one<R: Refuter>(
    alloc: Global,
    graph: &Aig,
    edge: Edge,
    refuter: &mut R,
    limit: u64,
) -> Result<Answer, OutOfMemory>
    requires edge { IsEdge graph.now edge }
    requires limit { 1 ≤ limit }
    ensures never { IfOk result (λ answer. IfNever answer (IsNever graph.now edge)) }
    ensures spent { IfOk result (λ answer. IfSpent answer (IsQuestionSpent graph.now edge limit)) }
{
    // it is a graph: its valuations are the models of its clauses
    let _ = graph.nodes();
    let mut encoder = Encoder::new(alloc);
    let variables = match asserted(alloc, graph, edge, &mut encoder) {
        Ok(variables) => variables,
        Err(error) => {
            drop(encoder);
            return Err(error);
        }
    };
    let cnf = encoder.finish();
    let arena = Bump::new(alloc);
    let answer = answer_of(alloc, &cnf, variables.as_slice(), refuter, limit, &arena);
    drop(arena);
    drop(cnf);
    answer
}

/// Lets the edge's bit be 1 in each model of the clauses, and gives the variables of the graph's inputs, in order.
fn asserted(
    alloc: Global,
    graph: &Aig,
    edge: Edge,
    encoder: &mut Encoder,
) -> Result<Vec<Option<Var>>, OutOfMemory>
    requires edge { IsEdge graph.now edge }
    requires fresh { IsEncoding graph.now [] [] encoder.old }
    ensures { IfOk result (λ _. IsAsserted graph.now edge encoder.new) }
{
    let literal = encoder.encode(graph, edge)?;
    encoder.assert_lit(literal)?;
    input_variables(alloc, graph, encoder)
}

/// Whether the clauses have a model, as far as the search can tell: the bits that it gives these variables.
fn answer_of<R: Refuter>(
    alloc: Global,
    cnf: &Cnf,
    variables: &[Option<Var>],
    refuter: &mut R,
    limit: u64,
    arena: &Bump,
) -> Result<Answer, OutOfMemory>
    requires limit { 1 ≤ limit }
    ensures never { IfOk result (λ answer. IfNever answer ((v : Valuation) → Satisfies v cnf.now.clauses → ⊥)) }
    ensures spent { IfOk result (λ answer. IfSpent answer ((proof : Proof) × IsSpent cnf.now limit proof)) }
{
    match refuter.refute(alloc, cnf, limit, arena)? {
        Verdict::Sat(model) => {
            let bits = bits_of(alloc, &model, variables);
            drop(model);
            Ok(Answer::Sometimes(bits?))
        }
        Verdict::Unsat(trace) => {
            trace.is_sound();
            drop(trace);
            Ok(Answer::Never)
        }
        Verdict::Spent(trace) => {
            drop(trace);
            Ok(Answer::Spent)
        }
    }
}

/// The variables of the graph's inputs, in order; None where the input has none.
fn input_variables(
    alloc: Global,
    graph: &Aig,
    encoder: &Encoder,
) -> Result<Vec<Option<Var>>, OutOfMemory> {
    let mut variables = Vec::new(alloc);
    for input in graph.inputs() {
        variables.push(encoder.var_of(*input))?;
    }
    Ok(variables)
}

/// The values of the variables in the model; 0 where there is no variable.
fn bits_of(
    alloc: Global,
    model: &Model,
    variables: &[Option<Var>],
) -> Result<Vec<bool>, OutOfMemory> {
    let mut bits = Vec::new(alloc);
    for variable in variables {
        bits.push(bit_of(model, *variable))?;
    }
    Ok(bits)
}

/// The value of the variable in the model; 0 where there is none.
fn bit_of(model: &Model, variable: Option<Var>) -> bool {
    match variable {
        Some(var) if 1 <= var.0 && var.0 <= model.len() => model.value(var),
        _ => false,
    }
}
