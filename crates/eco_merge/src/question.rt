//! Questions whether nodes are alike.

ghost use Rattle.std.specs.Prelude.{◌≡◌, ◌≢◌, ◌≤◌, ◌<◌, ℕ, IfOk, IfSome, None, Some, length};
ghost use Rattle.eco_aig.specs.Edges.{plain};
ghost use Rattle.eco_trace.specs.Verdicts.{IsVerdict};
ghost use Rattle.eco_merge.specs.Questions.{IsQuestion, turned_literal};
ghost use Rattle.eco_merge.specs.Rows.{IsRow};
ghost use Rattle.eco_merge.specs.Steps.{IsAnswer};

use crate::claim::Claim;
use crate::loose::Loose;
use crate::row::Row;
use bumpalo::Bump;
use eco_aig::{Aig, Edge};
use eco_meaning::OutOfMemory;
use eco_trace::{Cnf, Lit, Model, Refuter, Var, Verdict};
use eco_tseitin::Encoder;
use std::alloc::Global;

/// What is found of two nodes.
#[derive(Drop)]
pub(crate) enum Answer {
    /// They are alike.
    Alike,
    /// They aren't; a row of the graph, which is there to tell them apart.
    Unlike(Row),
    /// The search spent its limit.
    Unknown(Loose),
}

/// Clauses that ask for a valuation under which a claim is false, and the variables of the inputs that its nodes reach.
#[derive(Drop)]
struct Question {
    cnf: Cnf,
    inputs: Vec<(u64, Var)>,
}

/// Whether the claim is true of the graph; the search learns at most `limit` clauses.
pub(crate) fn ask<R: Refuter>(
    alloc: Global,
    aig: &Aig,
    claim: Claim,
    refuter: &mut R,
    limit: u64,
) -> Result<Answer, OutOfMemory>
    requires node { claim.node < length aig.now }
    requires other { IfSome claim.other (λ m. (m < length aig.now) × (m ≢ claim.node)) }
    requires limit { 1 ≤ limit }
    ensures { IfOk result (IsAnswer aig.now limit claim.node claim.other claim.same) }
{
    let question = pose(alloc, aig, claim)?;
    let arena = Bump::new(alloc);
    let answer = answer_to(alloc, aig, claim, question, refuter, limit, &arena);
    drop(arena);
    answer
}

/// The answer to the question whether the claim is false. The search leaves its proof in the arena.
fn answer_to<R: Refuter>(
    alloc: Global,
    aig: &Aig,
    claim: Claim,
    question: Question,
    refuter: &mut R,
    limit: u64,
    arena: &Bump,
) -> Result<Answer, OutOfMemory>
    requires question { IsQuestion aig.now claim.node claim.other claim.same question.cnf }
    requires limit { 1 ≤ limit }
    ensures { IfOk result (IsAnswer aig.now limit claim.node claim.other claim.same) }
{
    match refuter.refute(alloc, &question.cnf, limit, arena) {
        Ok(verdict) => decide(alloc, aig, claim, question, verdict),
        Err(error) => {
            drop(question);
            Err(error)
        }
    }
}

/// What a verdict on the question says of the claim.
fn decide(
    alloc: Global,
    aig: &Aig,
    claim: Claim,
    question: Question,
    verdict: Verdict<'_>,
) -> Result<Answer, OutOfMemory>
    requires question { IsQuestion aig.now claim.node claim.other claim.same question.cnf }
    ensures { (limit : ℕ) → IsVerdict question.cnf limit verdict.entry → IfOk result (IsAnswer aig.now limit claim.node claim.other claim.same) }
{
    match verdict {
        Verdict::Unsat(trace) => {
            let _ = trace.ends_empty();
            drop(trace);
            drop(question);
            Ok(Answer::Alike)
        }
        Verdict::Sat(model) => {
            let row = row_of(alloc, aig, question.inputs.as_slice(), &model);
            drop(model);
            drop(question);
            let row = row?;
            Ok(Answer::Unlike(row))
        }
        Verdict::Spent(trace) => {
            let kept = trace.keep();
            drop(trace);
            match kept {
                Ok(trace) => {
                    trace.is_sound();
                    Ok(Answer::Unknown(Loose {
                        node: claim.node,
                        other: claim.other,
                        same: claim.same,
                        cnf: question.cnf,
                        trace,
                    }))
                }
                Err(error) => {
                    drop(question);
                    Err(error)
                }
            }
        }
    }
}

/// The question whether the claim is false.
fn pose(alloc: Global, aig: &Aig, claim: Claim) -> Result<Question, OutOfMemory>
    requires node { claim.node < length aig.now }
    requires other { IfSome claim.other (λ m. (m < length aig.now) × (m ≢ claim.node)) }
    ensures { IfOk result (λ question. IsQuestion aig.now claim.node claim.other claim.same question.cnf) }
{
    match claim.other {
        None => pose_alone(alloc, aig, claim.node, claim.same),
        Some(other) => pose_pair(alloc, aig, claim.node, other, claim.same),
    }
}

/// The question whether the node isn't the constant 0, or where `same` is false the constant 1.
fn pose_alone(alloc: Global, aig: &Aig, node: u64, same: bool) -> Result<Question, OutOfMemory>
    requires { node < length aig.now }
    ensures { IfOk result (λ question. IsQuestion aig.now node None same question.cnf) }
{
    // it is a graph, of which no node is encoded yet
    let _ = aig.nodes();
    let mut encoder = Encoder::new(alloc);
    let literal = encoder.encode(aig, edge_to(node))?;
    let inputs = variables_of_inputs(alloc, aig, &encoder)?;
    let mut cnf = encoder.finish();
    cnf.add_lits(&[turned(literal, same)])?;
    Ok(Question { cnf, inputs })
}

/// The question whether the node isn't equal to the other one, or where `same` is false not complementary to it.
fn pose_pair(
    alloc: Global,
    aig: &Aig,
    node: u64,
    other: u64,
    same: bool,
) -> Result<Question, OutOfMemory>
    requires node { node < length aig.now }
    requires other { other < length aig.now }
    requires apart { other ≢ node }
    ensures { IfOk result (λ question. IsQuestion aig.now node (Some other) same question.cnf) }
{
    // it is a graph, of which no node is encoded yet
    let _ = aig.nodes();
    let mut encoder = Encoder::new(alloc);
    let literal = encoder.encode(aig, edge_to(node))?;
    let other_literal = encoder.encode(aig, edge_to(other))?;
    let inputs = variables_of_inputs(alloc, aig, &encoder)?;
    let mut cnf = encoder.finish();
    let turned_literal = turned(other_literal, same);
    cnf.add_equal(literal.complement(), turned_literal)?;
    Ok(Question { cnf, inputs })
}

/// The plain edge to a node.
fn edge_to(node: u64) -> Edge
    ensures { result ≡ plain node }
{
    Edge {
        node,
        complemented: false,
    }
}

/// The literal, or its complement where `same` is false.
fn turned(literal: Lit, same: bool) -> Lit
    ensures { result ≡ turned_literal same literal }
{
    if same { literal } else { literal.complement() }
}

/// The inputs that have variables.
fn variables_of_inputs(
    alloc: Global,
    aig: &Aig,
    encoder: &Encoder,
) -> Result<Vec<(u64, Var)>, OutOfMemory> {
    let mut inputs = Vec::new(alloc);
    for input in aig.inputs() {
        if let Some(var) = encoder.var_of(*input) {
            inputs.push((*input, var))?;
        }
    }
    Ok(inputs)
}

/// The row in which inputs have the model's values; an input without a variable has 0.
fn row_of(
    alloc: Global,
    aig: &Aig,
    inputs: &[(u64, Var)],
    model: &Model,
) -> Result<Row, OutOfMemory>
    ensures { IfOk result (IsRow aig.now) }
{
    let mut bits = vec![in alloc; false; aig.nodes() as usize]?;
    for (input, var) in inputs {
        if 1 <= var.0 && var.0 <= model.len() && (*input as usize) < bits.len() {
            bits[*input as usize] = model.value(*var);
        }
    }
    Ok(Row::new(aig, bits))
}
