//! What questions are answered.

ghost use Rattle.std.specs.Prelude.{◌≤◌, ℕ, IfOk, length};
ghost use Rattle.eco_query.specs.Problem.{ProblemValue};
ghost use Rattle.eco_trace.specs.Verdicts.{IsVerdict};
ghost use Rattle.eco_pose.specs.declared.question.Question.{Question};
ghost use Rattle.eco_pose.specs.Questions.{IsAskable};
ghost use Rattle.eco_pose.specs.Stuck.{IsAnswered};

use crate::bits::number_of;
use bumpalo::Bump;
use eco_cdcl::Watched;
use eco_meaning::Bits;
use eco_pose::{Asked, Posed, Question, Unfinished, pose};
use eco_query::Problem;
use eco_trace::{Model, Refuter, Verdict};
use std::alloc::Global;
use std::process::Abort;

/// No more clauses than this are learnt for a question.
pub const LIMIT: u64 = 10_000;

/// What a model is read as: an input, or two of them, and values of the targets, where they are asked for.
#[derive(Clone, Copy)]
pub struct Found {
    pub first: u64,
    pub second: u64,
    pub targets: u64,
}

/// The number of the bits.
fn number(bits: Bits) -> u64 {
    number_of(bits.as_slice())
}

/// What the model is read as.
fn read(rt: &impl Abort, posed: &Posed, model: &Model) -> Found
    requires { posed.now.clauses.vars ≤ length model.now }
{
    Found {
        first: number(posed.input1(model).expect(rt, "memory")),
        second: number(posed.input2(model).expect(rt, "memory")),
        targets: number(posed.target_values(model).expect(rt, "memory")),
    }
}

/// The answer to the question, posed over graphs of its own, where it has one.
pub fn found_plainly(
    rt: &impl Abort,
    alloc: Global,
    problem: &Problem,
    question: Question,
) -> Option<Found>
    requires { IsAskable problem.now.implementation question }
{
    let posed = pose(alloc, problem, &question).expect(rt, "memory");
    drop(question);
    let found = found_of(rt, alloc, &posed);
    drop(posed);
    found
}

/// What the search answers, where the clauses have a model.
fn found_of(rt: &impl Abort, alloc: Global, posed: &Posed) -> Option<Found> {
    let arena = Bump::new(alloc);
    let verdict = Watched::new()
        .refute(alloc, posed.cnf(), LIMIT, &arena)
        .expect(rt, "memory");
    let found = found_by(rt, posed, &verdict);
    drop(verdict);
    found
}

/// What the verdict on the clauses says, which isn't that the search gave up.
fn found_by(rt: &impl Abort, posed: &Posed, verdict: &Verdict<'_>) -> Option<Found>
    requires { (limit : ℕ) × IsVerdict posed.now.clauses limit verdict.now }
{
    match verdict {
        Verdict::Sat(model) => Some(read(rt, posed, model)),
        Verdict::Unsat(_) => None,
        Verdict::Spent(_) => panic!(rt; "given up"),
    }
}

/// What the answer is read as, where there is one. Stops the test where the search gave up.
pub fn reading(rt: &impl Abort, asked: Result<Asked<'_>, Unfinished>) -> Option<Found>
    requires { (problem : ProblemValue) × (question : Question) × IfOk asked (IsAnswered problem question) }
{
    match asked {
        Ok(asked) => {
            let found = found_in(rt, &asked);
            drop(asked);
            found
        }
        Err(_) => panic!(rt; "given up"),
    }
}

/// What the model is read as, where the answer is one.
fn found_in(rt: &impl Abort, asked: &Asked<'_>) -> Option<Found>
    requires { (problem : ProblemValue) × (question : Question) × IsAnswered problem question asked.now }
{
    match asked {
        Asked::Found { posed, model } => Some(read(rt, posed, model)),
        Asked::Never { .. } => None,
    }
}
