//! Whether a tuple clashes.

ghost use Rattle.std.specs.Prelude.{◌≤◌, IfOk};
ghost use Rattle.eco_trace.specs.Verdicts.{IsVerdict};
ghost use Rattle.eco_tuples.specs.Answers.{Asks, IsClashAnswer, IsTold};
ghost use Rattle.eco_tuples.specs.Graphs.{AreInputsOf};

use crate::posing::pose_clash;
use bumpalo::Bump;
use eco_meaning::{Bits, OutOfMemory};
use eco_pose::bits_of;
use eco_query::Problem;
use eco_trace::{Refuter, Verdict};
use eco_tseitin::OneSide;
use std::alloc::Global;

/// What a question tells of a tuple of inputs.
#[derive(Drop)]
pub enum Clash {
    /// It clashes: no one row of bits of the targets is right at each of its inputs.
    Shown,
    /// It doesn't: this bit for each target, in their order, is right at each of its inputs.
    Fixed(Bits),
    /// It isn't known: the search learnt as many clauses as its limit allows.
    Open,
}

/// Whether the tuple clashes: whether no one row of bits of the targets is right at each of its inputs, by one question with at most
/// `limit` learnt clauses.
pub fn clashes<R: Refuter>(
    alloc: Global,
    problem: &Problem,
    tuple: &[Bits],
    refuter: &mut R,
    limit: u64,
) -> Result<Clash, OutOfMemory>
    requires tuple { AreInputsOf problem.now.implementation tuple.now }
    requires limit { 1 ≤ limit }
    ensures { IfOk result (IsClashAnswer problem.now tuple.now limit) }
{
    let side = pose_clash(alloc, problem, tuple)?;
    let answer = answer_of(alloc, &side, refuter, limit);
    drop(side);
    answer
}

/// What the search tells of the clauses.
fn answer_of<R: Refuter>(
    alloc: Global,
    side: &OneSide,
    refuter: &mut R,
    limit: u64,
) -> Result<Clash, OutOfMemory>
    requires within { Asks side.now }
    requires limit { 1 ≤ limit }
    ensures { IfOk result (IsTold side.now limit) }
{
    let arena = Bump::new(alloc);
    let answer = match refuter.refute(alloc, &side.cnf, limit, &arena) {
        Ok(verdict) => told(alloc, side, verdict, limit),
        Err(error) => Err(error),
    };
    drop(arena);
    answer
}

/// What the verdict tells of the clauses.
fn told(
    alloc: Global,
    side: &OneSide,
    verdict: Verdict<'_>,
    limit: u64,
) -> Result<Clash, OutOfMemory>
    requires within { Asks side.now }
    requires verdict { IsVerdict side.now.cnf limit verdict }
    ensures { IfOk result (IsTold side.now limit) }
{
    match verdict {
        Verdict::Unsat(trace) => {
            // its last clause is the empty one: there is no model
            let _ = trace.ends_empty();
            drop(trace);
            Ok(Clash::Shown)
        }
        Verdict::Sat(model) => {
            let bits = bits_of(alloc, side.cnf.vars(), &model, side.inputs.as_slice());
            drop(model);
            Ok(Clash::Fixed(bits?))
        }
        Verdict::Spent(trace) => {
            drop(trace);
            Ok(Clash::Open)
        }
    }
}
