//! The search for a smaller function that stands between two parts of clauses too.

ghost use Rattle.std.specs.Prelude.{◌≡◌, ◌≤◌, IfOk, IfSome, IsTrue, OnOk, length};
ghost use Rattle.eco_aig.specs.Graph.{IsEdge, inputs_of};
ghost use Rattle.eco_trace.specs.Split.{Split};
ghost use Rattle.eco_accept.specs.Judging.{HasMark};
ghost use Rattle.eco_functions.specs.Improving.{AreJudges, HasMarks, IsAccepted};
ghost use Rattle.eco_functions.specs.Parts.{split_of};

use crate::measured::Measured;
use crate::parts::Parts;
use crate::two_parts::TwoParts;
use eco_accept::{Judge, Judgement};
use eco_meaning::OutOfMemory;
use eco_resub::{Attempt, Candidate};
use eco_trace::{Refuter, Var};

// How many candidates are asked of at most.
const QUESTIONS: u64 = 4000;

// How many clauses the search learns at most for one question.
const LEARNT: u64 = 800;

// How many it learns at first for all questions, and how many more for each candidate that is accepted.
const EFFORT: u64 = 30_000;

const EARNED: u64 = 1_000;

/// Two judges of functions over some variables, one for each part of the clauses.
#[derive(Drop)]
pub(crate) struct Judges<'j> {
    above: Judge,
    below: Judge,
    /// The variables that both parts have.
    shared: &'j [Var],
    /// How many clauses a question may learn.
    limit: u64,
}

/// The last function that was accepted in the place of the last root's, if any was: it has the mark of each part of the clauses
/// in each model of that part, where the inputs have the bits of the shared variables. At most `QUESTIONS` candidates are asked of, and the
/// search learns about `EFFORT` clauses and `EARNED` more for each that is accepted.
pub(crate) fn improved<R: Refuter>(
    parts: &Parts,
    two: &TwoParts<'_, '_>,
    refuter: &mut R,
    limit: u64,
) -> Result<Option<Candidate>, OutOfMemory>
    requires marked { length two.now.side.now ≡ length two.now.trace.now.originals }
    requires limit { 1 ≤ limit }
    ensures accepted { IfOk result (λ found. IfSome found (λ candidate.
        IsAccepted (split_of two.now) two.now.shared.now candidate.aig candidate.root)) }
{
    let above = Judge::new(parts.alloc, two.trace, two.side, true, two.shared)?;
    match Judge::new(parts.alloc, two.trace, two.side, false, two.shared) {
        Ok(below) => {
            let mut judges = Judges {
                above,
                below,
                shared: two.shared,
                limit: limit.min(LEARNT),
            };
            let found = searched(parts, &mut judges, refuter);
            drop(judges);
            found
        }
        Err(error) => {
            drop(above);
            Err(error)
        }
    }
}

// The last candidate that both judges accepted, if they accepted one.
fn searched<R: Refuter>(
    parts: &Parts,
    judges: &mut Judges<'_>,
    refuter: &mut R,
) -> Result<Option<Candidate>, OutOfMemory>
    requires judges { AreJudges judges.old }
    ensures accepted { IfOk result (λ found. IfSome found (λ candidate. HasMarks judges.old candidate.aig candidate.root)) }
{
    let mut attempt = Attempt::new(parts.alloc, &parts.aig, parts.roots.as_slice())?;
    let mut measured = Measured::new(refuter, EFFORT);
    let found = last_accepted(&mut attempt, judges, &mut measured);
    drop(attempt);
    found
}

// The last candidate of the attempt that both judges accepted, if they accepted one.
fn last_accepted<R: Refuter>(
    attempt: &mut Attempt,
    judges: &mut Judges<'_>,
    refuter: &mut Measured<'_, R>,
) -> Result<Option<Candidate>, OutOfMemory>
    requires judges { AreJudges judges.old }
    ensures accepted { IfOk result (λ found. IfSome found (λ candidate. HasMarks judges.old candidate.aig candidate.root)) }
{
    let mut best = None;
    for _ in 0..QUESTIONS {
        match ask_next(attempt, judges, refuter, &mut best) {
            Ok(true) => {}
            Ok(false) => break,
            Err(error) => {
                drop(best);
                return Err(error);
            }
        }
    }
    Ok(best)
}

// Asks of the attempt's next candidate, which is the best one from there on where both judges accept it. False where there is
// no next one, or the search has spent its effort.
fn ask_next<R: Refuter>(
    attempt: &mut Attempt,
    judges: &mut Judges<'_>,
    refuter: &mut Measured<'_, R>,
    best: &mut Option<Candidate>,
) -> Result<bool, OutOfMemory>
    requires judges { AreJudges judges.old }
    requires best { IfSome best.old (λ candidate. HasMarks judges.old candidate.aig candidate.root) }
    ensures best { OnOk result (IfSome best.new (λ candidate. HasMarks judges.old candidate.aig candidate.root)) }
    ensures judges { OnOk result (judges.new ≡ judges.old) }
{
    if refuter.is_spent() {
        return Ok(false);
    }
    match attempt.next()? {
        None => Ok(false),
        Some(candidate) => {
            match is_accepted(attempt, judges, &candidate, refuter) {
                Ok(true) => {
                    *best = Some(candidate);
                    Ok(true)
                }
                Ok(false) => {
                    drop(candidate);
                    Ok(true)
                }
                Err(error) => {
                    drop(candidate);
                    Err(error)
                }
            }
        }
    }
}

// Whether the candidate is an edge over as many inputs as there are shared variables, and both judges accept it. The attempt
// hears what came of it.
fn is_accepted<R: Refuter>(
    attempt: &mut Attempt,
    judges: &mut Judges<'_>,
    candidate: &Candidate,
    refuter: &mut Measured<'_, R>,
) -> Result<bool, OutOfMemory>
    requires judges { AreJudges judges.old }
    ensures accepted { IfOk result (λ is. IsTrue is → HasMarks judges.old candidate.now.aig candidate.now.root) }
    ensures judges { OnOk result (judges.new ≡ judges.old) }
{
    let inputs = candidate.aig.inputs().len();
    if inputs != judges.shared.len() || candidate.root.node >= candidate.aig.nodes() {
        attempt.unknown()?;
        return Ok(false);
    }
    let limit = judges.limit;
    if !has_mark(attempt, &mut judges.above, candidate, refuter, limit)? {
        return Ok(false);
    }
    if !has_mark(attempt, &mut judges.below, candidate, refuter, limit)? {
        return Ok(false);
    }
    attempt.taken()?;
    refuter.earn(EARNED);
    Ok(true)
}

// Whether the judge accepts the candidate. Where it doesn't, the attempt hears why.
fn has_mark<R: Refuter>(
    attempt: &mut Attempt,
    judge: &mut Judge,
    candidate: &Candidate,
    refuter: &mut Measured<'_, R>,
    limit: u64,
) -> Result<bool, OutOfMemory>
    requires inputs { length (inputs_of candidate.now.aig) ≡ length judge.old.shared }
    requires edge { IsEdge candidate.now.aig candidate.now.root }
    requires limit { 1 ≤ limit }
    ensures mark { IfOk result (λ is. IsTrue is → HasMark judge.old candidate.now.aig candidate.now.root) }
    ensures judge { OnOk result (judge.new ≡ judge.old) }
{
    match judge.judge(&candidate.aig, candidate.root, refuter, limit)? {
        Judgement::Accepted => Ok(true),
        Judgement::Refused(bits) => {
            attempt.refused(judge.part(), bits.as_slice())?;
            Ok(false)
        }
        Judgement::Unknown => {
            attempt.unknown()?;
            Ok(false)
        }
    }
}
