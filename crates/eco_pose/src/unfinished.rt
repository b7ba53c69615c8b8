//! Questions that were given up, and the one for values of the targets, asked of a problem over a graph of its own.

ghost use Rattle.std.specs.Prelude.{◌≡◌, ◌≤◌, ℕ, List, length, IfOk, IfErr};
ghost use Rattle.eco_meaning.specs.Circuit.{AreTargets};
ghost use Rattle.eco_pose.specs.declared.question.Question.TheVariants.{Fix};
ghost use Rattle.eco_pose.specs.Stuck.{IsAnswered, IsLeft, IsLeftAs};

use crate::asking::{Abandoned, Asked, Searched, search};
use crate::posed::Posed;
use crate::posing::pose_fix;
use crate::question::Question;
use bumpalo::Bump;
use eco_meaning::{Bits, OutOfMemory};
use eco_query::Problem;
use eco_trace::{KeptTrace, Refuter};
use std::alloc::{AllocError, AllocFailed, Global};

/// A question that was given up: its clauses, and the proof from them that is as long as the limit allows.
#[derive(Drop)]
pub struct Stuck {
    pub question: Question,
    pub posed: Posed,
    pub trace: KeptTrace,
}

/// Why what was asked has no answer.
#[derive(Drop)]
pub enum Unfinished {
    /// The search gave up on a question.
    GivenUp(Box<Stuck>),
    /// Memory could not be had.
    OutOfMemory,
}

impl From<OutOfMemory> for Unfinished {
    ghost use Rattle.std.specs.Prelude.{◌≡◌};
    ghost use Rattle.eco_pose.specs.declared.unfinished.Unfinished.TheVariants as variants;

    ghost from_gives = { λ _ e. e ≡ variants.OutOfMemory };

    fn from(_error: OutOfMemory) -> Unfinished {
        Unfinished::OutOfMemory
    }
}

impl From<AllocError> for Unfinished {
    ghost use Rattle.std.specs.Prelude.{◌≡◌};
    ghost use Rattle.eco_pose.specs.declared.unfinished.Unfinished.TheVariants as variants;

    ghost from_gives = { λ _ e. e ≡ variants.OutOfMemory };

    fn from(_error: AllocError) -> Unfinished {
        Unfinished::OutOfMemory
    }
}

impl<T: Drop> From<AllocFailed<T>> for Unfinished {
    ghost use Rattle.std.specs.Prelude.{◌≡◌};
    ghost use Rattle.eco_pose.specs.declared.unfinished.Unfinished.TheVariants as variants;

    ghost from_gives = { λ _ e. e ≡ variants.OutOfMemory };

    fn from(_error: AllocFailed<T>) -> Unfinished {
        Unfinished::OutOfMemory
    }
}

impl Abandoned {
    /// That this question, which the clauses ask, was given up.
    pub fn on(self, alloc: Global, question: Question) -> Unfinished
        ensures { IsLeftAs self question result }
    {
        let Abandoned { posed, trace } = self;
        let stuck = Stuck {
            question,
            posed,
            trace,
        };
        match Box::new(alloc, stuck) {
            Ok(stuck) => Unfinished::GivenUp(stuck),
            Err(failed) => {
                drop(failed);
                Unfinished::OutOfMemory
            }
        }
    }
}

/// Asks for values of the targets that begin with the fixed ones and are right at the input, with at most `limit` learnt
/// clauses.
pub fn ask_fix<'t, R: Refuter>(
    alloc: Global,
    problem: &Problem,
    input: &Bits,
    fixed: &Bits,
    refuter: &mut R,
    limit: u64,
    arena: &'t Bump,
) -> Result<Asked<'t>, Unfinished>
    requires input { length input.now ≡ length problem.now.implementation.inputs }
    requires fixed { (targets : List (List ℕ)) → AreTargets problem.now.implementation targets → length fixed.now ≤ length targets }
    requires limit { 1 ≤ limit }
    ensures answer { IfOk result (IsAnswered problem.now (Fix input.now fixed.now)) }
    ensures unfinished { IfErr result (IsLeft problem.now limit (Fix input.now fixed.now)) }
{
    let posed = pose_fix(alloc, problem, input, fixed)?;
    match search(alloc, posed, refuter, limit, arena)? {
        Searched::Answered(asked) => Ok(asked),
        Searched::GivenUp(left) => Err(left_fix(alloc, input, fixed, left)),
    }
}

/// That the question for values of the targets was given up.
fn left_fix(alloc: Global, input: &Bits, fixed: &Bits, left: Abandoned) -> Unfinished
    ensures { IsLeftAs left (Fix input.now fixed.now) result }
{
    match kept_fix(input, fixed) {
        Ok(question) => left.on(alloc, question),
        Err(error) => {
            drop(left);
            Unfinished::from(error)
        }
    }
}

/// The question for values of the targets.
fn kept_fix(input: &Bits, fixed: &Bits) -> Result<Question, OutOfMemory>
    ensures { IfOk result (λ question. question ≡ Fix input.now fixed.now) }
{
    Ok(Question::Fix {
        input: input.copy()?,
        fixed: fixed.copy()?,
    })
}
