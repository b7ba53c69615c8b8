//! Comparing two netlists: at the inputs that a cared netlist names, or at all inputs by clauses in one fixed form.

ghost use Rattle.std.specs.Prelude.{◌≡◌, ◌+◌, ◌*◌, ◌≤◌, IfOk, IfErr};
ghost use Rattle.std.specs.Option.{option_copied};
ghost use Rattle.eco_meaning.specs.Circuit.{Circuit};
ghost use Rattle.eco_meaning.specs.Meaning.{everywhere, IsWrong};
ghost use Rattle.eco_trace.specs.Verdicts.{IsModel, IsRefutedWithin};
ghost use Rattle.eco_netlist.specs.Netlists.{IsChecked};
ghost use Rattle.eco_query.specs.Problem.{ProblemValue, IsClosed};
ghost use Rattle.eco_equality.specs.Equality.{HaveSamePorts, equality_of, input_literals, size};
ghost use Rattle.eco_compile.specs.Goals.{IsGoalOf};
ghost use Rattle.eco_pose.specs.declared.question.Question.TheVariants.{Equal};
ghost use Rattle.eco_pose.specs.Answers.{AsksFor};
ghost use Rattle.eco_pose.specs.Equality.{IsComparisonUnfinished, IsEquality, IsPosedEqual};
ghost use Rattle.eco_pose.specs.Stuck.{IsAnswered, IsLeft, IsLeftAs};

use crate::asking::{Abandoned, Asked, Searched, search};
use crate::posed::Posed;
use crate::posing::pose_differing;
use crate::question::Question;
use crate::unfinished::Unfinished;
use bumpalo::Bump;
use eco_equality::equality_clauses;
use eco_meaning::{Bits, OutOfMemory};
use eco_netlist::Netlist;
use eco_trace::{Model, Refuter, Trace};
use std::alloc::Global;

/// Whether two netlists with the same ports have the same outputs on every input.
#[derive(Drop)]
pub enum Equality<'t> {
    /// They have. The clauses ask for an input on which they differ; the proof is of these clauses, its last clause is empty,
    /// and it learns no more clauses than the limit allows.
    Equal { posed: Posed, trace: Trace<'t> },
    /// On this input, a bit for each of the left netlist's inputs in their order, they differ in an output.
    Differs(Bits),
}

/// Clauses that ask for an input on which the two netlists differ in an output. They are the equality clauses, in their fixed
/// order and form, so that a proof of them can be checked by whoever makes them anew.
pub fn pose_equal(alloc: Global, left: &Netlist, right: &Netlist) -> Result<Posed, OutOfMemory>
    requires ports { HaveSamePorts left.now right.now }
    requires left_closed { IsClosed left.now }
    requires right_closed { IsClosed right.now }
    ensures asks { IfOk result (λ posed. AsksFor (IsWrong left.now (everywhere right.now)) posed.first posed.clauses.clauses) }
    ensures exactly { IfOk result (λ posed. posed.clauses ≡ equality_of left.now right.now) }
    ensures reads { IfOk result (λ posed. posed.first ≡ input_literals left.now) }
    ensures few { IfOk result (λ posed. posed.clauses.vars ≤ 2 * (1 + size left.now + size right.now)) }
{
    let made = equality_clauses(alloc, left, right)?;
    Ok(Posed {
        alloc,
        cnf: made.cnf,
        side: Vec::new(alloc),
        shared: Vec::new(alloc),
        first: made.inputs,
        second: Vec::new(alloc),
        targets: Vec::new(alloc),
    })
}

/// Whether the two netlists are equal, by one question with at most `limit` learnt clauses. The proof is left in the arena.
/// It fails where the search gives up on the question, and where memory runs out.
pub fn equal<'t, R: Refuter>(
    alloc: Global,
    left: &Netlist,
    right: &Netlist,
    refuter: &mut R,
    limit: u64,
    arena: &'t Bump,
) -> Result<Equality<'t>, Unfinished>
    requires left_closed { IsClosed left.now }
    requires right_closed { IsClosed right.now }
    requires ports { HaveSamePorts left.now right.now }
    requires limit { 1 ≤ limit }
    ensures equality { IfOk result (IsEquality left.now right.now limit) }
    ensures unfinished { IfErr result (IsComparisonUnfinished left.now right.now limit) }
{
    // it is checked
    let _ = left.nets();
    let posed = pose_equal(alloc, left, right)?;
    match search(alloc, posed, refuter, limit, arena)? {
        Searched::Answered(Asked::Never { posed, trace }) => Ok(same(posed, trace, limit)),
        Searched::Answered(Asked::Found { posed, model }) => Ok(differs(posed, model, limit)?),
        Searched::GivenUp(abandoned) => Err(left_equal(alloc, left, right, None, abandoned)),
    }
}

/// The input that the model is read as, whatever the limit of the question was.
fn differs<'t>(posed: Posed, model: Model, limit: u64) -> Result<Equality<'t>, OutOfMemory>
    requires { IsModel posed.clauses model }
    ensures { IfOk result (λ equality. (left right : Circuit) → IsPosedEqual left right posed → IsEquality left right limit equality) }
{
    let _ = limit;
    let input = posed.input1(&model);
    drop(posed);
    drop(model);
    Ok(Equality::Differs(input?))
}

/// That they are equal, as the proof shows, which the limit of the question allows.
fn same<'t>(posed: Posed, trace: Trace<'t>, limit: u64) -> Equality<'t>
    requires { IsRefutedWithin posed.clauses limit trace }
    ensures { (left right : Circuit) → IsChecked left → IsClosed left → IsPosedEqual left right posed →
        IsEquality left right limit result }
{
    let _ = limit;
    let _ = trace.ends_empty();
    Equality::Equal { posed, trace }
}

/// Asks for a cared input on which the netlists differ in an output, with at most `limit` learnt clauses.
pub fn ask_equal<'t, R: Refuter>(
    alloc: Global,
    left: &Netlist,
    right: &Netlist,
    care: Option<&Netlist>,
    refuter: &mut R,
    limit: u64,
    arena: &'t Bump,
) -> Result<Asked<'t>, Unfinished>
    requires goal { IsGoalOf left.now (record { spec = right.now; care = option_copied care }) }
    requires closed { IsClosed left.now }
    requires limit { 1 ≤ limit }
    ensures answer { IfOk result (λ asked. (problem : ProblemValue) →
        IsAnswered problem (Equal left.now right.now (option_copied care.entry)) asked) }
    ensures unfinished { IfErr result (λ unfinished. (problem : ProblemValue) →
        IsLeft problem limit (Equal left.now right.now (option_copied care.entry)) unfinished) }
{
    let posed = pose_differing(alloc, left, right, care)?;
    match search(alloc, posed, refuter, limit, arena)? {
        Searched::Answered(asked) => Ok(asked),
        Searched::GivenUp(abandoned) => Err(left_equal(alloc, left, right, care, abandoned)),
    }
}

/// That the question whether two netlists differ was given up.
fn left_equal(
    alloc: Global,
    left: &Netlist,
    right: &Netlist,
    care: Option<&Netlist>,
    abandoned: Abandoned,
) -> Unfinished
    ensures { IsLeftAs abandoned (Equal left.now right.now (option_copied care.entry)) result }
{
    match kept_equal(left, right, care) {
        Ok(question) => abandoned.on(alloc, question),
        Err(error) => {
            drop(abandoned);
            Unfinished::from(error)
        }
    }
}

/// The question whether two netlists differ.
fn kept_equal(
    left: &Netlist,
    right: &Netlist,
    care: Option<&Netlist>,
) -> Result<Question, OutOfMemory>
    ensures { IfOk result (λ question. question ≡ Equal left.now right.now (option_copied care.entry)) }
{
    let left = left.copy()?;
    let right = match right.copy() {
        Ok(right) => right,
        Err(error) => {
            drop(left);
            return Err(error);
        }
    };
    match copied(care) {
        Ok(care) => Ok(Question::Equal { left, right, care }),
        Err(error) => {
            drop(left);
            drop(right);
            Err(error)
        }
    }
}

/// The netlist again, where there is one.
fn copied(netlist: Option<&Netlist>) -> Result<Option<Netlist>, OutOfMemory>
    ensures { IfOk result (λ copy. copy ≡ option_copied netlist.entry) }
{
    match netlist {
        None => Ok(None),
        Some(netlist) => Ok(Some(netlist.copy()?)),
    }
}
