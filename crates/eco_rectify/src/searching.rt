//! What the search tells of listed rows and of inputs.

ghost use Rattle.std.specs.Prelude.{◌≡◌, Bool, List, [], length, IfOk, IfErr};
ghost use Rattle.eco_query.specs.Problem.{ProblemValue};
ghost use Rattle.eco_pose.specs.declared.question.Question.TheVariants as questions;
ghost use Rattle.eco_pose.specs.Stuck.{IsAnswered, IsUnfinished, NoneCompared, CanBeRead};
ghost use Rattle.eco_rectify.specs.Searched.{AreListed, TellsMissed, TellsHelp};

use bumpalo::Bump;
use eco_desk::Engine;
use eco_meaning::{Bits, OutOfMemory};
use eco_pose::{Asked, Unfinished};
use eco_trace::Refuter;

/// An input at which no listed row is right, if there is one.
pub(crate) fn find_missed<R: Refuter>(
    engine: &mut Engine<'_, R>,
    rows: &[Bits],
) -> Result<Option<Bits>, Unfinished>
    requires rows { AreListed engine.old.problem.implementation rows.now }
    ensures missed { IfOk result (TellsMissed engine.old.problem rows.now) }
    ensures unfinished { IfErr result (IsUnfinished engine.old.problem NoneCompared engine.old.limit) }
    ensures stays { engine.new ≡ engine.old }
{
    let arena = Bump::new(engine.allocator());
    let asked = engine.ask_rectify(rows, &arena)?;
    let missed = read_missed(&asked);
    drop(asked);
    Ok(missed?)
}

/// What the answer tells of the inputs that the rows miss.
fn read_missed(asked: &Asked<'_>) -> Result<Option<Bits>, OutOfMemory>
    requires { CanBeRead asked.now }
    ensures { IfOk result (λ missed. (problem : ProblemValue) (rows : List (List Bool)) →
        AreListed problem.implementation rows → IsAnswered problem (questions.Rectify rows) asked.now →
        TellsMissed problem rows missed) }
{
    match asked {
        Asked::Never { trace, .. } => {
            let _ = trace.ends_empty();
            Ok(None)
        }
        Asked::Found { posed, model } => {
            let input = posed.input1(model)?;
            Ok(Some(input))
        }
    }
}

/// Values of the targets that are right at the input, if there are any.
pub(crate) fn find_help<R: Refuter>(
    engine: &mut Engine<'_, R>,
    input: &Bits,
) -> Result<Option<Bits>, Unfinished>
    requires input { length input.now ≡ length engine.old.problem.implementation.inputs }
    ensures help { IfOk result (TellsHelp engine.old.problem input.now) }
    ensures unfinished { IfErr result (IsUnfinished engine.old.problem NoneCompared engine.old.limit) }
    ensures stays { engine.new ≡ engine.old }
{
    let alloc = engine.allocator();
    let arena = Bump::new(alloc);
    let asked = engine.ask_fix(input, &Bits::of(Vec::new(alloc)), &arena)?;
    let help = read_help(&asked);
    drop(asked);
    Ok(help?)
}

/// What the answer tells of the input.
fn read_help(asked: &Asked<'_>) -> Result<Option<Bits>, OutOfMemory>
    requires { CanBeRead asked.now }
    ensures { IfOk result (λ help. (problem : ProblemValue) (input : List Bool) →
        IsAnswered problem (questions.Fix input []) asked.now → TellsHelp problem input help) }
{
    match asked {
        Asked::Never { trace, .. } => {
            let _ = trace.ends_empty();
            Ok(None)
        }
        Asked::Found { posed, model } => {
            let values = posed.target_values(model)?;
            Ok(Some(values))
        }
    }
}
