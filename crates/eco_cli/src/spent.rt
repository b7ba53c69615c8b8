//! The answers of questions that were given up.

ghost use Rattle.std.specs.Prelude.{IfOk};
ghost use Rattle.eco_cli.specs.Answers.{IsSpentAnswer};
ghost use Rattle.eco_cli.specs.Spent.{IsUnfinishedAnswer};
ghost use Rattle.eco_cli.specs.Printing.{budget_text};

use crate::answer::{Answer, spent_answer};
use crate::printing::budget_line;
use eco_netlist::OutOfMemory;
use eco_pose::{Stuck, Unfinished};
use std::alloc::Global;

/// The answer where a question was given up, each of which may have so many learnt clauses. There is none where memory ran
/// out.
pub fn unfinished_answer<'a>(
    alloc: Global,
    budget: u32,
    unfinished: Unfinished,
) -> Result<Answer<'a>, OutOfMemory>
    ensures { IfOk result (IsUnfinishedAnswer budget unfinished) }
{
    match unfinished {
        Unfinished::GivenUp(stuck) => stuck_answer(alloc, budget, Box::into_inner(stuck)),
        Unfinished::OutOfMemory => Err(OutOfMemory),
    }
}

/// The answer of a question that was given up: its text, and no file.
pub(crate) fn stuck_answer<'a>(
    alloc: Global,
    budget: u32,
    stuck: Stuck,
) -> Result<Answer<'a>, OutOfMemory>
    ensures { IfOk result (IsSpentAnswer (budget_text budget stuck) stuck) }
{
    match budget_line(alloc, budget, &stuck.question) {
        Ok(text) => Ok(spent_answer(alloc, text, stuck)),
        Err(error) => {
            drop(stuck);
            Err(error)
        }
    }
}
