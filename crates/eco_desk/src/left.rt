//! Questions that were given up, which are kept.

ghost use Rattle.std.specs.Prelude.{◌≡◌, IfOk};
ghost use Rattle.eco_pose.specs.declared.question.Question.TheVariants as questions;
ghost use Rattle.eco_pose.specs.Stuck.{IsLeftAs};

use eco_meaning::{Bits, OutOfMemory};
use eco_netlist::{NetId, Netlist};
use eco_pose::{Abandoned, Nets, Question, Rows, Unfinished};
use std::alloc::Global;

/// That the question for an input was given up.
pub(crate) fn left_rectify(alloc: Global, values: &[Bits], left: Abandoned) -> Unfinished
    ensures { IsLeftAs left (questions.Rectify values.now) result }
{
    match kept_rows(alloc, values) {
        Ok(values) => left.on(alloc, Question::Rectify { values }),
        Err(error) => {
            drop(left);
            Unfinished::from(error)
        }
    }
}

/// That the question for two inputs was given up.
pub(crate) fn left_separate(
    alloc: Global,
    target: u64,
    patches: &Netlist,
    base: &[NetId],
    rest: &[Bits],
    left: Abandoned,
) -> Unfinished
    ensures { IsLeftAs left (questions.Separate target patches.now base.now rest.now) result }
{
    match kept_separate(alloc, target, patches, base, rest) {
        Ok(question) => left.on(alloc, question),
        Err(error) => {
            drop(left);
            Unfinished::from(error)
        }
    }
}

/// The question for two inputs.
fn kept_separate(
    alloc: Global,
    target: u64,
    patches: &Netlist,
    base: &[NetId],
    rest: &[Bits],
) -> Result<Question, OutOfMemory>
    ensures { IfOk result (λ question. question ≡ questions.Separate target patches.now base.now rest.now) }
{
    let base = Nets::of(Vec::from_slice(alloc, base)?);
    let rest = kept_rows(alloc, rest)?;
    let patches = patches.copy()?;
    Ok(Question::Separate {
        target,
        patches,
        base,
        rest,
    })
}

/// These rows.
fn kept_rows(alloc: Global, rows: &[Bits]) -> Result<Rows, OutOfMemory>
    ensures { IfOk result (λ kept. kept ≡ rows.now) }
{
    let mut kept = Vec::with_capacity(alloc, rows.len())?;
    for row in rows {
        kept.push(row.copy()?)?;
    }
    Ok(Rows::of(kept))
}
