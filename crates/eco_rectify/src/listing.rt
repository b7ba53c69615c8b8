//! Rows of targets' values, listed one by one until they leave no input out.

ghost use Rattle.std.specs.Prelude.{◌≡◌, IfOk, IfErr};
ghost use Rattle.eco_pose.specs.Stuck.{IsUnfinished, NoneCompared};
ghost use Rattle.eco_rectify.specs.Rectified.{IsRectifyAnswer};

use crate::searching::{find_help, find_missed};
use eco_desk::Engine;
use eco_meaning::Bits;
use eco_pose::Unfinished;
use eco_trace::Refuter;

/// Whether the implementation can be rectified.
#[derive(Drop)]
pub enum Answer {
    /// At each input some values of the targets are right.
    Rectifiable,
    /// At this input none are.
    Wrong(Bits),
}

/// Whether the implementation of the engine's problem can be rectified. Asks two questions for each row of the targets' values
/// that it lists, which are at most 2 ^ targets, and one or two more. Fails where the search gives up on one of them, or for
/// want of memory.
pub fn rectify<R: Refuter>(engine: &mut Engine<'_, R>) -> Result<Answer, Unfinished>
    ensures answer { IfOk result (IsRectifyAnswer engine.old.problem) }
    ensures unfinished { IfErr result (IsUnfinished engine.old.problem NoneCompared engine.old.limit) }
    ensures stays { engine.new ≡ engine.old }
{
    // it is a problem
    let _ = engine.problem().implementation();
    let mut rows = Vec::new(engine.allocator());
    loop {
        let Some(input) = find_missed(engine, rows.as_slice())? else {
            return Ok(Answer::Rectifiable);
        };
        let Some(row) = find_help(engine, &input)? else {
            return Ok(Answer::Wrong(input));
        };
        rows.push(row)?;
    }
}
