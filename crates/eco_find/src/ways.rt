//! The ways to choose the base of a target.

ghost use Rattle.std.specs.Prelude.{◌≡◌, Some, IfOk, IfErr};
ghost use Rattle.eco_pose.specs.Stuck.{IsUnfinished, NoneCompared};
ghost use Rattle.eco_base.specs.Targets.{paid_of};
ghost use Rattle.eco_find.specs.Found.{IsFoundBy};

use bumpalo::Bump;
use eco_base::{Chosen, Target};
use eco_least::{Cheap, light, within};
use eco_pose::Unfinished;
use eco_trace::Refuter;

/// How the base of a target is chosen.
#[derive(Clone, Copy, PartialEq, Eq)]
pub enum Way {
    /// By the greedy choice, with as many questions as it takes.
    Greedy,
    /// By the greedy choice, if it takes at most 100 questions for each one of this effort. It is told what any base costs at least.
    Within(u32),
    /// So that the base costs little: at most so many questions are spent on cheaper ones than the greedy choice. It is told what
    /// any base costs at least.
    Light(u32),
}

/// A base of a target, and what any costs at least, if the way tells that.
#[derive(Drop)]
pub struct Found<'t> {
    pub chosen: Chosen<'t>,
    pub least: Option<u64>,
}

/// A base of the target beside the signals that are paid, chosen in this way. `None` only if the way may end without a base: if the
/// greedy choice isn't found within the effort. Fails if the search gives up on a question without which there is no base, or for want
/// of memory.
pub fn find<'t, R: Refuter>(
    target: &mut Target<'_, R>,
    way: Way,
    arena: &'t Bump,
) -> Result<Option<Found<'t>>, Unfinished>
    ensures found { IfOk result (IsFoundBy way target.old.problem target.old.number target.old.patches (paid_of target.old)) }
    ensures unfinished { IfErr result (IsUnfinished target.old.problem NoneCompared target.old.limit) }
    ensures stays { target.new ≡ target.old }
{
    match way {
        Way::Greedy => match target.choose(arena) {
            Ok(chosen) => Ok(Some(Found {
                chosen,
                least: None,
            })),
            Err(unfinished) => Err(unfinished),
        },
        Way::Within(effort) => match within(target, effort, arena) {
            Ok(Some(cheap)) => Ok(Some(telling(cheap))),
            Ok(None) => Ok(None),
            Err(unfinished) => Err(unfinished),
        },
        Way::Light(effort) => match light(target, effort, arena) {
            Ok(cheap) => Ok(Some(telling(cheap))),
            Err(unfinished) => Err(unfinished),
        },
    }
}

/// The base, with what any costs at least.
fn telling(cheap: Cheap<'_>) -> Found<'_>
    ensures { result ≡ record { chosen = cheap.entry.chosen; least = Some cheap.entry.least } }
{
    let Cheap { chosen, least } = cheap;
    Found {
        chosen,
        least: Some(least),
    }
}
