//! Whether problems can be rectified, and patches leave them so.

ghost use Rattle.std.specs.Prelude.{◌≡◌, IsTrue, []};
ghost use Rattle.std.specs.Option.{ForSome};
ghost use Rattle.eco_meaning.specs.Meaning.{IsRectifiable};
ghost use Rattle.eco_meaning.specs.Patch.{splice_of};
ghost use Rattle.eco_query.specs.Problem.{IsClosed};
ghost use Rattle.test_engine.specs.Fronts.{IsFrontOf, IsKeptFront};

use crate::asking::LIMIT;
use crate::front::Front;
use crate::problems::{closed, paired};
use crate::table::Table;
use eco_cdcl::Watched;
use eco_desk::Engine;
use eco_netlist::{Netlist, splice};
use eco_query::Problem;
use eco_rectify::{Answer, rectify};
use eco_trace::Refuter;
use eco_weight::Weights;
use std::alloc::Global;
use std::process::Abort;

/// Whether the engine's problem can be rectified. Stops the test where the search gives up.
pub fn is_rectifiable<R: Refuter>(rt: &impl Abort, engine: &mut Engine<'_, R>) -> bool
    ensures { IsTrue result → IsRectifiable engine.old.problem.implementation engine.old.problem.goal }
{
    match rectify(engine) {
        Ok(Answer::Rectifiable) => true,
        Ok(Answer::Wrong(input)) => {
            drop(input);
            false
        }
        Err(_) => panic!(rt; "given up"),
    }
}

/// Whether the problem can be rectified, as this search finds.
pub fn can_rectify<R: Refuter>(
    rt: &impl Abort,
    alloc: Global,
    problem: &Problem,
    search: &mut R,
) -> bool
    ensures { IsTrue result → IsRectifiable problem.now.implementation problem.now.goal }
{
    let mut engine = Engine::new(alloc, problem, search, LIMIT).expect(rt, "memory");
    let is_rectifiable = is_rectifiable(rt, &mut engine);
    drop(engine);
    is_rectifiable
}

/// The cared netlist of the problem, where there is one.
pub fn care(rt: &impl Abort, problem: &Problem) -> Option<Netlist>
    ensures closed { ForSome result IsClosed }
    ensures same { result ≡ problem.now.goal.care }
{
    match problem.care() {
        None => None,
        Some(care) => Some(closed(rt, care.copy().expect(rt, "memory"))),
    }
}

/// The problem whose implementation has the front's patch in it.
fn patched(rt: &impl Abort, alloc: Global, problem: &Problem, front: &Front) -> Problem
    requires { IsFrontOf problem.now front.now.target front.now.patch }
    ensures implementation { result.implementation ≡ splice_of problem.now.implementation front.now.patch }
    ensures goal { result.goal ≡ problem.now.goal }
{
    let implementation = splice(problem.implementation(), &front.patch).expect(rt, "memory");
    let specification = closed(rt, problem.specification().copy().expect(rt, "memory"));
    let care = care(rt, problem);
    paired(
        rt,
        implementation,
        specification,
        care,
        Weights::none(alloc),
    )
}

/// Whether the patch of a first target, which has none before it, has no gates.
fn is_first_free(front: &Front) -> bool
    ensures { IsTrue result → front.now.target ≡ 0 → front.now.patch.gates ≡ [] }
{
    if front.target > 0 {
        return true;
    }
    front.patch.gates().is_empty()
}

/// Whether at each input some values of the other targets are right, where those before the front's follow its sources.
fn leaves_right(table: &Table, front: &Front) -> bool {
    (0..table.input_count()).all(|input| table.has_right(input, front.before(input), front.target))
}

/// Whether the front's patch leaves the problem rectifiable, which a loop finds too.
pub fn is_kept(
    rt: &impl Abort,
    alloc: Global,
    problem: &Problem,
    table: &Table,
    front: &Front,
) -> bool
    requires { IsFrontOf problem.now front.now.target front.now.patch }
    ensures { IsTrue result → IsKeptFront problem.now front.now.target front.now.patch }
{
    assert!(rt; is_first_free(front));
    let patched = patched(rt, alloc, problem, front);
    let is_kept = can_rectify(rt, alloc, &patched, &mut Watched::new());
    drop(patched);
    assert_eq!(rt; is_kept, leaves_right(table, front));
    is_kept
}
