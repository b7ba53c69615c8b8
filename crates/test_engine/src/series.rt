//! Many questions of all kinds, asked one after another of one engine.

ghost use Rattle.std.specs.Prelude.{◌≡◌, Some};
ghost use Rattle.eco_desk.specs.Engines.{IsEngineOf, Turned};
ghost use Rattle.test_engine.specs.Fronts.{IsFrontOf, IsKeptFront};

use crate::asking::LIMIT;
use crate::front::Front;
use crate::kept::is_kept;
use crate::patches::drawn_front;
use crate::problems::problem;
use crate::table::Table;
use crate::tally::Tally;
use crate::{comparing, fixing, rectifying, separating};
use eco_cdcl::Watched;
use eco_desk::Engine;
use eco_query::Problem;
use eco_trace::Refuter;
use std::alloc::Global;
use std::process::Abort;

/// Asks a question of each kind that is of no target.
fn ask_of_none<R: Refuter>(
    rt: &impl Abort,
    engine: &mut Engine<'_, R>,
    table: &Table,
    tally: &mut Tally,
    seed: u64,
    draw: u64,
)
    ensures { engine.new ≡ engine.old }
{
    let problem = engine.problem();
    let alloc = engine.allocator();
    tally.note(rectifying::is_found_by_engine(rt, engine, table, draw));
    tally.note(fixing::is_found_by_engine(rt, engine, table, draw));
    tally.note(comparing::is_found_by_search(rt, alloc, problem, engine.search, seed, draw));
}

/// Asks two questions of the target that the engine is turned to, and others between them.
fn ask_of_target<R: Refuter>(
    rt: &impl Abort,
    engine: &mut Engine<'_, R>,
    table: &Table,
    tally: &mut Tally,
    front: &Front,
    seed: u64,
    draw: u64,
)
    requires front { IsKeptFront engine.old.problem front.now.target front.now.patch }
    requires turned { engine.old.turned ≡ Some (record { number = front.now.target; patches = front.now.patch }) }
    ensures { engine.new ≡ engine.old }
{
    let again = draw.wrapping_add(1);
    tally.note(separating::is_found_by_engine(rt, engine, table, front, draw));
    ask_of_none(rt, engine, table, tally, seed, draw);
    tally.note(separating::is_found_by_engine(rt, engine, table, front, again));
}

/// Turns the engine to the front, and asks.
fn turn_and_ask<R: Refuter>(
    rt: &impl Abort,
    engine: &mut Engine<'_, R>,
    table: &Table,
    tally: &mut Tally,
    front: &Front,
    seed: u64,
    draw: u64,
)
    requires { IsFrontOf engine.old.problem front.now.target front.now.patch }
    ensures { IsEngineOf engine.old.problem engine.old.limit engine.new }
{
    engine.turn(front.target, &front.patch).expect(rt, "memory");
    if is_kept(rt, engine.allocator(), engine.problem(), table, front) {
        ask_of_target(rt, engine, table, tally, front, seed, draw);
    } else {
        ask_of_none(rt, engine, table, tally, seed, draw);
    }
}

/// Asks of the target of this number.
fn ask_of<R: Refuter>(
    rt: &impl Abort,
    engine: &mut Engine<'_, R>,
    table: &Table,
    tally: &mut Tally,
    target: u64,
    seed: u64,
    draw: u64,
)
    ensures { IsEngineOf engine.old.problem engine.old.limit engine.new }
{
    let front = drawn_front(rt, engine.allocator(), engine.problem(), target, draw);
    turn_and_ask(rt, engine, table, tally, &front, seed, draw);
    drop(front);
}

/// Asks of one target after another, two times over.
fn ask_of_all<R: Refuter>(
    rt: &impl Abort,
    engine: &mut Engine<'_, R>,
    table: &Table,
    tally: &mut Tally,
    seed: u64,
) {
    let targets = table.targets().max(1);
    for step in 0..targets.wrapping_mul(2) {
        let draw = seed.wrapping_mul(100).wrapping_add(step);
        ask_of(rt, engine, table, tally, step % targets, seed, draw);
    }
}

/// Asks all questions of the problem of one engine.
fn ask_one_engine(rt: &impl Abort, alloc: Global, problem: &Problem, tally: &mut Tally, seed: u64) {
    let table = Table::new(rt, alloc, problem);
    let mut search = Watched::new();
    let mut engine = Engine::new(alloc, problem, &mut search, LIMIT).expect(rt, "memory");
    ask_of_all(rt, &mut engine, &table, tally, seed);
    drop(engine);
}

/// Asks all questions of the problem of this seed.
fn ask(rt: &impl Abort, alloc: Global, tally: &mut Tally, seed: u64) {
    let problem = problem(rt, alloc, seed);
    ask_one_engine(rt, alloc, &problem, tally, seed);
    drop(problem);
}

#[test]
fn one_engine_answers_one_question_after_another(rt: HostRuntime) {
    let mut tally = Tally::new();
    for seed in 0..20 {
        ask(&rt, rt.alloc(), &mut tally, seed);
    }
    tally.expect_both(&rt, 100);
}
