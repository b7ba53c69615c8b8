//! Questions for values of the targets that begin with fixed ones and are right at an input.

ghost use Rattle.std.specs.Prelude.{◌≡◌, ◌≤◌, ℕ, List, length};
ghost use Rattle.eco_meaning.specs.Circuit.{AreTargets};

use crate::askable::expect_at_most;
use crate::asking::{Found, LIMIT, found_plainly, reading};
use crate::bits::{lowest, one_at};
use crate::draws::{below, seeded};
use crate::problems::problem;
use crate::rows::row_of;
use crate::table::Table;
use crate::tally::Tally;
use bumpalo::Bump;
use eco_cdcl::Watched;
use eco_desk::Engine;
use eco_meaning::Bits;
use eco_pose::Question;
use eco_query::Problem;
use eco_scan::Scan;
use eco_trace::Refuter;
use std::alloc::Global;
use std::process::Abort;

/// An input, and values of the first targets.
#[derive(Clone, Copy)]
struct Start {
    input: u64,
    fixed: u64,
    count: u64,
}

/// Some input, and some values of some first targets.
fn drawn_start(seed: u64, table: &Table) -> Start {
    let mut draws = seeded(seed.wrapping_add(4000));
    let count = below(&mut draws, table.targets().wrapping_add(1));
    Start {
        input: below(&mut draws, table.input_count()),
        fixed: below(&mut draws, one_at(count)),
        count,
    }
}

/// Whether the row begins with the fixed values, and is right at the input.
fn is_fixed(table: &Table, start: Start, row: u64) -> bool {
    lowest(row, start.count) == start.fixed && table.is_right(start.input, row)
}

/// Stops the test where the answer isn't one, or there is one all the same.
fn expect_fixed(rt: &impl Abort, table: &Table, start: Start, answer: Option<Found>) {
    match answer {
        None => assert!(rt; !table.has_right(start.input, start.fixed, start.count)),
        Some(found) => assert!(rt; is_fixed(table, start, found.targets)),
    }
}

/// The bits of the input.
fn input_of(rt: &impl Abort, alloc: Global, problem: &Problem, start: Start) -> Bits
    ensures { length result ≡ length problem.now.implementation.inputs }
{
    let width = problem.implementation().inputs().len();
    row_of(rt, alloc, start.input, width)
}

/// The fixed values, which are no more than there are targets.
fn fixed_of(rt: &impl Abort, alloc: Global, problem: &Problem, start: Start) -> Bits
    ensures { (targets : List (List ℕ)) → AreTargets problem.now.implementation targets → length result ≤ length targets }
{
    let count = start.count as usize;
    expect_at_most(rt, count, problem.implementation().targets().len());
    row_of(rt, alloc, start.fixed, count)
}

/// Whether the question of this seed has an answer where it is posed plainly.
fn is_found_plainly(
    rt: &impl Abort,
    alloc: Global,
    problem: &Problem,
    table: &Table,
    seed: u64,
) -> bool {
    let start = drawn_start(seed, table);
    let input = input_of(rt, alloc, problem, start);
    let fixed = fixed_of(rt, alloc, problem, start);
    let answer = found_plainly(rt, alloc, problem, Question::Fix { input, fixed });
    expect_fixed(rt, table, start, answer);
    answer.is_some()
}

/// Whether the question of this seed has an answer where the engine is asked.
pub fn is_found_by_engine<R: Refuter>(
    rt: &impl Abort,
    engine: &mut Engine<'_, R>,
    table: &Table,
    seed: u64,
) -> bool
    ensures { engine.new ≡ engine.old }
{
    let alloc = engine.allocator();
    let start = drawn_start(seed, table);
    let input = input_of(rt, alloc, engine.problem(), start);
    let fixed = fixed_of(rt, alloc, engine.problem(), start);
    let arena = Bump::new(alloc);
    let answer = reading(rt, engine.ask_fix(&input, &fixed, &arena));
    expect_fixed(rt, table, start, answer);
    answer.is_some()
}

/// Whether the question of this seed has an answer where an engine with this search is asked.
fn is_found_with<R: Refuter>(
    rt: &impl Abort,
    alloc: Global,
    problem: &Problem,
    table: &Table,
    search: &mut R,
    seed: u64,
) -> bool {
    let mut engine = Engine::new(alloc, problem, search, LIMIT).expect(rt, "memory");
    let is_found = is_found_by_engine(rt, &mut engine, table, seed);
    drop(engine);
    is_found
}

/// Whether the question of this seed has an answer; both ways of asking find it, by either search.
fn has_answer(rt: &impl Abort, alloc: Global, problem: &Problem, seed: u64) -> bool {
    let table = Table::new(rt, alloc, problem);
    let is_found = is_found_plainly(rt, alloc, problem, &table, seed);
    let by_watched = is_found_with(rt, alloc, problem, &table, &mut Watched::new(), seed);
    let by_scan = is_found_with(rt, alloc, problem, &table, &mut Scan::new(), seed);
    assert_eq!(rt; by_watched, is_found);
    assert_eq!(rt; by_scan, is_found);
    is_found
}

/// Whether the question of this seed has an answer.
fn is_found(rt: &impl Abort, alloc: Global, seed: u64) -> bool {
    let problem = problem(rt, alloc, seed);
    let is_found = has_answer(rt, alloc, &problem, seed);
    drop(problem);
    is_found
}

#[test]
fn values_go_on_from_fixed_ones_where_a_loop_finds_some(rt: HostRuntime) {
    let mut tally = Tally::new();
    for seed in 0..100 {
        tally.note(is_found(&rt, rt.alloc(), seed));
    }
    tally.expect_both(&rt, 20);
}
