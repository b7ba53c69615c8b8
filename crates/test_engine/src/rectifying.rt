//! Questions for an input at which no listed row of the targets' values is right.

ghost use Rattle.std.specs.Prelude.{◌≡◌, ℕ, List};
ghost use Rattle.eco_meaning.specs.Circuit.{AreTargets};
ghost use Rattle.eco_pose.specs.Questions.{AreDistinct, AreRowsOf};

use crate::asking::{Found, LIMIT, found_plainly, reading};
use crate::draws::{below, seeded};
use crate::problems::problem;
use crate::rows::{rows_of, rows_once};
use crate::table::Table;
use crate::tally::Tally;
use bumpalo::Bump;
use eco_cdcl::Watched;
use eco_desk::Engine;
use eco_meaning::Bits;
use eco_pose::{Question, Rows};
use eco_query::Problem;
use eco_scan::Scan;
use eco_trace::Refuter;
use std::alloc::Global;
use std::process::Abort;

/// Some rows of the targets' values.
fn drawn_rows(rt: &impl Abort, alloc: Global, seed: u64, table: &Table) -> Vec<u64> {
    let mut draws = seeded(seed.wrapping_add(3000));
    let mut rows = Vec::new(alloc);
    for _ in 0..below(&mut draws, 5) {
        rows.push(below(&mut draws, table.row_count()))
            .expect(rt, "memory");
    }
    rows
}

/// Whether no listed row is right at the input.
fn is_missed(table: &Table, rows: &[u64], input: u64) -> bool {
    !rows.iter().any(|row| table.is_right(input, *row))
}

/// Whether the rows miss an input.
fn miss_some(table: &Table, rows: &[u64]) -> bool {
    (0..table.input_count()).any(|input| is_missed(table, rows, input))
}

/// Stops the test where the answer isn't one, or there is one all the same.
fn expect_missed(rt: &impl Abort, table: &Table, rows: &[u64], answer: Option<Found>) {
    match answer {
        None => assert!(rt; !miss_some(table, rows)),
        Some(found) => assert!(rt; is_missed(table, rows, found.first)),
    }
}

/// The rows of the targets' values that have these numbers.
fn target_rows(rt: &impl Abort, alloc: Global, problem: &Problem, numbers: &[u64]) -> Vec<Bits>
    ensures { (targets : List (List ℕ)) → AreTargets problem.now.implementation targets → AreRowsOf targets result.items }
{
    let width = problem.implementation().targets().len();
    rows_of(rt, alloc, numbers, width)
}

/// The same rows, each once.
fn target_rows_once(rt: &impl Abort, alloc: Global, problem: &Problem, numbers: &[u64]) -> Vec<Bits>
    ensures rows { (targets : List (List ℕ)) → AreTargets problem.now.implementation targets → AreRowsOf targets result.items }
    ensures distinct { AreDistinct result.items }
{
    let width = problem.implementation().targets().len();
    rows_once(rt, alloc, numbers, width)
}

/// Whether the question of this seed has an answer where it is posed plainly.
fn is_found_plainly(
    rt: &impl Abort,
    alloc: Global,
    problem: &Problem,
    table: &Table,
    seed: u64,
) -> bool {
    let numbers = drawn_rows(rt, alloc, seed, table);
    let values = Rows::of(target_rows(rt, alloc, problem, numbers.as_slice()));
    let answer = found_plainly(rt, alloc, problem, Question::Rectify { values });
    expect_missed(rt, table, numbers.as_slice(), answer);
    answer.is_some()
}

/// Whether the question of this seed has an answer where the engine is asked.
pub fn is_found_by_engine<R: Refuter>(
    rt: &impl Abort,
    engine: &mut Engine<'_, R>,
    table: &Table,
    seed: u64,
) -> bool
    ensures { engine.new ≡ engine.old }
{
    let alloc = engine.allocator();
    let numbers = drawn_rows(rt, alloc, seed, table);
    let rows = target_rows_once(rt, alloc, engine.problem(), numbers.as_slice());
    let arena = Bump::new(alloc);
    let answer = reading(rt, engine.ask_rectify(rows.as_slice(), &arena));
    expect_missed(rt, table, numbers.as_slice(), answer);
    answer.is_some()
}

/// Whether the question of this seed has an answer where an engine with this search is asked.
fn is_found_with<R: Refuter>(
    rt: &impl Abort,
    alloc: Global,
    problem: &Problem,
    table: &Table,
    search: &mut R,
    seed: u64,
) -> bool {
    let mut engine = Engine::new(alloc, problem, search, LIMIT).expect(rt, "memory");
    let is_found = is_found_by_engine(rt, &mut engine, table, seed);
    drop(engine);
    is_found
}

/// Whether the question of this seed has an answer; both ways of asking find it, by either search.
fn has_answer(rt: &impl Abort, alloc: Global, problem: &Problem, seed: u64) -> bool {
    let table = Table::new(rt, alloc, problem);
    let is_found = is_found_plainly(rt, alloc, problem, &table, seed);
    let by_watched = is_found_with(rt, alloc, problem, &table, &mut Watched::new(), seed);
    let by_scan = is_found_with(rt, alloc, problem, &table, &mut Scan::new(), seed);
    assert_eq!(rt; by_watched, is_found);
    assert_eq!(rt; by_scan, is_found);
    is_found
}

/// Whether the question of this seed has an answer.
fn is_found(rt: &impl Abort, alloc: Global, seed: u64) -> bool {
    let problem = problem(rt, alloc, seed);
    let is_found = has_answer(rt, alloc, &problem, seed);
    drop(problem);
    is_found
}

#[test]
fn an_input_is_missed_where_a_loop_finds_one(rt: HostRuntime) {
    let mut tally = Tally::new();
    for seed in 0..100 {
        tally.note(is_found(&rt, rt.alloc(), seed));
    }
    tally.expect_both(&rt, 20);
}
