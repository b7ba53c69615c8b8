//! Questions for two inputs that a base doesn't tell apart.

ghost use Rattle.std.specs.Prelude.{◌≡◌, Some, length};
ghost use Rattle.eco_query.specs.Problem.{HasTargetNumber};
ghost use Rattle.eco_pose.specs.declared.question.Question.TheVariants.{Separate};
ghost use Rattle.eco_pose.specs.Questions.{AreDistinct, AtTarget};
ghost use Rattle.eco_desk.specs.Engines.{Turned};
ghost use Rattle.test_engine.specs.Fronts.{AreRests, IsBaseOf, IsFrontOf, IsKeptFront};

use crate::askable::expect_nets;
use crate::asking::{Found, LIMIT, found_plainly, reading};
use crate::bits::one_at;
use crate::draws::{below, seeded};
use crate::front::Front;
use crate::kept::is_kept;
use crate::patches::drawn_front;
use crate::problems::problem;
use crate::rows::{rows_of, rows_once};
use crate::table::Table;
use crate::tally::Tally;
use crate::view::View;
use bumpalo::Bump;
use eco_cdcl::Watched;
use eco_desk::Engine;
use eco_meaning::Bits;
use eco_netlist::{NetId, Netlist};
use eco_pose::{Nets, Question, Rows};
use eco_query::Problem;
use eco_scan::Scan;
use eco_trace::Refuter;
use std::alloc::Global;
use std::process::Abort;

/// Some of the netlist's nets.
fn drawn_nets(rt: &impl Abort, alloc: Global, seed: u64, netlist: &Netlist) -> Vec<NetId> {
    let mut draws = seeded(seed.wrapping_add(8000));
    let mut nets = Vec::new(alloc);
    for net in 0..netlist.nets() {
        if below(&mut draws, 2) == 0 {
            nets.push(NetId(net)).expect(rt, "memory");
        }
    }
    nets
}

/// Some rows of the values of the targets behind this one.
fn drawn_rests(rt: &impl Abort, alloc: Global, seed: u64, table: &Table, target: u64) -> Vec<u64> {
    let mut draws = seeded(seed.wrapping_add(9000));
    let mut rests = Vec::new(alloc);
    for _ in 0..below(&mut draws, 4) {
        rests
            .push(below(&mut draws, one_at(table.behind(target))))
            .expect(rt, "memory");
    }
    rests
}

/// Stops the test where the answer isn't one, or there is one all the same.
fn expect_separated(rt: &impl Abort, table: &Table, view: &View, answer: Option<Found>) {
    match answer {
        None => assert!(rt; !view.has_pair(table)),
        Some(found) => assert!(rt; view.is_separated(table, found.first, found.second)),
    }
}

/// The signals that the target's function may read, but for some that are left out.
fn drawn_base(
    rt: &impl Abort,
    alloc: Global,
    problem: &Problem,
    target: u64,
    seed: u64,
) -> Vec<NetId>
    requires { HasTargetNumber problem.now.implementation target }
    ensures { IsBaseOf problem.now target result.items }
{
    let left_out = drawn_nets(rt, alloc, seed, problem.implementation());
    expect_nets(rt, problem.implementation(), left_out.as_slice());
    problem
        .turns(target, left_out.as_slice())
        .expect(rt, "memory")
}

/// How many targets come behind that of this number.
fn behind(problem: &Problem, target: u64) -> usize
    requires { HasTargetNumber problem.now.implementation target }
    ensures { AtTarget problem.now.implementation target (λ before target behind. result ≡ length behind) }
{
    problem.implementation().targets().len() - 1 - target as usize
}

/// The values of the targets behind this one that have these numbers.
fn rests_of(
    rt: &impl Abort,
    alloc: Global,
    problem: &Problem,
    target: u64,
    numbers: &[u64],
) -> Vec<Bits>
    requires { HasTargetNumber problem.now.implementation target }
    ensures { AreRests problem.now target result.items }
{
    rows_of(rt, alloc, numbers, behind(problem, target))
}

/// The same values, each once.
fn rests_once(
    rt: &impl Abort,
    alloc: Global,
    problem: &Problem,
    target: u64,
    numbers: &[u64],
) -> Vec<Bits>
    requires { HasTargetNumber problem.now.implementation target }
    ensures rests { AreRests problem.now target result.items }
    ensures distinct { AreDistinct result.items }
{
    rows_once(rt, alloc, numbers, behind(problem, target))
}

/// The question of the front's target with this base and these rests.
fn question(
    rt: &impl Abort,
    alloc: Global,
    front: &Front,
    base: &[NetId],
    rests: Vec<Bits>,
) -> Question
    ensures { result ≡ Separate front.now.target front.now.patch base.now rests.items }
{
    let base = Vec::from_slice(alloc, base).expect(rt, "memory");
    let patches = front.patch.copy().expect(rt, "memory");
    Question::Separate {
        target: front.target,
        patches,
        base: Nets::of(base),
        rest: Rows::of(rests),
    }
}

/// The answer to the question, where it is posed plainly.
fn found_by_pose(
    rt: &impl Abort,
    alloc: Global,
    problem: &Problem,
    front: &Front,
    base: &[NetId],
    numbers: &[u64],
) -> Option<Found>
    requires front { IsFrontOf problem.now front.now.target front.now.patch }
    requires base { IsBaseOf problem.now front.now.target base.now }
{
    let rests = rests_of(rt, alloc, problem, front.target, numbers);
    let question = question(rt, alloc, front, base, rests);
    found_plainly(rt, alloc, problem, question)
}

/// Whether the question of this seed has an answer where it is posed plainly.
fn is_found_plainly(
    rt: &impl Abort,
    alloc: Global,
    problem: &Problem,
    table: &Table,
    front: &Front,
    seed: u64,
) -> bool
    requires { IsFrontOf problem.now front.now.target front.now.patch }
{
    let base = drawn_base(rt, alloc, problem, front.target, seed);
    let numbers = drawn_rests(rt, alloc, seed, table, front.target);
    let answer = found_by_pose(
        rt,
        alloc,
        problem,
        front,
        base.as_slice(),
        numbers.as_slice(),
    );
    let view = View::new(rt, alloc, problem, front, base.as_slice(), numbers);
    expect_separated(rt, table, &view, answer);
    answer.is_some()
}

/// The answer where the engine is asked, which is turned to the front.
fn found_by_engine<R: Refuter>(
    rt: &impl Abort,
    engine: &mut Engine<'_, R>,
    front: &Front,
    base: &[NetId],
    rests: &[Bits],
) -> Option<Found>
    requires front { IsKeptFront engine.old.problem front.now.target front.now.patch }
    requires turned { engine.old.turned ≡ Some (record { number = front.now.target; patches = front.now.patch }) }
    requires base { IsBaseOf engine.old.problem front.now.target base.now }
    requires rests { AreRests engine.old.problem front.now.target rests.now }
    requires distinct { AreDistinct rests.now }
    ensures { engine.new ≡ engine.old }
{
    let arena = Bump::new(engine.allocator());
    let asked = engine.ask_separate(front.target, &front.patch, base, rests, &arena);
    reading(rt, asked)
}

/// Whether the question of this seed has an answer where the engine is asked, which is turned to the front.
pub fn is_found_by_engine<R: Refuter>(
    rt: &impl Abort,
    engine: &mut Engine<'_, R>,
    table: &Table,
    front: &Front,
    seed: u64,
) -> bool
    requires front { IsKeptFront engine.old.problem front.now.target front.now.patch }
    requires turned { engine.old.turned ≡ Some (record { number = front.now.target; patches = front.now.patch }) }
    ensures { engine.new ≡ engine.old }
{
    let alloc = engine.allocator();
    let problem = engine.problem();
    let base = drawn_base(rt, alloc, problem, front.target, seed);
    let numbers = drawn_rests(rt, alloc, seed, table, front.target);
    let rests = rests_once(rt, alloc, problem, front.target, numbers.as_slice());
    let answer = found_by_engine(rt, engine, front, base.as_slice(), rests.as_slice());
    let view = View::new(rt, alloc, problem, front, base.as_slice(), numbers);
    expect_separated(rt, table, &view, answer);
    answer.is_some()
}

/// Whether the question of this seed has an answer where an engine of its own with this search is asked.
fn is_found_by_new_engine<R: Refuter>(
    rt: &impl Abort,
    alloc: Global,
    problem: &Problem,
    table: &Table,
    front: &Front,
    search: &mut R,
    seed: u64,
) -> bool
    requires { IsKeptFront problem.now front.now.target front.now.patch }
{
    let mut engine = Engine::new(alloc, problem, search, LIMIT).expect(rt, "memory");
    engine.turn(front.target, &front.patch).expect(rt, "memory");
    let is_found = is_found_by_engine(rt, &mut engine, table, front, seed);
    drop(engine);
    is_found
}

/// Whether a question of the front has an answer; both ways of asking find it, by either search, where the front can be asked of.
fn has_answer(
    rt: &impl Abort,
    alloc: Global,
    problem: &Problem,
    table: &Table,
    front: &Front,
    kept: &mut Tally,
    seed: u64,
) -> bool
    requires { IsFrontOf problem.now front.now.target front.now.patch }
{
    let is_found = is_found_plainly(rt, alloc, problem, table, front, seed);
    if is_kept(rt, alloc, problem, table, front) {
        let mut watched = Watched::new();
        let mut scan = Scan::new();
        let by_watched = is_found_by_new_engine(
            rt,
            alloc,
            problem,
            table,
            front,
            &mut watched,
            seed,
        );
        let by_scan = is_found_by_new_engine(rt, alloc, problem, table, front, &mut scan, seed);
        assert_eq!(rt; by_watched, is_found);
        assert_eq!(rt; by_scan, is_found);
        kept.note(is_found);
    }
    is_found
}

/// Whether a question of the problem has an answer.
fn is_found_of(
    rt: &impl Abort,
    alloc: Global,
    problem: &Problem,
    kept: &mut Tally,
    seed: u64,
) -> bool {
    let table = Table::new(rt, alloc, problem);
    let target = below(&mut seeded(seed), table.targets());
    let front = drawn_front(rt, alloc, problem, target, seed);
    let is_found = has_answer(rt, alloc, problem, &table, &front, kept, seed);
    drop(front);
    is_found
}

/// Whether the question of this seed has an answer.
fn is_found(rt: &impl Abort, alloc: Global, kept: &mut Tally, seed: u64) -> bool {
    let problem = problem(rt, alloc, seed);
    let is_found = is_found_of(rt, alloc, &problem, kept, seed);
    drop(problem);
    is_found
}

#[test]
fn a_base_leaves_two_inputs_alike_where_a_loop_finds_them(rt: HostRuntime) {
    let mut tally = Tally::new();
    let mut kept = Tally::new();
    for seed in 0..100 {
        tally.note(is_found(&rt, rt.alloc(), &mut kept, seed));
    }
    tally.expect_both(&rt, 20);
    kept.expect_both(&rt, 20);
}
