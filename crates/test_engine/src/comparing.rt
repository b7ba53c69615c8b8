//! Questions for a cared input on which two netlists differ.

ghost use Rattle.std.specs.Prelude.{◌≡◌};
ghost use Rattle.eco_equality.specs.Equality.{HaveSamePorts};
ghost use Rattle.eco_query.specs.Problem.{IsClosed};

use crate::askable::expect_same_ports;
use crate::asking::{Found, LIMIT, found_plainly, reading};
use crate::bits::one_at;
use crate::draws::{below, seeded};
use crate::kept::care;
use crate::problems::{closed_netlist, drawn_shape, problem};
use crate::tally::Tally;
use crate::values::{are_alike, is_cared};
use bumpalo::Bump;
use eco_cdcl::Watched;
use eco_netlist::Netlist;
use eco_pose::{Question, ask_equal};
use eco_query::Problem;
use eco_scan::Scan;
use eco_trace::Refuter;
use std::alloc::Global;
use std::process::Abort;

/// A netlist beside the specification of the problem of this seed: in three of four it has the implementation's gates, one of
/// which may be changed.
fn drawn_right(rt: &impl Abort, alloc: Global, seed: u64, draw: u64) -> Netlist
    ensures { IsClosed result }
{
    let shape = drawn_shape(seed);
    let other = if draw % 4 == 3 {
        draw.wrapping_add(5000)
    } else {
        seed
    };
    let changed = below(
        &mut seeded(draw.wrapping_add(6000)),
        shape.gates.wrapping_mul(3),
    );
    closed_netlist(rt, alloc, other, shape, changed)
}

/// Whether the input is cared, and the netlist differs there in an output from the specification.
fn differs_at(
    rt: &impl Abort,
    alloc: Global,
    problem: &Problem,
    right: &Netlist,
    input: u64,
) -> bool {
    !are_alike(rt, alloc, problem.specification(), right, input, 0)
        && is_cared(rt, alloc, problem, input)
}

/// Whether the netlist differs from the specification at some cared input.
fn differs(rt: &impl Abort, alloc: Global, problem: &Problem, right: &Netlist) -> bool {
    for input in 0..one_at(right.inputs().len() as u64) {
        if differs_at(rt, alloc, problem, right, input) {
            return true;
        }
    }
    false
}

/// Stops the test where the answer isn't one, or there is one all the same.
fn expect_different(
    rt: &impl Abort,
    alloc: Global,
    problem: &Problem,
    right: &Netlist,
    answer: Option<Found>,
) {
    match answer {
        None => assert!(rt; !differs(rt, alloc, problem, right)),
        Some(found) => assert!(rt; differs_at(rt, alloc, problem, right, found.first)),
    }
}

/// The answer to the question whether the specification and the other netlist differ, where it is posed plainly.
fn found_by_pose(
    rt: &impl Abort,
    alloc: Global,
    problem: &Problem,
    right: &Netlist,
) -> Option<Found>
    requires closed { IsClosed right.now }
    requires ports { HaveSamePorts problem.now.goal.spec right.now }
{
    let left = problem.specification().copy().expect(rt, "memory");
    let right = right.copy().expect(rt, "memory");
    // it is checked
    let _ = right.nets();
    let care = care(rt, problem);
    found_plainly(rt, alloc, problem, Question::Equal { left, right, care })
}

/// The answer where this search is asked.
fn found_by_search<R: Refuter>(
    rt: &impl Abort,
    alloc: Global,
    problem: &Problem,
    search: &mut R,
    right: &Netlist,
) -> Option<Found>
    requires closed { IsClosed right.now }
    requires ports { HaveSamePorts problem.now.goal.spec right.now }
{
    // it is checked
    let _ = right.nets();
    let left = problem.specification();
    let arena = Bump::new(alloc);
    reading(
        rt,
        ask_equal(alloc, left, right, problem.care(), search, LIMIT, &arena),
    )
}

/// Whether the question of this draw has an answer where this search is asked.
pub fn is_found_by_search<R: Refuter>(
    rt: &impl Abort,
    alloc: Global,
    problem: &Problem,
    search: &mut R,
    seed: u64,
    draw: u64,
) -> bool {
    let right = drawn_right(rt, alloc, seed, draw);
    expect_same_ports(rt, problem.specification(), &right);
    let answer = found_by_search(rt, alloc, problem, search, &right);
    expect_different(rt, alloc, problem, &right, answer);
    drop(right);
    answer.is_some()
}

/// Whether the question of this draw has an answer where it is posed plainly.
fn is_found_plainly(
    rt: &impl Abort,
    alloc: Global,
    problem: &Problem,
    seed: u64,
    draw: u64,
) -> bool {
    let right = drawn_right(rt, alloc, seed, draw);
    expect_same_ports(rt, problem.specification(), &right);
    let answer = found_by_pose(rt, alloc, problem, &right);
    expect_different(rt, alloc, problem, &right, answer);
    drop(right);
    answer.is_some()
}

/// Whether the question of this seed has an answer; both ways of asking find it, by either search.
fn has_answer(rt: &impl Abort, alloc: Global, problem: &Problem, seed: u64) -> bool {
    let is_found = is_found_plainly(rt, alloc, problem, seed, seed);
    let by_watched = is_found_by_search(rt, alloc, problem, &mut Watched::new(), seed, seed);
    let by_scan = is_found_by_search(rt, alloc, problem, &mut Scan::new(), seed, seed);
    assert_eq!(rt; by_watched, is_found);
    assert_eq!(rt; by_scan, is_found);
    is_found
}

/// Whether the question of this seed has an answer.
fn is_found(rt: &impl Abort, alloc: Global, seed: u64) -> bool {
    let problem = problem(rt, alloc, seed);
    let is_found = has_answer(rt, alloc, &problem, seed);
    drop(problem);
    is_found
}

#[test]
fn netlists_differ_where_a_loop_finds_a_cared_input(rt: HostRuntime) {
    let mut tally = Tally::new();
    for seed in 0..100 {
        tally.note(is_found(&rt, rt.alloc(), seed));
    }
    tally.expect_both(&rt, 20);
}
