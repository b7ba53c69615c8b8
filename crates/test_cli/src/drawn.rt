//! Drawn problems: each is patched, and an audit of what was written and printed finds nothing.

ghost use Rattle.eco_gen.specs.Instance.{CanDraw};

use crate::cases::{self, Ended, SYNTH, care_words, ended_over};
use eco_gen::{InstanceFiles, instance};
use eco_outside::{MemStore, Store};
use std::process::Abort;
use std::test::Fail;

/// A problem: its seed, how many gates and how many targets it has, and whether some inputs alone are cared.
#[derive(Clone, Copy)]
struct Drawn {
    seed: u64,
    size: u64,
    targets: u64,
    is_cared: bool,
}

/// How many problems are drawn.
const PROBLEMS: u64 = 16;

/// The words that audit the files of `SYNTH` and `r.txt`.
const AUDIT: [&str; 14] = [
    "eco", "audit", "--impl", "f.v", "--spec", "g.v", "--weight", "w.txt", "--patch", "p.v",
    "--out", "o.v", "--report", "r.txt",
];

/// A netlist that cares for the inputs at which one of the first three is 1.
const CARE: &str =
    "module c (x0, x1, x2, x3, x4, x5, x6, x7, x8, x9, x10, x11, x12, x13, x14, x15, c);
input x0, x1, x2, x3, x4, x5, x6, x7, x8, x9, x10, x11, x12, x13, x14, x15;
output c; or (c, x0, x1, x2); endmodule";

/// The problem of a number: one to four targets, every second one with cared inputs.
fn numbered(number: u64) -> Drawn {
    Drawn {
        seed: number,
        size: 8 + number % 32,
        targets: 1 + number % 4,
        is_cared: number % 8 >= 4,
    }
}

fn expect_drawable(rt: &impl Abort, size: u64, targets: u64)
    ensures { CanDraw size targets }
{
    assert!(rt; 1 <= targets && targets <= 8);
    assert!(rt; targets <= size && size <= 100_000);
}

fn files_of(rt: &(impl Abort + AllocGlobal), case: Drawn) -> Result<InstanceFiles, Fail> {
    expect_drawable(rt, case.size, case.targets);
    Ok(instance(rt.alloc(), case.seed, case.size, case.targets)?)
}

/// A store with the problem's files.
fn store_of(rt: &(impl Abort + AllocGlobal), case: Drawn) -> Result<MemStore, Fail> {
    let drawn = files_of(rt, case)?;
    let files = [
        ("f.v", drawn.implementation.as_slice()),
        ("g.v", drawn.specification.as_slice()),
        ("w.txt", drawn.weights.as_slice()),
        ("c.v", CARE.as_bytes()),
    ];
    let store = cases::store_of(rt, &files, None);
    drop(drawn);
    store
}

/// What a run prints, which has to end with status 0.
fn printed(
    rt: &(impl Abort + AllocGlobal),
    words: &[&str],
    store: &mut MemStore,
    case: Drawn,
) -> Result<Vec<u8>, Fail> {
    let Ended {
        status,
        printed,
        ..
    } = ended_over(rt.alloc(), words, care_words(case.is_cared), store)?;
    assert_eq!(rt; status, 0, "seed {}", case.seed);
    Ok(printed)
}

/// Over a store with the problem's files.
fn try_sound(
    rt: &(impl Abort + AllocGlobal),
    command: &[&str],
    store: &mut MemStore,
    case: Drawn,
) -> Result<(), Fail> {
    let report = printed(rt, command, store, case)?;
    assert!(rt; store.write("r.txt", report.as_slice()).is_ok());
    drop(report);
    let verdict = printed(rt, &AUDIT, store, case)?;
    assert_eq!(rt;
        verdict.as_slice(),
        b"sound\n".as_slice(),
        "seed {}",
        case.seed
    );
    Ok(())
}

/// Patches the problem with the words of the command, and audits what was written and printed.
fn try_drawn(rt: &(impl Abort + AllocGlobal), command: &[&str], case: Drawn) -> Result<(), Fail> {
    let mut store = store_of(rt, case)?;
    let held = try_sound(rt, command, &mut store, case);
    drop(store);
    held
}

#[test]
fn drawn_problems_are_patched_and_sound(rt: HostRuntime) -> Result<(), Fail> {
    for number in 0..PROBLEMS {
        try_drawn(&rt, &SYNTH, numbered(number))?;
    }
    Ok(())
}

/// The words of the command with an effort for bases of least cost.
const LEAST: [&str; 14] = [
    "eco", "synth", "--impl", "f.v", "--spec", "g.v", "--weight", "w.txt", "--patch", "p.v",
    "--out", "o.v", "--least", "4",
];

#[test]
fn bases_of_least_cost_are_sound(rt: HostRuntime) -> Result<(), Fail> {
    for number in 0..PROBLEMS {
        try_drawn(&rt, &LEAST, numbered(number))?;
    }
    Ok(())
}

/// The cost that the report of a patch tells.
fn told_cost(report: &[u8]) -> u64 {
    let digits = report
        .iter()
        .skip(b"patched\ncost ".len())
        .take_while(|byte| byte.is_ascii_digit());
    let mut cost: u64 = 0;
    for digit in digits {
        cost = cost
            .wrapping_mul(10)
            .wrapping_add(u64::from(digit.wrapping_sub(b'0')));
    }
    cost
}

/// With an effort the patch costs no more than the greedy one.
fn try_no_dearer(
    rt: &(impl Abort + AllocGlobal),
    store: &mut MemStore,
    case: Drawn,
) -> Result<(), Fail> {
    let greedy = printed(rt, &SYNTH, store, case)?;
    let most = told_cost(greedy.as_slice());
    drop(greedy);
    let least = printed(rt, &LEAST, store, case)?;
    assert!(rt; told_cost(least.as_slice()) <= most, "seed {}", case.seed);
    Ok(())
}

/// Patches the problem greedily, and with an effort.
fn try_costs(rt: &(impl Abort + AllocGlobal), case: Drawn) -> Result<(), Fail> {
    let mut store = store_of(rt, case)?;
    let held = try_no_dearer(rt, &mut store, case);
    drop(store);
    held
}

#[test]
fn an_effort_costs_no_more(rt: HostRuntime) -> Result<(), Fail> {
    for number in 0..PROBLEMS {
        try_costs(&rt, numbered(number))?;
    }
    Ok(())
}

/// A problem that is patched at a budget at which the question for its bound is given up.
const TIGHT: Drawn = Drawn {
    seed: 31,
    size: 150,
    targets: 1,
    is_cared: false,
};

/// Runs the words, and compares the exit status and how what is printed begins.
fn try_words(
    rt: &(impl Abort + AllocGlobal),
    words: &[&str],
    store: &mut MemStore,
    status: u8,
    start: &str,
) -> Result<(), Fail> {
    let ended = ended_over(rt.alloc(), words, &[], store)?;
    assert_eq!(rt; ended.status, status, "{start}");
    assert!(rt; ended.printed.starts_with(start.as_bytes()), "{start}");
    Ok(())
}

/// The words of `synth` at a budget at which its bound is given up, and the same without the bound.
const BOUNDED: [&str; 15] = [
    "eco", "synth", "--impl", "f.v", "--spec", "g.v", "--weight", "w.txt", "--patch", "p.v",
    "--out", "o.v", "--budget", "40", "--bound",
];

fn try_tight(rt: &(impl Abort + AllocGlobal), store: &mut MemStore) -> Result<(), Fail> {
    try_words(rt, &BOUNDED, store, 4, "budget sep 40\n")?;
    try_words(rt, &BOUNDED[..14], store, 0, "patched\n")
}

#[test]
fn a_bound_may_spend_the_budget(rt: HostRuntime) -> Result<(), Fail> {
    let mut store = store_of(&rt, TIGHT)?;
    let held = try_tight(&rt, &mut store);
    drop(store);
    held
}

/// The words of the command with a budget of one learnt clause, and then with an effort for bases of least cost too.
const ONE_CLAUSE: [&str; 16] = [
    "eco", "synth", "--impl", "f.v", "--spec", "g.v", "--weight", "w.txt", "--patch", "p.v",
    "--out", "o.v", "--budget", "1", "--least", "8",
];

/// With the effort there is a patch, or the same comes as without it.
fn try_effort(
    rt: &(impl Abort + AllocGlobal),
    store: &mut MemStore,
    case: Drawn,
) -> Result<(), Fail> {
    let care = care_words(case.is_cared);
    let plain = ended_over(rt.alloc(), &ONE_CLAUSE[..14], care, store)?;
    let least = ended_over(rt.alloc(), &ONE_CLAUSE, care, store)?;
    let is_alike = plain.status == least.status
        && plain.printed.as_slice() == least.printed.as_slice();
    assert!(rt; least.status == 0 || is_alike, "seed {}", case.seed);
    Ok(())
}

/// Runs the problem with and without the effort.
fn try_one_clause(rt: &(impl Abort + AllocGlobal), case: Drawn) -> Result<(), Fail> {
    let mut store = store_of(rt, case)?;
    let held = try_effort(rt, &mut store, case);
    drop(store);
    held
}

#[test]
fn an_effort_costs_no_answer(rt: HostRuntime) -> Result<(), Fail> {
    for number in 0..PROBLEMS {
        try_one_clause(&rt, numbered(number))?;
    }
    Ok(())
}
