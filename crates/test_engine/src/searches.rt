//! The engine over either search: both come to the same answers.

ghost use Rattle.std.specs.Prelude.{IfSome};
ghost use Rattle.eco_targets.specs.Made.{IsMade};

use crate::asking::LIMIT;
use crate::problems::problem;
use crate::tally::Tally;
use eco_audit::{Ruling, audit};
use eco_cdcl::Watched;
use eco_query::Problem;
use eco_report::{Report, ReportFile};
use eco_scan::Scan;
use eco_targets::{Made, Stop, synthesise};
use eco_trace::Refuter;
use std::alloc::Global;
use std::process::Abort;

/// What this search makes of the problem; none where an input is wrong. Stops the test where it gives up.
fn made_by<R: Refuter>(
    rt: &impl Abort,
    alloc: Global,
    problem: &Problem,
    search: &mut R,
) -> Option<Made>
    ensures { IfSome result (λ made. IsMade problem.now made.patch made.out made.report) }
{
    match synthesise(alloc, problem, search, LIMIT) {
        Ok(made) => Some(made),
        Err(Stop::Wrong(input)) => {
            drop(input);
            None
        }
        Err(Stop::Unfinished(_)) => panic!(rt; "given up"),
    }
}

/// Whether an audit by this search finds nothing wrong with what was made.
fn is_sound<R: Refuter>(alloc: Global, problem: &Problem, made: Made, search: &mut R) -> bool
    requires { IsMade problem.now made.patch made.out made.report }
{
    let Made { patch, out, report } = made;
    let file = ReportFile::Patched(report);
    let ruling = audit(alloc, problem, &patch, &out, &file, search, LIMIT);
    drop(patch);
    drop(out);
    drop(file);
    match ruling {
        Ok(Ruling::Sound) => true,
        Ok(Ruling::Fails(finding)) => {
            drop(finding);
            false
        }
        Err(unfinished) => {
            drop(unfinished);
            false
        }
    }
}

/// Whether the first target reads the same signals in both: its base is the greedy choice, and there is one.
fn has_same_first_base(one: &Report, other: &Report) -> bool {
    match (one.groups.first(), other.groups.first()) {
        (Some(one), Some(other)) => {
            let names = one.base.iter().map(|signal| signal.signal.bytes());
            names.eq(other.base.iter().map(|signal| signal.signal.bytes()))
        }
        _ => false,
    }
}

/// Whether a patch can be made of the problem; both searches come to the same.
fn is_made(rt: &impl Abort, alloc: Global, problem: &Problem) -> bool {
    let watched = made_by(rt, alloc, problem, &mut Watched::new());
    let scanned = made_by(rt, alloc, problem, &mut Scan::new());
    match (watched, scanned) {
        (Some(watched), Some(scanned)) => {
            let is_same = has_same_first_base(&watched.report, &scanned.report);
            drop(watched);
            assert!(rt; is_sound(alloc, problem, scanned, &mut Scan::new()));
            assert!(rt; is_same);
            true
        }
        (None, None) => false,
        _ => panic!(rt; "one search makes a patch, the other none"),
    }
}

/// Whether a patch can be made of the problem of this seed.
fn is_made_of(rt: &impl Abort, alloc: Global, seed: u64) -> bool {
    let problem = problem(rt, alloc, seed);
    let is_made = is_made(rt, alloc, &problem);
    drop(problem);
    is_made
}

#[test]
fn both_searches_make_patches_of_the_same_problems(rt: HostRuntime) {
    let mut tally = Tally::new();
    for seed in 0..12 {
        tally.note(is_made_of(&rt, rt.alloc(), seed));
    }
    tally.expect_both(&rt, 2);
}
