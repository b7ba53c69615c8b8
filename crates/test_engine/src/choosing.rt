//! How many questions the choice of a base asks.

use crate::asking::LIMIT;
use crate::counted::Counted;
use crate::counting::{add_buffer, rectify_questions, source};
use crate::netlists::{add_input, name, numbered};
use crate::problems::{closed, paired};
use eco_meaning::Name;
use eco_netlist::{Draft, Netlist, TargetRule};
use eco_query::Problem;
use eco_report::{BaseSignal, Report};
use eco_targets::synthesise;
use eco_weight::Weights;
use std::alloc::Global;
use std::process::Abort;

/// Declares the input a, and a hundred others.
fn add_inputs(rt: &impl Abort, draft: &mut Draft, alloc: Global) {
    add_input(rt, draft, name(rt, alloc, b"a"));
    for number in 0..100 {
        add_input(rt, draft, numbered(rt, alloc, b"x", number));
    }
}

/// The netlist of these inputs, and of an output which has the value of the target, or of a.
fn buffer(rt: &impl Abort, alloc: Global, is_closed: bool) -> Netlist {
    let mut draft = Draft::new(alloc, name(rt, alloc, b"buffer"));
    add_inputs(rt, &mut draft, alloc);
    let source = source(rt, alloc, is_closed, 0);
    add_buffer(rt, &mut draft, alloc, name(rt, alloc, b"y"), source);
    draft.finish(TargetRule::Allowed).expect(rt, "a netlist")
}

/// One target, which is to be the input a.
fn one_target(rt: &impl Abort, alloc: Global) -> Problem {
    let implementation = buffer(rt, alloc, false);
    let specification = closed(rt, buffer(rt, alloc, true));
    let weights = Weights::none(alloc);
    paired(rt, implementation, specification, None, weights)
}

/// Whether the base is just the signal of this name.
fn is_alone(base: &[BaseSignal], name: &Name) -> bool {
    match base {
        [only] => only.signal == *name,
        _ => false,
    }
}

/// Whether the report is of one target, whose base is just the signal of this name.
fn is_told_alone(report: &Report, name: &Name) -> bool {
    match report.groups.as_slice() {
        [group] => is_alone(group.base.as_slice(), name),
        _ => false,
    }
}

/// Whether the problem is patched by this search, and the patch reads just the signal of this name.
fn is_patched(alloc: Global, problem: &Problem, search: &mut Counted, name: &Name) -> bool {
    match synthesise(alloc, problem, search, LIMIT) {
        Ok(made) => {
            let is_told = is_told_alone(&made.report, name);
            drop(made);
            is_told
        }
        Err(stop) => {
            drop(stop);
            false
        }
    }
}

/// How many questions it takes to patch the problem; none where the patch doesn't read just the signal of this name.
fn patch_questions(alloc: Global, problem: &Problem, name: &Name) -> Option<u64> {
    let mut search = Counted::new();
    if is_patched(alloc, problem, &mut search, name) {
        Some(search.count())
    } else {
        None
    }
}

/// How many questions the choice of the base takes, which is to be just the input a; none where it is another one.
fn choice_questions(rt: &impl Abort, alloc: Global, problem: &Problem) -> Option<u64> {
    let a = name(rt, alloc, b"a");
    let before = rectify_questions(rt, alloc, problem);
    match (before, patch_questions(alloc, problem, &a)) {
        (Some(before), Some(all)) => Some(all.saturating_sub(before)),
        _ => None,
    }
}

/// Twelve are allowed.
#[test]
fn one_of_a_hundred_inputs_takes_seven_questions(rt: HostRuntime) {
    let problem = one_target(&rt, rt.alloc());
    let questions = choice_questions(&rt, rt.alloc(), &problem);
    drop(problem);
    assert_eq!(rt; questions, Some(7));
}
