//! How many questions `rectify` asks.

ghost use Rattle.eco_query.specs.Problem.{IsClosed};

use crate::counted::Counted;
use crate::kept::can_rectify;
use crate::netlists::{add_gate, add_input, add_output, name, numbered};
use crate::problems::{closed, paired};
use eco_meaning::{Kind, Name, Operand};
use eco_netlist::{Draft, Netlist, TargetRule};
use eco_query::Problem;
use eco_weight::Weights;
use std::alloc::Global;
use std::process::Abort;

/// The name of the net that the output of this number has the value of: a target, or the input.
pub fn source(rt: &impl Abort, alloc: Global, is_closed: bool, number: u64) -> Name {
    if is_closed {
        name(rt, alloc, b"a")
    } else {
        numbered(rt, alloc, b"t_", number)
    }
}

/// Declares an output that has the value of the net.
pub fn add_buffer(rt: &impl Abort, draft: &mut Draft, alloc: Global, output: Name, source: Name) {
    let terms = vec![in alloc; Operand::Named(source)].expect(rt, "memory");
    add_output(rt, draft, output.copy().expect(rt, "memory"));
    add_gate(rt, draft, Kind::Buf, output, terms);
}

/// Declares eight outputs which have the values of targets, or of the input.
fn add_buffers(rt: &impl Abort, draft: &mut Draft, alloc: Global, is_closed: bool) {
    for number in 0..8 {
        let source = source(rt, alloc, is_closed, number);
        let output = numbered(rt, alloc, b"y", number);
        add_buffer(rt, draft, alloc, output, source);
    }
}

/// The netlist of the input a, and of eight outputs which have the values of targets, or of the input.
fn buffers(rt: &impl Abort, alloc: Global, is_closed: bool) -> Netlist {
    let mut draft = Draft::new(alloc, name(rt, alloc, b"buffers"));
    add_input(rt, &mut draft, name(rt, alloc, b"a"));
    add_buffers(rt, &mut draft, alloc, is_closed);
    draft.finish(TargetRule::Allowed).expect(rt, "a netlist")
}

/// Eight targets, each the value of one output, which is to be the input.
fn eight_targets(rt: &impl Abort, alloc: Global) -> Problem {
    let implementation = buffers(rt, alloc, false);
    let specification = closed(rt, buffers(rt, alloc, true));
    let weights = Weights::none(alloc);
    paired(rt, implementation, specification, None, weights)
}

/// How many questions it takes to decide that the problem can be rectified; none where it can't be.
pub fn rectify_questions(rt: &impl Abort, alloc: Global, problem: &Problem) -> Option<u64> {
    let mut search = Counted::new();
    if can_rectify(rt, alloc, problem, &mut search) {
        Some(search.count())
    } else {
        None
    }
}

#[test]
fn eight_targets_take_five_questions(rt: HostRuntime) {
    let problem = eight_targets(&rt, rt.alloc());
    let questions = rectify_questions(&rt, rt.alloc(), &problem);
    drop(problem);
    assert_eq!(rt; questions, Some(5));
}
