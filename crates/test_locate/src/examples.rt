//! Small netlists whose nets were judged by hand and by trying all inputs and values.

use crate::judging::{Case, answer, answer_within, change, expect_given_up, expect_located};
use eco_locate::Answer;
use std::process::Abort;

/// What is found is what was found by hand.
fn try_case(rt: &(impl Abort + AllocGlobal), case: Case<'_>) {
    let change = change(rt, rt.alloc(), case);
    let found = answer(rt.alloc(), &change);
    match &found {
        Some(Answer::Equal) => assert!(rt; case.listed.is_empty() && case.excluded.is_empty()),
        Some(Answer::Located(located)) => expect_located(rt, change.old(), located, case),
        None => panic!(rt; "no answer"),
    }
    drop(found);
    drop(change);
}

/// An exclusive or that is to be a vote.
fn vote() -> Case<'static> {
    Case {
        old: "module m (a, b, c, vote, agree); input a, b, c; output vote, agree; wire ab, bc, x;
and (ab, a, b), (bc, b, c), (agree, ab, bc); xor (x, a, b), (vote, x, c); endmodule",
        new: "module m (a, b, c, vote, agree); input a, b, c; output vote, agree; wire ab, bc, ac;
and (ab, a, b), (bc, b, c), (ac, a, c), (agree, ab, bc); or (vote, ab, bc, ac); endmodule",
        care: None,
        listed: &["x", "vote"],
        excluded: &["ab", "bc", "agree"],
    }
}

/// The exclusive or of a and b can be cut to make a vote, or the vote itself; the gates that don't reach it can't help.
#[test]
fn a_vote_needs_the_exclusive_or(rt: HostRuntime) {
    try_case(&rt, vote());
}

/// One learnt clause isn't enough for the questions about both choices: one that is given up is kept with its net.
#[test]
fn questions_that_are_given_up_are_kept(rt: HostRuntime) {
    let change = change(&rt, rt.alloc(), vote());
    let found = answer_within(rt.alloc(), &change, 1);
    match &found {
        Some(Answer::Located(located)) => expect_given_up(&rt, change.old(), located, vote(), 1),
        _ => panic!(rt; "no nets"),
    }
    drop(found);
    drop(change);
}

/// A net that two outputs read can be cut; neither output alone can.
#[test]
fn what_two_outputs_read_is_cut(rt: HostRuntime) {
    let case = Case {
        old: "module m (a, b, c, d, y, z); input a, b, c, d; output y, z; wire m;
or (m, a, b); xor (y, m, c); and (z, m, d); endmodule",
        new: "module m (a, b, c, d, y, z); input a, b, c, d; output y, z; wire m;
and (m, a, b); xor (y, m, c); and (z, m, d); endmodule",
        care: None,
        listed: &["m"],
        excluded: &["y", "z"],
    };
    try_case(&rt, case);
}

/// Two changed outputs without a common net: no single net helps.
#[test]
fn two_outputs_need_two_nets(rt: HostRuntime) {
    let case = Case {
        old: "module m (a, b, c, d, y, z); input a, b, c, d; output y, z;
and (y, a, b), (z, c, d); endmodule",
        new: "module m (a, b, c, d, y, z); input a, b, c, d; output y, z;
or (y, a, b), (z, c, d); endmodule",
        care: None,
        listed: &[],
        excluded: &["y", "z"],
    };
    try_case(&rt, case);
}

/// Where the net behind an output also reaches one that is right, only the output itself can be cut.
#[test]
fn what_is_right_stays_right(rt: HostRuntime) {
    let case = Case {
        old: "module m (a, b, c, y, z); input a, b, c; output y, z; wire n;
buf (n, a); and (y, n, b); or (z, n, c); endmodule",
        new: "module m (a, b, c, y, z); input a, b, c; output y, z; wire n;
not (n, a); and (y, n, b); or (z, a, c); endmodule",
        care: None,
        listed: &["y"],
        excluded: &["n", "z"],
    };
    try_case(&rt, case);
}

/// An output that another one reads can't be cut alone: what reads it moves with it.
#[test]
fn an_output_takes_its_readers_along(rt: HostRuntime) {
    let case = Case {
        old: "module m (a, b, c, p, q); input a, b, c; output p, q;
and (p, a, b); xor (q, p, c); endmodule",
        new: "module m (a, b, c, p, q); input a, b, c; output p, q; wire n;
or (p, a, b); and (n, a, b); xor (q, n, c); endmodule",
        care: None,
        listed: &[],
        excluded: &["p", "q"],
    };
    try_case(&rt, case);
}

/// An inverted input would be enough, but inputs aren't cut.
#[test]
fn inputs_are_not_cut(rt: HostRuntime) {
    let case = Case {
        old: "module m (a, b, c, y, z); input a, b, c; output y, z;
and (y, a, b); or (z, a, c); endmodule",
        new: "module m (a, b, c, y, z); input a, b, c; output y, z; wire n;
not (n, a); and (y, n, b); or (z, n, c); endmodule",
        care: None,
        listed: &[],
        excluded: &["y", "z"],
    };
    try_case(&rt, case);
}

/// The netlists differ where a and b are 1 alone, which isn't cared: nothing has to be cut.
#[test]
fn inputs_that_are_not_cared_change_nothing(rt: HostRuntime) {
    let case = Case {
        old: "module m (a, b, y); input a, b; output y; xor (y, a, b); endmodule",
        new: "module m (a, b, y); input a, b; output y; or (y, a, b); endmodule",
        care: Some("module c (a, b, c); input a, b; output c; nand (c, a, b); endmodule"),
        listed: &[],
        excluded: &[],
    };
    try_case(&rt, case);
}
