//! What a small budget of learnt clauses leaves open, and what needs a search over many inputs.

use crate::cases::{Ended, Left, SYNTH, Spent, Trial, ended_on, try_trial};
use std::process::Abort;
use std::test::Fail;

/// Two outputs of one target that are to be the carry of the sum of two numbers of eight bits, each in another mapping: only a
/// proof that the mappings are equal shows that this can be done.
const BOTH: &str =
    "module f (x0, x1, x2, x3, x4, x5, x6, x7, x8, x9, x10, x11, x12, x13, x14, x15, y, z); input x0, x1, x2, x3, x4, x5, x6, x7, x8, x9, x10, x11, x12, x13, x14, x15; output y, z; buf (y, t_0); buf (z, t_0); endmodule";

const CARRIES: &str =
    "module g (x0, x1, x2, x3, x4, x5, x6, x7, x8, x9, x10, x11, x12, x13, x14, x15, y, z); input x0, x1, x2, x3, x4, x5, x6, x7, x8, x9, x10, x11, x12, x13, x14, x15; output y, z; and (c1, x0, x8); and (d1, x0, x8); and (p1, x1, x9); xor (q1, x1, x9); and (r1, q1, c1); or (c2, p1, r1); and (s1, x1, x9); and (u1, x1, d1); and (v1, x9, d1); or (d2, s1, u1, v1); and (p2, x2, x10); xor (q2, x2, x10); and (r2, q2, c2); or (c3, p2, r2); and (s2, x2, x10); and (u2, x2, d2); and (v2, x10, d2); or (d3, s2, u2, v2); and (p3, x3, x11); xor (q3, x3, x11); and (r3, q3, c3); or (c4, p3, r3); and (s3, x3, x11); and (u3, x3, d3); and (v3, x11, d3); or (d4, s3, u3, v3); and (p4, x4, x12); xor (q4, x4, x12); and (r4, q4, c4); or (c5, p4, r4); and (s4, x4, x12); and (u4, x4, d4); and (v4, x12, d4); or (d5, s4, u4, v4); and (p5, x5, x13); xor (q5, x5, x13); and (r5, q5, c5); or (c6, p5, r5); and (s5, x5, x13); and (u5, x5, d5); and (v5, x13, d5); or (d6, s5, u5, v5); and (p6, x6, x14); xor (q6, x6, x14); and (r6, q6, c6); or (c7, p6, r6); and (s6, x6, x14); and (u6, x6, d6); and (v6, x14, d6); or (d7, s6, u6, v6); and (p7, x7, x15); xor (q7, x7, x15); and (r7, q7, c7); or (y, p7, r7); and (s7, x7, x15); and (u7, x7, d7); and (v7, x15, d7); or (z, s7, u7, v7); endmodule";

#[test]
fn a_spent_budget_is_told_and_kept(rt: HostRuntime) -> Result<(), Fail> {
    let files = [
        ("f.v", BOTH.as_bytes()),
        ("g.v", CARRIES.as_bytes()),
        ("w.txt", "".as_bytes()),
    ];
    let run = Trial {
        words: &SYNTH,
        more: &["--budget", "1"],
        put_fails: false,
        status: 4,
        printed: &["budget rect 1\n"],
        files: &[("p.v", Left::Nothing), ("o.v", Left::Nothing)],
        spent: Spent::Rectify(1),
    };
    try_trial(&rt, "a spent budget", &files, None, &run)
}

/// Two outputs of one target that are to be the parity of sixteen inputs, of one gate and of a chain of gates.
const PARITIES: &str =
    "module g (x0, x1, x2, x3, x4, x5, x6, x7, x8, x9, x10, x11, x12, x13, x14, x15, y, z); input x0, x1, x2, x3, x4, x5, x6, x7, x8, x9, x10, x11, x12, x13, x14, x15; output y, z; xor (y, x0, x1, x2, x3, x4, x5, x6, x7, x8, x9, x10, x11, x12, x13, x14, x15); xor (w14, x14, x15); xor (w13, x13, w14); xor (w12, x12, w13); xor (w11, x11, w12); xor (w10, x10, w11); xor (w9, x9, w10); xor (w8, x8, w9); xor (w7, x7, w8); xor (w6, x6, w7); xor (w5, x5, w6); xor (w4, x4, w5); xor (w3, x3, w4); xor (w2, x2, w3); xor (w1, x1, w2); xor (z, x0, w1); endmodule";

#[test]
fn parities_are_merged_within_the_budget(rt: HostRuntime) -> Result<(), Fail> {
    let files = [
        ("f.v", BOTH.as_bytes()),
        ("g.v", PARITIES.as_bytes()),
        ("w.txt", "".as_bytes()),
    ];
    let run = Trial {
        words: &SYNTH,
        more: &["--budget", "1"],
        put_fails: false,
        status: 4,
        printed: &["budget rect 1\n"],
        files: &[("p.v", Left::Nothing), ("o.v", Left::Nothing)],
        spent: Spent::Rectify(1),
    };
    try_trial(&rt, "parities and a spent budget", &files, None, &run)
}

/// Implementations and specifications with one output more than the target's, which each makes in its own way: the parity of sixteen
/// inputs, in a chain and in one gate the other way round, and the carry of two numbers of eight bits, in two mappings. Posed as they
/// stand, the questions take more than a hundred learnt clauses.
const EQUAL: [[&str; 2]; 2] = [
    [
        "module f (x0, x1, x2, x3, x4, x5, x6, x7, x8, x9, x10, x11, x12, x13, x14, x15, y, z); input x0, x1, x2, x3, x4, x5, x6, x7, x8, x9, x10, x11, x12, x13, x14, x15; output y, z; xor (w1, x0, x1); xor (w2, w1, x2); xor (w3, w2, x3); xor (w4, w3, x4); xor (w5, w4, x5); xor (w6, w5, x6); xor (w7, w6, x7); xor (w8, w7, x8); xor (w9, w8, x9); xor (w10, w9, x10); xor (w11, w10, x11); xor (w12, w11, x12); xor (w13, w12, x13); xor (w14, w13, x14); xor (z, w14, x15); buf (y, t_0); endmodule",
        "module g (x0, x1, x2, x3, x4, x5, x6, x7, x8, x9, x10, x11, x12, x13, x14, x15, y, z); input x0, x1, x2, x3, x4, x5, x6, x7, x8, x9, x10, x11, x12, x13, x14, x15; output y, z; xor (z, x15, x14, x13, x12, x11, x10, x9, x8, x7, x6, x5, x4, x3, x2, x1, x0); and (y, x0, x15); endmodule",
    ],
    [
        "module f (x0, x1, x2, x3, x4, x5, x6, x7, x8, x9, x10, x11, x12, x13, x14, x15, y, z); input x0, x1, x2, x3, x4, x5, x6, x7, x8, x9, x10, x11, x12, x13, x14, x15; output y, z; and (c1, x0, x8); and (p1, x1, x9); xor (q1, x1, x9); and (r1, q1, c1); or (c2, p1, r1); and (p2, x2, x10); xor (q2, x2, x10); and (r2, q2, c2); or (c3, p2, r2); and (p3, x3, x11); xor (q3, x3, x11); and (r3, q3, c3); or (c4, p3, r3); and (p4, x4, x12); xor (q4, x4, x12); and (r4, q4, c4); or (c5, p4, r4); and (p5, x5, x13); xor (q5, x5, x13); and (r5, q5, c5); or (c6, p5, r5); and (p6, x6, x14); xor (q6, x6, x14); and (r6, q6, c6); or (c7, p6, r6); and (p7, x7, x15); xor (q7, x7, x15); and (r7, q7, c7); or (z, p7, r7); buf (y, t_0); endmodule",
        "module g (x0, x1, x2, x3, x4, x5, x6, x7, x8, x9, x10, x11, x12, x13, x14, x15, y, z); input x0, x1, x2, x3, x4, x5, x6, x7, x8, x9, x10, x11, x12, x13, x14, x15; output y, z; and (d1, x0, x8); and (s1, x1, x9); and (u1, x1, d1); and (v1, x9, d1); or (d2, s1, u1, v1); and (s2, x2, x10); and (u2, x2, d2); and (v2, x10, d2); or (d3, s2, u2, v2); and (s3, x3, x11); and (u3, x3, d3); and (v3, x11, d3); or (d4, s3, u3, v3); and (s4, x4, x12); and (u4, x4, d4); and (v4, x12, d4); or (d5, s4, u4, v4); and (s5, x5, x13); and (u5, x5, d5); and (v5, x13, d5); or (d6, s5, u5, v5); and (s6, x6, x14); and (u6, x6, d6); and (v6, x14, d6); or (d7, s6, u6, v6); and (s7, x7, x15); and (u7, x7, d7); and (v7, x15, d7); or (z, s7, u7, v7); and (y, x0, x15); endmodule",
    ],
];

#[test]
fn what_is_equal_is_merged_before_a_question(rt: HostRuntime) -> Result<(), Fail> {
    for [implementation, specification] in &EQUAL {
        let files = [
            ("f.v", implementation.as_bytes()),
            ("g.v", specification.as_bytes()),
            ("w.txt", "".as_bytes()),
        ];
        let ended = ended_on(&rt, &files, &SYNTH, &["--budget", "100"])?;
        assert_eq!(rt; ended.status, 0);
        drop(ended);
    }
    Ok(())
}

/// A target that is to be the conjunction of the first and the last of twelve inputs.
const ENDS: [&str; 2] = [
    "module f (x0, x1, x2, x3, x4, x5, x6, x7, x8, x9, x10, x11, y); input x0, x1, x2, x3, x4, x5, x6, x7, x8, x9, x10, x11; output y; buf (y, t_0); endmodule",
    "module g (x0, x1, x2, x3, x4, x5, x6, x7, x8, x9, x10, x11, y); input x0, x1, x2, x3, x4, x5, x6, x7, x8, x9, x10, x11; output y; and (y, x0, x11); endmodule",
];

/// What is printed of its patch, where `?` stands for a digit that is left open: the pair of each signal has the other one at 1.
const ENDS_REPORT: &str =
    "patched\ncost 2\ngates ?\ntarget t_0 2\nbase x11 1\nforce1 1??????????1\nforce0 1??????????0\nbase x0 1\nforce1 1??????????1\nforce0 0??????????1\n";

#[test]
fn many_inputs_are_searched(rt: HostRuntime) -> Result<(), Fail> {
    let files = [
        ("f.v", ENDS[0].as_bytes()),
        ("g.v", ENDS[1].as_bytes()),
        ("w.txt", "".as_bytes()),
    ];
    let ended = ended_on(&rt, &files, &SYNTH, &[])?;
    compare_ends(&rt, &ended);
    Ok(())
}

fn compare_ends(rt: &impl Abort, ended: &Ended) {
    assert_eq!(rt; ended.status, 0);
    assert!(rt; is_fitting(&ended.printed, ENDS_REPORT.as_bytes()));
}

/// Whether the bytes are those of the pattern, in which `?` stands for any digit.
fn is_fitting(bytes: &[u8], pattern: &[u8]) -> bool {
    bytes.len() == pattern.len()
        && bytes.iter().zip(pattern).all(|(byte, place)| byte == place
            || (*place == b'?' && byte.is_ascii_digit()))
}
