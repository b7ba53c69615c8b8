//! What a base costs at least: `synth --bound`.

use crate::cases::{AND, BUFFERED, ONE, SYNTH, Spent, Trial, WEIGHTS, try_trial};
use std::process::Abort;
use std::test::Fail;

/// A problem, and the status and the text, or one of several, with which `synth --bound` ends on it.
struct Row {
    name: &'static str,
    implementation: &'static str,
    specification: &'static str,
    weights: &'static str,
    status: u8,
    printed: &'static [&'static str],
}

const ROWS: [Row; 6] = [
    Row {
        name: "a base that costs least",
        implementation: BUFFERED,
        specification: AND,
        weights: WEIGHTS,
        status: 0,
        printed: &[
            "patched\ncost 8\ngates *\ntarget t_0 2\nbase b 5\nforce1 11\nforce0 10\nbase a 3\nforce1 11\nforce0 01\nbound 8 2\namount 5\nforce1 11\nforce0 10\namount 3\nforce1 11\nforce0 01\n",
        ],
    },
    Row {
        name: "a signal that tells both pairs apart",
        implementation: "module f (a, b, y); input a, b; output y; wire t_0; buf (y, t_0); xor (w, a, b); endmodule",
        specification: "module g (a, b, y); input a, b; output y; xor (y, a, b); endmodule",
        weights: "a 3\nb 3\nw 4\n",
        status: 0,
        printed: &[
            "patched\ncost 6\ngates *\ntarget t_0 2\nbase b 3\nforce1 01\nforce0 00\nbase a 3\nforce1 01\nforce0 11\nbound 4 2\namount 3\nforce1 01\nforce0 00\namount 1\nforce1 01\nforce0 11\n",
            "patched\ncost 6\ngates *\ntarget t_0 2\nbase b 3\nforce1 01\nforce0 00\nbase a 3\nforce1 10\nforce0 00\nbound 4 2\namount 3\nforce1 01\nforce0 00\namount 1\nforce1 10\nforce0 00\n",
            "patched\ncost 6\ngates *\ntarget t_0 2\nbase b 3\nforce1 10\nforce0 11\nbase a 3\nforce1 01\nforce0 11\nbound 4 2\namount 3\nforce1 10\nforce0 11\namount 1\nforce1 01\nforce0 11\n",
            "patched\ncost 6\ngates *\ntarget t_0 2\nbase b 3\nforce1 10\nforce0 11\nbase a 3\nforce1 10\nforce0 00\nbound 4 2\namount 3\nforce1 10\nforce0 11\namount 1\nforce1 10\nforce0 00\n",
        ],
    },
    Row {
        name: "an empty base",
        implementation: BUFFERED,
        specification: ONE,
        weights: WEIGHTS,
        status: 0,
        printed: &["patched\ncost 0\ngates 1\ntarget t_0 0\nbound 0 0\n"],
    },
    Row {
        name: "the least and the greatest weight",
        implementation: BUFFERED,
        specification: AND,
        weights: "a 0\nb 4294967295\n",
        status: 0,
        printed: &[
            "patched\ncost 4294967295\ngates *\ntarget t_0 2\nbase b 4294967295\nforce1 11\nforce0 10\nbase a 0\nforce1 11\nforce0 01\nbound 4294967295 1\namount 4294967295\nforce1 11\nforce0 10\n",
        ],
    },
    Row {
        name: "several targets",
        implementation: "module f (a, b, y, z); input a, b; output y, z; buf (y, t_0); buf (z, t_1); endmodule",
        specification: "module g (a, b, y, z); input a, b; output y, z; and (y, a, b); or (z, a, b); endmodule",
        weights: WEIGHTS,
        status: 3,
        printed: &["refused impl boundtargets 2\n"],
    },
    Row {
        name: "an input that no patch can mend",
        implementation: "module f (a, b, y, z); input a, b; output y, z; buf (y, t_0); buf (z, t_0); endmodule",
        specification: "module g (a, b, y, z); input a, b; output y, z; buf (y, a); and (z, a, b); endmodule",
        weights: WEIGHTS,
        status: 1,
        printed: &["unrectifiable\ninput 10\n"],
    },
];

/// Runs the command on the row's files, and compares its status and what it prints.
fn try_row(rt: &(impl Abort + AllocGlobal), row: &Row) -> Result<(), Fail> {
    let files = [
        ("f.v", row.implementation.as_bytes()),
        ("g.v", row.specification.as_bytes()),
        ("w.txt", row.weights.as_bytes()),
    ];
    let run = Trial {
        words: &SYNTH,
        more: &["--bound"],
        put_fails: false,
        status: row.status,
        printed: row.printed,
        files: &[],
        spent: Spent::Nothing,
    };
    try_trial(rt, row.name, &files, None, &run)
}

#[test]
fn each_bound_is_the_sum_of_its_parts(rt: HostRuntime) -> Result<(), Fail> {
    for row in &ROWS {
        try_row(&rt, row)?;
    }
    Ok(())
}
