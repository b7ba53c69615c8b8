//! Bases of least cost, and what any base of a target costs at least: `synth --least`.

use crate::cases::{AND, BUFFERED, ONE, SYNTH, Spent, Trial, WEIGHTS, try_trial};
use std::process::Abort;
use std::test::Fail;

/// A problem, the options behind the paths, and the status and the text, or one of several, with which `synth` ends. The text of
/// the cared netlist is that of the file `c.v`.
struct Row {
    name: &'static str,
    options: &'static [&'static str],
    implementation: &'static str,
    specification: &'static str,
    weights: &'static str,
    care: &'static str,
    status: u8,
    printed: &'static [&'static str],
}

/// An implementation with a signal that tells by itself what the target has to be, and costs less than both inputs together,
/// though more than each of them.
const SHORT_CUT: &str =
    "module f (a, b, y); input a, b; output y; wire t_0; buf (y, t_0); xor (w, a, b); endmodule";

const XOR: &str = "module g (a, b, y); input a, b; output y; xor (y, a, b); endmodule";

const SHORT_CUT_WEIGHTS: &str = "a 3\nb 3\nw 4\n";

/// What is printed where that signal is read: at one of two inputs the target has to be 1, at one of two others 0.
const SHORT_CUT_REPORTS: [&str; 4] = [
    "patched\ncost 4\ngates *\ntarget t_0 1\nbase w 4\nforce1 01\nforce0 00\nleast t_0 4\n",
    "patched\ncost 4\ngates *\ntarget t_0 1\nbase w 4\nforce1 01\nforce0 11\nleast t_0 4\n",
    "patched\ncost 4\ngates *\ntarget t_0 1\nbase w 4\nforce1 10\nforce0 00\nleast t_0 4\n",
    "patched\ncost 4\ngates *\ntarget t_0 1\nbase w 4\nforce1 10\nforce0 11\nleast t_0 4\n",
];

/// A target that is to be 0 where all three inputs are, and 1 where two of them are 1: any two inputs suffice, and no one does.
const THREE: &str = "module f (a, b, c, y); input a, b, c; output y; buf (y, t_0); endmodule";

const OR_OF_THREE: &str =
    "module g (a, b, c, y); input a, b, c; output y; or (y, a, b, c); endmodule";

const EVEN: &str = "module c (a, b, c, y); input a, b, c; output y; xnor (y, a, b, c); endmodule";

/// Two targets, to be the exclusive or and the conjunction, and a signal that suffices for the first one. It costs less than both
/// inputs; but both targets together cost less where both inputs are read.
const TWO_TARGETS: &str =
    "module f (a, b, y, z); input a, b; output y, z; buf (y, t_0); buf (z, t_1); xor (w, a, b); endmodule";

const XOR_AND_AND: &str =
    "module g (a, b, y, z); input a, b; output y, z; xor (y, a, b); and (z, a, b); endmodule";

const ROWS: [Row; 13] = [
    Row {
        name: "a signal that costs less than the greedy choice",
        options: &["--least", "1"],
        implementation: SHORT_CUT,
        specification: XOR,
        weights: SHORT_CUT_WEIGHTS,
        care: "",
        status: 0,
        printed: &SHORT_CUT_REPORTS,
    },
    Row {
        name: "the same, with a greater effort",
        options: &["--least", "64"],
        implementation: SHORT_CUT,
        specification: XOR,
        weights: SHORT_CUT_WEIGHTS,
        care: "",
        status: 0,
        printed: &SHORT_CUT_REPORTS,
    },
    Row {
        name: "the same, with the greatest effort",
        options: &["--least=4294967295"],
        implementation: SHORT_CUT,
        specification: XOR,
        weights: SHORT_CUT_WEIGHTS,
        care: "",
        status: 0,
        printed: &SHORT_CUT_REPORTS,
    },
    Row {
        name: "a greedy choice that costs least",
        options: &["--least", "1"],
        implementation: BUFFERED,
        specification: AND,
        weights: WEIGHTS,
        care: "",
        status: 0,
        printed: &[
            "patched\ncost 8\ngates *\ntarget t_0 2\nbase b 5\nforce1 11\nforce0 10\nbase a 3\nforce1 11\nforce0 01\nleast t_0 8\n",
        ],
    },
    Row {
        name: "the least and the greatest weight",
        options: &["--least", "1"],
        implementation: BUFFERED,
        specification: AND,
        weights: "a 0\nb 4294967295\n",
        care: "",
        status: 0,
        printed: &[
            "patched\ncost 4294967295\ngates *\ntarget t_0 2\nbase b 4294967295\nforce1 11\nforce0 10\nbase a 0\nforce1 11\nforce0 01\nleast t_0 4294967295\n",
        ],
    },
    Row {
        name: "an empty base",
        options: &["--least", "1"],
        implementation: BUFFERED,
        specification: ONE,
        weights: WEIGHTS,
        care: "",
        status: 0,
        printed: &["patched\ncost 0\ngates 1\ntarget t_0 0\nleast t_0 0\n"],
    },
    Row {
        name: "behind a bound, which may be less",
        options: &["--care", "c.v", "--least", "4", "--bound"],
        implementation: THREE,
        specification: OR_OF_THREE,
        weights: "",
        care: EVEN,
        status: 0,
        printed: &[
            "patched\ncost 2\ngates *\ntarget t_0 2\nbase b 1\nforce1 011\nforce0 000\nbase a 1\nforce1 101\nforce0 000\nbound 1 1\namount 1\nforce1 011\nforce0 000\nleast t_0 2\n",
        ],
    },
    Row {
        name: "a line for each target",
        options: &["--least", "1"],
        implementation: "module f (a, b, y, z); input a, b; output y, z; buf (y, t_0); buf (z, t_1); endmodule",
        specification: "module g (a, b, y, z); input a, b; output y, z; and (y, a, b); or (z, a, b); endmodule",
        weights: WEIGHTS,
        care: "",
        status: 0,
        printed: &[
            "patched\ncost 8\ngates *\ntarget t_0 2\nbase b 5\nforce1 11\nforce0 10\nbase a 3\nforce1 11\nforce0 01\ntarget t_1 0\nleast t_0 8\nleast t_1 0\n",
        ],
    },
    Row {
        name: "a dearer base for the first target, and a cheaper patch",
        options: &["--least", "8"],
        implementation: TWO_TARGETS,
        specification: XOR_AND_AND,
        weights: SHORT_CUT_WEIGHTS,
        care: "",
        status: 0,
        printed: &[
            "patched\ncost 6\ngates *\ntarget t_0 2\nbase b 3\nforce1 01\nforce0 00\nbase a 3\nforce1 01\nforce0 11\ntarget t_1 0\nleast t_0 4\nleast t_1 0\n",
            "patched\ncost 6\ngates *\ntarget t_0 2\nbase b 3\nforce1 01\nforce0 00\nbase a 3\nforce1 10\nforce0 00\ntarget t_1 0\nleast t_0 4\nleast t_1 0\n",
            "patched\ncost 6\ngates *\ntarget t_0 2\nbase b 3\nforce1 10\nforce0 11\nbase a 3\nforce1 01\nforce0 11\ntarget t_1 0\nleast t_0 4\nleast t_1 0\n",
            "patched\ncost 6\ngates *\ntarget t_0 2\nbase b 3\nforce1 10\nforce0 11\nbase a 3\nforce1 10\nforce0 00\ntarget t_1 0\nleast t_0 4\nleast t_1 0\n",
        ],
    },
    Row {
        name: "an input that no patch can mend",
        options: &["--least", "1"],
        implementation: "module f (a, b, y, z); input a, b; output y, z; buf (y, t_0); buf (z, t_0); endmodule",
        specification: "module g (a, b, y, z); input a, b; output y, z; buf (y, a); and (z, a, b); endmodule",
        weights: WEIGHTS,
        care: "",
        status: 1,
        printed: &["unrectifiable\ninput 10\n"],
    },
    Row {
        name: "no effort",
        options: &["--least", "0"],
        implementation: BUFFERED,
        specification: AND,
        weights: WEIGHTS,
        care: "",
        status: 2,
        printed: &["usage --least\n"],
    },
    Row {
        name: "too great an effort",
        options: &["--least", "4294967296"],
        implementation: BUFFERED,
        specification: AND,
        weights: WEIGHTS,
        care: "",
        status: 2,
        printed: &["usage --least\n"],
    },
    Row {
        name: "two numbers that may not be",
        options: &["--least", "0", "--input-weight", "x"],
        implementation: BUFFERED,
        specification: AND,
        weights: WEIGHTS,
        care: "",
        status: 2,
        printed: &["usage --input-weight\n"],
    },
];

/// Runs the command on the row's files, and compares its status and what it prints.
fn try_row(rt: &(impl Abort + AllocGlobal), row: &Row) -> Result<(), Fail> {
    let files = [
        ("f.v", row.implementation.as_bytes()),
        ("g.v", row.specification.as_bytes()),
        ("w.txt", row.weights.as_bytes()),
        ("c.v", row.care.as_bytes()),
    ];
    let run = Trial {
        words: &SYNTH,
        more: row.options,
        put_fails: false,
        status: row.status,
        printed: row.printed,
        files: &[],
        spent: Spent::Nothing,
    };
    try_trial(rt, row.name, &files, None, &run)
}

#[test]
fn bases_of_least_cost_are_told_so(rt: HostRuntime) -> Result<(), Fail> {
    for row in &ROWS {
        try_row(&rt, row)?;
    }
    Ok(())
}
