//! Audits of patches: what is found, and that nothing is.

use crate::cases::{AND, BUFFERED, Spent, Trial, WEIGHTS, care_words, try_trial, try_two};
use std::process::Abort;
use std::test::Fail;

/// The words of the command on the files `f.v`, `g.v`, `w.txt`, `p.v`, `o.v` and `r.txt`.
const AUDIT: [&str; 14] = [
    "eco", "audit", "--impl", "f.v", "--spec", "g.v", "--weight", "w.txt", "--patch", "p.v",
    "--out", "o.v", "--report", "r.txt",
];

/// A patch that makes `BUFFERED` do what `AND` does.
const PATCH: &str =
    "module patch (t_0, b, a); output t_0; input b; input a; and (t_0, b, a); endmodule";

/// `BUFFERED` with that patch.
const OUT: &str =
    "module f (a, b, y); input a; input b; output y; wire t_0; buf (y, t_0); and (t_0, b, a); endmodule";

/// What is reported of it.
const REPORT: &str =
    "patched\ncost 8\ngates 1\ntarget t_0 2\nbase b 5\nforce1 11\nforce0 10\nbase a 3\nforce1 11\nforce0 01\n";

/// Another patch, and `BUFFERED` with it.
const OR_PATCH: &str =
    "module patch (t_0, b, a); output t_0; input b; input a; or (t_0, b, a); endmodule";

const OR_OUT: &str =
    "module f (a, b, y); input a; input b; output y; wire t_0; buf (y, t_0); or (t_0, b, a); endmodule";

/// The texts of the files of an audit, what it answers and which of several texts it may print. Where the cared netlist's
/// text is empty, all inputs are cared.
#[derive(Clone, Copy)]
struct Case<'a> {
    name: &'static str,
    /// In the order in which they are read: `f.v`, `g.v`, `w.txt`, `p.v`, `o.v` and `r.txt`.
    files: [&'static str; 6],
    care: &'static str,
    status: u8,
    printed: &'a [&'static str],
}

/// That report, with what a base costs at least.
const BOUND_REPORT: &str =
    "patched\ncost 8\ngates 1\ntarget t_0 2\nbase b 5\nforce1 11\nforce0 10\nbase a 3\nforce1 11\nforce0 01\nbound 8 2\namount 5\nforce1 11\nforce0 10\namount 3\nforce1 11\nforce0 01\n";

/// The same two, with lines that tell what each target costs at least: an audit reads them, and doesn't judge them.
const LEAST_REPORT: &str =
    "patched\ncost 8\ngates 1\ntarget t_0 2\nbase b 5\nforce1 11\nforce0 10\nbase a 3\nforce1 11\nforce0 01\nleast t_0 8\n";

const LEAST_AND_BOUND_REPORT: &str =
    "patched\ncost 8\ngates 1\ntarget t_0 2\nbase b 5\nforce1 11\nforce0 10\nbase a 3\nforce1 11\nforce0 01\nbound 8 2\namount 5\nforce1 11\nforce0 10\namount 3\nforce1 11\nforce0 01\nleast t_0 9\n";

/// A line of that kind without a number.
const NO_LEAST_REPORT: &str =
    "patched\ncost 8\ngates 1\ntarget t_0 2\nbase b 5\nforce1 11\nforce0 10\nbase a 3\nforce1 11\nforce0 01\nleast t_0\n";

const CASES: [Case<'static>; 20] = [
    Case {
        name: "a patch",
        files: [BUFFERED, AND, WEIGHTS, PATCH, OUT, REPORT],
        care: "",
        status: 0,
        printed: &["sound\n"],
    },
    Case {
        name: "another gate in the patched netlist alone",
        files: [BUFFERED, AND, WEIGHTS, PATCH, OR_OUT, REPORT],
        care: "",
        status: 1,
        printed: &["fails splice\n"],
    },
    Case {
        name: "another gate in the patch too",
        files: [BUFFERED, AND, WEIGHTS, OR_PATCH, OR_OUT, REPORT],
        care: "",
        status: 1,
        printed: &["fails differs 01\n", "fails differs 10\n"],
    },
    Case {
        name: "another gate, where only equal inputs of 1 are cared",
        files: [BUFFERED, AND, WEIGHTS, OR_PATCH, OR_OUT, REPORT],
        care: "module c (a, b, c); input a, b; output c; and (c, a, b); endmodule",
        status: 1,
        printed: &["fails need b\n"],
    },
    Case {
        name: "a patched netlist of another name",
        files: [
            BUFFERED,
            AND,
            WEIGHTS,
            PATCH,
            "module f2 (a, b, y); input a; input b; output y; wire t_0; buf (y, t_0); and (t_0, b, a); endmodule",
            REPORT,
        ],
        care: "",
        status: 1,
        printed: &["fails splice\n"],
    },
    Case {
        name: "a signal that is told twice",
        files: [
            BUFFERED,
            AND,
            WEIGHTS,
            PATCH,
            OUT,
            "patched\ncost 8\ngates 1\ntarget t_0 3\nbase b 5\nforce1 11\nforce0 10\nbase b 5\nforce1 11\nforce0 10\nbase a 3\nforce1 11\nforce0 01\n",
        ],
        care: "",
        status: 1,
        printed: &["fails ports\n"],
    },
    Case {
        name: "another cost",
        files: [
            BUFFERED,
            AND,
            WEIGHTS,
            PATCH,
            OUT,
            "patched\ncost 9\ngates 1\ntarget t_0 2\nbase b 5\nforce1 11\nforce0 10\nbase a 3\nforce1 11\nforce0 01\n",
        ],
        care: "",
        status: 1,
        printed: &["fails cost\n"],
    },
    Case {
        name: "the greatest number of gates",
        files: [
            BUFFERED,
            AND,
            WEIGHTS,
            PATCH,
            OUT,
            "patched\ncost 8\ngates 18446744073709551615\ntarget t_0 2\nbase b 5\nforce1 11\nforce0 10\nbase a 3\nforce1 11\nforce0 01\n",
        ],
        care: "",
        status: 1,
        printed: &["fails gates\n"],
    },
    Case {
        name: "inputs that show nothing",
        files: [
            BUFFERED,
            AND,
            WEIGHTS,
            PATCH,
            OUT,
            "patched\ncost 8\ngates 1\ntarget t_0 2\nbase b 5\nforce1 11\nforce0 00\nbase a 3\nforce1 11\nforce0 01\n",
        ],
        care: "",
        status: 1,
        printed: &["fails need b\n"],
    },
    Case {
        name: "a bound",
        files: [BUFFERED, AND, WEIGHTS, PATCH, OUT, BOUND_REPORT],
        care: "",
        status: 0,
        printed: &["sound\n"],
    },
    Case {
        name: "what the target costs at least",
        files: [BUFFERED, AND, WEIGHTS, PATCH, OUT, LEAST_REPORT],
        care: "",
        status: 0,
        printed: &["sound\n"],
    },
    Case {
        name: "a bound, and a line that isn't judged",
        files: [BUFFERED, AND, WEIGHTS, PATCH, OUT, LEAST_AND_BOUND_REPORT],
        care: "",
        status: 0,
        printed: &["sound\n"],
    },
    Case {
        name: "a line of what the target costs at least, without a number",
        files: [BUFFERED, AND, WEIGHTS, PATCH, OUT, NO_LEAST_REPORT],
        care: "",
        status: 3,
        printed: &["refused report line 11\n"],
    },
    Case {
        name: "a bound of which a signal carries more than it weighs",
        files: [
            BUFFERED,
            AND,
            WEIGHTS,
            PATCH,
            OUT,
            "patched\ncost 8\ngates 1\ntarget t_0 2\nbase b 5\nforce1 11\nforce0 10\nbase a 3\nforce1 11\nforce0 01\nbound 9 2\namount 6\nforce1 11\nforce0 10\namount 3\nforce1 11\nforce0 01\n",
        ],
        care: "",
        status: 1,
        printed: &["fails bound\n"],
    },
    Case {
        name: "a bound that isn't the sum of its parts",
        files: [
            BUFFERED,
            AND,
            WEIGHTS,
            PATCH,
            OUT,
            "patched\ncost 8\ngates 1\ntarget t_0 2\nbase b 5\nforce1 11\nforce0 10\nbase a 3\nforce1 11\nforce0 01\nbound 8 1\namount 5\nforce1 11\nforce0 10\n",
        ],
        care: "",
        status: 1,
        printed: &["fails bound\n"],
    },
    Case {
        name: "a bound of which an input forces the other bit",
        files: [
            BUFFERED,
            AND,
            WEIGHTS,
            PATCH,
            OUT,
            "patched\ncost 8\ngates 1\ntarget t_0 2\nbase b 5\nforce1 11\nforce0 10\nbase a 3\nforce1 11\nforce0 01\nbound 5 1\namount 5\nforce1 10\nforce0 11\n",
        ],
        care: "",
        status: 1,
        printed: &["fails bound\n"],
    },
    Case {
        name: "a bound where there are several targets",
        files: [
            "module f (a, b, y, z); input a, b; output y, z; buf (y, t_0); buf (z, t_1); endmodule",
            "module g (a, b, y, z); input a, b; output y, z; and (y, a, b); or (z, a, b); endmodule",
            WEIGHTS,
            "module patch (t_0, t_1, b, a); output t_0, t_1; input b, a; and (t_0, b, a); or (t_1, b, a); endmodule",
            "module f (a, b, y, z); input a, b; output y, z; wire t_0, t_1; buf (y, t_0); buf (z, t_1); and (t_0, b, a); or (t_1, b, a); endmodule",
            "patched\ncost 8\ngates 2\ntarget t_0 2\nbase b 5\nforce1 11\nforce0 10\nbase a 3\nforce1 11\nforce0 01\ntarget t_1 0\nbound 0 0\n",
        ],
        care: "",
        status: 1,
        printed: &["fails bound\n"],
    },
    Case {
        name: "a report that ends too early",
        files: [BUFFERED, AND, WEIGHTS, PATCH, OUT, "patched\ncost 8\n"],
        care: "",
        status: 3,
        printed: &["refused report line 3\n"],
    },
    Case {
        name: "a report of no patch",
        files: [
            BUFFERED,
            AND,
            WEIGHTS,
            PATCH,
            OUT,
            "unrectifiable\ninput 01\n",
        ],
        care: "",
        status: 1,
        printed: &["fails notpatched\n"],
    },
    Case {
        name: "a signal that is read too early",
        files: [
            "module f (a, b, y, z); input a, b; output y, z; and (w, t_0, b); buf (y, w); buf (z, t_1); endmodule",
            "module g (a, b, y, z); input a, b; output y, z; and (y, a, b); and (z, a, b); endmodule",
            "w 1\na 3\nb 5\n",
            "module patch (t_0, t_1, a, w); output t_0, t_1; input a, w; and (t_0, a, w); buf (t_1, w); endmodule",
            "module f (a, b, y, z); input a, b; output y, z; wire w, t_0, t_1; and (w, t_0, b); buf (y, w); buf (z, t_1); buf (t_0, a); buf (t_1, a); endmodule",
            "patched\ncost 4\ngates 2\ntarget t_0 1\nbase a 3\nforce1 11\nforce0 01\ntarget t_1 1\nbase w 1\nforce1 11\nforce0 10\n",
        ],
        care: "",
        status: 1,
        printed: &["fails reach w\n"],
    },
];

/// The case's files.
fn files_of(case: &Case<'_>) -> [(&'static str, &'static [u8]); 7] {
    [
        ("f.v", case.files[0].as_bytes()),
        ("g.v", case.files[1].as_bytes()),
        ("w.txt", case.files[2].as_bytes()),
        ("p.v", case.files[3].as_bytes()),
        ("o.v", case.files[4].as_bytes()),
        ("r.txt", case.files[5].as_bytes()),
        ("c.v", case.care.as_bytes()),
    ]
}

/// A run of the command on files of the case, with this status and one of these texts.
fn audit_of<'a>(case: &Case<'_>, status: u8, printed: &'a [&'a str]) -> Trial<'a> {
    Trial {
        words: &AUDIT,
        more: care_words(!case.care.is_empty()),
        put_fails: false,
        status,
        printed,
        files: &[],
        spent: Spent::Nothing,
    }
}

/// Runs the command on the case's files, and compares its status and what it prints.
fn try_case(rt: &(impl Abort + AllocGlobal), case: &Case<'_>) -> Result<(), Fail> {
    let run = audit_of(case, case.status, case.printed);
    try_trial(rt, case.name, &files_of(case), None, &run)
}

#[test]
fn audits_are_answered(rt: HostRuntime) -> Result<(), Fail> {
    for case in &CASES {
        try_case(&rt, case)?;
    }
    Ok(())
}

/// Runs the command on a store of which this call fails, and then again.
fn try_failing(
    rt: &(impl Abort + AllocGlobal),
    call: u64,
    printed: &'static str,
) -> Result<(), Fail> {
    let case = &CASES[0];
    let texts = [printed];
    let failed = audit_of(case, 5, &texts);
    let again = audit_of(case, 0, &["sound\n"]);
    try_two(rt, printed, &files_of(case), Some(call), &failed, &again)
}

const FAILED: [(u64, &str); 6] = [
    (0, "failed f.v\n"),
    (1, "failed g.v\n"),
    (2, "failed w.txt\n"),
    (3, "failed p.v\n"),
    (4, "failed o.v\n"),
    (5, "failed r.txt\n"),
];

#[test]
fn a_file_that_cant_be_read_is_named(rt: HostRuntime) -> Result<(), Fail> {
    for (call, printed) in &FAILED {
        try_failing(&rt, *call, *printed)?;
    }
    Ok(())
}
