//! Proofs that two netlists are equal, and the check of proofs.

use crate::cases::{AND, Left, Spent, Trial, try_trial, try_two};
use std::process::Abort;
use std::test::Fail;

/// The words of the commands, with the files `l.v`, `r.v`, `c.cnf` and `t.txt`.
const PROVE: [&str; 10] = [
    "eco", "prove", "--left", "l.v", "--right", "r.v", "--cnf", "c.cnf", "--trace", "t.txt",
];

const RECHECK: [&str; 6] = ["eco", "recheck", "--cnf", "c.cnf", "--trace", "t.txt"];

/// The conjunction of the inputs in two gates.
const NAND: &str =
    "module g (a, b, y); input a, b; output y; nand (n, b, a); not (y, n); endmodule";

/// The disjunction of the inputs.
const OR: &str = "module g (a, b, y); input a, b; output y; or (y, a, b); endmodule";

/// The equality clauses of `AND` and `NAND`.
const CLAUSES: &str =
    "p cnf 7 14\n1 0\n2 -4 0\n3 -4 0\n-2 -3 4 0\n3 6 0\n2 6 0\n-2 -3 -6 0\n5 6 0\n-5 -6 0\n4 5 -7 0\n-4 -5 -7 0\n-4 5 7 0\n4 -5 7 0\n7 0\n";

/// A variable, and its complement.
const BOTH: &str = "p cnf 1 2\n1 0\n-1 0\n";

/// A run of these words, with this status and one of these texts, that leaves these files.
fn run_of<'a>(
    words: &'a [&'a str],
    status: u8,
    printed: &'a [&'a str],
    files: &'a [(&'a str, Left)],
) -> Trial<'a> {
    Trial {
        words,
        more: &[],
        put_fails: false,
        status,
        printed,
        files,
        spent: Spent::Nothing,
    }
}

/// The files of a proof, where none is written.
const UNPROVED: [(&str, Left); 2] = [("c.cnf", Left::Nothing), ("t.txt", Left::Nothing)];

/// What `recheck` says of clauses and a proof.
#[derive(Clone, Copy)]
struct Checked {
    cnf: &'static str,
    trace: &'static str,
    status: u8,
    printed: &'static str,
}

const CHECKED: [Checked; 15] = [
    Checked {
        cnf: BOTH,
        trace: "1 1 2 0\n",
        status: 0,
        printed: "refuted\n",
    },
    Checked {
        cnf: BOTH,
        trace: "",
        status: 1,
        printed: "noempty\n",
    },
    Checked {
        cnf: BOTH,
        trace: "1 1 1 0\n",
        status: 1,
        printed: "badstep 1\n",
    },
    Checked {
        cnf: BOTH,
        trace: "1 1 2",
        status: 3,
        printed: "refused trace syntax 1\n",
    },
    Checked {
        cnf: BOTH,
        trace: "2 0",
        status: 1,
        printed: "noempty\n",
    },
    Checked {
        cnf: "p cnf 1 1\n0\n",
        trace: "",
        status: 0,
        printed: "refuted\n",
    },
    Checked {
        cnf: "p cnf 2 1\n1 -1 0\n",
        trace: "",
        status: 3,
        printed: "refused cnf syntax 2\n",
    },
    Checked {
        cnf: BOTH,
        trace: "2 1 2 0\n",
        status: 1,
        printed: "badstep 1\n",
    },
    Checked {
        cnf: BOTH,
        trace: "1 2 2 0\n",
        status: 1,
        printed: "badstep 1\n",
    },
    Checked {
        cnf: BOTH,
        trace: "1 1 3 0\n",
        status: 1,
        printed: "badstep 1\n",
    },
    Checked {
        cnf: BOTH,
        trace: "1 1 2 1\n",
        status: 3,
        printed: "refused trace syntax 1\n",
    },
    Checked {
        cnf: BOTH,
        trace: "0 1 2 0\n",
        status: 3,
        printed: "refused trace syntax 1\n",
    },
    Checked {
        cnf: BOTH,
        trace: "1 0 2 0\n",
        status: 3,
        printed: "refused trace syntax 1\n",
    },
    Checked {
        cnf: "p cnf 9223372036854775807 0\n",
        trace: "",
        status: 1,
        printed: "noempty\n",
    },
    Checked {
        cnf: "p cnf 1 9223372036854775807\n",
        trace: "",
        status: 3,
        printed: "refused cnf syntax *\n",
    },
];

fn try_checked(rt: &(impl Abort + AllocGlobal), checked: &Checked) -> Result<(), Fail> {
    let files = [
        ("c.cnf", checked.cnf.as_bytes()),
        ("t.txt", checked.trace.as_bytes()),
    ];
    let left = [
        ("c.cnf", Left::Text(checked.cnf)),
        ("t.txt", Left::Text(checked.trace)),
    ];
    let printed = [checked.printed];
    let run = run_of(&RECHECK, checked.status, &printed, &left);
    try_trial(rt, checked.trace, &files, None, &run)
}

#[test]
fn proofs_are_checked(rt: HostRuntime) -> Result<(), Fail> {
    for checked in &CHECKED {
        try_checked(&rt, checked)?;
    }
    Ok(())
}

/// The files of a proof that was written.
const PROVED: [(&str, Left); 2] = [("c.cnf", Left::Text(CLAUSES)), ("t.txt", Left::Something)];

/// A run that proves `AND` and `NAND` equal.
const EQUAL: Trial<'static> = Trial {
    words: &PROVE,
    more: &[],
    put_fails: false,
    status: 0,
    printed: &["equal *\n"],
    files: &PROVED,
    spent: Spent::Nothing,
};

/// A run that checks that proof.
const REFUTED: Trial<'static> = Trial {
    words: &RECHECK,
    more: &[],
    put_fails: false,
    status: 0,
    printed: &["refuted\n"],
    files: &PROVED,
    spent: Spent::Nothing,
};

#[test]
fn a_proof_of_equality_is_written_and_checks(rt: HostRuntime) -> Result<(), Fail> {
    let files = [("l.v", AND.as_bytes()), ("r.v", NAND.as_bytes())];
    try_two(&rt, "a proof", &files, None, &EQUAL, &REFUTED)
}

/// Runs that write nothing: what they are given, their status and what they may print.
const UNWRITTEN: [(&[&str], &str, &[&str]); 3] = [
    (&PROVE, OR, &["differs 01\n", "differs 10\n"]),
    (
        &[
            "eco", "prove", "--left", "l.v", "--right", "r.v", "--cnf", "l.v", "--trace", "t.txt",
        ],
        NAND,
        &["refused samepath l.v\n"],
    ),
    (
        &PROVE,
        "module g (a, b, y, z); input a, b; output y, z; nand (z, b, a); not (y, z); endmodule",
        &["refused ports z\n"],
    ),
];

fn try_unwritten(
    rt: &(impl Abort + AllocGlobal),
    words: &'static [&'static str],
    right: &'static str,
    status: u8,
    printed: &'static [&'static str],
) -> Result<(), Fail> {
    let files = [("l.v", AND.as_bytes()), ("r.v", right.as_bytes())];
    let run = run_of(words, status, printed, &UNPROVED);
    try_trial(rt, right, &files, None, &run)
}

#[test]
fn what_is_no_proof_is_not_written(rt: HostRuntime) -> Result<(), Fail> {
    for (place, (words, right, printed)) in UNWRITTEN.iter().enumerate() {
        let status = if place == 0 { 1 } else { 3 };
        try_unwritten(&rt, *words, *right, status, *printed)?;
    }
    Ok(())
}

/// The parity of eight inputs.
const PARITY_OF_EIGHT: &str =
    "module g (x0, x1, x2, x3, x4, x5, x6, x7, y); input x0, x1, x2, x3, x4, x5, x6, x7; output y; \
     xor (y, x0, x1, x2, x3, x4, x5, x6, x7); endmodule";

/// The same, each exclusive disjunction in four gates.
const NANDS_OF_EIGHT: &str =
    "module g (x0, x1, x2, x3, x4, x5, x6, x7, y); input x0, x1, x2, x3, x4, x5, x6, x7; output y; \
     nand (n1, x0, x1); nand (p1, x0, n1); nand (q1, x1, n1); nand (s1, p1, q1); \
     nand (n2, s1, x2); nand (p2, s1, n2); nand (q2, x2, n2); nand (s2, p2, q2); \
     nand (n3, s2, x3); nand (p3, s2, n3); nand (q3, x3, n3); nand (s3, p3, q3); \
     nand (n4, s3, x4); nand (p4, s3, n4); nand (q4, x4, n4); nand (s4, p4, q4); \
     nand (n5, s4, x5); nand (p5, s4, n5); nand (q5, x5, n5); nand (s5, p5, q5); \
     nand (n6, s5, x6); nand (p6, s5, n6); nand (q6, x6, n6); nand (s6, p6, q6); \
     nand (n7, s6, x7); nand (p7, s6, n7); nand (q7, x7, n7); nand (y, p7, q7); endmodule";

/// The same, but for the last gate.
const SPOILT_NANDS: &str =
    "module g (x0, x1, x2, x3, x4, x5, x6, x7, y); input x0, x1, x2, x3, x4, x5, x6, x7; output y; \
     nand (n1, x0, x1); nand (p1, x0, n1); nand (q1, x1, n1); nand (s1, p1, q1); \
     nand (n2, s1, x2); nand (p2, s1, n2); nand (q2, x2, n2); nand (s2, p2, q2); \
     nand (n3, s2, x3); nand (p3, s2, n3); nand (q3, x3, n3); nand (s3, p3, q3); \
     nand (n4, s3, x4); nand (p4, s3, n4); nand (q4, x4, n4); nand (s4, p4, q4); \
     nand (n5, s4, x5); nand (p5, s4, n5); nand (q5, x5, n5); nand (s5, p5, q5); \
     nand (n6, s5, x6); nand (p6, s5, n6); nand (q6, x6, n6); nand (s6, p6, q6); \
     nand (n7, s6, x7); nand (p7, s6, n7); nand (q7, x7, n7); nor (y, p7, q7); endmodule";

/// Netlists beside `PARITY_OF_EIGHT`: the status of `prove`, what it may print, and the files that it leaves.
const BESIDE_EIGHT: [(&str, u8, &[&str], [(&str, Left); 2]); 2] = [
    (
        NANDS_OF_EIGHT,
        0,
        &["equal *\n"],
        [("c.cnf", Left::Something), ("t.txt", Left::Something)],
    ),
    (SPOILT_NANDS, 1, &["differs *\n"], UNPROVED),
];

#[test]
fn parities_in_two_forms_are_compared(rt: HostRuntime) -> Result<(), Fail> {
    for (right, status, printed, left) in &BESIDE_EIGHT {
        let files = [
            ("l.v", PARITY_OF_EIGHT.as_bytes()),
            ("r.v", right.as_bytes()),
        ];
        let run = run_of(&PROVE, *status, *printed, left);
        try_trial(&rt, *right, &files, None, &run)?;
    }
    Ok(())
}

/// A failing call: of `prove` where the file of clauses isn't there, else of `recheck`.
#[derive(Clone, Copy)]
struct Fault {
    call: u64,
    status: u8,
    printed: &'static str,
    cnf: Left,
    trace: Left,
}

/// Calls 0 and 1 read the two netlists, call 2 writes the clauses and call 3 the proof.
const PROVE_FAULTS: [Fault; 3] = [
    Fault {
        call: 0,
        status: 5,
        printed: "failed l.v\n",
        cnf: Left::Nothing,
        trace: Left::Nothing,
    },
    Fault {
        call: 1,
        status: 5,
        printed: "failed r.v\n",
        cnf: Left::Nothing,
        trace: Left::Nothing,
    },
    Fault {
        call: 2,
        status: 6,
        printed: "",
        cnf: Left::Text("p cnf"),
        trace: Left::Nothing,
    },
];

/// With a failing call, and then without one over the files that were left.
fn try_fault(
    rt: &(impl Abort + AllocGlobal),
    files: &[(&str, &[u8])],
    fault: &Fault,
    again: &Trial<'_>,
) -> Result<(), Fail> {
    let left = [("c.cnf", fault.cnf), ("t.txt", fault.trace)];
    let printed = [fault.printed];
    let failed = run_of(again.words, fault.status, &printed, &left);
    try_two(rt, fault.printed, files, Some(fault.call), &failed, again)
}

#[test]
fn faults_of_a_proof_are_told(rt: HostRuntime) -> Result<(), Fail> {
    let files = [("l.v", AND.as_bytes()), ("r.v", NAND.as_bytes())];
    for fault in &PROVE_FAULTS {
        try_fault(&rt, &files, fault, &EQUAL)?;
    }
    let last = Fault {
        call: 3,
        status: 6,
        printed: "",
        cnf: Left::Text(CLAUSES),
        trace: Left::Something,
    };
    try_fault(&rt, &files, &last, &EQUAL)
}

const RECHECK_FAULTS: [Fault; 2] = [
    Fault {
        call: 0,
        status: 5,
        printed: "failed c.cnf\n",
        cnf: Left::Text(BOTH),
        trace: Left::Text("1 1 2 0\n"),
    },
    Fault {
        call: 1,
        status: 5,
        printed: "failed t.txt\n",
        cnf: Left::Text(BOTH),
        trace: Left::Text("1 1 2 0\n"),
    },
];

#[test]
fn faults_of_a_check_are_told(rt: HostRuntime) -> Result<(), Fail> {
    let files = [
        ("c.cnf", BOTH.as_bytes()),
        ("t.txt", "1 1 2 0\n".as_bytes()),
    ];
    let left = [
        ("c.cnf", Left::Text(BOTH)),
        ("t.txt", Left::Text("1 1 2 0\n")),
    ];
    let again = run_of(&RECHECK, 0, &["refuted\n"], &left);
    for fault in &RECHECK_FAULTS {
        try_fault(&rt, &files, fault, &again)?;
    }
    Ok(())
}

/// The parity of sixteen inputs, in one gate and in a chain of gates.
const PARITY: &str =
    "module f (x0, x1, x2, x3, x4, x5, x6, x7, x8, x9, x10, x11, x12, x13, x14, x15, y); input x0, x1, x2, x3, x4, x5, x6, x7, x8, x9, x10, x11, x12, x13, x14, x15; output y; xor (y, x0, x1, x2, x3, x4, x5, x6, x7, x8, x9, x10, x11, x12, x13, x14, x15); endmodule";

const CHAIN: &str =
    "module g (x0, x1, x2, x3, x4, x5, x6, x7, x8, x9, x10, x11, x12, x13, x14, x15, y); input x0, x1, x2, x3, x4, x5, x6, x7, x8, x9, x10, x11, x12, x13, x14, x15; output y; xor (w14, x14, x15); xor (w13, x13, w14); xor (w12, x12, w13); xor (w11, x11, w12); xor (w10, x10, w11); xor (w9, x9, w10); xor (w8, x8, w9); xor (w7, x7, w8); xor (w6, x6, w7); xor (w5, x5, w6); xor (w4, x4, w5); xor (w3, x3, w4); xor (w2, x2, w3); xor (w1, x1, w2); xor (y, x0, w1); endmodule";

#[test]
fn a_spent_proof_is_told_and_kept(rt: HostRuntime) -> Result<(), Fail> {
    let files = [("l.v", PARITY.as_bytes()), ("r.v", CHAIN.as_bytes())];
    let run = Trial {
        words: &PROVE,
        more: &["--budget", "1"],
        put_fails: false,
        status: 4,
        printed: &["budget eq 1\n"],
        files: &UNPROVED,
        spent: Spent::Equal(1),
    };
    try_trial(&rt, "a spent proof", &files, None, &run)
}
