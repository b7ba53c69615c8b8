//! Which net to cut: small netlists whose nets were judged by hand and by trying all inputs and values.

use crate::cases::{Left, SYNTH, Spent, Trial, care_words, try_trial, try_two};
use std::process::Abort;
use std::test::Fail;

/// The words of the command on the files `old.v` and `g.v`.
const LOCATE: [&str; 8] = [
    "eco", "locate", "--impl", "old.v", "--spec", "g.v", "--cut", "f.v",
];

/// A netlist, what it is to become, and what is said of its nets. Where the cared netlist's text is empty, all inputs are cared.
#[derive(Clone, Copy)]
struct Row {
    name: &'static str,
    old: &'static str,
    new: &'static str,
    care: &'static str,
    status: u8,
    printed: &'static [&'static str],
    cut: Left,
}

/// A sum of three bits, and whether two neighbours are 1.
const VOTE: &str =
    "module m (a, b, c, vote, agree); input a, b, c; output vote, agree; wire ab, bc, x;
and (ab, a, b), (bc, b, c), (agree, ab, bc); xor (x, a, b), (vote, x, c); endmodule";

/// The same with a vote in place of the sum.
const MAJORITY: &str =
    "module m (a, b, c, vote, agree); input a, b, c; output vote, agree; wire ab, bc, ac;
and (ab, a, b), (bc, b, c), (ac, a, c), (agree, ab, bc); or (vote, ab, bc, ac); endmodule";

/// The sum with the net x cut, whose gate stays.
const VOTE_CUT: &str =
    "module m (a, b, c, vote, agree);\ninput a;\ninput b;\ninput c;\noutput vote;\noutput agree;
wire ab;\nwire bc;\nwire x;\nwire t_0;\nand (ab, a, b);\nand (bc, b, c);\nand (agree, ab, bc);
xor (x, a, b);\nxor (vote, t_0, c);\nendmodule\n";

/// What is said of the sum: x and the vote itself can be cut, and every wrong input excludes the nets that don't reach the vote.
const VOTE_PRINTED: [&str; 1] = [
    "located\nsingle 2\nnet x 1 1\nnet vote 2 1\nexcluded 3\ninput * 3\n",
];

/// What is said if two nets are excluded, by one input or by two.
const NONE_PRINTED: [&str; 2] = [
    "located\nsingle 0\nexcluded 2\ninput * 2\n",
    "located\nsingle 0\nexcluded 2\ninput * 1\ninput * 1\n",
];

const ROWS: [Row; 8] = [
    Row {
        name: "a vote",
        old: VOTE,
        new: MAJORITY,
        care: "",
        status: 0,
        printed: &VOTE_PRINTED,
        cut: Left::Text(VOTE_CUT),
    },
    // what two outputs read
    Row {
        name: "two readers",
        old: "module m (a, b, c, d, y, z); input a, b, c, d; output y, z; wire m;
or (m, a, b); xor (y, m, c); and (z, m, d); endmodule",
        new: "module m (a, b, c, d, y, z); input a, b, c, d; output y, z; wire m;
and (m, a, b); xor (y, m, c); and (z, m, d); endmodule",
        care: "",
        status: 0,
        printed: &[
            "located\nsingle 1\nnet m 1 2\nexcluded 2\ninput * 2\n",
            "located\nsingle 1\nnet m 1 2\nexcluded 2\ninput * 1\ninput * 1\n",
        ],
        cut: Left::Text(
            "module m (a, b, c, d, y, z);\ninput a;\ninput b;\ninput c;\ninput d;\noutput y;\noutput z;
wire m;\nwire t_0;\nor (m, a, b);\nxor (y, t_0, c);\nand (z, t_0, d);\nendmodule\n",
        ),
    },
    // no net reaches both outputs
    Row {
        name: "two changes",
        old: "module m (a, b, c, d, y, z); input a, b, c, d; output y, z;
and (y, a, b), (z, c, d); endmodule",
        new: "module m (a, b, c, d, y, z); input a, b, c, d; output y, z;
or (y, a, b), (z, c, d); endmodule",
        care: "",
        status: 1,
        printed: &NONE_PRINTED,
        cut: Left::Nothing,
    },
    // an output port is cut: its gate drives a new net
    Row {
        name: "an output",
        old: "module m (a, b, c, y, z); input a, b, c; output y, z; wire n;
buf (n, a); and (y, n, b); or (z, n, c); endmodule",
        new: "module m (a, b, c, y, z); input a, b, c; output y, z; wire n;
not (n, a); and (y, n, b); or (z, a, c); endmodule",
        care: "",
        status: 0,
        printed: &[
            "located\nsingle 1\nnet y 2 1\nexcluded 2\ninput * 2\n",
            "located\nsingle 1\nnet y 2 1\nexcluded 2\ninput * 1\ninput * 1\n",
        ],
        cut: Left::Text(
            "module m (a, b, c, y, z);\ninput a;\ninput b;\ninput c;\noutput y;\noutput z;
wire n;\nwire t_0;\nwire old_y;\nbuf (n, a);\nand (old_y, n, b);\nor (z, n, c);\nbuf (y, t_0);\nendmodule\n",
        ),
    },
    // what reads an output moves with it
    Row {
        name: "an output that is read",
        old: "module m (a, b, c, p, q); input a, b, c; output p, q;
and (p, a, b); xor (q, p, c); endmodule",
        new: "module m (a, b, c, p, q); input a, b, c; output p, q; wire n;
or (p, a, b); and (n, a, b); xor (q, n, c); endmodule",
        care: "",
        status: 1,
        printed: &NONE_PRINTED,
        cut: Left::Nothing,
    },
    // an inverted input would do, but inputs aren't cut
    Row {
        name: "an input",
        old: "module m (a, b, c, y, z); input a, b, c; output y, z;
and (y, a, b); or (z, a, c); endmodule",
        new: "module m (a, b, c, y, z); input a, b, c; output y, z; wire n;
not (n, a); and (y, n, b); or (z, n, c); endmodule",
        care: "",
        status: 1,
        printed: &NONE_PRINTED,
        cut: Left::Nothing,
    },
    // a net that nothing reads can't help
    Row {
        name: "a net that nothing reads",
        old: "module m (a, b, y); input a, b; output y; wire u; xor (u, a, b); and (y, a, b); endmodule",
        new: "module m (a, b, y); input a, b; output y; or (y, a, b); endmodule",
        care: "",
        status: 0,
        printed: &["located\nsingle 1\nnet y 1 1\nexcluded 1\ninput * 1\n"],
        cut: Left::Text(
            "module m (a, b, y);\ninput a;\ninput b;\noutput y;\nwire u;\nwire t_0;\nwire old_y;
xor (u, a, b);\nand (old_y, a, b);\nbuf (y, t_0);\nendmodule\n",
        ),
    },
    // they differ where a and b are 1 alone, which isn't cared
    Row {
        name: "what isn't cared",
        old: "module m (a, b, y); input a, b; output y; xor (y, a, b); endmodule",
        new: "module m (a, b, y); input a, b; output y; or (y, a, b); endmodule",
        care: "module c (a, b, c); input a, b; output c; nand (c, a, b); endmodule",
        status: 0,
        printed: &["equal\n"],
        cut: Left::Nothing,
    },
];

fn try_row(rt: &(impl Abort + AllocGlobal), row: &Row) -> Result<(), Fail> {
    let files = [
        ("old.v", row.old.as_bytes()),
        ("g.v", row.new.as_bytes()),
        ("c.v", row.care.as_bytes()),
    ];
    let is_cared = !row.care.is_empty();
    let run = Trial {
        words: &LOCATE,
        more: care_words(is_cared),
        put_fails: false,
        status: row.status,
        printed: row.printed,
        files: &[("f.v", row.cut)],
        spent: Spent::Nothing,
    };
    let count = if is_cared { 3 } else { 2 };
    try_trial(rt, row.name, &files[..count], None, &run)
}

#[test]
fn nets_are_located(rt: HostRuntime) -> Result<(), Fail> {
    for row in &ROWS {
        try_row(&rt, row)?;
    }
    Ok(())
}

/// A netlist of which the question about x takes more than one learnt clause, and what is said of it with that budget.
#[derive(Clone, Copy)]
struct Open {
    old: &'static str,
    new: &'static str,
    status: u8,
    printed: &'static str,
    spent: Spent,
}

const OPEN: [Open; 2] = [
    // the vote itself is found, so it is cut
    Open {
        old: VOTE,
        new: MAJORITY,
        status: 0,
        printed: "located\nsingle 1\nnet vote 2 1\nopen x\nexcluded 3\ninput * 3\n",
        spent: Spent::Nothing,
    },
    // each output is wrong wherever the other one is, so neither can be cut alone; x could be, but its question was given up
    Open {
        old: "module m (a, b, c, vote, other); input a, b, c; output vote, other; wire x;
xor (x, a, b), (vote, x, c); xnor (other, x, c); endmodule",
        new: "module m (a, b, c, vote, other); input a, b, c; output vote, other; wire ab, bc, ac;
and (ab, a, b), (bc, b, c), (ac, a, c); or (vote, ab, bc, ac); nor (other, ab, bc, ac); endmodule",
        status: 4,
        printed: "located\nsingle 0\nopen x\nexcluded 2\ninput * 2\n",
        spent: Spent::Rectify(1),
    },
];

fn try_open(rt: &(impl Abort + AllocGlobal), open: &Open) -> Result<(), Fail> {
    let files = [("old.v", open.old.as_bytes()), ("g.v", open.new.as_bytes())];
    let left = if open.status == 0 {
        Left::Something
    } else {
        Left::Nothing
    };
    let printed = [open.printed];
    let run = Trial {
        words: &LOCATE,
        more: &["--budget", "1"],
        put_fails: false,
        status: open.status,
        printed: &printed,
        files: &[("f.v", left)],
        spent: open.spent,
    };
    try_trial(rt, open.printed, &files, None, &run)
}

#[test]
fn nets_are_left_open(rt: HostRuntime) -> Result<(), Fail> {
    for open in &OPEN {
        try_open(&rt, open)?;
    }
    Ok(())
}

/// A run that cuts x.
const FIRST: Trial<'static> = Trial {
    words: &LOCATE,
    more: &[],
    put_fails: false,
    status: 0,
    printed: &VOTE_PRINTED,
    files: &[("f.v", Left::Text(VOTE_CUT))],
    spent: Spent::Nothing,
};

/// A run that patches what the first one wrote.
const THEN: Trial<'static> = Trial {
    words: &SYNTH,
    more: &[],
    put_fails: false,
    status: 0,
    printed: &[
        "patched\ncost 3\ngates *\ntarget t_0 3\nbase c 1\nforce1 *\nforce0 *\nbase b 1\nforce1 *\nforce0 *\nbase a 1\nforce1 *\nforce0 *\n",
    ],
    files: &[("p.v", Left::Something), ("o.v", Left::Something)],
    spent: Spent::Nothing,
};

#[test]
fn what_was_cut_is_patched(rt: HostRuntime) -> Result<(), Fail> {
    let files = [
        ("old.v", VOTE.as_bytes()),
        ("g.v", MAJORITY.as_bytes()),
        ("w.txt", b"ab 3\nbc 3\nx 2\n"),
    ];
    try_two(&rt, "cut and patched", &files, None, &FIRST, &THEN)
}

/// Words and files that are refused, and what is printed of them.
#[derive(Clone, Copy)]
struct Refused {
    words: &'static [&'static str],
    old: &'static str,
    status: u8,
    printed: &'static str,
}

const REFUSED: [Refused; 6] = [
    Refused {
        words: &[
            "eco", "locate", "--impl", "old.v", "--spec", "g.v", "--cut", "old.v",
        ],
        old: VOTE,
        status: 3,
        printed: "refused samepath old.v\n",
    },
    Refused {
        words: &LOCATE,
        old: "module m (a, b, c, vote, agree); input a, b, c; output vote, agree; wire t_0;
and (agree, a, b, c); buf (vote, t_0); endmodule",
        status: 3,
        printed: "refused impl undriven t_0\n",
    },
    Refused {
        words: &LOCATE,
        old: "module m (a, b, c, vote); input a, b, c; output vote; and (vote, a, b, c); endmodule",
        status: 3,
        printed: "refused ports agree\n",
    },
    Refused {
        words: &LOCATE,
        old: "module m",
        status: 3,
        printed: "refused impl syntax 8\n",
    },
    Refused {
        words: &[
            "eco", "locate", "--impl", "old.v", "--spec", "h.v", "--cut", "f.v",
        ],
        old: VOTE,
        status: 5,
        printed: "failed h.v\n",
    },
    Refused {
        words: &[
            "eco", "locate", "--impl", "old.v", "--spec", "g.v", "--cut", "f.v", "--budget", "0",
        ],
        old: VOTE,
        status: 2,
        printed: "usage --budget\n",
    },
];

fn try_refused(rt: &(impl Abort + AllocGlobal), refused: &Refused) -> Result<(), Fail> {
    let files = [
        ("old.v", refused.old.as_bytes()),
        ("g.v", MAJORITY.as_bytes()),
    ];
    let printed = [refused.printed];
    let run = Trial {
        words: refused.words,
        more: &[],
        put_fails: false,
        status: refused.status,
        printed: &printed,
        files: &[("f.v", Left::Nothing)],
        spent: Spent::Nothing,
    };
    try_trial(rt, refused.printed, &files, None, &run)
}

#[test]
fn what_is_no_change_is_refused(rt: HostRuntime) -> Result<(), Fail> {
    for refused in &REFUSED {
        try_refused(&rt, refused)?;
    }
    Ok(())
}
