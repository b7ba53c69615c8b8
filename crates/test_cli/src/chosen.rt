//! Nets that are cut together: small netlists whose choices were judged by hand and by trying all inputs and values.

use crate::cases::{Left, Spent, Trial, try_trial};
use std::process::Abort;
use std::test::Fail;

/// The words of the command on the files `old.v` and `g.v`, without the nets.
const LOCATE: [&str; 8] = [
    "eco", "locate", "--impl", "old.v", "--spec", "g.v", "--cut", "f.v",
];

/// A netlist, what it is to become, the nets that the words name, and what is said of them. Where the cared netlist's text is empty,
/// all inputs are cared.
#[derive(Clone, Copy)]
struct Row {
    name: &'static str,
    old: &'static str,
    new: &'static str,
    care: &'static str,
    nets: &'static [&'static str],
    status: u8,
    printed: &'static [&'static str],
    cut: Left,
    spent: Spent,
}

/// Two outputs that no net reaches together.
const ANDS: &str = "module m (a, b, c, d, y, z); input a, b, c, d; output y, z;
and (y, a, b), (z, c, d); endmodule";

/// Both changed.
const ORS: &str = "module m (a, b, c, d, y, z); input a, b, c, d; output y, z;
or (y, a, b), (z, c, d); endmodule";

/// The first with both outputs cut, y first.
const BOTH_CUT: &str =
    "module m (a, b, c, d, y, z);\ninput a;\ninput b;\ninput c;\ninput d;\noutput y;\noutput z;
wire t_0;\nwire t_1;\nwire old_y;\nwire old_z;\nand (old_y, a, b);\nand (old_z, c, d);
buf (y, t_0);\nbuf (z, t_1);\nendmodule\n";

/// The same, z first.
const TURNED_CUT: &str =
    "module m (a, b, c, d, y, z);\ninput a;\ninput b;\ninput c;\ninput d;\noutput y;\noutput z;
wire t_0;\nwire t_1;\nwire old_z;\nwire old_y;\nand (old_y, a, b);\nand (old_z, c, d);
buf (z, t_0);\nbuf (y, t_1);\nendmodule\n";

/// A sum of three bits, and whether two neighbours are 1.
const VOTE: &str =
    "module m (a, b, c, vote, agree); input a, b, c; output vote, agree; wire ab, bc, x;
and (ab, a, b), (bc, b, c), (agree, ab, bc); xor (x, a, b), (vote, x, c); endmodule";

/// The same with a vote in place of the sum.
const MAJORITY: &str =
    "module m (a, b, c, vote, agree); input a, b, c; output vote, agree; wire ab, bc, ac;
and (ab, a, b), (bc, b, c), (ac, a, c), (agree, ab, bc); or (vote, ab, bc, ac); endmodule";

/// An output that another one reads, and what both are to become.
const READ: &str = "module m (a, b, c, p, q); input a, b, c; output p, q;
and (p, a, b); xor (q, p, c); endmodule";

const READ_NEW: &str = "module m (a, b, c, p, q); input a, b, c; output p, q; wire n;
or (p, a, b); and (n, a, b); xor (q, n, c); endmodule";

/// An exclusive or, and an or.
const ODD: &str = "module m (a, b, y); input a, b; output y; xor (y, a, b); endmodule";

const SOME: &str = "module m (a, b, y); input a, b; output y; or (y, a, b); endmodule";

const ROWS: [Row; 9] = [
    // y is wrong at each input at which just one of a and b is 1, z where just one of c and d is
    Row {
        name: "both outputs",
        old: ANDS,
        new: ORS,
        care: "",
        nets: &["--net", "y", "--net", "z"],
        status: 0,
        printed: &["choice 2\nneed y *\nneed z *\n"],
        cut: Left::Text(BOTH_CUT),
        spent: Spent::Nothing,
    },
    // the targets have the words' order
    Row {
        name: "both outputs, the other first",
        old: ANDS,
        new: ORS,
        care: "",
        nets: &["--net=z", "--net=y"],
        status: 0,
        printed: &["choice 2\nneed z *\nneed y *\n"],
        cut: Left::Text(TURNED_CUT),
        spent: Spent::Nothing,
    },
    // y alone leaves z wrong
    Row {
        name: "one of the two",
        old: ANDS,
        new: ORS,
        care: "",
        nets: &["--net", "y"],
        status: 1,
        printed: &["unrectifiable\ninput *\n"],
        cut: Left::Nothing,
        spent: Spent::Nothing,
    },
    // each of the two suffices alone, so neither is needed
    Row {
        name: "either suffices",
        old: VOTE,
        new: MAJORITY,
        care: "",
        nets: &["--net", "x", "--net", "vote"],
        status: 0,
        printed: &["choice 2\nneedless x\nneedless vote\n"],
        cut: Left::Something,
        spent: Spent::Nothing,
    },
    // x suffices, ab adds nothing
    Row {
        name: "one adds nothing",
        old: VOTE,
        new: MAJORITY,
        care: "",
        nets: &["--net", "ab", "--net", "x"],
        status: 0,
        printed: &["choice 2\nneedless ab\nneed x *\n"],
        cut: Left::Something,
        spent: Spent::Nothing,
    },
    // q is never wrong, but it reads p: it is needed too
    Row {
        name: "an output that is read",
        old: READ,
        new: READ_NEW,
        care: "",
        nets: &["--net", "p", "--net", "q"],
        status: 0,
        printed: &["choice 2\nneed p *\nneed q *\n"],
        cut: Left::Something,
        spent: Spent::Nothing,
    },
    // the outputs differ where a and b are 1, alone: there the sum has to be cut, unless that isn't cared
    Row {
        name: "one net",
        old: ODD,
        new: SOME,
        care: "",
        nets: &["--net", "y"],
        status: 0,
        printed: &["choice 1\nneed y 11\n"],
        cut: Left::Something,
        spent: Spent::Nothing,
    },
    Row {
        name: "what isn't cared",
        old: ODD,
        new: SOME,
        care: "module c (a, b, c); input a, b; output c; nand (c, a, b); endmodule",
        nets: &["--net", "y"],
        status: 0,
        printed: &["choice 1\nneedless y\n"],
        cut: Left::Something,
        spent: Spent::Nothing,
    },
    // the question about x takes more than one learnt clause
    Row {
        name: "a question that is given up",
        old: VOTE,
        new: MAJORITY,
        care: "",
        nets: &["--net", "x", "--budget", "1"],
        status: 4,
        printed: &["budget rect 1\n"],
        cut: Left::Nothing,
        spent: Spent::Rectify(1),
    },
];

/// The words of the command on these files, with a netlist that tells which inputs are cared.
const CARED: [&str; 10] = [
    "eco", "locate", "--impl", "old.v", "--spec", "g.v", "--cut", "f.v", "--care", "c.v",
];

/// The words with a cared netlist or without one.
fn words_for(is_cared: bool) -> &'static [&'static str] {
    if is_cared { &CARED } else { &LOCATE }
}

fn try_row(rt: &(impl Abort + AllocGlobal), row: &Row) -> Result<(), Fail> {
    let files = [
        ("old.v", row.old.as_bytes()),
        ("g.v", row.new.as_bytes()),
        ("c.v", row.care.as_bytes()),
    ];
    let is_cared = !row.care.is_empty();
    let run = Trial {
        words: words_for(is_cared),
        more: row.nets,
        put_fails: false,
        status: row.status,
        printed: row.printed,
        files: &[("f.v", row.cut)],
        spent: row.spent,
    };
    let count = if is_cared { 3 } else { 2 };
    try_trial(rt, row.name, &files[..count], None, &run)
}

#[test]
fn nets_are_cut_together(rt: HostRuntime) -> Result<(), Fail> {
    for row in &ROWS {
        try_row(&rt, row)?;
    }
    Ok(())
}

/// Nets that can't be cut together, and what is printed of them.
#[derive(Clone, Copy)]
struct Refused {
    nets: &'static [&'static str],
    printed: &'static str,
}

const REFUSED: [Refused; 5] = [
    Refused {
        nets: &["--net", "w"],
        printed: "refused net w\n",
    },
    // no gate drives an input
    Refused {
        nets: &["--net", "x", "--net", "a"],
        printed: "refused net a\n",
    },
    Refused {
        nets: &["--net", "x", "--net", "vote", "--net", "x"],
        printed: "refused net x\n",
    },
    Refused {
        nets: &["--net", ""],
        printed: "refused net \n",
    },
    Refused {
        nets: &[
            "--net", "x", "--net", "x", "--net", "x", "--net", "x", "--net", "x", "--net", "x",
            "--net", "x", "--net", "x", "--net", "x", "--net", "x", "--net", "x", "--net", "x",
            "--net", "x", "--net", "x", "--net", "x", "--net", "x", "--net", "x",
        ],
        printed: "refused toomanynets 17\n",
    },
];

fn try_refused(rt: &(impl Abort + AllocGlobal), refused: &Refused) -> Result<(), Fail> {
    let files = [("old.v", VOTE.as_bytes()), ("g.v", MAJORITY.as_bytes())];
    let printed = [refused.printed];
    let run = Trial {
        words: &LOCATE,
        more: refused.nets,
        put_fails: false,
        status: 3,
        printed: &printed,
        files: &[("f.v", Left::Nothing)],
        spent: Spent::Nothing,
    };
    try_trial(rt, refused.printed, &files, None, &run)
}

#[test]
fn nets_that_cannot_be_cut_are_refused(rt: HostRuntime) -> Result<(), Fail> {
    for refused in &REFUSED {
        try_refused(&rt, refused)?;
    }
    Ok(())
}
