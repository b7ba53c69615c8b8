//! Problems of several targets, and of inputs that aren't all cared.

use crate::cases::{AND, BUFFERED, Case, Left, WEIGHTS, try_case};
use std::test::Fail;

/// What is printed where two inputs of one weight are needed for the last of two targets, and where the first one is 0 at all
/// inputs, or 1.
const LAST_OF_TWO: [&str; 2] = [
    "patched\ncost 2\ngates *\ntarget t_0 0\ntarget t_1 2\nbase b 1\nforce1 11\nforce0 10\nbase a 1\nforce1 11\nforce0 01\n",
    "patched\ncost 2\ngates *\ntarget t_0 0\ntarget t_1 2\nbase b 1\nforce1 10\nforce0 11\nbase a 1\nforce1 01\nforce0 11\n",
];

const CASES: [Case<'static>; 9] = [
    Case {
        name: "two targets of which either will do",
        implementation: "module f (a, b, y); input a, b; output y; xor (y, t_0, t_1); endmodule",
        specification: AND,
        weights: "",
        care: "",
        status: 0,
        printed: &LAST_OF_TWO,
        patch: Left::Something,
        out: Left::Something,
    },
    Case {
        name: "targets in the order of their numbers",
        implementation: "module f (a, b, y); input a, b; output y; xor (y, t_0, t_10, t_2); endmodule",
        specification: AND,
        weights: "",
        care: "",
        status: 0,
        printed: &[
            "patched\ncost 2\ngates *\ntarget t_0 0\ntarget t_2 0\ntarget t_10 2\nbase b 1\nforce1 11\nforce0 10\nbase a 1\nforce1 11\nforce0 01\n",
            "patched\ncost 2\ngates *\ntarget t_0 0\ntarget t_2 0\ntarget t_10 2\nbase b 1\nforce1 10\nforce0 11\nbase a 1\nforce1 01\nforce0 11\n",
        ],
        patch: Left::Something,
        out: Left::Something,
    },
    Case {
        name: "signals that an earlier target pays for",
        implementation: "module f (a, b, y, z); input a, b; output y, z; buf (y, t_0); buf (z, t_1); endmodule",
        specification: "module g (a, b, y, z); input a, b; output y, z; and (y, a, b); or (z, a, b); endmodule",
        weights: WEIGHTS,
        care: "",
        status: 0,
        printed: &[
            "patched\ncost 8\ngates *\ntarget t_0 2\nbase b 5\nforce1 11\nforce0 10\nbase a 3\nforce1 11\nforce0 01\ntarget t_1 0\n",
        ],
        patch: Left::Something,
        out: Left::Something,
    },
    Case {
        name: "a signal behind an earlier target",
        implementation: "module f (a, b, y, z); input a, b; output y, z; and (w, t_0, b); buf (y, w); buf (z, t_1); endmodule",
        specification: "module g (a, b, y, z); input a, b; output y, z; and (y, a, b); and (z, a, b); endmodule",
        weights: "w 1\na 3\nb 5\n",
        care: "",
        status: 0,
        printed: &[
            "patched\ncost 4\ngates 2\ntarget t_0 1\nbase a 3\nforce1 11\nforce0 01\ntarget t_1 1\nbase w 1\nforce1 11\nforce0 10\n",
        ],
        patch: Left::Text(
            "module patch (t_0, t_1, a, w);\noutput t_0;\noutput t_1;\ninput a;\ninput w;\nbuf (t_0, a);\nbuf (t_1, w);\nendmodule\n",
        ),
        out: Left::Something,
    },
    Case {
        name: "one wrong input",
        implementation: "module f (a, b, y, z); input a, b; output y, z; buf (y, t_0); and (z, t_0, t_1); endmodule",
        specification: "module g (a, b, y, z); input a, b; output y, z; buf (y, a); buf (z, b); endmodule",
        weights: "",
        care: "",
        status: 1,
        printed: &["unrectifiable\ninput 01\n"],
        patch: Left::Nothing,
        out: Left::Nothing,
    },
    Case {
        name: "a wrong input that isn't cared",
        implementation: "module f (a, b, y, z); input a, b; output y, z; buf (y, t_0); buf (z, t_0); endmodule",
        specification: "module g (a, b, y, z); input a, b; output y, z; buf (y, a); and (z, a, b); endmodule",
        weights: WEIGHTS,
        care: "module cared (a, b, c); input a, b; output c; not (n, b); nand (c, a, n); endmodule",
        status: 0,
        printed: &[
            "patched\ncost 3\ngates 1\ntarget t_0 1\nbase a 3\nforce1 11\nforce0 00\n",
            "patched\ncost 3\ngates 1\ntarget t_0 1\nbase a 3\nforce1 11\nforce0 01\n",
        ],
        patch: Left::Text(
            "module patch (t_0, a);\noutput t_0;\ninput a;\nbuf (t_0, a);\nendmodule\n",
        ),
        out: Left::Something,
    },
    Case {
        name: "no input is cared",
        implementation: BUFFERED,
        specification: AND,
        weights: WEIGHTS,
        care: "module cared (a, b, c); input a, b; output c; buf (c, 1'b0); endmodule",
        status: 0,
        printed: &["patched\ncost 0\ngates 1\ntarget t_0 0\n"],
        patch: Left::Something,
        out: Left::Something,
    },
    Case {
        name: "a cared netlist that lacks an input",
        implementation: BUFFERED,
        specification: AND,
        weights: WEIGHTS,
        care: "module cared (a, c); input a; output c; buf (c, a); endmodule",
        status: 3,
        printed: &["refused care ports b\n"],
        patch: Left::Nothing,
        out: Left::Nothing,
    },
    Case {
        name: "a cared netlist with two outputs",
        implementation: BUFFERED,
        specification: AND,
        weights: WEIGHTS,
        care: "module cared (a, b, c, d); input a, b; output c, d; buf (c, a); buf (d, b); endmodule",
        status: 3,
        printed: &["refused care outputs 2\n"],
        patch: Left::Nothing,
        out: Left::Nothing,
    },
];

#[test]
fn each_target_has_its_turn(rt: HostRuntime) -> Result<(), Fail> {
    for case in &CASES {
        try_case(&rt, case)?;
    }
    Ok(())
}
