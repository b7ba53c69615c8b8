//! Problems whose answers turn on the weights: which signals the patch reads, and the inputs that show that each of them
//! is needed.

use crate::cases::{AND, AND_REPORT, BUFFERED, Case, Left, WEIGHTS, try_case};
use std::test::Fail;

const CASES: [Case<'static>; 9] = [
    Case {
        name: "a gate's output that is cheap",
        implementation: "module f (a, b, y); input a, b; output y; wire t_0; buf (y, t_0); and (w, a, b); endmodule",
        specification: AND,
        weights: "w 1\na 3\nb 5\n",
        care: "",
        status: 0,
        printed: &[
            "patched\ncost 1\ngates 1\ntarget t_0 1\nbase w 1\nforce1 11\nforce0 00\n",
            "patched\ncost 1\ngates 1\ntarget t_0 1\nbase w 1\nforce1 11\nforce0 01\n",
            "patched\ncost 1\ngates 1\ntarget t_0 1\nbase w 1\nforce1 11\nforce0 10\n",
        ],
        patch: Left::Something,
        out: Left::Something,
    },
    Case {
        name: "a gate's output that is dear",
        implementation: "module f (a, b, y); input a, b; output y; wire t_0; buf (y, t_0); and (w, a, b); endmodule",
        specification: AND,
        weights: "w 9\na 3\nb 5\n",
        care: "",
        status: 0,
        printed: &[AND_REPORT],
        patch: Left::Something,
        out: Left::Something,
    },
    Case {
        name: "a gate's output without a weight",
        implementation: "module f (a, b, y); input a, b; output y; wire t_0; buf (y, t_0); and (w, a, b); endmodule",
        specification: AND,
        weights: WEIGHTS,
        care: "",
        status: 0,
        printed: &[AND_REPORT],
        patch: Left::Something,
        out: Left::Something,
    },
    Case {
        name: "equal weights: the later name has the first turn",
        implementation: "module f (a, b, y); input a, b; output y; wire t_0; buf (y, t_0); xor (w, a, b); endmodule",
        specification: "module g (a, b, y); input a, b; output y; xor (y, a, b); endmodule",
        weights: "a 3\nb 3\nw 4\n",
        care: "",
        status: 0,
        printed: &[
            "patched\ncost 6\ngates *\ntarget t_0 2\nbase b 3\nforce1 01\nforce0 00\nbase a 3\nforce1 01\nforce0 11\n",
            "patched\ncost 6\ngates *\ntarget t_0 2\nbase b 3\nforce1 01\nforce0 00\nbase a 3\nforce1 10\nforce0 00\n",
            "patched\ncost 6\ngates *\ntarget t_0 2\nbase b 3\nforce1 10\nforce0 11\nbase a 3\nforce1 01\nforce0 11\n",
            "patched\ncost 6\ngates *\ntarget t_0 2\nbase b 3\nforce1 10\nforce0 11\nbase a 3\nforce1 10\nforce0 00\n",
        ],
        patch: Left::Something,
        out: Left::Something,
    },
    Case {
        name: "the heaviest has the first turn, whatever the names",
        implementation: BUFFERED,
        specification: AND,
        weights: "a 4294967295\nb 5\n",
        care: "",
        status: 0,
        printed: &[
            "patched\ncost 4294967300\ngates *\ntarget t_0 2\nbase a 4294967295\nforce1 11\nforce0 01\nbase b 5\nforce1 11\nforce0 10\n",
        ],
        patch: Left::Something,
        out: Left::Something,
    },
    Case {
        name: "lines of all forms, and names that can't be base signals",
        implementation: BUFFERED,
        specification: AND,
        weights: "a 3\r\n\r\n zz 9\nt_0 4\n\tb\t5",
        care: "",
        status: 0,
        printed: &[AND_REPORT],
        patch: Left::Something,
        out: Left::Something,
    },
    Case {
        name: "needless zeros, a backslash, weight zero",
        implementation: BUFFERED,
        specification: AND,
        weights: "\\b 005\na 00\n",
        care: "",
        status: 0,
        printed: &[
            "patched\ncost 5\ngates *\ntarget t_0 2\nbase b 5\nforce1 11\nforce0 10\nbase a 0\nforce1 11\nforce0 01\n",
        ],
        patch: Left::Something,
        out: Left::Something,
    },
    Case {
        name: "a signal in the target's fan-out is never read",
        implementation: "module f (a, b, y); input a, b; output y; wire t_0; buf (y, t_0); and (v, t_0, b); endmodule",
        specification: AND,
        weights: "v 0\ny 0\na 3\nb 5\n",
        care: "",
        status: 0,
        printed: &[AND_REPORT],
        patch: Left::Something,
        out: Left::Something,
    },
    Case {
        name: "an input that no function needs",
        implementation: "module f (a, b, c, y); input a, b, c; output y; wire t_0; and (y, t_0, c); endmodule",
        specification: "module g (a, b, c, y); input a, b, c; output y; and (y, a, c); endmodule",
        weights: "a 1\nb 1\nc 1\n",
        care: "",
        status: 0,
        printed: &[
            "patched\ncost 1\ngates 1\ntarget t_0 1\nbase a 1\nforce1 101\nforce0 001\n",
            "patched\ncost 1\ngates 1\ntarget t_0 1\nbase a 1\nforce1 101\nforce0 011\n",
            "patched\ncost 1\ngates 1\ntarget t_0 1\nbase a 1\nforce1 111\nforce0 001\n",
            "patched\ncost 1\ngates 1\ntarget t_0 1\nbase a 1\nforce1 111\nforce0 011\n",
        ],
        patch: Left::Something,
        out: Left::Something,
    },
];

#[test]
fn each_base_is_the_greedy_one(rt: HostRuntime) -> Result<(), Fail> {
    for case in &CASES {
        try_case(&rt, case)?;
    }
    Ok(())
}
