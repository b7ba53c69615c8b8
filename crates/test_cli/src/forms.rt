//! Other forms of netlists: headers with directions, assignments, and a specification in ASCII AIGER.

use crate::cases::{AND_REPORT, BUFFERED, Case, Left, WEIGHTS, try_case};
use std::alloc::Global;
use std::test::Fail;

/// The patch that makes the target a copy of the input `a`, or of `b`.
const COPY_OF_A: &str = "module patch (t_0, a);\noutput t_0;\ninput a;\nbuf (t_0, a);\nendmodule\n";

const COPY_OF_B: &str = "module patch (t_0, b);\noutput t_0;\ninput b;\nbuf (t_0, b);\nendmodule\n";

const CASES: [Case<'static>; 5] = [
    Case {
        name: "assignments",
        implementation: "module f (input a, b, output y); assign y = a & ~b | t_0; endmodule",
        specification: "module g (input a, b, output y); assign y = a ^ (a & b) | b; endmodule",
        weights: "",
        care: "",
        status: 0,
        printed: &[
            "patched\ncost 1\ngates 1\ntarget t_0 1\nbase b 1\nforce1 01\nforce0 00\n",
            "patched\ncost 1\ngates 1\ntarget t_0 1\nbase b 1\nforce1 11\nforce0 00\n",
        ],
        patch: Left::Text(COPY_OF_B),
        out: Left::Text(
            "module f (a, b, y);\ninput a;\ninput b;\noutput y;\nwire asg_1;\nwire asg_2;\nwire t_0;\nnot (asg_1, b);\nand (asg_2, a, asg_1);\nor (y, asg_2, t_0);\nbuf (t_0, b);\nendmodule\n",
        ),
    },
    Case {
        name: "a name that begins as the nets of assignments would",
        implementation: "module f (input asg_, b, output y); assign y = asg_ & ~b | t_0; endmodule",
        specification: "module g (input asg_, b, output y); assign y = asg_ | b; endmodule",
        weights: "",
        care: "",
        status: 0,
        printed: &[
            "patched\ncost 1\ngates 1\ntarget t_0 1\nbase b 1\nforce1 01\nforce0 00\n",
            "patched\ncost 1\ngates 1\ntarget t_0 1\nbase b 1\nforce1 11\nforce0 00\n",
        ],
        patch: Left::Text(COPY_OF_B),
        out: Left::Text(
            "module f (asg_, b, y);\ninput asg_;\ninput b;\noutput y;\nwire asg__1;\nwire asg__2;\nwire t_0;\nnot (asg__1, b);\nand (asg__2, asg_, asg__1);\nor (y, asg__2, t_0);\nbuf (t_0, b);\nendmodule\n",
        ),
    },
    Case {
        name: "operators take what binds tighter, and of equals the left one is first",
        implementation: "module f (input wire a, b, output y, output wire z); assign z = a | b & ~(a ^ 1'b1) ~^ ~~b, y = ((t_0)); endmodule",
        specification: "module g (a, b, y, z); input a, b; output y, z; buf (y, a); not (n, a); xor (x, n, 1'b0); and (p, b, a); xnor (q, p, b); or (z, a, q); endmodule",
        weights: "",
        care: "",
        status: 0,
        printed: &[
            "patched\ncost 1\ngates 1\ntarget t_0 1\nbase a 1\nforce1 10\nforce0 00\n",
            "patched\ncost 1\ngates 1\ntarget t_0 1\nbase a 1\nforce1 10\nforce0 01\n",
            "patched\ncost 1\ngates 1\ntarget t_0 1\nbase a 1\nforce1 11\nforce0 00\n",
            "patched\ncost 1\ngates 1\ntarget t_0 1\nbase a 1\nforce1 11\nforce0 01\n",
        ],
        patch: Left::Text(COPY_OF_A),
        out: Left::Text(
            "module f (a, b, y, z);\ninput a;\ninput b;\noutput y;\noutput z;\nwire asg_1;\nwire asg_2;\nwire asg_3;\nwire asg_4;\nwire asg_5;\nwire asg_6;\nwire t_0;\nxor (asg_1, a, 1'b1);\nnot (asg_2, asg_1);\nand (asg_3, b, asg_2);\nnot (asg_4, b);\nnot (asg_5, asg_4);\nxnor (asg_6, asg_3, asg_5);\nor (z, a, asg_6);\nbuf (y, t_0);\nbuf (t_0, a);\nendmodule\n",
        ),
    },
    Case {
        name: "a specification in AIGER",
        implementation: BUFFERED,
        specification: "aag 3 2 0 1 1\n2\n4\n6\n6 4 2\ni0 a\ni1 b\no0 y\n",
        weights: WEIGHTS,
        care: "",
        status: 0,
        printed: &[AND_REPORT],
        patch: Left::Something,
        out: Left::Something,
    },
    Case {
        name: "a constant output in AIGER, with a comment behind it",
        implementation: BUFFERED,
        specification: "aag 2 2 0 1 0\r\n2\r\n4\r\n1\r\no0 y\r\ni1 b\r\ni0 \\a\r\nc\r\nby hand",
        weights: "",
        care: "",
        status: 0,
        printed: &["patched\ncost 0\ngates 1\ntarget t_0 0\n"],
        patch: Left::Something,
        out: Left::Something,
    },
];

#[test]
fn each_form_is_read(rt: HostRuntime) -> Result<(), Fail> {
    for case in &CASES {
        try_case(&rt, case)?;
    }
    Ok(())
}

/// How many brackets, and how many `~`, stand around the input.
const NESTED: u64 = 100_000;

/// A specification that asks for the input `a`, in this many brackets and behind as many `~`.
fn nested(alloc: Global) -> Result<String, Fail> {
    let mut text = String::from_str(alloc, "module g (input a, b, output y); assign y = ")?;
    for _ in 0..NESTED {
        text.push_str("~(")?;
    }
    text.push_str("a")?;
    for _ in 0..NESTED {
        text.push_str(")")?;
    }
    text.push_str("; endmodule")?;
    Ok(text)
}

#[test]
fn brackets_are_read_at_any_depth(rt: HostRuntime) -> Result<(), Fail> {
    let specification = nested(rt.alloc())?;
    try_case(
        &rt,
        &Case {
            name: "very deep brackets",
            implementation: BUFFERED,
            specification: specification.as_str(),
            weights: WEIGHTS,
            care: "",
            status: 0,
            printed: &[
                "patched\ncost 3\ngates 1\ntarget t_0 1\nbase a 3\nforce1 10\nforce0 00\n",
                "patched\ncost 3\ngates 1\ntarget t_0 1\nbase a 3\nforce1 10\nforce0 01\n",
                "patched\ncost 3\ngates 1\ntarget t_0 1\nbase a 3\nforce1 11\nforce0 00\n",
                "patched\ncost 3\ngates 1\ntarget t_0 1\nbase a 3\nforce1 11\nforce0 01\n",
            ],
            patch: Left::Text(COPY_OF_A),
            out: Left::Something,
        },
    )
}
