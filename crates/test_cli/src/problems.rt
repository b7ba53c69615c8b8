//! Problems that have an answer: a patch, or an input at which there is none.

use crate::cases::{
    AND, AND_REPORT, BUFFERED, Case, Left, ONE, ONE_OUT, ONE_PATCH, ONE_REPORT, WEIGHTS, try_case,
};
use std::test::Fail;

const CASES: [Case<'static>; 10] = [
    Case {
        name: "an and of the inputs",
        implementation: BUFFERED,
        specification: AND,
        weights: WEIGHTS,
        care: "",
        status: 0,
        printed: &[AND_REPORT],
        patch: Left::Something,
        out: Left::Something,
    },
    Case {
        name: "ports in another order",
        implementation: BUFFERED,
        specification: "module g (y, b, a); input a, b; output y; and (y, a, b); endmodule",
        weights: WEIGHTS,
        care: "",
        status: 0,
        printed: &[AND_REPORT],
        patch: Left::Something,
        out: Left::Something,
    },
    Case {
        name: "a target that is a port",
        implementation: "module f (a, t_0); input a; output t_0; endmodule",
        specification: "module g (a, t_0); input a; output t_0; not (t_0, a); endmodule",
        weights: "",
        care: "",
        status: 0,
        printed: &["patched\ncost 1\ngates 1\ntarget t_0 1\nbase a 1\nforce1 0\nforce0 1\n"],
        patch: Left::Text(
            "module patch (t_0, a);\noutput t_0;\ninput a;\nnot (t_0, a);\nendmodule\n",
        ),
        out: Left::Text("module f (a, t_0);\ninput a;\noutput t_0;\nnot (t_0, a);\nendmodule\n"),
    },
    Case {
        name: "a constant",
        implementation: BUFFERED,
        specification: ONE,
        weights: "",
        care: "",
        status: 0,
        printed: &[ONE_REPORT],
        patch: Left::Text(ONE_PATCH),
        out: Left::Text(ONE_OUT),
    },
    Case {
        name: "a target that nothing reads: either constant",
        implementation: "module f (a, y); input a; output y; wire t_0; buf (y, a); endmodule",
        specification: "module f (a, y); input a; output y; buf (y, a); endmodule",
        weights: "",
        care: "",
        status: 0,
        printed: &["patched\ncost 0\ngates 1\ntarget t_0 0\n"],
        patch: Left::Something,
        out: Left::Something,
    },
    Case {
        name: "no inputs",
        implementation: "module f (y); output y; buf (y, t_0); endmodule",
        specification: "module g (y); output y; buf (y, 1'b0); endmodule",
        weights: "",
        care: "",
        status: 0,
        printed: &["patched\ncost 0\ngates 1\ntarget t_0 0\n"],
        patch: Left::Text("module patch (t_0);\noutput t_0;\nbuf (t_0, 1'b0);\nendmodule\n"),
        out: Left::Text(
            "module f (y);\noutput y;\nwire t_0;\nbuf (y, t_0);\nbuf (t_0, 1'b0);\nendmodule\n",
        ),
    },
    Case {
        name: "comments, instance names, several outputs",
        implementation: "module f(a,y);input wire a;output y;wire y;/* c */ not g1 (n, m, a), (y, t_0); // e\nendmodule",
        specification: "module g (a, y); input a; output y; buf (y, a); endmodule",
        weights: "",
        care: "",
        status: 0,
        printed: &["patched\ncost 1\ngates 1\ntarget t_0 1\nbase a 1\nforce1 0\nforce0 1\n"],
        patch: Left::Text(
            "module patch (t_0, a);\noutput t_0;\ninput a;\nnot (t_0, a);\nendmodule\n",
        ),
        out: Left::Text(
            "module f (a, y);\ninput a;\noutput y;\nwire n;\nwire m;\nwire t_0;\nnot (n, a);\nnot (m, a);\nnot (y, t_0);\nnot (t_0, a);\nendmodule\n",
        ),
    },
    Case {
        name: "an escaped name",
        implementation: "module f (\\x[0] , y); input \\x[0] ; output y; buf (y, t_0); endmodule",
        specification: "module g (\\x[0] , y); input \\x[0] ; output y; buf (y, \\x[0] ); endmodule",
        weights: "x[0] 2",
        care: "",
        status: 0,
        printed: &["patched\ncost 2\ngates 1\ntarget t_0 1\nbase x[0] 2\nforce1 1\nforce0 0\n"],
        patch: Left::Text(
            "module patch (t_0, \\x[0] );\noutput t_0;\ninput \\x[0] ;\nbuf (t_0, \\x[0] );\nendmodule\n",
        ),
        out: Left::Text(
            "module f (\\x[0] , y);\ninput \\x[0] ;\noutput y;\nwire t_0;\nbuf (y, t_0);\nbuf (t_0, \\x[0] );\nendmodule\n",
        ),
    },
    Case {
        name: "two outputs that want unlike values, by gates of their own",
        implementation: "module f (a, b, y, z); input a, b; output y, z; wire t_0; buf (y, t_0); buf (z, t_0); endmodule",
        specification: "module g (a, b, y, z); input a, b; output y, z; buf (y, a); and (z, a, b); endmodule",
        weights: "",
        care: "",
        status: 1,
        printed: &["unrectifiable\ninput 10\n"],
        patch: Left::Nothing,
        out: Left::Nothing,
    },
    Case {
        name: "two outputs that want unlike values",
        implementation: "module f (a, b, y, z); input a, b; output y, z; wire t_0; buf (y, z, t_0); endmodule",
        specification: "module g (a, b, y, z); input a, b; output y, z; buf (y, a); and (z, a, b); endmodule",
        weights: "",
        care: "",
        status: 1,
        printed: &["unrectifiable\ninput 10\n"],
        patch: Left::Nothing,
        out: Left::Nothing,
    },
];

#[test]
fn each_problem_is_answered(rt: HostRuntime) -> Result<(), Fail> {
    for case in &CASES {
        try_case(&rt, case)?;
    }
    Ok(())
}
