//! Input that is refused, line by line.

use crate::cases::{AND, BUFFERED, Case, Left, try_case};
use std::process::Abort;
use std::test::Fail;

/// Two netlists of which one is refused, or both together, and the line that says so.
#[derive(Drop)]
struct Refused {
    name: &'static str,
    implementation: &'static str,
    specification: &'static str,
    printed: &'static str,
}

const REFUSED: [Refused; 28] = [
    Refused {
        name: "a loop",
        implementation: "module f (a, b, y); input a, b; output y; wire t_0; buf (y, t_0); and (p, q, a); or (q, p, b); endmodule",
        specification: AND,
        printed: "refused impl loop p q\n",
    },
    Refused {
        name: "an undriven net",
        implementation: "module f (a, b, y); input a, b; output y; and (y, n7, t_0); endmodule",
        specification: AND,
        printed: "refused impl undriven n7\n",
    },
    Refused {
        name: "a target's number with a needless zero",
        implementation: "module f (a, b, y); input a, b; output y; and (y, t_07, t_0); endmodule",
        specification: AND,
        printed: "refused impl undriven t_07\n",
    },
    Refused {
        name: "a net driven twice",
        implementation: "module f (a, b, y); input a, b; output y; wire t_0; buf (y, t_0); and (w, a, b); or (w, a, b); endmodule",
        specification: AND,
        printed: "refused impl driventwice w\n",
    },
    Refused {
        name: "an input that is driven, before a net that is driven twice",
        implementation: "module f (a, b, y); input a, b; output y; wire t_0; buf (y, t_0); and (w, a, b); or (w, a, b); and (a, b, b); endmodule",
        specification: AND,
        printed: "refused impl inputdriven a\n",
    },
    Refused {
        name: "an input that is driven",
        implementation: "module f (a, b, y); input a, b; output y; wire t_0; buf (y, t_0); and (a, b, b); endmodule",
        specification: AND,
        printed: "refused impl inputdriven a\n",
    },
    Refused {
        name: "a port of one side alone",
        implementation: "module f (a, b, y, z); input a, b; output y, z; wire t_0; buf (y, t_0); buf (z, a); endmodule",
        specification: AND,
        printed: "refused ports z\n",
    },
    Refused {
        name: "no target",
        implementation: "module f (a, b, y); input a, b; output y; buf (y, a); endmodule",
        specification: AND,
        printed: "refused impl notarget\n",
    },
    Refused {
        name: "a text that ends too early",
        implementation: "module f (a, b, y); input a, b; output y; wire t_0; buf (y, t_0); ",
        specification: AND,
        printed: "refused impl syntax 66\n",
    },
    Refused {
        name: "a second end",
        implementation: "module f (a, b, y); input a, b; output y; wire t_0; buf (y, t_0); endmodule endmodule",
        specification: AND,
        printed: "refused impl syntax 76\n",
    },
    Refused {
        name: "no text",
        implementation: "",
        specification: AND,
        printed: "refused impl syntax 0\n",
    },
    Refused {
        name: "a port that stands twice in the header",
        implementation: "module f (a, b, y, a); input a, b; output y; wire t_0; buf (y, t_0); endmodule",
        specification: AND,
        printed: "refused impl declaredtwice a\n",
    },
    Refused {
        name: "a port that has no direction, before one that is no port",
        implementation: "module f (a, b, y); input a, c; output y; wire t_0; buf (y, t_0); endmodule",
        specification: AND,
        printed: "refused impl portundeclared b\n",
    },
    Refused {
        name: "an input that is no port",
        implementation: "module f (a, b, y); input a, b, c; output y; wire t_0; buf (y, t_0); endmodule",
        specification: AND,
        printed: "refused impl notaport c\n",
    },
    Refused {
        name: "seventeen targets",
        implementation: "module f (a, y0, y1, y2, y3, y4, y5, y6, y7, y8, y9, y10, y11, y12, y13, y14, y15, y16); input a; output y0, y1, y2, y3, y4, y5, y6, y7, y8, y9, y10, y11, y12, y13, y14, y15, y16; buf (y0, t_0); buf (y1, t_1); buf (y2, t_2); buf (y3, t_3); buf (y4, t_4); buf (y5, t_5); buf (y6, t_6); buf (y7, t_7); buf (y8, t_8); buf (y9, t_9); buf (y10, t_10); buf (y11, t_11); buf (y12, t_12); buf (y13, t_13); buf (y14, t_14); buf (y15, t_15); buf (y16, t_16); endmodule",
        specification: "module g (a, y0, y1, y2, y3, y4, y5, y6, y7, y8, y9, y10, y11, y12, y13, y14, y15, y16); input a; output y0, y1, y2, y3, y4, y5, y6, y7, y8, y9, y10, y11, y12, y13, y14, y15, y16; buf (y0, a); buf (y1, a); buf (y2, a); buf (y3, a); buf (y4, a); buf (y5, a); buf (y6, a); buf (y7, a); buf (y8, a); buf (y9, a); buf (y10, a); buf (y11, a); buf (y12, a); buf (y13, a); buf (y14, a); buf (y15, a); buf (y16, a); endmodule",
        printed: "refused impl toomanytargets 17\n",
    },
    Refused {
        name: "the smaller of two ports that differ, before the want of a target",
        implementation: "module f (a, b, y, z); input a, b; output y, z; buf (y, a); buf (z, a); endmodule",
        specification: "module g (c, b, y); input c, b; output y; and (y, c, b); endmodule",
        printed: "refused ports a\n",
    },
    Refused {
        name: "a target in the specification",
        implementation: BUFFERED,
        specification: "module g (a, b, y); input a, b; output y; and (y, a, t_0); endmodule",
        printed: "refused spec undriven t_0\n",
    },
    Refused {
        name: "a specification with an open comment",
        implementation: BUFFERED,
        specification: "module g (a, b, y); input a, b; output y; and (y, a, b); /* endmodule",
        printed: "refused spec syntax 57\n",
    },
    Refused {
        name: "an assignment to an input",
        implementation: "module f (input a, b, output y); assign a = b; endmodule",
        specification: AND,
        printed: "refused impl inputdriven a\n",
    },
    Refused {
        name: "an operator that isn't bitwise",
        implementation: "module f (input a, b, output y); assign y = a && b; endmodule",
        specification: AND,
        printed: "refused impl syntax 46\n",
    },
    Refused {
        name: "a port that a header with directions and a declaration name",
        implementation: "module f (input a, b, output y); input b; assign y = t_0; endmodule",
        specification: AND,
        printed: "refused impl declaredtwice b\n",
    },
    Refused {
        name: "AIGER without names",
        implementation: BUFFERED,
        specification: "aag 3 2 0 1 1\n2\n4\n6\n6 4 2\n",
        printed: "refused ports a\n",
    },
    Refused {
        name: "AIGER with a latch",
        implementation: BUFFERED,
        specification: "aag 3 1 1 1 1\n2\n4 6\n6\n6 4 2\n",
        printed: "refused spec aiger 1\n",
    },
    Refused {
        name: "AIGER with a loop",
        implementation: BUFFERED,
        specification: "aag 3 2 0 1 1\n2\n4\n6\n6 6 2\ni0 a\ni1 b\no0 y\n",
        printed: "refused spec loop aig_3\n",
    },
    Refused {
        name: "AIGER that uses a variable without a definition",
        implementation: BUFFERED,
        specification: "aag 4 2 0 1 1\n2\n4\n6\n6 8 2\ni0 a\ni1 b\no0 y\n",
        printed: "refused spec undefined 4\n",
    },
    Refused {
        name: "AIGER that defines a variable twice",
        implementation: BUFFERED,
        specification: "aag 3 2 0 1 1\n2\n2\n6\n6 4 2\ni0 a\ni1 b\no0 y\n",
        printed: "refused spec definedtwice 1\n",
    },
    Refused {
        name: "AIGER where Verilog is wanted",
        implementation: "aag 3 2 0 1 1\n2\n4\n6\n6 4 2\ni0 a\ni1 b\no0 y\n",
        specification: AND,
        printed: "refused impl syntax 0\n",
    },
    Refused {
        name: "faults in both files",
        implementation: "module f (a, b, y); input a, b; output y; wire t_0; buf (y, t_0); buf (y, a); endmodule",
        specification: "",
        printed: "refused impl driventwice y\n",
    },
];

#[test]
fn each_refusal_is_printed(rt: HostRuntime) -> Result<(), Fail> {
    for refused in &REFUSED {
        try_refused(&rt, refused, "")?;
    }
    Ok(())
}

/// Files of weights, each with the line that refuses it.
const REFUSED_WEIGHTS: [(&str, &str); 11] = [
    ("a 4294967296", "refused weight line 1\n"),
    ("a 3\n\nb\n", "refused weight line 3\n"),
    ("a 3\r\nb 5 6\r\n", "refused weight line 2\n"),
    ("a -1\n", "refused weight line 1\n"),
    ("a +1\n", "refused weight line 1\n"),
    ("5\n", "refused weight line 1\n"),
    ("\\ 5\n", "refused weight line 1\n"),
    ("a 1\n\\a 1", "refused weight twice a\n"),
    ("b 1\nzz 2\na 3\nzz 4\nb 5\n", "refused weight twice b\n"),
    ("a 1\na 2\nb x\n", "refused weight line 3\n"),
    ("a\u{e9} 1\n", "refused weight line 1\n"),
];

#[test]
fn each_file_of_weights_is_refused(rt: HostRuntime) -> Result<(), Fail> {
    for (weights, printed) in &REFUSED_WEIGHTS {
        let refused = Refused {
            name: printed,
            implementation: BUFFERED,
            specification: AND,
            printed,
        };
        try_refused(&rt, &refused, weights)?;
    }
    Ok(())
}

/// A specification that can't be read comes before the weights, and the weights before what the netlists are together.
#[test]
fn weights_are_read_third(rt: HostRuntime) -> Result<(), Fail> {
    let unread = Refused {
        name: "a fault in the specification",
        implementation: BUFFERED,
        specification: "",
        printed: "refused spec syntax 0\n",
    };
    try_refused(&rt, &unread, "a\n")?;
    let unpaired = Refused {
        name: "ports that differ",
        implementation: BUFFERED,
        specification: "module g (a, y); input a; output y; buf (y, a); endmodule",
        printed: "refused weight line 1\n",
    };
    try_refused(&rt, &unpaired, "a\n")
}

fn try_refused(
    rt: &(impl Abort + AllocGlobal),
    refused: &Refused,
    weights: &'static str,
) -> Result<(), Fail> {
    let printed = [refused.printed];
    let case = Case {
        name: refused.name,
        implementation: refused.implementation,
        specification: refused.specification,
        weights,
        care: "",
        status: 3,
        printed: &printed,
        patch: Left::Nothing,
        out: Left::Nothing,
    };
    try_case(rt, &case)
}
