//! An instance beside the texts that `tools/draw.py` draws by a model of its own.

use eco_gen::{instance, problem};
use std::test::Fail;

const IMPLEMENTATION: &[u8] = b"\
module gen (x0, x1, x2, x3, x4, x5, x6, x7, x8, x9, x10, x11, x12, x13, x14, x15, y0, y1);\n\
input x0;\n\
input x1;\n\
input x2;\n\
input x3;\n\
input x4;\n\
input x5;\n\
input x6;\n\
input x7;\n\
input x8;\n\
input x9;\n\
input x10;\n\
input x11;\n\
input x12;\n\
input x13;\n\
input x14;\n\
input x15;\n\
output y0;\n\
output y1;\n\
wire t_0;\n\
wire g1;\n\
wire t_1;\n\
wire g3;\n\
and (g1, x7, t_0);\n\
or (g3, t_0, x6);\n\
buf (y0, t_1);\n\
buf (y1, g3);\n\
endmodule\n\
";

const SPECIFICATION: &[u8] = b"\
module gen (x0, x1, x2, x3, x4, x5, x6, x7, x8, x9, x10, x11, x12, x13, x14, x15, y0, y1);\n\
input x0;\n\
input x1;\n\
input x2;\n\
input x3;\n\
input x4;\n\
input x5;\n\
input x6;\n\
input x7;\n\
input x8;\n\
input x9;\n\
input x10;\n\
input x11;\n\
input x12;\n\
input x13;\n\
input x14;\n\
input x15;\n\
output y0;\n\
output y1;\n\
wire g0;\n\
wire g1;\n\
wire g2;\n\
wire g3;\n\
nand (g0, x11, x5);\n\
and (g1, x7, g0);\n\
xnor (g2, g1, x1);\n\
or (g3, g0, x6);\n\
buf (y0, g2);\n\
buf (y1, g3);\n\
endmodule\n\
";

const WEIGHTS: &[u8] = b"\
x0 23\n\
x1 41\n\
x2 76\n\
x3 80\n\
x4 66\n\
x5 28\n\
x6 34\n\
x7 4\n\
x8 98\n\
x9 51\n\
x10 57\n\
x11 94\n\
x12 75\n\
x13 36\n\
x14 14\n\
x15 93\n\
g1 24\n\
g3 39\n\
";

#[test]
fn texts_of_an_instance(rt: HostRuntime) -> Result<(), Fail> {
    let files = instance(rt.alloc(), 1388, 4, 2)?;
    assert_eq!(rt; files.implementation.as_slice(), IMPLEMENTATION);
    assert_eq!(rt; files.specification.as_slice(), SPECIFICATION);
    assert_eq!(rt; files.weights.as_slice(), WEIGHTS);
    drop(files);
    Ok(())
}

#[test]
fn problem_of_an_instance(rt: HostRuntime) -> Result<(), Fail> {
    let problem = problem(rt.alloc(), 1388, 4, 2)?;
    let targets = problem.implementation().targets().len();
    let gates = problem.specification().gates().len();
    drop(problem);
    assert_eq!(rt; (targets, gates), (2, 6));
    Ok(())
}
