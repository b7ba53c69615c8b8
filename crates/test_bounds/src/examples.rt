//! Small problems whose cheapest patches were found by hand.

ghost use Rattle.std.specs.Prelude.{IsTrue};
ghost use Rattle.eco_query.specs.Problem.{HasTargetNumber};

use crate::problems::{Texts, problem};
use crate::tuples::{all_pairs, unit_pairs};
use eco_cdcl::Watched;
use eco_meaning::Bits;
use eco_query::Problem;
use eco_tuples::{Aim, bound_by};
use std::alloc::Global;
use std::process::Abort;

/// More than any of these patches costs, few clauses, and many nodes.
const AIM: Aim = Aim {
    cost: 60,
    limit: 1_000,
    nodes: 100_000,
};

/// Whether the implementation has a target of this number.
fn has_target(problem: &Problem, number: u64) -> bool
    ensures { IsTrue result → HasTargetNumber problem.now.implementation number }
{
    number < problem.implementation().targets().len() as u64
}

/// The bound for the target of this number.
fn bound_at(
    rt: &impl Abort,
    alloc: Global,
    problem: &Problem,
    number: u64,
    tuples: &[Vec<Bits>],
) -> u64 {
    let mut search = Watched::new();
    assert!(rt; has_target(problem, number));
    bound_by(alloc, problem, number, tuples, &mut search, AIM).expect(rt, "memory")
}

/// The bounds of patches whose signals lie behind no target, and of all patches.
fn bounds(rt: &impl Abort, alloc: Global, problem: &Problem, tuples: &[Vec<Bits>]) -> (u64, u64) {
    let last = (problem.implementation().targets().len() as u64).saturating_sub(1);
    let outside = bound_at(rt, alloc, problem, 0, tuples);
    (outside, bound_at(rt, alloc, problem, last, tuples))
}

/// The bounds by all tuples of two inputs.
fn bounds_by_pairs(rt: &impl Abort, alloc: Global, texts: Texts<'_>, inputs: u32) -> (u64, u64) {
    let problem = problem(rt, alloc, texts);
    let tuples = all_pairs(rt, alloc, inputs);
    let found = bounds(rt, alloc, &problem, tuples.as_slice());
    drop(problem);
    drop(tuples);
    found
}

/// One target is to be a, which costs 3; then the other can read the gate that has both, behind it, for 1: together 4. Without
/// what lies behind targets the patch reads a and b: 6.
#[test]
fn signals_behind_targets_make_patches_cheaper(rt: HostRuntime) {
    let texts = Texts {
        implementation: b"module top (a, b, y, z); input a, b; output y, z; wire g;
xor (g, t_0, b); buf (y, g); buf (z, t_1); endmodule",
        specification: b"module top (a, b, y, z); input a, b; output y, z;
xor (y, a, b); xor (z, a, b); endmodule",
        care: None,
        weights: b"a 3\nb 3\ng 1\n",
    };
    assert!(rt; bounds_by_pairs(&rt, rt.alloc(), texts, 2) == (6, 4));
}

/// Where s is 1 only inputs at which a and b are equal are cared, so that b serves both targets: 2. A choice of a for the first
/// would cost 2 more.
#[test]
fn one_signal_serves_two_targets(rt: HostRuntime) {
    let texts = Texts {
        implementation: b"module top (a, b, s, y, z); input a, b, s; output y, z;
and (y, t_0, s); buf (z, t_1); endmodule",
        specification: b"module top (a, b, s, y, z); input a, b, s; output y, z;
and (y, a, s); buf (z, b); endmodule",
        care: Some(
            b"module care (a, b, s, c); input a, b, s; output c; wire n, e;
not (n, s); xnor (e, a, b); or (c, n, e); endmodule",
        ),
        weights: b"a 2\nb 2\ns 2\ny 2\nz 2\n",
    };
    assert!(rt; bounds_by_pairs(&rt, rt.alloc(), texts, 3) == (2, 2));
}

/// The implementation of the two problems that follow: h is what is wanted, and nobody reads what the second target drives.
const UNREAD: &[u8] = b"module top (a, b, y); input a, b; output y; wire h, n;
and (h, a, b); buf (y, t_0); buf (n, t_1); endmodule";

/// What is wanted of it.
const CONJUNCTION: &[u8] = b"module top (a, b, y); input a, b; output y; and (y, a, b); endmodule";

/// A patch of h costs nothing.
#[test]
fn signals_without_weight_cost_nothing(rt: HostRuntime) {
    let texts = Texts {
        implementation: UNREAD,
        specification: CONJUNCTION,
        care: None,
        weights: b"h 0\n",
    };
    assert!(rt; bounds_by_pairs(&rt, rt.alloc(), texts, 2) == (0, 0));
}

/// A patch of a and b costs 14.
#[test]
fn inputs_without_lines_cost_what_is_given(rt: HostRuntime) {
    let texts = Texts {
        implementation: UNREAD,
        specification: CONJUNCTION,
        care: None,
        weights: b"",
    };
    assert!(rt; bounds_by_pairs(&rt, rt.alloc(), texts, 2) == (14, 14));
}

/// Each of seven targets is to be an input of its own, which costs 1; two inputs a tuple show that.
#[test]
fn seven_targets_read_seven_inputs(rt: HostRuntime) {
    let texts = Texts {
        implementation: b"module top (a, b, c, d, e, f, g, p, q, r, s, u, v, w);
input a, b, c, d, e, f, g; output p, q, r, s, u, v, w;
buf (p, t_0), (q, t_1), (r, t_2), (s, t_3), (u, t_4), (v, t_5), (w, t_6); endmodule",
        specification: b"module top (a, b, c, d, e, f, g, p, q, r, s, u, v, w);
input a, b, c, d, e, f, g; output p, q, r, s, u, v, w;
buf (p, a), (q, b), (r, c), (s, d), (u, e), (v, f), (w, g); endmodule",
        care: None,
        weights: b"a 1\nb 1\nc 1\nd 1\ne 1\nf 1\ng 1\n",
    };
    let problem = problem(&rt, rt.alloc(), texts);
    let tuples = unit_pairs(&rt, rt.alloc(), 7);
    let found = bounds(&rt, rt.alloc(), &problem, tuples.as_slice());
    drop(problem);
    drop(tuples);
    assert!(rt; found == (7, 7));
}
