//! References that are found, or can't be.

use crate::problems::Kind::{And, Nor, Or, Xor};
use crate::problems::{Problem, gate_of};
use crate::trying::{Outcome, no_graphs};
use eco_meaning::OutOfMemory;
use std::alloc::Global;
use std::test::Fail;

/// What comes of a guess of all targets of the problem.
fn outcome(alloc: Global, problem: &Problem) -> Result<Outcome, OutOfMemory> {
    let mut graphs = no_graphs(alloc)?;
    let outcome = graphs.outcome(alloc, problem);
    drop(graphs);
    outcome
}

// Inputs a, b. The output `a & t` is to be a: the constant 1, which takes no node.
#[test]
fn a_constant(rt: HostRuntime) -> Result<(), Fail> {
    let problem = Problem {
        inputs: 2,
        targets: 1,
        gates: &[gate_of(And, 0, 2)],
        outputs: &[3],
        wanted: &[0],
    };
    assert!(rt; outcome(rt.alloc(), &problem)? == Outcome::Right(0));
    Ok(())
}

// Inputs a, b, c; n = a ^ b is a net of the implementation, and the first output. The output `(t & c) ^ b` is to be
// `(a & c) ^ (b & ~c)`, which is `((a ^ b) & c) ^ b`: t has to be n if c is 1, and is n without a node more.
#[test]
fn a_net_of_the_implementation(rt: HostRuntime) -> Result<(), Fail> {
    let problem = Problem {
        inputs: 3,
        targets: 1,
        gates: &[
            gate_of(Xor, 0, 1),
            gate_of(And, 3, 2),
            gate_of(Xor, 5, 1),
            gate_of(And, 0, 2),
            gate_of(Nor, 2, 2),
            gate_of(And, 1, 8),
            gate_of(Xor, 7, 9),
        ],
        outputs: &[4, 6],
        wanted: &[4, 10],
    };
    assert!(rt; outcome(rt.alloc(), &problem)? == Outcome::Right(0));
    Ok(())
}

// Inputs a, b, c, d. The output is t alone, and is to be `(a & b) | (c & d)`: that net of the specification.
#[test]
fn a_net_of_the_specification(rt: HostRuntime) -> Result<(), Fail> {
    let problem = Problem {
        inputs: 4,
        targets: 1,
        gates: &[gate_of(And, 0, 1), gate_of(And, 2, 3), gate_of(Or, 5, 6)],
        outputs: &[4],
        wanted: &[7],
    };
    assert!(rt; outcome(rt.alloc(), &problem)? == Outcome::Right(0));
    Ok(())
}

// Inputs a, b, c, d. The output `t ^ (a & b)` is to be `c | d`: t is the exclusive disjunction of both nets, which is three
// nodes more.
#[test]
fn two_nets(rt: HostRuntime) -> Result<(), Fail> {
    let problem = Problem {
        inputs: 4,
        targets: 1,
        gates: &[gate_of(And, 0, 1), gate_of(Xor, 4, 5), gate_of(Or, 2, 3)],
        outputs: &[6],
        wanted: &[7],
    };
    assert!(rt; outcome(rt.alloc(), &problem)? == Outcome::Right(3));
    Ok(())
}

// Inputs a, b, c. The outputs `s ^ t` and `s & c` are to be `a & b` and `b & c`. Where c is 0, two rows are right at each
// input; s may be b, and then t is `b & ~a`, one node more. With any function for s, t has to be `s ^ (a & b)`.
#[test]
fn two_targets_that_fit_together(rt: HostRuntime) -> Result<(), Fail> {
    let problem = Problem {
        inputs: 3,
        targets: 2,
        gates: &[
            gate_of(Xor, 3, 4),
            gate_of(And, 3, 2),
            gate_of(And, 0, 1),
            gate_of(And, 1, 2),
        ],
        outputs: &[5, 6],
        wanted: &[7, 8],
    };
    let outcome = outcome(rt.alloc(), &problem)?;
    assert!(rt; outcome != Outcome::Nothing);
    assert!(rt; outcome != Outcome::Wrong);
    Ok(())
}

// Inputs s, a, b, c, d. The outputs `(t ^ a) & s` and `(t ^ c) & ~s` are to be `b & s` and `d & ~s`: t has to be `a ^ b` if s is
// 1, and `c ^ d` else. No net depends on two of a, b, c, d, so three nets don't do.
#[test]
fn more_than_three_nets(rt: HostRuntime) -> Result<(), Fail> {
    let problem = Problem {
        inputs: 5,
        targets: 1,
        gates: &[
            gate_of(Nor, 0, 0),
            gate_of(Xor, 5, 1),
            gate_of(And, 7, 0),
            gate_of(Xor, 5, 3),
            gate_of(And, 9, 6),
            gate_of(And, 2, 0),
            gate_of(And, 4, 6),
        ],
        outputs: &[8, 10],
        wanted: &[11, 12],
    };
    assert!(rt; outcome(rt.alloc(), &problem)? == Outcome::Nothing);
    Ok(())
}

// Inputs a, b. The output `a & t` is to be b: no value of t is right where a is 0 and b is 1.
#[test]
fn no_value_is_right(rt: HostRuntime) -> Result<(), Fail> {
    let problem = Problem {
        inputs: 2,
        targets: 1,
        gates: &[gate_of(And, 0, 2)],
        outputs: &[3],
        wanted: &[1],
    };
    assert!(rt; outcome(rt.alloc(), &problem)? == Outcome::Nothing);
    Ok(())
}
