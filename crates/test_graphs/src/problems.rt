//! Problems with a cared netlist, and the cared netlists that are refused.

ghost use Rattle.eco_query.specs.Problem.{IsClosed};

use crate::netlists::netlist;
use eco_equality::is_closed;
use eco_netlist::Netlist;
use eco_query::{MOST_NETS, PairError, Problem, pair};
use eco_vread::ReadError;
use eco_weight::Weights;
use std::alloc::Global;
use std::process::Abort;
use std::test::Fail;

/// The netlist, which has no target.
fn closed(rt: &impl Abort, netlist: Netlist) -> Netlist
    ensures { IsClosed result }
{
    assert!(rt; is_closed(&netlist));
    netlist
}

/// An implementation whose output is a target.
fn implementation(alloc: Global) -> Result<Netlist, ReadError> {
    netlist(
        alloc,
        b"module m(a, b, y); input a, b; output y; buf (y, t_0); endmodule",
    )
}

/// The input a is to be its value.
fn specification(alloc: Global) -> Result<Netlist, ReadError> {
    netlist(
        alloc,
        b"module m(a, b, y); input a, b; output y; buf (y, a); endmodule",
    )
}

/// The problem of these netlists.
fn paired(
    rt: &impl Abort,
    alloc: Global,
    implementation: Netlist,
    specification: Netlist,
    care: Netlist,
) -> Result<Problem, PairError> {
    assert!(rt; implementation.nets() <= MOST_NETS);
    let specification = closed(rt, specification);
    let care = closed(rt, care);
    let weights = Weights::none(alloc);
    pair(implementation, specification, Some(care), weights, 1)
}

/// What becomes of a problem with this cared netlist.
#[derive(Clone, Copy, PartialEq, Eq)]
enum Outcome {
    /// It has a cared netlist.
    Cared,
    /// The cared netlist hasn't the inputs, of which b is the smallest.
    InputB,
    /// The cared netlist has so many outputs.
    Outputs(u64),
    /// Something else.
    Other,
}

fn outcome_of(made: &Result<Problem, PairError>) -> Outcome {
    match made {
        Ok(problem) if problem.care().is_some() => Outcome::Cared,
        Err(PairError::CareInputs(name)) if name.bytes() == b"b".as_slice() => Outcome::InputB,
        Err(PairError::CareOutputs(count)) => Outcome::Outputs(*count),
        _ => Outcome::Other,
    }
}

/// What becomes of a cared netlist.
fn cared_outcome(rt: &impl Abort, alloc: Global, care: &[u8]) -> Result<Outcome, ReadError> {
    let care = netlist(alloc, care)?;
    let implementation = match implementation(alloc) {
        Ok(implementation) => implementation,
        Err(error) => {
            drop(care);
            return Err(error);
        }
    };
    match specification(alloc) {
        Ok(specification) => {
            let made = paired(rt, alloc, implementation, specification, care);
            let outcome = outcome_of(&made);
            drop(made);
            Ok(outcome)
        }
        Err(error) => {
            drop(care);
            drop(implementation);
            Err(error)
        }
    }
}

/// The inputs stand in any order, the smallest alone is named, and two outputs are counted.
const CARES: [(&[u8], Outcome); 3] = [
    (
        b"module m(b, a, c); input b, a; output c; buf (c, b); endmodule",
        Outcome::Cared,
    ),
    (
        b"module m(c, a, x, y); input c, a; output x, y; buf (x, a), (y, a); endmodule",
        Outcome::InputB,
    ),
    (
        b"module m(a, b, x, y); input a, b; output x, y; buf (x, a), (y, a); endmodule",
        Outcome::Outputs(2),
    ),
];

#[test]
fn cared_netlists(rt: HostRuntime) -> Result<(), Fail> {
    for (care, expected) in &CARES {
        let outcome = cared_outcome(&rt, rt.alloc(), care)?;
        assert!(rt; outcome == *expected, "at {care:?}");
    }
    Ok(())
}
