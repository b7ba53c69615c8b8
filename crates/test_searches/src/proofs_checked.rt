//! Proofs of small sets of clauses, step by step.

use crate::formulas::{add, finished, lit};
use bumpalo::Bump;
use eco_check::{CheckError, Step, check};
use eco_trace::{Cnf, OutOfMemory};
use std::alloc::Global;
use std::test::Fail;

/// The clauses (1) and (-1).
fn opposites(alloc: Global) -> Result<Cnf, OutOfMemory> {
    let mut cnf = Cnf::new(alloc, 1);
    let added = add_opposites(alloc, &mut cnf);
    finished(cnf, added)
}

fn add_opposites(alloc: Global, cnf: &mut Cnf) -> Result<(), OutOfMemory> {
    let _ = add(alloc, cnf, &[lit(1, true)])?;
    let _ = add(alloc, cnf, &[lit(1, false)])?;
    Ok(())
}

/// The clause that is empty, of one variable.
fn empty(alloc: Global) -> Result<Cnf, OutOfMemory> {
    let mut cnf = Cnf::new(alloc, 1);
    let added = add_empty(alloc, &mut cnf);
    finished(cnf, added)
}

fn add_empty(alloc: Global, cnf: &mut Cnf) -> Result<(), OutOfMemory> {
    let _ = add(alloc, cnf, &[])?;
    Ok(())
}

/// The number of nodes of the proof that the steps give, or why they are none.
fn nodes_of(alloc: Global, cnf: &Cnf, steps: &[Step]) -> Result<u64, CheckError> {
    let arena = Bump::new(alloc);
    let nodes = match check(alloc, cnf, steps, &arena) {
        Ok(trace) => {
            let nodes = trace.len();
            drop(trace);
            Ok(nodes)
        }
        Err(error) => Err(error),
    };
    drop(arena);
    nodes
}

/// One step.
fn step(alloc: Global, start: u64, links: &[(u64, u64)]) -> Result<Vec<Step>, OutOfMemory> {
    let links = Vec::from_slice(alloc, links)?;
    let mut steps = Vec::new(alloc);
    steps.push(Step { start, links })?;
    Ok(steps)
}

/// The number of nodes of the proof that one step gives from the opposites, or why it is none.
fn outcome(alloc: Global, start: u64, links: &[(u64, u64)]) -> Result<u64, CheckError> {
    let steps = step(alloc, start, links)?;
    let cnf = opposites(alloc)?;
    let nodes = nodes_of(alloc, &cnf, steps.as_slice());
    drop(cnf);
    nodes
}

/// The same of no steps from these clauses.
fn outcome_of_none(alloc: Global, cnf: Cnf) -> Result<u64, CheckError> {
    let nodes = nodes_of(alloc, &cnf, &[]);
    drop(cnf);
    nodes
}

/// Whether two outcomes are the same.
fn is_same(one: Result<u64, CheckError>, other: Result<u64, CheckError>) -> bool {
    match (one, other) {
        (Ok(one), Ok(other)) => one == other,
        (Err(CheckError::BadStep(one)), Err(CheckError::BadStep(other))) => one == other,
        (Err(CheckError::NoEmptyClause), Err(CheckError::NoEmptyClause)) => true,
        _ => false,
    }
}

/// Steps, each with the number of nodes of its proof, or why it is none.
const STEPS: [(u64, &[(u64, u64)], Result<u64, CheckError>); 8] = [
    (1, &[(1, 2)], Ok(3)),
    (1, &[(1, 1)], Err(CheckError::BadStep(1))),
    (1, &[(2, 2)], Err(CheckError::BadStep(1))),
    (1, &[(1, 3)], Err(CheckError::BadStep(1))),
    (0, &[(1, 2)], Err(CheckError::BadStep(1))),
    (1, &[(1, 0)], Err(CheckError::BadStep(1))),
    (2, &[(1, 2)], Err(CheckError::BadStep(1))),
    (2, &[], Err(CheckError::NoEmptyClause)),
];

#[test]
fn steps(rt: HostRuntime) -> Result<(), Fail> {
    for (start, links, expected) in &STEPS {
        assert!(rt; is_same(outcome(rt.alloc(), *start, links), *expected));
    }
    Ok(())
}

#[test]
fn no_steps(rt: HostRuntime) -> Result<(), Fail> {
    let none = Cnf::new(rt.alloc(), 9223372036854775807);
    assert!(rt;
        is_same(
            outcome_of_none(rt.alloc(), none),
            Err(CheckError::NoEmptyClause)
        )
    );
    let empty = empty(rt.alloc())?;
    assert!(rt; is_same(outcome_of_none(rt.alloc(), empty), Ok(1)));
    Ok(())
}
