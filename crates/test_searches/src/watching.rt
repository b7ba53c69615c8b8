//! Clauses by hand, and formulas at the edge.

use crate::asking::{Said, asked};
use crate::formulas::{add, finished, lit};
use eco_cdcl::Watched;
use eco_trace::{Cnf, Lit, OutOfMemory};
use std::alloc::Global;

/// The formula of these clauses, each literal being written as the number of its variable, with a minus where it is negated.
pub(crate) fn formula(alloc: Global, vars: u64, clauses: &[&[i64]]) -> Result<Cnf, OutOfMemory> {
    let mut cnf = Cnf::new(alloc, vars);
    let added = add_all(alloc, &mut cnf, clauses);
    finished(cnf, added)
}

fn add_all(alloc: Global, cnf: &mut Cnf, clauses: &[&[i64]]) -> Result<(), OutOfMemory> {
    for numbers in clauses {
        let lits = lits_of(alloc, numbers)?;
        let _ = add(alloc, cnf, lits.as_slice())?;
    }
    Ok(())
}

fn lits_of(alloc: Global, numbers: &[i64]) -> Result<Vec<Lit>, OutOfMemory> {
    let mut lits = Vec::new(alloc);
    for number in numbers {
        lits.push(lit(number.unsigned_abs(), *number > 0))?;
    }
    Ok(lits)
}

/// Four pigeons in three holes: pigeon p sits in hole h where variable 3p + h is true, for p from 0 and h from 1.
pub(crate) const FOUR_PIGEONS: [&[i64]; 22] = [
    &[1, 2, 3],
    &[4, 5, 6],
    &[7, 8, 9],
    &[10, 11, 12],
    &[-1, -4],
    &[-1, -7],
    &[-1, -10],
    &[-4, -7],
    &[-4, -10],
    &[-7, -10],
    &[-2, -5],
    &[-2, -8],
    &[-2, -11],
    &[-5, -8],
    &[-5, -11],
    &[-8, -11],
    &[-3, -6],
    &[-3, -9],
    &[-3, -12],
    &[-6, -9],
    &[-6, -12],
    &[-9, -12],
];

/// The same of three pigeons.
const THREE_PIGEONS: [&[i64]; 12] = [
    &[1, 2, 3],
    &[4, 5, 6],
    &[7, 8, 9],
    &[-1, -4],
    &[-1, -7],
    &[-4, -7],
    &[-2, -5],
    &[-2, -8],
    &[-5, -8],
    &[-3, -6],
    &[-3, -9],
    &[-6, -9],
];

fn said_of(alloc: Global, vars: u64, clauses: &[&[i64]], limit: u64) -> Result<Said, OutOfMemory> {
    let cnf = formula(alloc, vars, clauses)?;
    let said = asked(alloc, &mut Watched::new(), &cnf, limit);
    drop(cnf);
    said
}

/// Numbers of variables with clauses, a limit, and what the search says.
pub(crate) const FORMULAS: [(u64, &[&[i64]], u64, Said); 7] = [
    (12, &FOUR_PIGEONS, 1000, Said::Refuted),
    (12, &FOUR_PIGEONS, 1, Said::Spent),
    (12, &FOUR_PIGEONS, 2, Said::Spent),
    (9, &THREE_PIGEONS, 1000, Said::Model),
    (3, &[], 1, Said::Model),
    (2, &[&[1, 2], &[], &[-2]], 1, Said::Refuted),
    (2, &[&[1], &[-1, 2], &[-2]], 1, Said::Refuted),
];

#[test]
fn clauses_by_hand(rt: HostRuntime) {
    for (vars, clauses, limit, said) in &FORMULAS {
        let answer = said_of(rt.alloc(), *vars, clauses, *limit);
        assert!(rt; answer == Ok(*said), "{vars} variables within {limit}");
    }
}
