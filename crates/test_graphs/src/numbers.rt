//! Clauses as numbers, as DIMACS CNF writes them.

use eco_trace::{Cnf, Lit};
use std::alloc::Global;
use std::test::Fail;

/// The literal's variable, negative where the literal is a complement.
fn number(lit: Lit) -> Result<i64, Fail> {
    let var = i64::try_from(lit.var.0)?;
    Ok(if lit.positive { var } else { -var })
}

/// Puts the numbers of a clause behind the others, and a 0.
pub(crate) fn push_numbers(numbers: &mut Vec<i64>, lits: &[Lit]) -> Result<(), Fail> {
    for lit in lits {
        numbers.push(number(*lit)?)?;
    }
    Ok(numbers.push(0)?)
}

/// The numbers of all clauses, with a 0 behind each.
pub(crate) fn numbers_of(alloc: Global, cnf: &Cnf) -> Result<Vec<i64>, Fail> {
    let mut numbers = Vec::new(alloc);
    for clause in cnf.clauses() {
        push_numbers(&mut numbers, clause.lits())?;
    }
    Ok(numbers)
}
