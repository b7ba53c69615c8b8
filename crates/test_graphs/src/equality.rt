//! Small netlists, and their clauses as numbers.

use crate::netlists::netlists;
use crate::numbers::{numbers_of, push_numbers};
use eco_equality::{EqualityClauses, equality_clauses, have_same_ports, is_closed};
use eco_netlist::Netlist;
use std::alloc::Global;
use std::test::Fail;

/// The number of variables, the numbers of the inputs, and those of the clauses.
fn numbers_of_made(alloc: Global, made: &EqualityClauses) -> Result<Vec<i64>, Fail> {
    let mut numbers = vec![in alloc; i64::try_from(made.cnf.vars())?]?;
    push_numbers(&mut numbers, made.inputs.as_slice())?;
    numbers.extend_from_slice(numbers_of(alloc, &made.cnf)?.as_slice())?;
    Ok(numbers)
}

/// These numbers of the clauses whose models are the inputs at which the netlists differ; none where these can't be compared.
fn equality_numbers(alloc: Global, left: &Netlist, right: &Netlist) -> Result<Vec<i64>, Fail> {
    if !have_same_ports(left, right) || !is_closed(left) || !is_closed(right) {
        return Ok(Vec::new(alloc));
    }
    let made = equality_clauses(alloc, left, right)?;
    let numbers = numbers_of_made(alloc, &made);
    drop(made);
    numbers
}

/// The same numbers for the netlists of these texts.
fn numbers_of_texts(alloc: Global, left: &[u8], right: &[u8]) -> Result<Vec<i64>, Fail> {
    let both = netlists(alloc, &[left, right])?;
    match both.as_slice() {
        [left, right] => equality_numbers(alloc, left, right),
        _ => Ok(Vec::new(alloc)),
    }
}

/// A conjunction against gates of another kind, and a chain with a constant against a repeated input.
const PAIRS: [(&[u8], &[u8], &[i64]); 2] = [
    (
        b"module g(a, b, y); input a, b; output y; and (y, a, b); endmodule",
        b"module g(a, b, y); input a, b; output y; nand (n, b, a); not (y, n); endmodule",
        &[
            7, 2, 3, 0, 1, 0, 2, -4, 0, 3, -4, 0, -2, -3, 4, 0, 3, 6, 0, 2, 6, 0, -2, -3, -6, 0, 5,
            6, 0, -5, -6, 0, 4, 5, -7, 0, -4, -5, -7, 0, -4, 5, 7, 0, 4, -5, 7, 0, 7, 0,
        ],
    ),
    (
        b"module g(a, b, y); input a, b; output y; xor (y, a, b, 1'b1); endmodule",
        b"module h(y, b, a); output y; input b, a; xnor (y, a, a); endmodule",
        &[
            7, 2, 3, 0, 1, 0, 2, 3, -6, 0, -2, -3, -6, 0, -2, 3, 6, 0, 2, -3, 6, 0, 1, -4, 6, 0,
            -1, -4, -6, 0, 1, 4, -6, 0, -1, 4, 6, 0, 2, 5, 0, -2, 5, 0, 4, 5, -7, 0, -4, -5, -7, 0,
            -4, 5, 7, 0, 4, -5, 7, 0, 7, 0,
        ],
    ),
];

#[test]
fn numbers_of_equality(rt: HostRuntime) -> Result<(), Fail> {
    for (left, right, numbers) in &PAIRS {
        let made = numbers_of_texts(rt.alloc(), left, right)?;
        assert_eq!(rt; made.as_slice(), *numbers);
    }
    Ok(())
}
