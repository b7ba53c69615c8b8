//! Functions of few inputs that are made smaller: what may stand in place of them is asked of a table.

use crate::bits::{edge_bit, row_bits};
use crate::edges::{and, inputs};
use eco_aig::{Aig, Edge};
use eco_resub::{Attempt, Candidate, OutOfMemory};
use std::alloc::Global;
use std::test::Fail;

/// What a function of so many inputs has to be: 1 at the rows of `on`, 0 at those of `off`. In row 5 the inputs 0 and 2 are 1.
#[derive(Clone, Copy)]
struct Table {
    inputs: u64,
    on: u64,
    off: u64,
}

/// Whether the set has the row.
fn has_row(rows: u64, row: u64) -> bool {
    (rows >> (row & 63)) & 1 == 1
}

/// The bits of the inputs in the row.
fn input_bits(alloc: Global, inputs: u64, row: u64) -> Result<Vec<bool>, OutOfMemory> {
    let mut bits = Vec::new(alloc);
    for input in 0..inputs {
        bits.push(has_row(row, input))?;
    }
    Ok(bits)
}

/// Whether the function is what it has to be in the row.
fn is_right(
    alloc: Global,
    table: &Table,
    candidate: &Candidate,
    row: u64,
) -> Result<bool, OutOfMemory> {
    let bits = row_bits(alloc, &candidate.aig, row)?;
    let bit = edge_bit(bits.as_slice(), candidate.root);
    Ok(!has_row(if bit { table.off } else { table.on }, row))
}

/// The first row in which the function isn't what it has to be.
fn wrong_row(
    alloc: Global,
    table: &Table,
    candidate: &Candidate,
) -> Result<Option<u64>, OutOfMemory> {
    for row in 0..64u64 {
        if !is_right(alloc, table, candidate, row)? {
            return Ok(Some(row));
        }
    }
    Ok(None)
}

/// Tells the attempt what the table says of the candidate. Answers whether it is taken.
fn tell(
    alloc: Global,
    attempt: &mut Attempt,
    table: &Table,
    candidate: &Candidate,
) -> Result<bool, OutOfMemory> {
    match wrong_row(alloc, table, candidate)? {
        None => {
            attempt.taken()?;
            Ok(true)
        }
        Some(row) => {
            let bits = input_bits(alloc, table.inputs, row)?;
            attempt.refused(has_row(table.on, row), bits.as_slice())?;
            Ok(false)
        }
    }
}

/// Asks the next candidate. Answers how many and-nodes it has, if it is taken, else as many as before; nothing at the end.
fn step(
    alloc: Global,
    attempt: &mut Attempt,
    table: &Table,
    size: u64,
) -> Result<Option<u64>, OutOfMemory> {
    match attempt.next()? {
        None => Ok(None),
        Some(candidate) => {
            let is_taken = tell(alloc, attempt, table, &candidate);
            let nodes = candidate.aig.nodes();
            drop(candidate);
            let inputs = table.inputs.saturating_add(1);
            Ok(Some(if is_taken? {
                nodes.saturating_sub(inputs)
            } else {
                size
            }))
        }
    }
}

/// How many and-nodes are left in the end.
fn least(alloc: Global, attempt: &mut Attempt, table: &Table) -> Result<u64, OutOfMemory> {
    let mut size = u64::MAX;
    for _ in 0..2_000u64 {
        let Some(new) = step(alloc, attempt, table, size)? else {
            break;
        };
        size = new;
    }
    Ok(size)
}

/// The conjunction that is 1 in the row alone.
fn row_alone(aig: &mut Aig, inputs: &[Edge], row: u64) -> Result<Edge, OutOfMemory> {
    let mut edge = Edge::ONE;
    for (place, input) in inputs.iter().enumerate() {
        let is_one = has_row(row, place as u64);
        edge = and(aig, edge, if is_one { *input } else { input.not() })?;
    }
    Ok(edge)
}

/// The disjunction of all rows at which the function has to be 1.
fn all_rows(aig: &mut Aig, inputs: &[Edge], on: u64) -> Result<Edge, OutOfMemory> {
    let mut none = Edge::ONE;
    for row in 0..64u64 {
        if has_row(on, row) {
            let alone = row_alone(aig, inputs, row)?;
            none = and(aig, none, alone.not())?;
        }
    }
    Ok(none.not())
}

/// How many and-nodes are left of the disjunction of all rows.
fn left(alloc: Global, table: &Table) -> Result<u64, OutOfMemory> {
    let mut aig = Aig::new(alloc)?;
    let attempt = begun(alloc, &mut aig, table);
    drop(aig);
    let mut attempt = attempt?;
    let size = least(alloc, &mut attempt, table);
    drop(attempt);
    size
}

/// The attempt at the disjunction of all rows.
fn begun(alloc: Global, aig: &mut Aig, table: &Table) -> Result<Attempt, OutOfMemory> {
    let inputs = inputs(alloc, aig, table.inputs)?;
    let root = all_rows(aig, inputs.as_slice(), table.on)?;
    Attempt::new(alloc, aig, &[root])
}

/// Functions, each with how many and-nodes may be left at most.
const TABLES: [(Table, u64); 6] = [
    // It need not be 0 anywhere: a constant.
    (
        Table {
            inputs: 4,
            on: 0x0610,
            off: 0,
        },
        0,
    ),
    // The complement of the last input is what is asked for.
    (
        Table {
            inputs: 4,
            on: 0x00a0,
            off: 0x0500,
        },
        0,
    ),
    // All three inputs, but the rows in which they aren't all 1 matter only where two are 0.
    (
        Table {
            inputs: 3,
            on: 0x80,
            off: 0x17,
        },
        1,
    ),
    // The exclusive disjunction of two inputs, where the third one is 1.
    (
        Table {
            inputs: 3,
            on: 0x60,
            off: 0x90,
        },
        3,
    ),
    // The majority of three.
    (
        Table {
            inputs: 3,
            on: 0xe8,
            off: 0x17,
        },
        4,
    ),
    // The parity of four: three exclusive disjunctions.
    (
        Table {
            inputs: 4,
            on: 0x6996,
            off: 0x9669,
        },
        9,
    ),
];

#[test]
fn functions_are_made_smaller(rt: HostRuntime) -> Result<(), Fail> {
    for (table, most) in &TABLES {
        assert!(rt; left(rt.alloc(), table)? <= *most);
    }
    Ok(())
}
