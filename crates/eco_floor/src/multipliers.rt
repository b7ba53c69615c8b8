//! Lagrange multipliers of the rows, by rounds of subgradient ascent. All of it is free: they say in which amounts a packing
//! begins.

use crate::row::Row;
use eco_meaning::OutOfMemory;
use std::alloc::Global;

/// The parts of a unit of weight that multipliers are counted in.
const PARTS: u64 = 256;

/// How many rounds of ascent there are.
const ROUNDS: u64 = 800;

/// How many columns of rows all rounds together may read.
const READS: u64 = 400_000_000;

/// For each row the amount that it takes at first: the multipliers of the highest bound that was found on the way to `best`.
pub(crate) fn caps(
    alloc: Global,
    rows: &[Row],
    weights: &[u32],
    best: u64,
) -> Result<Vec<u32>, OutOfMemory> {
    let goal = best.saturating_mul(PARTS);
    let mut multipliers = vec![in alloc; 0; rows.len()]?;
    let mut found = vec![in alloc; 0; rows.len()]?;
    let mut highest: u64 = 0;
    let rounds = rounds_for(rows);
    for round in 0..rounds {
        let loads = loads(alloc, rows, multipliers.as_slice(), weights.len())?;
        let bound = sum(multipliers.as_slice()).saturating_sub(overload(loads.as_slice(), weights));
        if bound > highest {
            highest = bound;
            found = Vec::from_slice(alloc, multipliers.as_slice())?;
        }
        if bound >= goal {
            break;
        }
        let share = goal
            .saturating_sub(bound)
            .saturating_mul(rounds.saturating_sub(round));
        let length = quotient(share, rounds);
        step(
            alloc,
            &mut multipliers,
            rows,
            loads.as_slice(),
            weights,
            length,
        )?;
    }
    in_units(alloc, found.as_slice())
}

/// One round of ascent, of this length.
fn step(
    alloc: Global,
    multipliers: &mut Vec<u64>,
    rows: &[Row],
    loads: &[u64],
    weights: &[u32],
    length: u64,
) -> Result<(), OutOfMemory> {
    let covers = covers(alloc, rows, loads, weights)?;
    let amount = quotient(length, norm(covers.as_slice()));
    ascend(multipliers, covers.as_slice(), amount);
    Ok(())
}

/// How many rounds these rows may have.
fn rounds_for(rows: &[Row]) -> u64 {
    let mut columns: u64 = 1;
    for row in rows {
        columns = columns.saturating_add(row.columns().len() as u64);
    }
    quotient(READS, columns).min(ROUNDS)
}

/// The quotient, or 0 where the divisor is.
fn quotient(number: u64, divisor: u64) -> u64 {
    match number.checked_div(divisor) {
        None => 0,
        Some(quotient) => quotient,
    }
}

/// The sum of the multipliers.
fn sum(multipliers: &[u64]) -> u64 {
    let mut sum: u64 = 0;
    for multiplier in multipliers {
        sum = sum.saturating_add(*multiplier);
    }
    sum
}

/// For each column the sum of the multipliers of its rows.
fn loads(
    alloc: Global,
    rows: &[Row],
    multipliers: &[u64],
    width: usize,
) -> Result<Vec<u64>, OutOfMemory> {
    let mut loads = vec![in alloc; 0; width]?;
    for (row, multiplier) in rows.iter().zip(multipliers) {
        load(&mut loads, row, *multiplier);
    }
    Ok(loads)
}

/// Adds the multiplier to the loads of the row's columns.
fn load(loads: &mut Vec<u64>, row: &Row, multiplier: u64) {
    for column in row.columns() {
        if let Some(load) = loads.get_mut(*column) {
            *load = load.saturating_add(multiplier);
        }
    }
}

/// The sum of what columns bear beyond their weights.
fn overload(loads: &[u64], weights: &[u32]) -> u64 {
    let mut sum: u64 = 0;
    for (load, weight) in loads.iter().zip(weights) {
        sum = sum.saturating_add(load.saturating_sub(u64::from(*weight).saturating_mul(PARTS)));
    }
    sum
}

/// For each row how many of its columns bear more than their weights.
fn covers(
    alloc: Global,
    rows: &[Row],
    loads: &[u64],
    weights: &[u32],
) -> Result<Vec<u64>, OutOfMemory> {
    let mut covers = Vec::with_capacity(alloc, rows.len())?;
    for row in rows {
        covers.push(overloaded(row, loads, weights))?;
    }
    Ok(covers)
}

/// How many columns of the row bear more than their weights.
fn overloaded(row: &Row, loads: &[u64], weights: &[u32]) -> u64 {
    let mut count: u64 = 0;
    for column in row.columns() {
        if is_overloaded(*column, loads, weights) {
            count = count.saturating_add(1);
        }
    }
    count
}

/// Whether the column bears more than its weight.
fn is_overloaded(column: usize, loads: &[u64], weights: &[u32]) -> bool {
    match loads.get(column) {
        None => false,
        Some(load) => match weights.get(column) {
            None => false,
            Some(weight) => *load > u64::from(*weight).saturating_mul(PARTS),
        },
    }
}

/// The sum of the squares of the differences of these numbers from 1.
fn norm(covers: &[u64]) -> u64 {
    let mut norm: u64 = 0;
    for cover in covers {
        let difference = if *cover == 0 {
            1
        } else {
            cover.saturating_sub(1)
        };
        norm = norm.saturating_add(difference.saturating_mul(difference));
    }
    norm
}

/// Raises the multipliers of rows that no overloaded column covers by the amount, and lowers those of rows that several do.
fn ascend(multipliers: &mut Vec<u64>, covers: &[u64], amount: u64) {
    for (multiplier, cover) in multipliers.iter_mut().zip(covers) {
        let raised = multiplier.saturating_add(if *cover == 0 { amount } else { 0 });
        *multiplier = raised.saturating_sub(amount.saturating_mul(cover.saturating_sub(1)));
    }
}

/// The multipliers in units of weight, rounded up.
fn in_units(alloc: Global, multipliers: &[u64]) -> Result<Vec<u32>, OutOfMemory> {
    let mut units = Vec::with_capacity(alloc, multipliers.len())?;
    for multiplier in multipliers {
        units.push(unit(*multiplier))?;
    }
    Ok(units)
}

/// The multiplier in units of weight, rounded up.
fn unit(multiplier: u64) -> u32 {
    match u32::try_from(multiplier.saturating_add(PARTS - 1) / PARTS) {
        Ok(units) => units,
        Err(_) => u32::MAX,
    }
}
