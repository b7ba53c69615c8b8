//! Clauses put together, and random formulas.

use eco_trace::{Clause, Cnf, Lit, OutOfMemory, Var};
use std::alloc::Global;

/// Numbers that look random, by a linear congruence modulo 2^64.
#[derive(Drop)]
pub struct Dice {
    state: u64,
}

impl Dice {
    pub fn new(seed: u64) -> Dice {
        Dice { state: seed }
    }

    /// A number below `sides`, or 0 where there are none.
    pub fn roll(&mut self, sides: u64) -> u64 {
        self.state = self
            .state
            .wrapping_mul(6364136223846793005)
            .wrapping_add(1442695040888963407);
        if sides == 0 {
            0
        } else {
            (self.state >> 33) % sides
        }
    }
}

/// The literal that a file writes as this number, `positive` being its sign.
pub fn lit(number: u64, positive: bool) -> Lit {
    Lit {
        var: Var(number),
        positive,
    }
}

/// Adds the clause of these literals, if it is one and its variables are at most those of the others.
pub fn add(alloc: Global, cnf: &mut Cnf, lits: &[Lit]) -> Result<bool, OutOfMemory> {
    match Clause::new(alloc, Vec::from_slice(alloc, lits)?)? {
        None => Ok(false),
        Some(clause) => cnf.try_add(clause),
    }
}

/// A formula of so many clauses, of at most `width` literals each, over the variables from 1 to `vars`. One clause in
/// sixteen has just one literal.
pub fn random(
    alloc: Global,
    dice: &mut Dice,
    vars: u64,
    count: u64,
    width: u64,
) -> Result<Cnf, OutOfMemory> {
    let mut cnf = Cnf::new(alloc, vars);
    let drawn = draw(alloc, &mut cnf, dice, count, width);
    finished(cnf, drawn)
}

/// Adds so many random clauses.
fn draw(
    alloc: Global,
    cnf: &mut Cnf,
    dice: &mut Dice,
    count: u64,
    width: u64,
) -> Result<(), OutOfMemory> {
    for _clause in 0..count {
        let lits = literals(alloc, dice, cnf.vars(), width)?;
        let _ = add(alloc, cnf, lits.as_slice())?;
    }
    Ok(())
}

/// The formula, where all its clauses could be added.
pub fn finished(cnf: Cnf, added: Result<(), OutOfMemory>) -> Result<Cnf, OutOfMemory> {
    match added {
        Ok(()) => Ok(cnf),
        Err(error) => {
            drop(cnf);
            Err(error)
        }
    }
}

/// The first variable is true, and each implies the next one.
pub fn chain(alloc: Global, vars: u64) -> Result<Cnf, OutOfMemory> {
    let mut cnf = Cnf::new(alloc, vars);
    let linked = link(alloc, &mut cnf);
    finished(cnf, linked)
}

fn link(alloc: Global, cnf: &mut Cnf) -> Result<(), OutOfMemory> {
    let _ = add(alloc, cnf, &[lit(1, true)])?;
    for number in 1..cnf.vars() {
        let step = [lit(number.wrapping_add(1), true), lit(number, false)];
        let _ = add(alloc, cnf, &step)?;
    }
    Ok(())
}

fn literals(
    alloc: Global,
    dice: &mut Dice,
    vars: u64,
    width: u64,
) -> Result<Vec<Lit>, OutOfMemory> {
    let short = dice.roll(16) == 0;
    let mut lits = Vec::new(alloc);
    for place in 0..width {
        if !short || place == 0 {
            lits.push(literal(dice, vars))?;
        }
    }
    Ok(lits)
}

fn literal(dice: &mut Dice, vars: u64) -> Lit {
    let number = dice.roll(vars);
    lit(number.wrapping_add(1), dice.roll(2) == 0)
}
