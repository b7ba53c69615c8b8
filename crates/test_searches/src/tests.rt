//! Both searches agree.

use crate::asking::{Said, asked};
use crate::formulas::{Dice, chain, random};
use crate::puzzles::{Puzzle, formula_of};
use eco_cdcl::Watched;
use eco_scan::Scan;
use eco_trace::{Cnf, OutOfMemory};
use std::alloc::Global;
use std::test::Fail;

/// How often both searches said what.
#[derive(Clone, Copy)]
struct Tally {
    models: u64,
    refuted: u64,
    spent: u64,
    wrong: u64,
}

/// What both say, the one with watched literals first.
fn both(alloc: Global, cnf: &Cnf, limit: u64) -> Result<(Said, Said), OutOfMemory> {
    let watched = asked(alloc, &mut Watched::new(), cnf, limit)?;
    let scan = asked(alloc, &mut Scan::new(), cnf, limit)?;
    Ok((watched, scan))
}

/// Counts what both said, of which either may be spent.
fn count(tally: &mut Tally, watched: Said, scan: Said) {
    if watched == Said::Wrong || scan == Said::Wrong {
        tally.wrong = tally.wrong.wrapping_add(1);
    } else if watched == Said::Spent || scan == Said::Spent {
        tally.spent = tally.spent.wrapping_add(1);
    } else if watched != scan {
        tally.wrong = tally.wrong.wrapping_add(1);
    } else if watched == Said::Model {
        tally.models = tally.models.wrapping_add(1);
    } else {
        tally.refuted = tally.refuted.wrapping_add(1);
    }
}

fn tally_of(alloc: Global, rounds: u64, limit: u64) -> Result<Tally, OutOfMemory> {
    let mut dice = Dice::new(1);
    let mut tally = Tally {
        models: 0,
        refuted: 0,
        spent: 0,
        wrong: 0,
    };
    for round in 0..rounds {
        let (watched, scan) = both_of_drawn(alloc, &mut dice, round, limit)?;
        count(&mut tally, watched, scan);
    }
    Ok(tally)
}

/// What both say of the round's random formula.
fn both_of_drawn(
    alloc: Global,
    dice: &mut Dice,
    round: u64,
    limit: u64,
) -> Result<(Said, Said), OutOfMemory> {
    let vars = dice.roll(12).wrapping_add(3);
    let clauses = vars.wrapping_mul(4).wrapping_add(round % 8);
    let cnf = random(alloc, dice, vars, clauses, 3)?;
    let said = both(alloc, &cnf, limit);
    drop(cnf);
    said
}

#[test]
fn both_answer_the_same(rt: HostRuntime) -> Result<(), Fail> {
    let tally = tally_of(rt.alloc(), 300, 1000)?;
    assert_eq!(rt; (tally.wrong, tally.spent), (0, 0));
    assert!(rt; tally.models > 50 && tally.refuted > 50);
    Ok(())
}

#[test]
fn what_is_spent_is_fresh(rt: HostRuntime) -> Result<(), Fail> {
    let tally = tally_of(rt.alloc(), 300, 1)?;
    assert!(rt; tally.wrong == 0 && tally.spent > 10);
    Ok(())
}

fn chain_said(alloc: Global, vars: u64) -> Result<Said, OutOfMemory> {
    let cnf = chain(alloc, vars)?;
    let said = asked(alloc, &mut Watched::new(), &cnf, 1);
    drop(cnf);
    said
}

#[test]
fn a_long_chain_of_implications_has_a_model(rt: HostRuntime) {
    assert!(rt; chain_said(rt.alloc(), 100_000) == Ok(Said::Model));
}

fn puzzle_said(alloc: Global, puzzle: Puzzle, limit: u64) -> Result<(Said, Said), OutOfMemory> {
    let cnf = formula_of(alloc, puzzle)?;
    let said = both(alloc, &cnf, limit);
    drop(cnf);
    said
}

/// Puzzles, each with a limit and what both say. A chain of gates is one gate only where it reads all its inputs.
pub(crate) const PUZZLES: [(Puzzle, u64, Said); 11] = [
    (
        Puzzle::Pigeons {
            pigeons: 3,
            holes: 2,
        },
        5000,
        Said::Refuted,
    ),
    (
        Puzzle::Pigeons {
            pigeons: 4,
            holes: 3,
        },
        5000,
        Said::Refuted,
    ),
    (
        Puzzle::Pigeons {
            pigeons: 5,
            holes: 4,
        },
        5000,
        Said::Refuted,
    ),
    (
        Puzzle::Pigeons {
            pigeons: 2,
            holes: 2,
        },
        5000,
        Said::Model,
    ),
    (
        Puzzle::Pigeons {
            pigeons: 3,
            holes: 3,
        },
        5000,
        Said::Model,
    ),
    (
        Puzzle::Pigeons {
            pigeons: 4,
            holes: 4,
        },
        5000,
        Said::Model,
    ),
    (
        Puzzle::Pigeons {
            pigeons: 5,
            holes: 4,
        },
        1,
        Said::Spent,
    ),
    (Puzzle::Circle(5), 5000, Said::Refuted),
    (Puzzle::Circle(6), 5000, Said::Model),
    (Puzzle::Chain(16), 1000, Said::Refuted),
    (Puzzle::Chain(15), 1000, Said::Model),
];

#[test]
fn puzzles(rt: HostRuntime) {
    for (puzzle, limit, said) in &PUZZLES {
        let answers = puzzle_said(rt.alloc(), *puzzle, *limit);
        assert!(rt; answers == Ok((*said, *said)), "within {limit}");
    }
}
