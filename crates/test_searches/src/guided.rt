//! Guides that talk nonsense change no answer, and a guide is listened to.

use crate::asking::{Said, asked};
use crate::formulas::{Dice, lit, random};
use crate::puzzles::{Puzzle, formula_of};
use crate::tests::PUZZLES;
use crate::watching::{FORMULAS, FOUR_PIGEONS, formula};
use eco_cdcl::{Advice, Guide, Guided, Watched};
use eco_learn::Trail;
use eco_trace::{Cnf, Lit, OutOfMemory};
use std::alloc::Global;
use std::test::Fail;

/// What a guide asks for.
#[derive(Clone, Copy)]
enum Wish {
    /// The first literal that is known, once more.
    Known,
    /// The opposite of that.
    Opposite,
    /// The variable 0.
    Zero,
    /// A variable beyond the last.
    Beyond,
    /// Always the same literal.
    Same,
    /// To begin again.
    Restart,
    /// To begin again, and some literal, by turns.
    Both,
}

const WISHES: [Wish; 7] = [
    Wish::Known,
    Wish::Opposite,
    Wish::Zero,
    Wish::Beyond,
    Wish::Same,
    Wish::Restart,
    Wish::Both,
];

/// A guide that has one wish.
#[derive(Drop)]
struct Wishing {
    wish: Wish,
    turn: u64,
}

impl Guide for Wishing {
    fn begin(&mut self, _alloc: Global, _cnf: &Cnf) -> Result<(), OutOfMemory> {
        Ok(())
    }

    fn advise(&mut self, trail: &Trail) -> Result<Advice, OutOfMemory> {
        self.turn = self.turn.wrapping_add(1);
        Ok(advice_of(self.wish, self.turn, trail))
    }

    fn learnt(&mut self) {}
}

fn advice_of(wish: Wish, turn: u64, trail: &Trail) -> Advice {
    let known = first_known(trail);
    match wish {
        Wish::Known => Advice::Decide(known),
        Wish::Opposite => Advice::Decide(known.complement()),
        Wish::Zero => Advice::Decide(lit(0, turn % 2 == 0)),
        Wish::Beyond => Advice::Decide(lit(trail.vars().saturating_add(turn), turn % 2 == 0)),
        Wish::Same => Advice::Decide(lit(1, true)),
        Wish::Restart => Advice::Restart,
        Wish::Both => {
            if turn % 2 == 0 {
                Advice::Restart
            } else {
                Advice::Decide(lit(turn % 8, turn % 3 == 0))
            }
        }
    }
}

/// The first literal that is known, or one of no variable where none is.
fn first_known(trail: &Trail) -> Lit {
    match trail.lits().first() {
        None => lit(0, true),
        Some(known) => *known,
    }
}

/// What the search says with a guide that has this wish.
fn said_with(alloc: Global, wish: Wish, cnf: &Cnf, limit: u64) -> Result<Said, OutOfMemory> {
    asked(
        alloc,
        &mut Guided::new(Wishing { wish, turn: 0 }),
        cnf,
        limit,
    )
}

/// With how many of the wishes the search says this.
fn saying(alloc: Global, cnf: &Cnf, limit: u64, said: Said) -> Result<usize, OutOfMemory> {
    let mut count = 0usize;
    for wish in &WISHES {
        if said_with(alloc, *wish, cnf, limit)? == said {
            count = count.wrapping_add(1);
        }
    }
    Ok(count)
}

/// A random formula of a few variables.
fn drawn(alloc: Global, dice: &mut Dice) -> Result<Cnf, OutOfMemory> {
    let vars = dice.roll(12).wrapping_add(3);
    let clauses = vars.wrapping_mul(4).wrapping_add(dice.roll(8));
    random(alloc, dice, vars, clauses, 3)
}

/// Whether the search says the same of the clauses with each wish as without a guide, and nothing wrong.
fn is_unmoved(alloc: Global, cnf: &Cnf) -> Result<bool, OutOfMemory> {
    let alone = asked(alloc, &mut Watched::new(), cnf, 1000)?;
    let count = saying(alloc, cnf, 1000, alone)?;
    Ok(alone != Said::Wrong && count == WISHES.len())
}

/// The same of the next random formula.
fn next_is_unmoved(alloc: Global, dice: &mut Dice) -> Result<bool, OutOfMemory> {
    let cnf = drawn(alloc, dice)?;
    let is_unmoved = is_unmoved(alloc, &cnf);
    drop(cnf);
    is_unmoved
}

/// Of how many random formulas that holds.
fn unmoved(alloc: Global, rounds: u64) -> Result<u64, OutOfMemory> {
    let mut dice = Dice::new(2);
    let mut count = 0u64;
    for _round in 0..rounds {
        if next_is_unmoved(alloc, &mut dice)? {
            count = count.wrapping_add(1);
        }
    }
    Ok(count)
}

#[test]
fn nonsense_changes_no_answer(rt: HostRuntime) {
    assert_eq!(rt; unmoved(rt.alloc(), 60), Ok(60));
}

/// With how many wishes the search says this of a random formula, within one learnt clause.
fn next_saying(alloc: Global, dice: &mut Dice, said: Said) -> Result<usize, OutOfMemory> {
    let cnf = drawn(alloc, dice)?;
    let count = saying(alloc, &cnf, 1, said);
    drop(cnf);
    count
}

/// How often the search says this of random formulas, with all wishes.
fn saying_of_all(alloc: Global, rounds: u64, said: Said) -> Result<usize, OutOfMemory> {
    let mut dice = Dice::new(3);
    let mut count = 0usize;
    for _round in 0..rounds {
        count = count.wrapping_add(next_saying(alloc, &mut dice, said)?);
    }
    Ok(count)
}

#[test]
fn what_nonsense_leads_to_is_fresh(rt: HostRuntime) -> Result<(), Fail> {
    assert_eq!(rt; saying_of_all(rt.alloc(), 60, Said::Wrong)?, 0);
    assert!(rt; saying_of_all(rt.alloc(), 60, Said::Spent)? > 60);
    Ok(())
}

/// With how many wishes the search says this of the puzzle.
fn puzzle_saying(
    alloc: Global,
    puzzle: Puzzle,
    limit: u64,
    said: Said,
) -> Result<usize, OutOfMemory> {
    let cnf = formula_of(alloc, puzzle)?;
    let count = saying(alloc, &cnf, limit, said);
    drop(cnf);
    count
}

#[test]
fn puzzles_with_nonsense(rt: HostRuntime) {
    for (puzzle, limit, said) in &PUZZLES {
        assert_eq!(rt;
            puzzle_saying(rt.alloc(), *puzzle, *limit, *said),
            Ok(WISHES.len()),
            "within {limit}"
        );
    }
}

/// With how many wishes the search says this of the clauses.
fn clauses_saying(
    alloc: Global,
    vars: u64,
    clauses: &[&[i64]],
    limit: u64,
    said: Said,
) -> Result<usize, OutOfMemory> {
    let cnf = formula(alloc, vars, clauses)?;
    let count = saying(alloc, &cnf, limit, said);
    drop(cnf);
    count
}

#[test]
fn clauses_by_hand_with_nonsense(rt: HostRuntime) {
    for (vars, clauses, limit, said) in &FORMULAS {
        assert_eq!(rt;
            clauses_saying(rt.alloc(), *vars, clauses, *limit, *said),
            Ok(WISHES.len()),
            "{vars} variables within {limit}"
        );
    }
}

/// How often a guide was told what, or asked.
#[derive(Clone, Copy, PartialEq, Eq)]
struct Seen {
    begun: u64,
    learnt: u64,
    /// Asked at level 0.
    low: u64,
    /// Asked at level 1, which the literal that it asked for had begun.
    followed: u64,
}

/// A guide that asks for the first variable, then for a new beginning.
#[derive(Drop)]
struct Seeing<'s> {
    seen: &'s mut Seen,
}

impl Guide for Seeing<'_> {
    fn begin(&mut self, _alloc: Global, _cnf: &Cnf) -> Result<(), OutOfMemory> {
        self.seen.begun = self.seen.begun.wrapping_add(1);
        Ok(())
    }

    fn advise(&mut self, trail: &Trail) -> Result<Advice, OutOfMemory> {
        if trail.level() == 0 {
            self.seen.low = self.seen.low.wrapping_add(1);
            return Ok(Advice::Decide(lit(1, true)));
        }
        if trail.level() == 1 && first_known(trail) == lit(1, true) {
            self.seen.followed = self.seen.followed.wrapping_add(1);
        }
        Ok(Advice::Restart)
    }

    fn learnt(&mut self) {
        self.seen.learnt = self.seen.learnt.wrapping_add(1);
    }
}

/// What the guide saw in a search of the clauses, and what the search said.
fn seen_of(alloc: Global, cnf: &Cnf, limit: u64) -> Result<(Said, Seen), OutOfMemory> {
    let mut seen = Seen {
        begun: 0,
        learnt: 0,
        low: 0,
        followed: 0,
    };
    let said = asked(
        alloc,
        &mut Guided::new(Seeing { seen: &mut seen }),
        cnf,
        limit,
    )?;
    Ok((said, seen))
}

/// The same of three variables without clauses.
fn seen_of_none(alloc: Global) -> Result<(Said, Seen), OutOfMemory> {
    let cnf = Cnf::new(alloc, 3);
    let seen = seen_of(alloc, &cnf, 1);
    drop(cnf);
    seen
}

/// What the search said of four pigeons in three holes, and of how many learnt clauses the guide was told.
fn learnt_of_pigeons(alloc: Global, limit: u64) -> Result<(Said, u64), OutOfMemory> {
    let cnf = formula(alloc, 12, &FOUR_PIGEONS)?;
    let told = seen_of(alloc, &cnf, limit);
    drop(cnf);
    let (said, seen) = told?;
    Ok((said, seen.learnt))
}

// Over three variables a guide may have the search begin again 64 times between one learnt clause and the next.
#[test]
fn a_guide_is_listened_to(rt: HostRuntime) {
    let seen = Seen {
        begun: 1,
        learnt: 0,
        low: 65,
        followed: 65,
    };
    assert!(rt; seen_of_none(rt.alloc()) == Ok((Said::Model, seen)));
    assert!(rt; learnt_of_pigeons(rt.alloc(), 2) == Ok((Said::Spent, 2)));
}
