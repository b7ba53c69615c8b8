//! A model, a refutation and a search that is cut off.

ghost use Rattle.std.specs.Prelude.{◌≤◌};

use crate::formulas::finished;
use bumpalo::Bump;
use eco_scan::Scan;
use eco_trace::{Clause, Cnf, Lit, Model, OutOfMemory, Refuter, Var, Verdict, satisfies};
use std::alloc::Global;

/// What a search answers.
#[derive(Clone, Copy, PartialEq, Eq)]
enum Answer {
    /// A model, and whether it satisfies the clauses.
    Model(bool),
    /// A proof with this many learnt clauses, the last of which is empty or not.
    Proof(u64, bool),
}

fn add(alloc: Global, cnf: &mut Cnf, lits: Vec<Lit>) -> Result<bool, OutOfMemory> {
    match Clause::new(alloc, lits)? {
        None => Ok(false),
        Some(clause) => cnf.try_add(clause),
    }
}

/// The literal that one pigeon sits in one hole, or doesn't.
fn sits(pigeon: u64, hole: u64, holes: u64, positive: bool) -> Lit {
    let number = pigeon
        .wrapping_mul(holes)
        .wrapping_add(hole)
        .wrapping_add(1);
    Lit {
        var: Var(number),
        positive,
    }
}

/// The pigeon sits somewhere.
fn sits_somewhere(
    alloc: Global,
    cnf: &mut Cnf,
    pigeon: u64,
    holes: u64,
) -> Result<bool, OutOfMemory> {
    let mut lits = Vec::new(alloc);
    for hole in 0..holes {
        lits.push(sits(pigeon, hole, holes, true))?;
    }
    add(alloc, cnf, lits)
}

/// No two pigeons sit in the hole.
fn at_most_one(
    alloc: Global,
    cnf: &mut Cnf,
    pigeons: u64,
    hole: u64,
    holes: u64,
) -> Result<(), OutOfMemory> {
    for one in 0..pigeons {
        for other in 0..one {
            let both = [
                sits(one, hole, holes, false),
                sits(other, hole, holes, false),
            ];
            let _ = add(alloc, cnf, Vec::from_slice(alloc, &both)?)?;
        }
    }
    Ok(())
}

/// Each pigeon sits in a hole, and no two in one.
fn pigeons_in(alloc: Global, pigeons: u64, holes: u64) -> Result<Cnf, OutOfMemory> {
    let mut cnf = Cnf::new(alloc, pigeons.wrapping_mul(holes));
    let seated = seat(alloc, &mut cnf, pigeons, holes);
    finished(cnf, seated)
}

fn seat(alloc: Global, cnf: &mut Cnf, pigeons: u64, holes: u64) -> Result<(), OutOfMemory> {
    for pigeon in 0..pigeons {
        let _ = sits_somewhere(alloc, cnf, pigeon, holes)?;
    }
    for hole in 0..holes {
        at_most_one(alloc, cnf, pigeons, hole, holes)?;
    }
    Ok(())
}

fn holds(model: &Model, cnf: &Cnf) -> bool {
    cnf.vars() <= model.len() && satisfies(model, cnf)
}

fn ask(alloc: Global, cnf: &Cnf, limit: u64) -> Result<Answer, OutOfMemory>
    requires { 1 ≤ limit }
{
    let arena = Bump::new(alloc);
    let answer = match Scan::new().refute(alloc, cnf, limit, &arena) {
        Ok(verdict) => {
            let answer = answer_of(&verdict, cnf);
            drop(verdict);
            Ok(answer)
        }
        Err(error) => Err(error),
    };
    drop(arena);
    answer
}

fn answer_of(verdict: &Verdict<'_>, cnf: &Cnf) -> Answer {
    match verdict {
        Verdict::Sat(model) => Answer::Model(holds(model, cnf)),
        Verdict::Unsat(proof) => Answer::Proof(0, proof.ends_empty()),
        Verdict::Spent(proof) => Answer::Proof(
            proof.len().saturating_sub(proof.originals()),
            proof.ends_empty(),
        ),
    }
}

/// What the search answers of so many pigeons in so many holes.
fn answer_of_pigeons(
    alloc: Global,
    pigeons: u64,
    holes: u64,
    limit: u64,
) -> Result<Answer, OutOfMemory>
    requires { 1 ≤ limit }
{
    let cnf = pigeons_in(alloc, pigeons, holes)?;
    let answer = ask(alloc, &cnf, limit);
    drop(cnf);
    answer
}

/// Pigeons, holes, by how much the limit is above 1, and the answer.
const PIGEONS: [(u64, u64, u32, Answer); 5] = [
    (4, 4, 4999, Answer::Model(true)),
    (5, 4, 4999, Answer::Proof(0, true)),
    (5, 4, 0, Answer::Proof(1, false)),
    (1, 0, 0, Answer::Proof(0, true)),
    (0, 0, 0, Answer::Model(true)),
];

#[test]
fn pigeons(rt: HostRuntime) {
    for (pigeons, holes, more, expected) in &PIGEONS {
        let limit = u64::from(*more) + 1;
        let answer = answer_of_pigeons(rt.alloc(), *pigeons, *holes, limit);
        assert!(rt; answer == Ok(*expected), "{pigeons} pigeons, {holes} holes");
    }
}
