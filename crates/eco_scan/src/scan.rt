//! The plain search.

ghost use Rattle.std.specs.Prelude.{◌≤◌, IfOk};
ghost use Rattle.eco_trace.specs.Verdicts.{IsVerdict};

use crate::rounds::{Round, play};
use bumpalo::Bump;
use eco_learn::{Learner, Trail};
use eco_meaning::OutOfMemory;
use eco_trace::{Cnf, Refuter, Trace, Verdict};
use std::alloc::Global;

/// The plain search: it scans all clauses for one that forces a literal, decides the first variable of which nothing is
/// known, learns from each clause that is wrong, and goes back to the lowest level at which what was learnt forces a
/// literal. For more than 2^31 - 1 variables there is no memory.
#[derive(Drop)]
pub struct Scan {}

impl Scan {
    /// The plain search.
    pub fn new() -> Scan {
        Scan {}
    }
}

impl Refuter for Scan {
    fn refute<'t>(
        &mut self,
        alloc: Global,
        cnf: &Cnf,
        limit: u64,
        arena: &'t Bump,
    ) -> Result<Verdict<'t>, OutOfMemory> {
        search(alloc, cnf, limit, arena)
    }
}

fn search<'t>(
    alloc: Global,
    cnf: &Cnf,
    limit: u64,
    arena: &'t Bump,
) -> Result<Verdict<'t>, OutOfMemory>
    ensures { IfOk result (IsVerdict cnf.now limit) }
{
    let _ = cnf.clauses();
    let mut trace = Trace::new(alloc, arena, cnf)?;
    let mut trail = Trail::new(alloc, cnf.vars())?;
    let mut learner = Learner::new(alloc, cnf.vars())?;
    for _ in 0..limit {
        match play(alloc, &mut learner, &mut trail, &mut trace)? {
            Round::Sat(model) => return Ok(Verdict::Sat(model)),
            Round::Unsat => return Ok(Verdict::Unsat(trace)),
            Round::Learnt => (),
        }
    }
    Ok(Verdict::Spent(trace))
}
