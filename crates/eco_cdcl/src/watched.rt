//! The search as a refuter, alone and with a guide.

ghost use Rattle.std.specs.Prelude.{◌≤◌, IfOk};
ghost use Rattle.eco_trace.specs.Verdicts.{IsVerdict};

use crate::guide::{Guide, Silent};
use crate::search::Search;
use crate::turn::Ending;
use bumpalo::Bump;
use eco_meaning::OutOfMemory;
use eco_trace::{Cnf, Refuter, Trace, Verdict};
use std::alloc::Global;

/// A search that watches two literals of each clause, learns a clause from each conflict and keeps them all. There is no
/// memory for 2^31 - 1 variables or more, nor for 2^32 clauses or more, the learnt ones among them.
#[derive(Drop)]
pub struct Watched {}

impl Watched {
    /// The search.
    pub fn new() -> Watched {
        Watched {}
    }
}

impl Refuter for Watched {
    fn refute<'t>(
        &mut self,
        alloc: Global,
        cnf: &Cnf,
        limit: u64,
        arena: &'t Bump,
    ) -> Result<Verdict<'t>, OutOfMemory> {
        let mut silent = Silent {};
        searched(&mut silent, alloc, cnf, limit, arena)
    }
}

/// The same search with a guide: what the guide asks for is decided before what the search would decide by itself.
#[derive(Drop)]
pub struct Guided<G> {
    guide: G,
}

impl<G> Guided<G> {
    /// The search with this guide.
    pub fn new(guide: G) -> Guided<G> {
        Guided { guide }
    }
}

impl<G: Guide> Refuter for Guided<G> {
    fn refute<'t>(
        &mut self,
        alloc: Global,
        cnf: &Cnf,
        limit: u64,
        arena: &'t Bump,
    ) -> Result<Verdict<'t>, OutOfMemory> {
        self.guide.begin(alloc, cnf)?;
        searched(&mut self.guide, alloc, cnf, limit, arena)
    }
}

/// What the search finds with this guide, to which it was already said that a search of these clauses begins.
fn searched<'t, G: Guide>(
    guide: &mut G,
    alloc: Global,
    cnf: &Cnf,
    limit: u64,
    arena: &'t Bump,
) -> Result<Verdict<'t>, OutOfMemory>
    requires { 1 ≤ limit }
    ensures { IfOk result (IsVerdict cnf.now limit) }
{
    let _clauses = cnf.clauses();
    let mut trace = Trace::new(alloc, arena, cnf)?;
    let mut search = match Search::new(alloc, cnf.vars()) {
        Ok(search) => search,
        Err(error) => {
            drop(trace);
            return Err(error);
        }
    };
    match search.ending(guide, &mut trace, limit) {
        Ok(Ending::Model) => {
            drop(trace);
            let model = search.watching.trail.model(alloc);
            drop(search);
            Ok(Verdict::Sat(model?))
        }
        Ok(Ending::Empty) => {
            drop(search);
            Ok(Verdict::Unsat(trace))
        }
        Ok(Ending::Limit) => {
            drop(search);
            Ok(Verdict::Spent(trace))
        }
        Err(error) => {
            drop(search);
            drop(trace);
            Err(error)
        }
    }
}
