//! What a search asks before it decides.

use eco_learn::Trail;
use eco_meaning::OutOfMemory;
use eco_trace::{Cnf, Lit};
use std::alloc::Global;

/// What a guide asks for where all known literals are propagated.
#[derive(Clone, Copy)]
pub enum Advice {
    /// This literal is to be decided. It is passed over where its variable is none of the search's, or isn't open.
    Decide(Lit),
    /// The search is to begin again from level 0. It is passed over at level 0, and where the search has begun again so
    /// often since it last learnt a clause that it would hardly come to the next one.
    Restart,
    /// Nothing: the search decides by activity.
    Nothing,
}

/// Tells a search what to decide. Whatever it says, the search's answers are right; only how soon they come depends on it.
pub trait Guide {
    /// A search of these clauses begins.
    fn begin(&mut self, alloc: Global, cnf: &Cnf) -> Result<(), OutOfMemory>;

    /// What to do next. All that is known is propagated.
    fn advise(&mut self, trail: &Trail) -> Result<Advice, OutOfMemory>;

    /// A clause was learnt; the search jumps back to a lower level next.
    fn learnt(&mut self);
}

/// The guide that asks for nothing.
#[derive(Drop)]
pub struct Silent {}

impl Guide for Silent {
    fn begin(&mut self, _alloc: Global, _cnf: &Cnf) -> Result<(), OutOfMemory> {
        Ok(())
    }

    fn advise(&mut self, _trail: &Trail) -> Result<Advice, OutOfMemory> {
        Ok(Advice::Nothing)
    }

    fn learnt(&mut self) {}
}
