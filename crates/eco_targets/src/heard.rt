//! A search whose questions are heard.

use bumpalo::Bump;
use eco_netlist::OutOfMemory;
use eco_progress::{Event, Listener};
use eco_trace::{Cnf, Refuter, Verdict};
use std::alloc::Global;

/// A search, and a listener that hears of each question that is put to it.
#[derive(Drop)]
pub(crate) struct Heard<'a, R, L> {
    refuter: &'a mut R,
    listener: &'a mut L,
    /// How many questions were put so far.
    asked: u64,
}

impl<'a, R: Refuter, L: Listener> Heard<'a, R, L> {
    /// The search, of which nothing was asked yet.
    pub(crate) fn new(refuter: &'a mut R, listener: &'a mut L) -> Self {
        Heard {
            refuter,
            listener,
            asked: 0,
        }
    }
}

impl<'a, R: Refuter, L: Listener> Refuter for Heard<'a, R, L> {
    fn refute<'t>(
        &mut self,
        alloc: Global,
        cnf: &Cnf,
        limit: u64,
        arena: &'t Bump,
    ) -> Result<Verdict<'t>, OutOfMemory> {
        self.asked = self.asked.saturating_add(1);
        self.listener.hear(Event::Question { number: self.asked });
        self.refuter.refute(alloc, cnf, limit, arena)
    }
}

impl<'a, R: Refuter, L: Listener> Listener for Heard<'a, R, L> {
    fn hear(&mut self, event: Event) {
        self.listener.hear(event);
    }
}
