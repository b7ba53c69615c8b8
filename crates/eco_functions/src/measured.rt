//! A search that may learn only so many clauses for all its questions together.

use bumpalo::Bump;
use eco_meaning::OutOfMemory;
use eco_trace::{Cnf, Refuter, Verdict};
use std::alloc::Global;

// What a question counts beside the clauses that its proof learnt, where it has a model: no proof tells how many they were.
const MODEL: u64 = 100;

// So many clauses of a question count as much as one that is learnt, since they have to be read.
const READ: usize = 1_000;

/// A search, and what is left of its effort.
#[derive(Drop)]
pub(crate) struct Measured<'a, R> {
    refuter: &'a mut R,
    left: u64,
}

impl<'a, R: Refuter> Measured<'a, R> {
    /// The search, which may learn about so many clauses.
    pub(crate) fn new(refuter: &'a mut R, left: u64) -> Self {
        Measured { refuter, left }
    }

    /// It may learn so many clauses more.
    pub(crate) fn earn(&mut self, more: u64) {
        self.left = self.left.saturating_add(more);
    }

    /// Whether nothing is left.
    pub(crate) fn is_spent(&self) -> bool {
        self.left == 0
    }
}

impl<'a, R: Refuter> Refuter for Measured<'a, R> {
    fn refute<'t>(
        &mut self,
        alloc: Global,
        cnf: &Cnf,
        limit: u64,
        arena: &'t Bump,
    ) -> Result<Verdict<'t>, OutOfMemory> {
        let read = cnf.clauses().len() / READ;
        let verdict = self.refuter.refute(alloc, cnf, limit, arena)?;
        let effort = effort_of(&verdict).saturating_add(read as u64);
        self.left = self.left.saturating_sub(effort);
        Ok(verdict)
    }
}

// What the search for a verdict took, in learnt clauses.
fn effort_of(verdict: &Verdict<'_>) -> u64 {
    match verdict {
        Verdict::Sat(_) => MODEL,
        Verdict::Unsat(trace) => trace.len().saturating_sub(trace.originals()),
        Verdict::Spent(trace) => trace.len().saturating_sub(trace.originals()),
    }
}
