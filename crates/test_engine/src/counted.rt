//! A search whose questions are counted.

use bumpalo::Bump;
use eco_cdcl::Watched;
use eco_meaning::OutOfMemory;
use eco_trace::{Cnf, Refuter, Verdict};
use std::alloc::Global;

/// The search that watches literals, and how often it was asked.
#[derive(Drop)]
pub struct Counted {
    count: u64,
}

impl Counted {
    /// The search, of which nothing was asked yet.
    pub fn new() -> Counted {
        Counted { count: 0 }
    }

    /// How many questions it was asked.
    pub fn count(&self) -> u64 {
        self.count
    }
}

impl Refuter for Counted {
    fn refute<'t>(
        &mut self,
        alloc: Global,
        cnf: &Cnf,
        limit: u64,
        arena: &'t Bump,
    ) -> Result<Verdict<'t>, OutOfMemory> {
        self.count = self.count.wrapping_add(1);
        Watched::new().refute(alloc, cnf, limit, arena)
    }
}
