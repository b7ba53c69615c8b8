//! How many questions have an answer.

use std::process::Abort;

/// How many questions have an answer, and how many have none.
#[derive(Clone, Copy)]
pub struct Tally {
    found: u64,
    never: u64,
}

impl Tally {
    /// No question.
    pub fn new() -> Tally {
        Tally { found: 0, never: 0 }
    }

    /// One more question, which has an answer or none.
    pub fn note(&mut self, is_found: bool) {
        if is_found {
            self.found = self.found.wrapping_add(1);
        } else {
            self.never = self.never.wrapping_add(1);
        }
    }

    /// Stops the test where fewer than so many questions have an answer, or fewer have none.
    pub fn expect_both(self, rt: &impl Abort, least: u64) {
        assert!(rt; self.found >= least, "{} answers", self.found);
        assert!(rt; self.never >= least, "{} without an answer", self.never);
    }
}
