//! Whether a function over the shared variables of clauses in two parts has a part's mark in each model of that part. The
//! definitions are in `specs/`.
#![tactic(auto)]

mod judge;
mod part;
mod posing;
mod search;

pub use eco_meaning::OutOfMemory;
pub use judge::{Judge, Judgement};
