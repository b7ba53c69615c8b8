//! Smaller functions in place of a given one, by resubstitution on simulated patterns. What is found is a proposal, which is asked
//! elsewhere.
#![tactic(auto)]

mod attempt;
mod divisors;
mod emitting;
mod finding;
mod network;
mod observing;
mod patterns;
mod search;
mod signature;

pub use attempt::{Attempt, Candidate};
pub use eco_meaning::OutOfMemory;
