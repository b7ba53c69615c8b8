//! References of targets, guessed by simulation: functions of an implementation's inputs with which it is right at all patterns that
//! were tried. What is found is a proposal, which is asked elsewhere.
#![tactic(auto)]

mod bounds;
mod choosing;
mod finding;
mod form;
mod grouping;
mod guessing;
mod making;
mod opened;
mod patterns;
mod ranking;
mod rows;
mod simulating;
mod trial;
mod wanted;

pub use eco_meaning::OutOfMemory;
pub use grouping::groups;
pub use guessing::guess;
pub use opened::{Hints, Opened};
