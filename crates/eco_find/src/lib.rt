//! Finding the base of a target in one of several ways: the greedy choice, that choice within an effort, or a base of little cost.
//! The definitions are in `specs/`.
#![tactic(auto)]

mod ways;

pub use eco_pose::Unfinished;
pub use ways::{Found, Way, find};
