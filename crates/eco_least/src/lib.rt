//! Cheaper bases of a target than the greedy choice: lists of signals that tell all known inputs apart, of which the lightest is
//! tried first, and what any base costs at least. The definitions are in `specs/`.
#![tactic(auto)]

mod account;
mod asking;
mod bounding;
mod choosing;
mod improving;
mod lists;
mod pool;
mod sights;
mod walks;
mod weighed;

pub use choosing::{Cheap, light, within};
pub use eco_pose::Unfinished;
