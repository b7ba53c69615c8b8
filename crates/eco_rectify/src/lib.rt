//! Whether an implementation can be made right at every input. The definitions are in `specs/`.
#![tactic(auto)]

mod listing;
mod searching;

pub use eco_meaning::Bits;
pub use eco_pose::Unfinished;
pub use listing::{Answer, rectify};
