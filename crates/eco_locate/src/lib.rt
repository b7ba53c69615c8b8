//! Which single nets of a netlist can be cut so that it meets a new specification. Each net that a gate drives is listed, or an input
//! is told that excludes it, or its question was given up. Those that are listed can be ranked. Or whether given nets can be cut
//! together, and which of them are needed for it. The definitions are in `specs/`.
#![tactic(auto)]

mod answer;
mod choosing;
mod comparing;
mod cone;
mod covering;
mod excluded;
mod judging;
mod laws;
mod locating;
mod progress;
mod ranking;
mod readers;
mod sifting;
mod sorting;

pub use answer::{Answer, Excluding, Located, Open};
pub use choosing::{Choice, Need, check_choice};
pub use eco_pose::{Stuck, Unfinished};
pub use excluded::excluded_nets;
pub use laws::judged_nets_are_located;
pub use locating::locate;
pub use ranking::Ranked;
pub use sorting::ranked;
