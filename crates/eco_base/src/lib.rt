//! The base of a target: the greedy choice of the signals that its function reads. The definitions are in `specs/`.
#![tactic(auto)]

mod based;
mod choosing;
mod conflicting;
mod judging;
mod known;
mod order;
mod resting;
mod separating;
mod side;
mod stage;
mod state;
mod stepping;
mod target;
mod values;
mod walking;

pub use based::Based;
pub use choosing::{Chosen, choose};
pub use eco_meaning::Bits;
pub use eco_pose::Unfinished;
pub use known::Known;
pub use separating::Pair;
pub use target::Target;
pub use walking::Plan;
