//! Problems that are drawn: a netlist of gates with two inputs each, of which a few are cut loose. The whole netlist is the
//! specification, and what is left the implementation, so that the gates that were cut rectify it.
#![tactic(auto)]

mod cutting;
mod draws;
mod files;
mod naming;
mod nets;
mod pairing;
mod unread;
mod weighing;

pub use eco_meaning::OutOfMemory;
pub use eco_query::Problem;
pub use files::{InstanceFiles, instance};
pub use pairing::problem;

/// A drawn netlist has this many inputs.
pub const INPUTS: u64 = 16;

/// It has at most this many gates, those to its output ports apart.
pub const MOST_GATES: u64 = 100_000;

/// At most this many of them are cut loose.
pub const MOST_CUTS: u64 = 8;
