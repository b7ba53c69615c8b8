//! The problem that is to be solved: an implementation with targets, a specification with the same ports, perhaps a netlist
//! that tells which inputs are cared, and the weights of the signals that a patch may read.
#![tactic(auto)]

mod inputs;
mod order;
mod ports;
mod problem;

pub use eco_meaning::{Name, OutOfMemory};
pub use eco_netlist::{NetId, Netlist};
pub use eco_weight::Weights;
pub use ports::unlike_port;
pub use problem::{PairError, Problem, fit, pair};

/// A problem has at most this many targets.
pub const MOST_TARGETS: u64 = 16;

/// An implementation has at most this many nets, so that a sum of weights fits 64 bits.
pub const MOST_NETS: u64 = 4_294_967_295;
