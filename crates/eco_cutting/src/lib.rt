//! Netlists with nets cut: what they are, where they are wrong, and how they are made. The definitions are in `specs/`.
#![tactic(auto)]

mod cut_net;
mod cutting;
mod error;
mod laws;
mod naming;

pub use cut_net::CutNet;
pub use cutting::cut_netlist;
pub use error::CutError;
pub use laws::{cuts_can_be_made, cuts_free_nets};
pub use naming::{cut, cuts_for};
