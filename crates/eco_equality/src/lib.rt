//! Equality clauses: those whose models are the inputs at which an output of two netlists differs. The definitions are
//! in `specs/`.
#![tactic(auto)]

mod differences;
mod equality;
mod nets;
mod numbering;
mod ports;

pub use eco_meaning::OutOfMemory;
pub use eco_netlist::Netlist;
pub use eco_trace::{Cnf, Lit};
pub use equality::{EqualityClauses, equality_clauses};
pub use ports::{have_same_ports, is_closed};
