//! Checked netlists: declarations are collected in a `Draft`, whose `finish` gives a `Netlist` or the refusal that
//! they deserve; a netlist is loop-free by its type.
#![tactic(auto)]

mod behind;
mod circle;
mod draft;
mod finish;
mod fitting;
mod making;
mod names;
mod netlist;
mod numbering;
mod placing;
mod plain;
mod reach;
mod reasons;
mod refusal;
mod refusal_kind;
mod sameness;
mod splicing;
mod tally;
mod target;
mod values;

pub use draft::{Draft, FinishError, TargetRule};
pub use eco_gates::{Gate, NetId, Term, Terms};
pub use eco_meaning::{Bits, Kind, Name, Operand, OutOfMemory};
pub use fitting::{least_taken, misfit};
pub use netlist::Netlist;
pub use reasons::Misfit;
pub use refusal::{Names, Refusal};
pub use splicing::splice;
