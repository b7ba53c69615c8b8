//! The reader of specifications in ASCII AIGER: from bytes to a checked netlist.
//!
//! The form is the project's own profile of ASCII AIGER: a header of five numbers without latches, a line for each
//! input, output and and-gate, perhaps symbols, and perhaps a comment. What a text declares is judged by `eco_netlist`.
#![tactic(auto)]

mod declare;
mod error;
mod judge;
mod law;
mod lines;
mod literals;
mod naming;
mod numbers;
mod parts;
mod reader;
mod sections;
mod sets;
mod symbols;
mod tree;

pub use eco_netlist::{Netlist, Refusal};
pub use error::AigerError;
pub use law::{maps_of_a_text, reads_once, refused_once};
pub use reader::read;
