//! What a reader of the other crates' contracts has to believe: gates and netlists over names, their values,
//! loops and fan-out, when a netlist is right, what a patch is and what it costs. The definitions are in
//! `specs/`; the few types that they share with code are here.
#![tactic(auto)]

mod bits;
mod kind;
mod memory;
mod name;

pub use bits::Bits;
pub use kind::Kind;
pub use memory::OutOfMemory;
pub use name::{Name, Operand};
