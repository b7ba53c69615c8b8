//! The functions of an implementation's first targets, kept as edges of one graph, and the patch in which they stand. The
//! definitions are in `specs/`.
#![tactic(auto)]

mod between;
mod choosing;
mod functions;
mod grafting;
mod improving;
mod inputs;
mod laws;
mod measured;
mod parts;
mod replacement;
mod shorter;
mod sizes;
mod two_parts;

pub use eco_meaning::OutOfMemory;
pub use functions::Functions;
pub use laws::no_more_gates;
pub use two_parts::TwoParts;
