//! Merging by linear algebra: nodes of a graph that are parities of the same nodes have one edge, however the parities are
//! put together. The definitions are in `specs/`.
#![tactic(auto)]

mod atoms;
mod forms;
mod index;
mod pattern;

pub use eco_meaning::OutOfMemory;
pub use forms::Forms;
