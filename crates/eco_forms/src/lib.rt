//! The form in which a graph's edges are written as gates: which node has a gate of its own, of which kind, and which
//! complement has one. What is made is a hint, which is checked line by line where it is written.
#![tactic(auto)]

mod groups;
mod leaves;
mod plan;
mod planning;
mod shapes;
mod signs;
mod writing;

pub use eco_meaning::OutOfMemory;
pub use eco_splice::Line;
pub use planning::{count, lines};
