//! Patch netlists in two forms: the fixed form of edges of a graph, and the form whose gates are given by lines.
#![tactic(auto)]

mod checking;
mod gates;
mod graph;
mod join;
mod line;
mod line_gates;
mod line_nets;
mod nets;
mod places;
mod prefixes;
mod readiness;
mod roots;
mod walking;
mod wires;
mod wiring;
mod writing;

pub use checking::is_line;
pub use eco_meaning::{Kind, OutOfMemory};
pub use graph::patch_netlist;
pub use line::Line;
pub use roots::Roots;
pub use wiring::netted_edges;
pub use writing::written_patch;
