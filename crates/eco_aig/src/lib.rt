//! And-inverter graphs: nodes are the constant 0, inputs, and conjunctions of two earlier edges, each of which may be
//! complemented. No two nodes are equal. The definitions are in `specs/`.
#![tactic(auto)]

mod edge;
mod graph;
mod images;
mod input_graph;
mod marks;
mod node;
mod operators;
mod reach;
mod simple;
mod values;

pub use eco_meaning::OutOfMemory;
pub use edge::Edge;
pub use graph::Aig;
pub use images::Images;
pub use input_graph::{inputs_stay, new_graph};
pub use marks::Marks;
pub use reach::reached;
