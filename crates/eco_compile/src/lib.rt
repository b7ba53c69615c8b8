//! From netlists to graphs: an edge for each net, with the net's value; and edges that say whether a netlist does what is asked
//! of it: over one copy of the inputs stand the netlist, the specification and the cared netlist, and their outputs are
//! compared (a miter). The definitions are in `specs/`.
#![tactic(auto)]

mod binding;
mod bound;
mod gates;
mod goals;
mod join;
mod nets;
mod valued;
mod wrong;

pub use binding::edges_to_bind;
pub use eco_aig::{Aig, Edge};
pub use eco_meaning::OutOfMemory;
pub use eco_netlist::{NetId, Netlist};
pub use goals::{GoalEdges, goal_edges};
pub use nets::compile;
pub use valued::{picked_edges, valued_edges};
pub use wrong::{miter, miters_tell, targets_determine};
