//! What each patch costs at least, by tuples of inputs: whether one clashes, which signals are steady over it, and the bound that
//! the rows of the others give. The definitions are in `specs/`.
#![tactic(auto)]

mod asking;
mod bounding;
mod posing;
mod rows;
mod target_graph;

pub use asking::{Clash, clashes};
pub use bounding::{Aim, bound_by};
pub use eco_floor::Row;
pub use eco_meaning::{Bits, OutOfMemory};
pub use eco_query::Problem;
pub use posing::pose_clash;
pub use rows::steady_row;
