//! The merging of a patch's nodes: equal and complementary nodes of a graph, and constant ones, become one, and none are
//! left but where a search gave up. The definitions are in `specs/`.
#![tactic(auto)]

mod claim;
mod edges;
mod entries;
mod findings;
mod loose;
mod merging;
mod question;
mod row;
mod signature;

pub use eco_meaning::OutOfMemory;
pub use edges::{Swept, sweep};
pub use loose::Loose;
