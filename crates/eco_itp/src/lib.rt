//! Interpolants: from a refutation of clauses in two parts, A and B, an edge of a graph that is 1 wherever A has a
//! model and 0 wherever B has one, and that depends on what occurs in both parts alone. The definitions are in
//! `specs/`.
#![tactic(auto)]

mod chain;
mod cover;
mod leaf;
mod parts;
mod refutation;

pub use cover::covers;
pub use eco_meaning::OutOfMemory;
pub use refutation::interpolate;
