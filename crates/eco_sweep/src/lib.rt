//! Sweeping: nodes of a graph that are equal under all inputs, or each other's complements, are merged. What is merged
//! was asked of a search, so an edge's image has its value. The definitions are in `specs/`.
#![tactic(auto)]

mod cell;
mod cone;
mod difference;
mod part;
mod question;
mod row;
mod sweeper;
mod words;

pub use eco_meaning::OutOfMemory;
pub use sweeper::Sweeper;
