//! Light hitting sets: columns have weights, rows are sets of columns, and a hitting set has a column of each row.
#![tactic(auto)]

mod problem;
mod repair;
mod rounds;
mod search;

pub use eco_floor::Row;
pub use eco_meaning::OutOfMemory;
pub use rounds::hitting_set;
