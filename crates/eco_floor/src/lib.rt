//! Least weights of hitting sets: columns have weights, rows are sets of columns, and a hitting set has a column of each
//! row. The definitions are in `specs/`.
#![tactic(auto)]

mod bounding;
mod decision;
mod hints;
mod multipliers;
mod packing;
mod row;
mod search;

pub use bounding::bound;
pub use eco_meaning::OutOfMemory;
pub use row::Row;
pub use search::floor;
