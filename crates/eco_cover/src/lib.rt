//! The columns that a greedy choice keeps to tell two sets of rows of bits apart. The definitions are in `specs/`.
#![tactic(auto)]

mod choice;
mod classes;
mod needed;
mod row;

pub use choice::Kept;
pub use eco_meaning::OutOfMemory;
pub use needed::next;
pub use row::Row;
