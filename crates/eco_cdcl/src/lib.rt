//! A search for models and refutations that watches two literals of each clause, and may ask a guide what to decide. The
//! definitions are in `specs/`.
#![tactic(auto)]

mod choice;
mod code;
mod entry;
mod guide;
mod lists;
mod pair;
mod pairs;
mod search;
mod turn;
mod visit;
mod watched;
mod watching;

pub use eco_meaning::OutOfMemory;
pub use guide::{Advice, Guide, Silent};
pub use watched::{Guided, Watched};
