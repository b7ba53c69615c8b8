//! Numbers and names as text: decimal numbers that are read, and names that are made where a text doesn't give any.
#![tactic(auto)]

mod digits;
mod names;
mod numbers;

pub use digits::spelled_up_to;
pub use names::{fresh_prefix, name_from, numbered};
pub use numbers::{number_of, number_up_to};
