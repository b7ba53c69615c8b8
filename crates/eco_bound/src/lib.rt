//! What a base costs at least: pairs of inputs that each base has to tell apart, and what is paid for that. The definitions
//! are in `specs/`.
#![tactic(auto)]

mod account;
mod bounding;
mod laws;
mod payers;
mod raising;

pub use bounding::bound;
pub use laws::bound_is_least;
