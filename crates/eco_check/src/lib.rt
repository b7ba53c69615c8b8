//! Checks proofs that come from outside: each step by itself, and that the last clause is empty. The definitions are in
//! `specs/`.
#![tactic(auto)]

mod checker;
mod error;
mod step;

pub use checker::check;
pub use error::CheckError;
pub use step::Step;
