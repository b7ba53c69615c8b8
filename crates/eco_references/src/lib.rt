//! References of targets: what is meant by them, and theorems on them that need no code. Each is the contract of a small function
//! without effect, and its lemma is public. The definitions are in `specs/`.
#![tactic(auto)]

mod bases;
mod following;

pub use bases::bases_suffice;
pub use following::{references_are_followed, references_show_kept};
