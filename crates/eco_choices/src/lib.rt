//! Choices of nets that are to be cut: what is meant by them, and theorems on them that need no code. Each main one is the
//! contract of a small function without effect, and its lemma is public.
#![tactic(auto)]

mod sifting;
mod single;

pub use sifting::nets_are_sifted;
pub use single::{choices_have_parts, gates_are_left_out, outputs_are_asked, turned_nets_tell};
