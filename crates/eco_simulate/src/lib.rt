//! Numbers that look random, and words of simulation, which have the bits of 64 inputs at a time.
#![tactic(auto)]

mod congruence;
mod split_mix;
mod words;

pub use congruence::Congruence;
pub use split_mix::{SplitMix, drawn_from, mixed};
pub use words::{mask_of, sign_of, turned};
