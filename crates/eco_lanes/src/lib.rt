//! Many nets turned at one input: which of them make all outputs as they are wanted, 64 nets in the lanes of one pass. The
//! definitions are in `specs/`.
#![tactic(auto)]

mod lanes;
mod mending;
mod sifting;
mod turning;

pub use mending::mended;
pub use sifting::{Sifted, sift};
pub use turning::fill_turned;
