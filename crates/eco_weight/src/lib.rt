//! The file of signal weights: each line has a name and a decimal weight, or is blank.
//!
//! The format is this project's own: `docs/FORMATS.md` has it in words, `specs/Lines.antt` and
//! `specs/Files.antt` as definitions.
#![tactic(auto)]

mod error;
mod gathered;
mod line;
mod reader;
mod weights;
mod words;

pub use eco_meaning::{Name, OutOfMemory};
pub use error::WeightError;
pub use line::says_once;
pub use reader::read;
pub use weights::Weights;
