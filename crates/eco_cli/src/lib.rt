//! The program as a library: from the words of the command line and a store of files to the files that are written,
//! the text that is printed, the exit status and the question that was given up, where one was.
#![tactic(auto)]

mod answer;
mod audit;
mod choice;
mod cutting;
mod delivery;
mod draw;
mod found;
mod locate;
mod printing;
mod prove;
mod recheck;
mod spent;
mod standing;
mod synth;
mod top;

pub use eco_targets::{Event, Listener, Way};
pub use standing::Standing;
pub use top::{Outcome, run, run_heard};
