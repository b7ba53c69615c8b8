//! From target to target: the functions that targets have so far, and the step to the next one's. The definitions are in
//! `specs/`.
#![tactic(auto)]

mod extending;
mod laws;
mod listening;
mod progress;
mod reporting;

pub use eco_base::Target;
pub use eco_find::Way;
pub use eco_meaning::OutOfMemory;
pub use laws::{needed_signals_are_read, targets_go_on};
pub use listening::{Event, Listener, Silent, tell};
pub use progress::{Beginning, Progress, advance, start, start_again};
