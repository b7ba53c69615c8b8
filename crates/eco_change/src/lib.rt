//! A change that is asked of a netlist without targets: the netlist as it was, and the specification that it is to meet; what its
//! outputs are to be at an input, and the inputs at which they are wrong. The definitions are in `specs/`.
#![tactic(auto)]

mod asked;
mod change;
mod failing;
mod posing;
mod reading;
mod simulating;

pub use asked::{asked_at, wrong_at};
pub use change::{Change, change_of};
pub use eco_meaning::Bits;
pub use eco_query::PairError;
pub use failing::{Failing, failing_at};
pub use posing::cut_problem;
pub use simulating::simulated;
