//! What conflict-driven searches share: the trail of the literals that are taken to be true, with their reasons, and
//! learning from a clause that is wrong. The definitions are in `specs/`.
#![tactic(auto)]

mod asserting;
mod chain;
mod choosing;
mod learner;
mod lesson;
mod marking;
mod minimising;
mod order;
mod taken;
mod trail;
mod var_set;

pub use eco_meaning::OutOfMemory;
pub use learner::Learner;
pub use lesson::{Assertion, Lesson};
pub use order::Order;
pub use taken::Truth;
pub use trail::Trail;
