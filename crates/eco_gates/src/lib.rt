//! Gates over the numbers of nets: an order in which they can be evaluated or a circle of them, their values,
//! their fan-out, and numbers spread along it. The definitions are in `specs/`.
#![tactic(auto)]

mod gate;
mod ordering;
mod reach;
mod spread;
mod values;
mod walk;
mod words;

pub use eco_meaning::{Kind, OutOfMemory};
pub use gate::{Gate, NetId, Term, Terms};
pub use ordering::{Arranged, arrange};
pub use reach::fan_out;
pub use spread::{spread_greatest, spread_least};
pub use values::fill;
pub use words::fill_words;
