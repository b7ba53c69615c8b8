//! The plain search: unit propagation by scans of all clauses, and learning. It is what faster searches are compared
//! with. The definitions are in `specs/`.
#![tactic(auto)]

mod judge;
mod propagate;
mod rounds;
mod scan;

pub use scan::Scan;
