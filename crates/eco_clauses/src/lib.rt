//! Clauses written one behind the other: those of gates of each kind, over new variables. The definitions are in `specs/`.
#![tactic(auto)]

mod clauses;
mod gates;
mod numbering;

pub use clauses::{add_clause, add_conjunction, add_disjunction, add_parity, fresh, fresh_xor};
pub use eco_meaning::OutOfMemory;
pub use eco_trace::{Cnf, Lit};
pub use gates::{add_gates, add_kind, term_literal, term_literals};
pub use numbering::{fresh_literals, literals_at};
