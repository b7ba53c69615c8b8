//! Clauses, their models, and proofs by resolution: every learnt clause is kept with the chain that gives it, so that
//! a proof is legal by its type. The definitions are in `specs/`.
#![tactic(auto)]

mod clause;
mod cnf;
mod kept;
mod merge;
mod model;
mod node;
mod reach;
mod refuter;
mod resolve;
mod trace;
mod variables;

pub use clause::{Clause, Lit, Var, shifted_lits};
pub use cnf::Cnf;
pub use eco_meaning::OutOfMemory;
pub use kept::KeptTrace;
pub use model::{Model, satisfies};
pub use node::{Link, NodeId};
pub use reach::core_of;
pub use refuter::{Refuter, Verdict};
pub use trace::Trace;
pub use variables::{Variables, variables_of};
