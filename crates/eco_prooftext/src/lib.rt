//! The texts of clauses (DIMACS CNF) and of proofs, written and read. The definitions are in `specs/`.
#![tactic(auto)]

mod error;
mod law;
mod numbers;
mod reader;
mod trace_line;
mod trace_reader;
mod words;
mod writer;

pub use error::{CnfError, TraceError};
pub use law::{checks, clauses_read_back, reads_back, says_once};
pub use reader::read_cnf;
pub use trace_reader::read_trace;
pub use writer::{write_cnf, write_trace};
