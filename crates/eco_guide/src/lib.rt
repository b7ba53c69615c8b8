//! A guide for a search that is to prove two netlists equal: it finds the gates in the clauses, simulates them, and has the
//! search prove node by node what looks equal, from the inputs on. Nothing is proved of what it advises.
#![tactic(auto)]

mod candidates;
mod classes;
mod guide;
mod looking;
mod network;
mod pattern;
mod queue;
mod reader;
mod readers;
mod signal;
mod words;

pub use eco_meaning::OutOfMemory;
pub use guide::EqualityGuide;
