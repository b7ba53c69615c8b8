//! Clauses of a graph: each node that an encoded edge reaches has a variable and the clauses that give the variable
//! the node's value (the encoding of Tseitin). And clauses that ask for inputs: for one at which some edges of a graph are 1, or
//! for two, each with a graph and edges of its own that are 1, at which base edges have equal values. They are made of the nodes
//! that these edges reach. The definitions are in `specs/`.
#![tactic(auto)]

mod encode;
mod encoder;
mod joining;
mod marked;
mod sides;
mod variables;

pub use eco_meaning::OutOfMemory;
pub use encode::encode_side;
pub use encoder::Encoder;
pub use joining::join;
pub use sides::{EncodedSide, OneSide, TwoSides, one_side};
