//! The reader of structural Verilog: from bytes to a checked netlist.
//!
//! The grammar is a part of IEEE 1364-2005, annex A: one module of declarations and primitive gates. The tokens are
//! those of `eco_tokens`; what a text declares is judged by `eco_netlist`.
#![tactic(auto)]

mod assignment;
mod assigns;
mod cursor;
mod declare;
mod error;
mod expression;
mod gates;
mod header;
mod law;
mod lists;
mod named;
mod operators;
mod parse;
mod prefix;
mod reader;
mod tree;
mod words;

pub use eco_netlist::{Netlist, Refusal, TargetRule};
pub use eco_tokens::{Token, TokenKind};
pub use error::ReadError;
pub use law::reads_once;
pub use reader::{read, tokens};
