//! What an audit rules.

use crate::finding::Finding;

/// What is ruled of a report, a patch and a patched netlist.
#[derive(Drop)]
pub enum Ruling {
    /// They solve the problem.
    Sound,
    /// They don't.
    Fails(Finding),
}
