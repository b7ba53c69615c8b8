//! Nodes of which a search couldn't tell whether they are alike.

use eco_trace::{Cnf, KeptTrace};

/// Two nodes, or one, of which it isn't known whether they are alike: the search for a valuation that tells them apart
/// spent its limit.
#[derive(Drop)]
pub struct Loose {
    /// The number of a node.
    pub node: u64,
    /// The number of the node that it might be like; without one it might be constant.
    pub other: Option<u64>,
    /// Whether the two might be equal, or the node the constant 0; else they might be complementary, or the node the
    /// constant 1.
    pub same: bool,
    /// The clauses that say that they aren't alike.
    pub cnf: Cnf,
    /// What the search learnt from the clauses.
    pub trace: KeptTrace,
}
