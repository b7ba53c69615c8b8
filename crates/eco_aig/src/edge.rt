//! Edges of a graph.

ghost use Rattle.std.proofs.Common.{rules};
ghost use Rattle.std.specs.Hash as fed;
ghost use Rattle.std.specs.Prelude.{◌≡◌, ℕ, Bool, not};
ghost use Rattle.eco_aig.specs.Edges.{word};

use std::hash::{Hash, Hasher};

/// An edge to a node of a graph. Its bit is that of the node, or the complement of it.
#[derive(Clone, Copy, PartialEq, Eq)]
pub struct Edge {
    pub node: u64,
    pub complemented: bool,
}

impl Edge {
    ghost use Rattle.eco_aig.specs.Edges.{complement, value_of};

    /// The edge whose bit is always 0.
    pub const ZERO: Edge = Edge {
        node: 0,
        complemented: false,
    };

    /// The edge whose bit is always 1.
    pub const ONE: Edge = Edge {
        node: 0,
        complemented: true,
    };

    /// The edge to the same node with the other sign.
    pub fn not(self) -> Edge
        ensures sign { result ≡ complement self }
        ensures value { (w : ℕ → Bool) → value_of w result ≡ not (value_of w self) }
    {
        Edge {
            node: self.node,
            complemented: !self.complemented,
        }
    }

    /// The number of the node.
    pub fn node(self) -> u64
        ensures { result ≡ self.node }
    {
        self.node
    }

    /// Whether the bit is the complement of the node's.
    pub fn complemented(self) -> bool
        ensures { result ≡ self.complemented }
    {
        self.complemented
    }

    /// The number and the sign in one word.
    fn word(self) -> u64
        ensures { result ≡ word self }
    {
        if self.complemented {
            u64::MAX - self.node
        } else {
            self.node
        }
    }
}

// An edge is fed as one word: a table of nodes is asked once for each gate.
impl Hash for Edge {
    ghost hash_input = { λ edge. fed.u64 (word edge) };

    ghost respects_eq = { Prim.search rules };

    fn hash<H: Hasher>(&self, state: &mut H) {
        self.word().hash(state);
    }
}
