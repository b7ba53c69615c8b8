//! What simulation keeps of a node.

/// An operand: the place of the node that stands for it, and its sign.
#[derive(Clone, Copy)]
pub(crate) struct Wire {
    pub slot: usize,
    pub complemented: bool,
}

/// Where a node's words come from.
#[derive(Clone, Copy)]
pub(crate) enum Source {
    Constant,
    Input,
    Conjunction(Wire, Wire),
}

/// A node that stands for itself, and the place of the next one that looks equal.
#[derive(Clone, Copy)]
pub(crate) struct Cell {
    pub node: u64,
    pub source: Source,
    pub next: Option<usize>,
}

/// What became of a node.
#[derive(Clone, Copy)]
pub(crate) enum Mark {
    /// It wasn't treated.
    Open,
    /// Another node stands for it.
    Merged,
    /// It stands for itself, and this is its place.
    Held(usize),
}
