//! Nodes that clauses say to be the same.

use crate::signal::Signal;
use eco_meaning::OutOfMemory;
use std::alloc::Global;

/// No node stands deeper below the one that stands for its class.
const DEPTH: usize = 64;

/// Classes of nodes that are the same or complements: each node points to another one of its class, or to itself, which
/// then stands for the class.
#[derive(Drop)]
pub(crate) struct Classes {
    parents: Vec<Signal>,
    sizes: Vec<usize>,
}

impl Classes {
    /// No nodes.
    pub(crate) fn new(alloc: Global) -> Classes {
        Classes {
            parents: Vec::new(alloc),
            sizes: Vec::new(alloc),
        }
    }

    /// So many nodes, each a class of its own.
    pub(crate) fn begin(&mut self, nodes: usize) -> Result<(), OutOfMemory> {
        self.parents.clear();
        self.sizes.clear();
        for node in 0..nodes {
            self.parents.push(Signal::plain(node))?;
            self.sizes.push(1)?;
        }
        Ok(())
    }

    /// How many nodes there are.
    pub(crate) fn len(&self) -> usize {
        self.parents.len()
    }

    /// What stands for the signal.
    pub(crate) fn find(&self, signal: Signal) -> Signal {
        let mut found = signal;
        for _ in 0..DEPTH {
            let parent = self.parent(found);
            if parent.node == found.node {
                break;
            }
            found = parent;
        }
        found
    }

    /// What the signal's node points to, for the signal.
    fn parent(&self, signal: Signal) -> Signal {
        match self.parents.get(signal.node) {
            None => signal,
            Some(parent) => parent.turned(signal.complemented),
        }
    }

    /// The two signals are the same.
    pub(crate) fn join(&mut self, one: Signal, other: Signal) {
        let one = self.find(one);
        let other = self.find(other);
        if one.node == other.node {
            return;
        }
        if self.size(one) < self.size(other) {
            self.point(one, other);
        } else {
            self.point(other, one);
        }
    }

    fn size(&self, signal: Signal) -> usize {
        self.sizes.get(signal.node).copied().unwrap_or(0)
    }

    /// Lets the first signal's node point to the second's.
    fn point(&mut self, below: Signal, above: Signal) {
        let count = self.size(below);
        if let Some(size) = self.sizes.get_mut(above.node) {
            *size = size.saturating_add(count);
        }
        if let Some(parent) = self.parents.get_mut(below.node) {
            *parent = above.turned(below.complemented);
        }
    }
}
