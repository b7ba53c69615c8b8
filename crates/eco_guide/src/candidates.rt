//! Which nodes look the same.

use crate::network::Network;
use crate::words::Words;
use eco_meaning::OutOfMemory;
use std::alloc::Global;

/// The node that stands for nothing.
const NOTHING: usize = 0;

/// A sign is looked for at so many places of the table at most.
const TRIES: usize = 64;

/// For each node the first one in the network's order with the same sign, if that is another one.
#[derive(Drop)]
pub(crate) struct Candidates {
    /// Nodes of different signs, each at the first free place from the one that its sign says.
    table: Vec<usize>,
    found: Vec<usize>,
}

impl Candidates {
    /// No nodes.
    pub(crate) fn new(alloc: Global) -> Candidates {
        Candidates {
            table: Vec::new(alloc),
            found: Vec::new(alloc),
        }
    }

    /// So many nodes.
    pub(crate) fn begin(&mut self, nodes: usize) -> Result<(), OutOfMemory> {
        self.table.clear();
        self.found.clear();
        for _ in 0..nodes {
            self.found.push(NOTHING)?;
            self.table.push(NOTHING)?;
            self.table.push(NOTHING)?;
        }
        Ok(())
    }

    /// The node that looks the same, or looks like the complement.
    pub(crate) fn of(&self, node: usize) -> Option<usize> {
        match self.found.get(node).copied() {
            None => None,
            Some(other) => { if other == NOTHING { None } else { Some(other) } }
        }
    }

    /// Finds them anew.
    pub(crate) fn find(&mut self, network: &Network, words: &Words) {
        self.table.fill(NOTHING);
        for node in &network.order {
            let other = self.first(words, *node);
            if let Some(old) = self.found.get_mut(*node) {
                *old = other;
            }
        }
    }

    /// The node in the table with this one's sign; if there is none, nothing, and this one is in the table from now on.
    fn first(&mut self, words: &Words, node: usize) -> usize {
        let sign = words.sign(node);
        let places = self.table.len() as u64;
        let mut place = sign.checked_rem(places).unwrap_or(0) as usize;
        for _ in 0..TRIES {
            let other = self.table.get(place).copied().unwrap_or(NOTHING);
            if other == NOTHING {
                self.enter(place, node);
                return NOTHING;
            }
            if words.sign(other) == sign {
                return other;
            }
            place = self.behind(place);
        }
        NOTHING
    }

    fn enter(&mut self, place: usize, node: usize) {
        if let Some(slot) = self.table.get_mut(place) {
            *slot = node;
        }
    }

    /// The next place, behind the last one the first.
    fn behind(&self, place: usize) -> usize {
        let next = place.saturating_add(1);
        if next < self.table.len() { next } else { 0 }
    }
}
