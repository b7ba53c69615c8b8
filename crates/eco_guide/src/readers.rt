//! Which nodes read a node.

use crate::reader::Gate;
use crate::signal::Signal;
use eco_meaning::OutOfMemory;
use std::alloc::Global;

/// Stands for no place.
const NOWHERE: usize = usize::MAX;

/// For each node the places among all operands at which it stands, as a chain, and how many operands its own gate still
/// waits for.
#[derive(Drop)]
pub(crate) struct Readers {
    heads: Vec<usize>,
    /// The place behind each place in its chain.
    nexts: Vec<usize>,
    /// The node whose gate has the operand at each place.
    owners: Vec<usize>,
    waits: Vec<usize>,
}

impl Readers {
    /// No nodes.
    pub(crate) fn new(alloc: Global) -> Readers {
        Readers {
            heads: Vec::new(alloc),
            nexts: Vec::new(alloc),
            owners: Vec::new(alloc),
            waits: Vec::new(alloc),
        }
    }

    /// So many nodes, without gates, and places of operands.
    pub(crate) fn begin(&mut self, nodes: usize, places: usize) -> Result<(), OutOfMemory> {
        self.heads.clear();
        self.waits.clear();
        for _ in 0..nodes {
            self.heads.push(NOWHERE)?;
            self.waits.push(0)?;
        }
        self.nexts.clear();
        self.owners.clear();
        for _ in 0..places {
            self.nexts.push(NOWHERE)?;
            self.owners.push(NOWHERE)?;
        }
        Ok(())
    }

    /// The node has this gate.
    pub(crate) fn add(&mut self, node: usize, gate: Gate, operands: &[Signal]) {
        for place in gate.first..gate.end {
            if let Some(operand) = operands.get(place) {
                self.chain(operand.node, place, node);
            }
        }
    }

    /// The operand at the place is this node, and its gate the owner's.
    fn chain(&mut self, node: usize, place: usize, owner: usize) {
        let head = self.heads.get(node).copied().unwrap_or(NOWHERE);
        if let Some(next) = self.nexts.get_mut(place) {
            *next = head;
        }
        if let Some(head) = self.heads.get_mut(node) {
            *head = place;
        }
        if let Some(old) = self.owners.get_mut(place) {
            *old = owner;
        }
        if let Some(count) = self.waits.get_mut(owner) {
            *count = count.saturating_add(1);
        }
    }

    /// Whether the node's gate waits for operands.
    pub(crate) fn is_waiting(&self, node: usize) -> bool {
        self.waits.get(node).copied().unwrap_or(0) > 0
    }

    /// The gates that read the node wait no longer for it. Those nodes that wait for nothing any more are put behind the
    /// others.
    pub(crate) fn release(
        &mut self,
        node: usize,
        order: &mut Vec<usize>,
    ) -> Result<(), OutOfMemory> {
        let mut place = self.heads.get(node).copied().unwrap_or(NOWHERE);
        for _ in 0..self.nexts.len() {
            if place == NOWHERE {
                break;
            }
            let owner = self.owners.get(place).copied().unwrap_or(NOWHERE);
            if self.is_last(owner) {
                order.push(owner)?;
            }
            place = self.nexts.get(place).copied().unwrap_or(NOWHERE);
        }
        Ok(())
    }

    /// The node's gate waits for one operand less: whether that was the last one.
    fn is_last(&mut self, node: usize) -> bool {
        match self.waits.get_mut(node) {
            None => false,
            Some(count) => {
                let is_last = *count == 1;
                *count = count.saturating_sub(1);
                is_last
            }
        }
    }
}
