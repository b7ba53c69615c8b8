//! Nodes that a new gate may read, and those that die with the node that it stands for.

use crate::network::{Network, has};
use eco_aig::Edge;
use eco_meaning::OutOfMemory;
use std::alloc::Global;

/// A node that may be read. So many of the gates that would die stay for it at most.
#[derive(Clone, Copy)]
pub(crate) struct Divisor {
    pub(crate) node: usize,
    pub(crate) cost: usize,
}

/// The cone of a node, what dies with the node, and what may stand in its place.
#[derive(Drop)]
pub(crate) struct Cone {
    /// The own gates that nothing else needs, each before its operands.
    pub(crate) dying: Vec<usize>,
    /// How many of a node's readers die.
    lost: Vec<usize>,
    /// For each gate that dies, how many of these its cone has at most; else 0.
    costs: Vec<usize>,
    /// Whether the node reaches this one.
    reached: Vec<bool>,
    /// What may be read.
    pub(crate) divisors: Vec<Divisor>,
}

impl Cone {
    /// The cone of nothing.
    pub(crate) fn new(alloc: Global) -> Cone {
        Cone {
            dying: Vec::new(alloc),
            lost: Vec::new(alloc),
            costs: Vec::new(alloc),
            reached: Vec::new(alloc),
            divisors: Vec::new(alloc),
        }
    }

    /// Makes room for the nodes of the network.
    pub(crate) fn begin(&mut self, network: &Network) -> Result<(), OutOfMemory> {
        self.lost.clear();
        self.costs.clear();
        self.reached.clear();
        for _ in 0..network.gates.len() {
            self.lost.push(0)?;
            self.costs.push(0)?;
            self.reached.push(false)?;
        }
        Ok(())
    }

    /// Finds what dies with the node, and what that costs to keep.
    pub(crate) fn find(&mut self, network: &Network, node: usize) -> Result<(), OutOfMemory> {
        self.begin(network)?;
        self.dying.clear();
        self.dying.push(node)?;
        for place in 0..network.gates.len() {
            let Some(dead) = self.dying.get(place).copied() else {
                break;
            };
            self.lose_operands(network, dead)?;
        }
        self.count_costs(network);
        self.reach(network, node);
        Ok(())
    }

    /// Takes a reader from the operands of a gate that dies.
    fn lose_operands(&mut self, network: &Network, node: usize) -> Result<(), OutOfMemory> {
        match network.gate(node) {
            None => Ok(()),
            Some(gate) => {
                self.lose(network, gate.first)?;
                self.lose(network, gate.second)
            }
        }
    }

    /// Takes a reader from the edge's node, which dies with the last one if it is an own gate.
    fn lose(&mut self, network: &Network, edge: Edge) -> Result<(), OutOfMemory> {
        let node = edge.node as usize;
        if node < network.own {
            return Ok(());
        }
        let lost = count_of(self.lost.as_slice(), node).saturating_add(1);
        put(&mut self.lost, node, lost);
        if lost == count_of(network.readers.as_slice(), node) {
            self.dying.push(node)?;
        }
        Ok(())
    }

    /// Counts for each gate that dies how many of these its cone has at most.
    fn count_costs(&mut self, network: &Network) {
        let most = self.dying.len();
        for node in self.dying.iter().rev() {
            let cost = cost_of(self.costs.as_slice(), network, *node);
            put(
                &mut self.costs,
                *node,
                if cost < most { cost } else { most },
            );
        }
    }

    /// Marks what the node reaches.
    fn reach(&mut self, network: &Network, node: usize) {
        self.mark(node as u64);
        for reader in (0..node.saturating_add(1)).rev() {
            if has(self.reached.as_slice(), reader) {
                if let Some(gate) = network.gate(reader) {
                    self.mark(gate.first.node);
                    self.mark(gate.second.node);
                }
            }
        }
    }

    /// Marks a node.
    fn mark(&mut self, node: u64) {
        if let Some(is) = self.reached.get_mut(node as usize) {
            *is = true;
        }
    }

    /// Lists what may be read, so many of a kind at most: gates before the node, inputs, gates behind it that don't depend on it, gates
    /// of earlier targets' functions, and last what would die.
    pub(crate) fn list(
        &mut self,
        network: &Network,
        depends: &[bool],
        node: usize,
        most: usize,
    ) -> Result<(), OutOfMemory> {
        self.divisors.clear();
        self.list_before(network.own, node, most)?;
        self.list_inputs(network, most)?;
        self.list_behind(network, depends, node, most)?;
        self.list_earlier(network, most)?;
        self.list_dying(most)
    }

    /// Lists own gates before the node that don't die.
    fn list_before(&mut self, own: usize, node: usize, most: usize) -> Result<(), OutOfMemory> {
        let mut left = most;
        for other in (own..node).rev() {
            if left == 0 {
                break;
            }
            if count_of(self.costs.as_slice(), other) == 0 {
                self.push(other, 0)?;
                left = left.saturating_sub(1);
            }
        }
        Ok(())
    }

    /// Lists inputs, those that the node reaches first.
    fn list_inputs(&mut self, network: &Network, most: usize) -> Result<(), OutOfMemory> {
        let left = self.list_some_inputs(network, most, true)?;
        let _ = self.list_some_inputs(network, left, false)?;
        Ok(())
    }

    /// Lists the inputs that the node reaches, or those that it doesn't. Answers how many more may be listed.
    fn list_some_inputs(
        &mut self,
        network: &Network,
        most: usize,
        is_reached: bool,
    ) -> Result<usize, OutOfMemory> {
        let mut left = most;
        for input in 1..network.inputs.saturating_add(1) {
            if left == 0 {
                break;
            }
            if has(self.reached.as_slice(), input) == is_reached && network.offers(input) {
                self.push(input, 0)?;
                left = left.saturating_sub(1);
            }
        }
        Ok(left)
    }

    /// Lists own gates behind the node that don't depend on it.
    fn list_behind(
        &mut self,
        network: &Network,
        depends: &[bool],
        node: usize,
        most: usize,
    ) -> Result<(), OutOfMemory> {
        let mut left = most;
        for other in node.saturating_add(1)..network.gates.len() {
            if left == 0 {
                break;
            }
            if !has(depends, other) {
                self.push(other, 0)?;
                left = left.saturating_sub(1);
            }
        }
        Ok(())
    }

    /// Lists gates of earlier targets' functions.
    fn list_earlier(&mut self, network: &Network, most: usize) -> Result<(), OutOfMemory> {
        for node in (network.inputs.saturating_add(1)..network.own)
            .rev()
            .take(most)
        {
            self.push(node, 0)?;
        }
        Ok(())
    }

    /// Lists gates that would die with the node, but not the node.
    fn list_dying(&mut self, most: usize) -> Result<(), OutOfMemory> {
        for place in 1..self.dying.len() {
            if place > most {
                break;
            }
            if let Some(node) = self.dying.get(place).copied() {
                let cost = count_of(self.costs.as_slice(), node);
                self.push(node, cost)?;
            }
        }
        Ok(())
    }

    /// Lists a node.
    fn push(&mut self, node: usize, cost: usize) -> Result<(), OutOfMemory> {
        self.divisors.push(Divisor { node, cost })?;
        Ok(())
    }
}

/// The count of the node.
fn count_of(counts: &[usize], node: usize) -> usize {
    match counts.get(node) {
        None => 0,
        Some(count) => *count,
    }
}

/// Puts the count of the node.
fn put(counts: &mut Vec<usize>, node: usize, count: usize) {
    if let Some(old) = counts.get_mut(node) {
        *old = count;
    }
}

/// A gate and what its operands cost.
fn cost_of(costs: &[usize], network: &Network, node: usize) -> usize {
    match network.gate(node) {
        None => 0,
        Some(gate) => count_of(costs, gate.first.node as usize)
            .saturating_add(count_of(costs, gate.second.node as usize))
            .saturating_add(1),
    }
}
