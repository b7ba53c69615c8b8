//! The netlists that clauses say, as one network.

use crate::reader::{Gate, Reader};
use crate::readers::Readers;
use crate::signal::Signal;
use eco_meaning::OutOfMemory;
use eco_trace::{Clause, Cnf};
use std::alloc::Global;

/// The network: which nodes have gates, in an order in which operands come first. A node that others stand for, or that
/// stands for others, is one with them.
#[derive(Drop)]
pub(crate) struct Network {
    reader: Reader,
    /// The number of each node's gate.
    numbers: Vec<Option<usize>>,
    /// The nodes, by levels: those without gates first, then those that read them alone, and so on.
    pub(crate) order: Vec<usize>,
    /// The nodes without gates, but for the constant.
    pub(crate) inputs: Vec<usize>,
    /// What tells where outputs differ: the literals of the last clause.
    pub(crate) differences: Vec<Signal>,
    /// Whether a difference depends on the node.
    reached: Vec<bool>,
}

impl Network {
    /// No nodes.
    pub(crate) fn new(alloc: Global) -> Network {
        Network {
            reader: Reader::new(alloc),
            numbers: Vec::new(alloc),
            order: Vec::new(alloc),
            inputs: Vec::new(alloc),
            differences: Vec::new(alloc),
            reached: Vec::new(alloc),
        }
    }

    /// Reads the clauses.
    pub(crate) fn read(&mut self, alloc: Global, cnf: &Cnf) -> Result<(), OutOfMemory> {
        let nodes = (cnf.vars() as usize).saturating_add(1);
        self.reader.begin(nodes)?;
        self.differences.clear();
        if let Some((last, others)) = cnf.clauses().split_last() {
            for clause in others {
                self.reader.read(clause.lits())?;
            }
            self.take_differences(last)?;
        }
        self.place_gates()?;
        self.arrange(alloc)?;
        self.reach()
    }

    /// The last clause has the differences.
    fn take_differences(&mut self, clause: &Clause) -> Result<(), OutOfMemory> {
        for lit in clause.lits() {
            let signal = self.reader.classes.find(Signal::of(*lit));
            self.differences.push(signal)?;
        }
        Ok(())
    }

    /// How many nodes there are; the first one stands for nothing.
    pub(crate) fn len(&self) -> usize {
        self.numbers.len()
    }

    /// What stands for the signal.
    pub(crate) fn find(&self, signal: Signal) -> Signal {
        self.reader.classes.find(signal)
    }

    /// What is always true, if anything is.
    pub(crate) fn truth(&self) -> Option<Signal> {
        match self.reader.truth {
            None => None,
            Some(truth) => Some(self.find(truth)),
        }
    }

    /// Whether this is the node of what is always true.
    fn is_constant(&self, node: usize) -> bool {
        match self.truth() {
            None => false,
            Some(truth) => truth.node == node,
        }
    }

    /// The node's gate.
    pub(crate) fn gate(&self, node: usize) -> Option<Gate> {
        match self.numbers.get(node) {
            Some(Some(number)) => self.reader.gates.get(*number).copied(),
            _ => None,
        }
    }

    /// What the gate reads.
    pub(crate) fn operands(&self, gate: Gate) -> &[Signal] {
        match self.reader.operands.as_slice().get(gate.first..gate.end) {
            None => &[],
            Some(operands) => operands,
        }
    }

    /// Whether a difference depends on the node.
    pub(crate) fn is_reached(&self, node: usize) -> bool {
        self.reached.get(node).copied().unwrap_or(false)
    }

    /// Says of each node which gate is its own: the first one, if several are.
    fn place_gates(&mut self) -> Result<(), OutOfMemory> {
        self.numbers.clear();
        for _ in 0..self.reader.classes.len() {
            self.numbers.push(None)?;
        }
        for place in 0..self.reader.operands.len() {
            self.settle_operand(place);
        }
        for number in 0..self.reader.gates.len() {
            self.settle_gate(number);
        }
        Ok(())
    }

    /// An operand is what stands for it.
    fn settle_operand(&mut self, place: usize) {
        if let Some(operand) = self.reader.operands.get(place).copied() {
            let found = self.find(operand);
            if let Some(old) = self.reader.operands.get_mut(place) {
                *old = found;
            }
        }
    }

    /// So is a gate's output, which has the gate for its own if it has none yet.
    fn settle_gate(&mut self, number: usize) {
        if let Some(gate) = self.reader.gates.get(number).copied() {
            let out = self.find(gate.out);
            if let Some(old) = self.reader.gates.get_mut(number) {
                old.out = out;
            }
            if !self.is_constant(out.node) {
                self.give(out.node, number);
            }
        }
    }

    /// Gives the node a gate, if it has none.
    fn give(&mut self, node: usize, number: usize) {
        if let Some(old) = self.numbers.get_mut(node) {
            if old.is_none() {
                *old = Some(number);
            }
        }
    }

    /// Brings the nodes into their order. Gates that depend on themselves are let go.
    fn arrange(&mut self, alloc: Global) -> Result<(), OutOfMemory> {
        let mut readers = Readers::new(alloc);
        let outcome = self.arrange_by(&mut readers);
        drop(readers);
        outcome
    }

    fn arrange_by(&mut self, readers: &mut Readers) -> Result<(), OutOfMemory> {
        readers.begin(self.len(), self.reader.operands.len())?;
        for node in 0..self.len() {
            if let Some(gate) = self.gate(node) {
                readers.add(node, gate, self.reader.operands.as_slice());
            }
        }
        self.begin_order(readers)?;
        for place in 0..self.len() {
            match self.order.get(place).copied() {
                None => break,
                Some(node) => readers.release(node, &mut self.order)?,
            }
        }
        self.end_order(readers)
    }

    /// The nodes that wait for nothing come first.
    fn begin_order(&mut self, readers: &Readers) -> Result<(), OutOfMemory> {
        self.order.clear();
        self.inputs.clear();
        for node in 1..self.len() {
            if self.find(Signal::plain(node)).node == node && !readers.is_waiting(node) {
                self.order.push(node)?;
                if !self.is_constant(node) {
                    self.inputs.push(node)?;
                }
            }
        }
        Ok(())
    }

    /// The nodes that still wait, for themselves, lose their gates.
    fn end_order(&mut self, readers: &Readers) -> Result<(), OutOfMemory> {
        for node in 1..self.len() {
            if readers.is_waiting(node) {
                if let Some(number) = self.numbers.get_mut(node) {
                    *number = None;
                }
                self.order.push(node)?;
                self.inputs.push(node)?;
            }
        }
        Ok(())
    }

    /// Finds what the differences depend on.
    fn reach(&mut self) -> Result<(), OutOfMemory> {
        self.reached.clear();
        for _ in 0..self.len() {
            self.reached.push(false)?;
        }
        for difference in &self.differences {
            mark(&mut self.reached, difference.node);
        }
        for place in 0..self.order.len() {
            let behind = self.order.len().saturating_sub(place).saturating_sub(1);
            if let Some(node) = self.order.get(behind).copied() {
                self.reach_operands(node);
            }
        }
        Ok(())
    }

    /// If a difference depends on the node, so it does on what its gate reads.
    fn reach_operands(&mut self, node: usize) {
        if !self.is_reached(node) {
            return;
        }
        if let Some(gate) = self.gate(node) {
            for place in gate.first..gate.end {
                if let Some(operand) = self.reader.operands.get(place).copied() {
                    mark(&mut self.reached, operand.node);
                }
            }
        }
    }
}

/// Marks the node.
fn mark(reached: &mut Vec<bool>, node: usize) {
    if let Some(is) = reached.get_mut(node) {
        *is = true;
    }
}
