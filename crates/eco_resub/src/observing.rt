//! The values of a network's nodes at the patterns, and where it matters which one a node has.

use crate::network::{Gate, Network, has};
use crate::patterns::Patterns;
use crate::signature::Signature;
use eco_aig::Edge;
use eco_meaning::OutOfMemory;
use eco_simulate::turned;
use std::alloc::Global;

/// The patterns at which a node has to be 1, and those at which it has to be 0.
#[derive(Clone, Copy)]
pub(crate) struct Wanted {
    pub(crate) on: Signature,
    pub(crate) off: Signature,
}

impl Wanted {
    /// What is wanted of the complement.
    pub(crate) fn turned(&self) -> Wanted {
        Wanted {
            on: self.off,
            off: self.on,
        }
    }

    /// What is wanted of a function whose conjunction with these values is wanted.
    pub(crate) fn beside(&self, value: &Signature) -> Wanted {
        Wanted {
            on: self.on,
            off: self.off.and(value),
        }
    }

    /// What is wanted of a function whose exclusive disjunction with these values is wanted.
    pub(crate) fn apart(&self, value: &Signature) -> Wanted {
        let on = self.on.without(value).or(&self.off.and(value));
        let off = self.off.without(value).or(&self.on.and(value));
        Wanted { on, off }
    }
}

/// The values of all nodes, and their values where one node is turned.
#[derive(Drop)]
pub(crate) struct Observer {
    /// The values of each node.
    pub(crate) values: Vec<Signature>,
    /// Whether the node is the one that is turned, or reads it directly or through others.
    pub(crate) depends: Vec<bool>,
    /// The values of those nodes.
    turned: Vec<Signature>,
}

impl Observer {
    /// Nothing is simulated yet.
    pub(crate) fn new(alloc: Global) -> Observer {
        Observer {
            values: Vec::new(alloc),
            depends: Vec::new(alloc),
            turned: Vec::new(alloc),
        }
    }

    /// Simulates all nodes anew.
    pub(crate) fn simulate(
        &mut self,
        network: &Network,
        patterns: &Patterns,
    ) -> Result<(), OutOfMemory> {
        self.values.clear();
        self.turned.clear();
        self.values.push(Signature::EMPTY)?;
        for signature in &patterns.inputs {
            self.values.push(*signature)?;
        }
        for gate in network.gates.iter().skip(network.inputs.saturating_add(1)) {
            let value = gate_value(self.values.as_slice(), gate);
            self.values.push(value)?;
        }
        self.make_room()
    }

    /// Makes room for as many turned values as there are values.
    fn make_room(&mut self) -> Result<(), OutOfMemory> {
        self.depends.clear();
        for _ in 0..self.values.len() {
            self.turned.push(Signature::EMPTY)?;
            self.depends.push(false)?;
        }
        Ok(())
    }

    /// Simulates one word of all nodes.
    pub(crate) fn simulate_word(&mut self, network: &Network, patterns: &Patterns, place: usize) {
        self.take_word(patterns, place);
        for (node, gate) in network
            .gates
            .iter()
            .enumerate()
            .skip(network.inputs.saturating_add(1))
        {
            let value = gate_word(self.values.as_slice(), gate, place);
            if let Some(signature) = self.values.get_mut(node) {
                signature.set(place, value);
            }
        }
    }

    /// Takes over one word of the inputs.
    fn take_word(&mut self, patterns: &Patterns, place: usize) {
        for (value, input) in self.values.iter_mut().skip(1).zip(patterns.inputs.iter()) {
            value.set(place, input.word(place));
        }
    }

    /// Where the node has to have which value, so that the root stays as it is at the patterns.
    pub(crate) fn observe(&mut self, network: &Network, valid: &Signature, node: usize) -> Wanted {
        self.turn(node);
        for (reader, gate) in network
            .gates
            .iter()
            .enumerate()
            .skip(node.saturating_add(1))
        {
            if self.depends_on(gate.first) || self.depends_on(gate.second) {
                self.pass_on(reader, gate);
            }
        }
        self.wanted(network.root(), valid, node)
    }

    /// Turns the node alone.
    fn turn(&mut self, node: usize) {
        for is in self.depends.iter_mut() {
            *is = false;
        }
        let value = signature_of(self.values.as_slice(), node);
        self.settle(node, value.not());
    }

    /// Says which value the node has.
    fn settle(&mut self, node: usize, value: Signature) {
        if let Some(is) = self.depends.get_mut(node) {
            *is = true;
        }
        if let Some(turned) = self.turned.get_mut(node) {
            *turned = value;
        }
    }

    /// Whether the edge's node depends on the one that is turned.
    fn depends_on(&self, edge: Edge) -> bool {
        has(self.depends.as_slice(), edge.node as usize)
    }

    /// Gives a gate that reads the turned node its value.
    fn pass_on(&mut self, node: usize, gate: &Gate) {
        let first = self.turned_value(gate.first);
        let second = self.turned_value(gate.second);
        self.settle(node, operated(gate, &first, &second));
    }

    /// The value of an edge while the node is turned.
    fn turned_value(&self, edge: Edge) -> Signature {
        if self.depends_on(edge) {
            return edge_value(self.turned.as_slice(), edge);
        }
        edge_value(self.values.as_slice(), edge)
    }

    /// Where the root changes with the node, and what the node is there.
    fn wanted(&self, root: Edge, valid: &Signature, node: usize) -> Wanted {
        let new = self.turned_value(root);
        let old = edge_value(self.values.as_slice(), root);
        let matters = new.xor(&old).and(valid);
        let value = signature_of(self.values.as_slice(), node);
        Wanted {
            on: matters.and(&value),
            off: matters.without(&value),
        }
    }
}

/// The values of a node, 0 where there is none of this number.
pub(crate) fn signature_of(values: &[Signature], node: usize) -> Signature {
    match values.get(node) {
        None => Signature::EMPTY,
        Some(value) => *value,
    }
}

/// The values of an edge.
pub(crate) fn edge_value(values: &[Signature], edge: Edge) -> Signature {
    let value = signature_of(values, edge.node as usize);
    if edge.complemented {
        value.not()
    } else {
        value
    }
}

/// The values of a gate.
fn gate_value(values: &[Signature], gate: &Gate) -> Signature {
    let first = edge_value(values, gate.first);
    let second = edge_value(values, gate.second);
    operated(gate, &first, &second)
}

/// The values of a gate whose operands have these.
fn operated(gate: &Gate, first: &Signature, second: &Signature) -> Signature {
    if gate.is_xor {
        return first.xor(second);
    }
    first.and(second)
}

/// One word of the values of a gate.
fn gate_word(values: &[Signature], gate: &Gate, place: usize) -> u64 {
    let first = edge_word(values, gate.first, place);
    let second = edge_word(values, gate.second, place);
    if gate.is_xor {
        return first ^ second;
    }
    first & second
}

/// One word of the values of an edge.
fn edge_word(values: &[Signature], edge: Edge, place: usize) -> u64 {
    let word = match values.get(edge.node as usize) {
        None => 0,
        Some(value) => value.word(place),
    };
    turned(word, edge.complemented)
}
