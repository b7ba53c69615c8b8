//! The function as a network of two-input gates, together with the functions of earlier targets.

use eco_aig::{Aig, Edge};
use eco_meaning::OutOfMemory;
use std::alloc::Global;

/// The conjunction of two edges, or the exclusive disjunction.
#[derive(Clone, Copy)]
pub(crate) struct Gate {
    pub(crate) is_xor: bool,
    pub(crate) first: Edge,
    pub(crate) second: Edge,
}

/// Nodes in an order in which operands come first: the constant 0, the inputs, the gates of earlier targets' functions, and the
/// function's own gates.
#[derive(Drop)]
pub(crate) struct Network {
    /// How many inputs there are.
    pub(crate) inputs: usize,
    /// A gate for each node; those of the constant and of the inputs stand for nothing.
    pub(crate) gates: Vec<Gate>,
    /// The first of the function's own gates.
    pub(crate) own: usize,
    /// The roots of the functions, the last one that of the function to shrink.
    pub(crate) roots: Vec<Edge>,
    /// Whether the functions reach the node.
    pub(crate) reached: Vec<bool>,
    /// How many own gates read the node; the root is read once more.
    pub(crate) readers: Vec<usize>,
}

impl Network {
    /// The network that has nothing yet.
    pub(crate) fn new(alloc: Global) -> Network {
        Network {
            inputs: 0,
            gates: Vec::new(alloc),
            own: 0,
            roots: Vec::new(alloc),
            reached: Vec::new(alloc),
            readers: Vec::new(alloc),
        }
    }

    /// Reads the functions of these roots anew.
    pub(crate) fn read(
        &mut self,
        alloc: Global,
        aig: &Aig,
        roots: &[Edge],
    ) -> Result<(), OutOfMemory> {
        let found = found_gates(alloc, aig)?;
        let places = self.number(alloc, aig, found.as_slice(), roots)?;
        self.place_roots(places.as_slice(), roots)?;
        self.count_readers()
    }

    /// Numbers what the roots reach. Answers the number of each node of the graph.
    fn number(
        &mut self,
        alloc: Global,
        aig: &Aig,
        found: &[Option<Gate>],
        roots: &[Edge],
    ) -> Result<Vec<u64>, OutOfMemory> {
        let earlier = roots.get(..roots.len().saturating_sub(1)).unwrap_or(&[]);
        let before = reached(alloc, found, earlier)?;
        let all = reached(alloc, found, roots)?;
        let mut places = vec![in alloc; 0; found.len()]?;
        self.begin(aig, all.as_slice(), &mut places)?;
        self.append(found, before.as_slice(), &mut places)?;
        self.own = self.gates.len();
        self.append(found, all.as_slice(), &mut places)?;
        Ok(places)
    }

    /// Begins with the constant and the inputs.
    fn begin(
        &mut self,
        aig: &Aig,
        reached: &[bool],
        places: &mut Vec<u64>,
    ) -> Result<(), OutOfMemory> {
        self.gates.clear();
        self.reached.clear();
        self.gates.push(NO_GATE)?;
        self.reached.push(true)?;
        for node in aig.inputs() {
            if let Some(place) = places.get_mut(*node as usize) {
                *place = self.gates.len() as u64;
            }
            self.gates.push(NO_GATE)?;
            self.reached.push(has(reached, *node as usize))?;
        }
        self.inputs = aig.inputs().len();
        Ok(())
    }

    /// Appends those of the gates that are marked and have no number yet.
    fn append(
        &mut self,
        found: &[Option<Gate>],
        marked: &[bool],
        places: &mut Vec<u64>,
    ) -> Result<(), OutOfMemory> {
        for (node, gate) in found.iter().enumerate() {
            if let Some(gate) = gate {
                if has(marked, node) && place_of(places.as_slice(), node as u64) == 0 {
                    self.append_gate(node, gate, places)?;
                }
            }
        }
        Ok(())
    }

    /// Appends the gate of a node of the graph.
    fn append_gate(
        &mut self,
        node: usize,
        gate: &Gate,
        places: &mut Vec<u64>,
    ) -> Result<(), OutOfMemory> {
        let placed = Gate {
            is_xor: gate.is_xor,
            first: placed_edge(places.as_slice(), gate.first),
            second: placed_edge(places.as_slice(), gate.second),
        };
        if let Some(place) = places.get_mut(node) {
            *place = self.gates.len() as u64;
        }
        self.gates.push(placed)?;
        self.reached.push(true)?;
        Ok(())
    }

    /// Takes over the roots.
    fn place_roots(&mut self, places: &[u64], roots: &[Edge]) -> Result<(), OutOfMemory> {
        self.roots.clear();
        for root in roots {
            self.roots.push(placed_edge(places, *root))?;
        }
        Ok(())
    }

    /// Counts how many own gates read each node.
    fn count_readers(&mut self) -> Result<(), OutOfMemory> {
        self.readers.clear();
        for _ in 0..self.gates.len() {
            self.readers.push(0)?;
        }
        let root = self.root();
        raise(&mut self.readers, root);
        for gate in self.gates.iter().skip(self.own) {
            raise(&mut self.readers, gate.first);
            raise(&mut self.readers, gate.second);
        }
        Ok(())
    }

    /// The root of the function to shrink.
    pub(crate) fn root(&self) -> Edge {
        match self.roots.last() {
            None => Edge::ZERO,
            Some(root) => *root,
        }
    }

    /// The gate of a node, which the constant and the inputs have not.
    pub(crate) fn gate(&self, node: usize) -> Option<Gate> {
        if node <= self.inputs {
            return None;
        }
        self.gates.get(node).copied()
    }

    /// Whether the input may be read: it is reached, or there are few.
    pub(crate) fn offers(&self, input: usize) -> bool {
        self.inputs <= MOST_INPUTS || has(self.reached.as_slice(), input)
    }

    /// How many gates the function has for itself.
    pub(crate) fn size(&self) -> usize {
        self.gates.len().saturating_sub(self.own)
    }

    /// How many inputs the functions reach.
    pub(crate) fn inputs_reached(&self) -> usize {
        let mut count: usize = 0;
        for is_reached in self.reached.iter().take(self.inputs.saturating_add(1)) {
            if *is_reached {
                count = count.saturating_add(1);
            }
        }
        count.saturating_sub(1)
    }
}

/// How many inputs a function may reach.
pub(crate) const MOST_INPUTS: usize = 100;

/// What stands for the gate of an input.
const NO_GATE: Gate = Gate {
    is_xor: false,
    first: Edge::ZERO,
    second: Edge::ZERO,
};

/// Counts a reader of the edge's node.
fn raise(readers: &mut Vec<usize>, edge: Edge) {
    if let Some(count) = readers.get_mut(edge.node as usize) {
        *count = count.saturating_add(1);
    }
}

/// Whether the list has the mark.
pub(crate) fn has(marks: &[bool], place: usize) -> bool {
    match marks.get(place) {
        None => false,
        Some(is) => *is,
    }
}

/// The number of a node of the graph.
fn place_of(places: &[u64], node: u64) -> u64 {
    match places.get(node as usize) {
        None => 0,
        Some(place) => *place,
    }
}

/// The edge to the number of its node.
fn placed_edge(places: &[u64], edge: Edge) -> Edge {
    Edge {
        node: place_of(places, edge.node),
        complemented: edge.complemented,
    }
}

/// For each node of the graph its gate, an exclusive disjunction where it is one of two edges.
fn found_gates(alloc: Global, aig: &Aig) -> Result<Vec<Option<Gate>>, OutOfMemory> {
    let mut found = Vec::new(alloc);
    for node in 0..aig.nodes() {
        found.push(found_gate(aig, node))?;
    }
    Ok(found)
}

/// The gate of a node.
fn found_gate(aig: &Aig, node: u64) -> Option<Gate> {
    match aig.exclusive(node) {
        Some((first, second)) => Some(Gate {
            is_xor: true,
            first,
            second,
        }),
        None => conjunction(aig, node),
    }
}

/// The node's operands as a conjunction.
fn conjunction(aig: &Aig, node: u64) -> Option<Gate> {
    let (first, second) = aig.pair(node)?;
    Some(Gate {
        is_xor: false,
        first,
        second,
    })
}

/// Which nodes of the graph the roots reach.
fn reached(
    alloc: Global,
    found: &[Option<Gate>],
    roots: &[Edge],
) -> Result<Vec<bool>, OutOfMemory> {
    let mut marks = vec![in alloc; false; found.len()]?;
    for root in roots {
        mark(&mut marks, *root);
    }
    for (node, gate) in found.iter().enumerate().rev() {
        if let Some(gate) = gate {
            if has(marks.as_slice(), node) {
                mark(&mut marks, gate.first);
                mark(&mut marks, gate.second);
            }
        }
    }
    Ok(marks)
}

/// Marks the edge's node.
fn mark(marks: &mut Vec<bool>, edge: Edge) {
    if let Some(is) = marks.get_mut(edge.node as usize) {
        *is = true;
    }
}
