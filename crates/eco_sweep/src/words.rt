//! Simulation: what nodes are under many inputs at once, and which of them look equal.

ghost use Rattle.std.specs.Prelude.{◌<◌};

use crate::cell::{Cell, Mark, Source, Wire};
use crate::row::{
    LAYERS, RING, Row, are_like, conjunction, drawn, drawn_word, key_of, layer_of, sign,
};
use eco_aig::{Aig, Edge, Marks};
use eco_keyed::Keyed;
use eco_meaning::OutOfMemory;
use eco_simulate::mask_of;
use indexmap::IndexMap;
use std::alloc::Global;

/// The first and the last of the cells that look equal.
#[derive(Clone, Copy)]
struct Class {
    first: usize,
    last: usize,
}

/// The nodes that stand for themselves, each with its words: a word has the node's bits under 64 inputs. The first words
/// stay; a counterexample takes the place of the oldest of the others, in all rows. Nodes whose words are equal, or all
/// complements, are a class. A class is found by a key of some words; it is made anew once other words tell its members
/// apart so often that finding one takes long. Nothing is proved of all this: it says what to ask.
#[derive(Drop)]
pub(crate) struct Words {
    marks: Marks<Mark>,
    cells: Vec<Cell>,
    rows: Vec<Row>,
    inputs: Vec<usize>,
    classes: IndexMap<u64, Class, Keyed>,
    learnt: usize,
    /// the number of counterexamples when the classes were made
    made_at: usize,
    /// how many cells were passed since then because their words differ
    passed: usize,
}

impl Words {
    /// No nodes.
    pub fn new(alloc: Global, keyed: Keyed) -> Words {
        Words {
            marks: Marks::new(alloc, Mark::Open),
            cells: Vec::new(alloc),
            rows: Vec::new(alloc),
            inputs: Vec::new(alloc),
            classes: IndexMap::with_hasher(alloc, keyed),
            learnt: 0,
            made_at: 0,
            passed: 0,
        }
    }

    /// Whether the node was treated: it stands for itself, or another stands for it.
    pub fn is_treated(&self, node: u64) -> bool {
        !matches!(self.marks.of(node), Mark::Open)
    }

    /// Another node stands for this one from now on.
    pub fn merge(&mut self, node: u64) -> Result<(), OutOfMemory> {
        self.marks.set(node, Mark::Merged)
    }

    /// The node stands for itself from now on. Its operands do so already.
    pub fn hold(&mut self, aig: &Aig, node: u64) -> Result<(), OutOfMemory> {
        let row = self.row(aig, node);
        let source = self.source(aig, node);
        let slot = self.cells.len();
        // a row that was left where memory ran out is no cell's
        self.rows.truncate(slot);
        self.rows.push(row)?;
        if matches!(source, Source::Input) {
            self.inputs.push(slot)?;
        }
        self.cells.push(Cell {
            node,
            source,
            next: None,
        })?;
        self.marks.set(node, Mark::Held(slot))?;
        self.enter(slot, &row)
    }

    /// The words of a node whose operands stand for themselves.
    pub fn row(&self, aig: &Aig, node: u64) -> Row {
        match self.source(aig, node) {
            Source::Constant => [0; LAYERS],
            Source::Input => drawn(node, self.learnt),
            Source::Conjunction(first, second) => conjunction(
                &self.row_at(first.slot),
                mask_of(first.complemented),
                &self.row_at(second.slot),
                mask_of(second.complemented),
            ),
        }
    }

    /// The place of the first node that looks like these words, or like their complements.
    pub fn first(&mut self, row: &Row) -> Result<Option<usize>, OutOfMemory> {
        if self.passed / 8 > self.cells.len() || self.learnt.wrapping_sub(self.made_at) > RING / 2 {
            self.remake()?;
        }
        let class = self.class(key_of(row, self.made_at));
        Ok(self.like(row, class.map(|class| class.first)))
    }

    /// The place of the next one.
    pub fn next(&mut self, row: &Row, slot: usize) -> Option<usize> {
        let next = self.next_of(slot);
        self.like(row, next)
    }

    /// The edge to the node at the place that looks like these words.
    pub fn edge(&self, row: &Row, slot: usize) -> Edge {
        let node = match self.cells.get(slot) {
            None => 0,
            Some(cell) => cell.node,
        };
        Edge {
            node,
            complemented: sign(row) != sign(&self.row_at(slot)),
        }
    }

    /// Takes a counterexample in: the bits of these inputs, and with them inputs that differ from it in one bit.
    pub fn learn(&mut self, inputs: &[u64], bits: &[bool]) {
        let layer = layer_of(self.learnt);
        self.learnt = self.learnt.wrapping_add(1);
        self.draw(layer);
        for (place, (node, bit)) in inputs.iter().zip(bits).enumerate() {
            self.set_word(*node, layer, mask_of(*bit) ^ (2 << (place % 63)));
        }
        self.simulate(layer);
    }

    /// Gives the inputs words that look random.
    fn draw(&mut self, layer: usize)
        requires { layer < LAYERS }
    {
        for slot in &self.inputs {
            if let Some(row) = self.rows.get_mut(*slot) {
                row[layer] = drawn_word(*slot as u64, layer, self.learnt);
            }
        }
    }

    fn set_word(&mut self, node: u64, layer: usize, word: u64)
        requires { layer < LAYERS }
    {
        if let Mark::Held(slot) = self.marks.of(node) {
            if let Some(row) = self.rows.get_mut(slot) {
                row[layer] = word;
            }
        }
    }

    /// Gives the conjunctions their words.
    fn simulate(&mut self, layer: usize)
        requires { layer < LAYERS }
    {
        for (slot, cell) in self.cells.iter().enumerate() {
            if let Source::Conjunction(first, second) = cell.source {
                let word = word_at(&self.rows, first, layer) & word_at(&self.rows, second, layer);
                if let Some(row) = self.rows.get_mut(slot) {
                    row[layer] = word;
                }
            }
        }
    }

    /// Where the node's words come from.
    fn source(&self, aig: &Aig, node: u64) -> Source {
        match aig.pair(node) {
            Some((first, second)) => Source::Conjunction(self.wire(first), self.wire(second)),
            None if node == 0 => Source::Constant,
            None => Source::Input,
        }
    }

    fn wire(&self, edge: Edge) -> Wire {
        let slot = match self.marks.of(edge.node()) {
            Mark::Held(slot) => slot,
            _ => 0,
        };
        Wire {
            slot,
            complemented: edge.complemented(),
        }
    }

    /// The words at a place.
    fn row_at(&self, slot: usize) -> Row {
        match self.rows.get(slot) {
            None => [0; LAYERS],
            Some(row) => *row,
        }
    }

    /// The place of the first node from this one on in its class that looks like these words, or their complements.
    fn like(&mut self, row: &Row, from: Option<usize>) -> Option<usize> {
        let mut at = from;
        for _step in 0..self.cells.len() {
            let slot = at?;
            if are_like(&self.row_at(slot), row) {
                return Some(slot);
            }
            self.passed = self.passed.wrapping_add(1);
            at = self.next_of(slot);
        }
        None
    }

    fn next_of(&self, slot: usize) -> Option<usize> {
        self.cells.get(slot)?.next
    }

    fn set_next(&mut self, slot: usize, next: Option<usize>) {
        if let Some(cell) = self.cells.get_mut(slot) {
            cell.next = next;
        }
    }

    fn class(&self, key: u64) -> Option<Class> {
        self.classes.get(&key).copied()
    }

    /// Puts a place at the end of its class.
    fn enter(&mut self, slot: usize, row: &Row) -> Result<(), OutOfMemory> {
        let key = key_of(row, self.made_at);
        let first = match self.class(key) {
            None => slot,
            Some(class) => {
                self.set_next(class.last, Some(slot));
                class.first
            }
        };
        self.classes.insert(key, Class { first, last: slot })?;
        Ok(())
    }

    /// Makes the classes anew, by the words of now.
    fn remake(&mut self) -> Result<(), OutOfMemory> {
        self.classes.clear();
        self.made_at = self.learnt;
        self.passed = 0;
        for slot in 0..self.cells.len() {
            self.set_next(slot, None);
            let row = self.row_at(slot);
            self.enter(slot, &row)?;
        }
        Ok(())
    }
}

/// The word of an operand.
fn word_at(rows: &[Row], wire: Wire, layer: usize) -> u64
    requires { layer < LAYERS }
{
    match rows.get(wire.slot) {
        None => 0,
        Some(row) => row[layer] ^ mask_of(wire.complemented),
    }
}
