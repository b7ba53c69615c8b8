//! Where forms stand, and which nodes were treated.

use eco_aig::{Aig, Edge, Marks};
use eco_keyed::Keyed;
use eco_meaning::OutOfMemory;
use indexmap::IndexMap;
use std::alloc::Global;
use std::hash::{BuildHasher, Hash, Hasher};

/// What became of a node.
#[derive(Clone, Copy)]
enum Mark {
    /// Nothing yet.
    Open,
    /// It is listed, to be treated.
    Listed,
    /// It was treated.
    Treated,
}

/// The nodes that wait for their turn, and the places of forms, by their node and by a hash of their atoms. Nothing is proved
/// of all this: a form that is found is looked at before it is used.
#[derive(Drop)]
pub(crate) struct Index {
    keyed: Keyed,
    marks: Marks<Mark>,
    waiting: Vec<u64>,
    by_node: IndexMap<u64, usize, Keyed>,
    by_atoms: IndexMap<u64, usize, Keyed>,
}

impl Index {
    /// No nodes and no forms.
    pub fn new(alloc: Global, keyed: Keyed) -> Index {
        Index {
            keyed,
            marks: Marks::new(alloc, Mark::Open),
            waiting: Vec::new(alloc),
            by_node: IndexMap::with_hasher(alloc, keyed),
            by_atoms: IndexMap::with_hasher(alloc, keyed),
        }
    }

    /// Lets the nodes wait that the edges reach and that weren't treated, rising.
    pub fn gather(&mut self, aig: &Aig, edges: &[Edge]) -> Result<(), OutOfMemory> {
        self.waiting.clear();
        for edge in edges {
            self.list(edge.node())?;
        }
        self.extend(aig)?;
        self.waiting.sort_unstable();
        Ok(())
    }

    /// The node that waits in this place.
    pub fn waiting(&self, place: u64) -> Option<u64> {
        self.waiting.get(place as usize).copied()
    }

    /// Notes that the node is treated now; tells whether it had been before.
    pub fn treat(&mut self, node: u64) -> Result<bool, OutOfMemory> {
        let before = matches!(self.marks.of(node), Mark::Treated);
        self.marks.set(node, Mark::Treated)?;
        Ok(before)
    }

    /// The place of the node's form.
    pub fn place_of_node(&self, node: u64) -> Option<usize> {
        self.by_node.get(&node).copied()
    }

    /// The place of a form that may have these atoms.
    pub fn place_of_atoms(&self, atoms: &[u64]) -> Option<usize> {
        self.by_atoms.get(&self.key(atoms)).copied()
    }

    /// Notes the place of the form of a node.
    pub fn enter(&mut self, node: u64, atoms: &[u64], place: usize) -> Result<(), OutOfMemory> {
        let key = self.key(atoms);
        self.by_node.insert(node, place)?;
        self.by_atoms.insert(key, place)?;
        Ok(())
    }

    /// Lists the operands of the listed nodes, in turn.
    fn extend(&mut self, aig: &Aig) -> Result<(), OutOfMemory> {
        for place in 0..aig.nodes() {
            match self.waiting(place) {
                None => break,
                Some(node) => self.list_operands(aig, node)?,
            }
        }
        Ok(())
    }

    fn list_operands(&mut self, aig: &Aig, node: u64) -> Result<(), OutOfMemory> {
        match aig.pair(node) {
            None => Ok(()),
            Some((first, second)) => {
                self.list(first.node())?;
                self.list(second.node())
            }
        }
    }

    /// Lists the node, unless it was before.
    fn list(&mut self, node: u64) -> Result<(), OutOfMemory> {
        if !matches!(self.marks.of(node), Mark::Open) {
            return Ok(());
        }
        self.marks.set(node, Mark::Listed)?;
        self.waiting.push(node)?;
        Ok(())
    }

    /// A number that equal lists have in common.
    fn key(&self, atoms: &[u64]) -> u64 {
        let mut hasher = self.keyed.build_hasher();
        for atom in atoms {
            atom.hash(&mut hasher);
        }
        hasher.finish()
    }
}
