//! Lists of nodes that tell each node's place.

ghost use Rattle.std.specs.Prelude.{◌≡◌, IfSome, Some, slice_get};

use eco_aig::{Aig, Marks};
use eco_meaning::OutOfMemory;
use std::alloc::Global;

/// Nodes of a graph, each once. Such a list is emptied at no cost and tells a node's place at once: `places` has a place
/// for each number, which counts only where the node of this number stands there.
#[derive(Drop)]
pub(crate) struct Cone {
    pub nodes: Vec<u64>,
    places: Marks<usize>,
}

impl Cone {
    /// No nodes.
    pub fn new(alloc: Global) -> Cone {
        Cone {
            nodes: Vec::new(alloc),
            places: Marks::new(alloc, 0),
        }
    }

    /// The place of a node; None where it isn't listed.
    pub fn place(&self, node: u64) -> Option<usize>
        ensures { IfSome result (λ place. slice_get self.now.nodes.items place ≡ Some node) }
    {
        let place = self.places.of(node);
        match self.nodes.get(place) {
            Some(listed) if *listed == node => Some(place),
            _ => None,
        }
    }

    /// Lists no node any more.
    pub fn clear(&mut self) {
        self.nodes.clear();
    }

    /// Lists a node behind the others, unless it is listed.
    pub fn add(&mut self, node: u64) -> Result<(), OutOfMemory> {
        if self.place(node).is_some() {
            return Ok(());
        }
        self.places.set(node, self.nodes.len())?;
        self.nodes.push(node)?;
        Ok(())
    }

    /// Lists, rising, the nodes that the two reach: all of them, or the nearest ones where there are more than `most`, or
    /// hardly more.
    pub fn gather(
        &mut self,
        aig: &Aig,
        first: u64,
        second: u64,
        most: usize,
    ) -> Result<(), OutOfMemory> {
        self.clear();
        self.add(first)?;
        self.add(second)?;
        self.extend(aig, most)?;
        self.nodes.sort_unstable();
        self.number()
    }

    /// The node at a place.
    pub fn at(&self, place: usize) -> Option<u64> {
        self.nodes.get(place).copied()
    }

    /// Gives each listed node its place.
    fn number(&mut self) -> Result<(), OutOfMemory> {
        for (place, node) in self.nodes.iter().enumerate() {
            self.places.set(*node, place)?;
        }
        Ok(())
    }

    /// Lists the operands of the listed nodes, in turn, until there are `most` nodes.
    fn extend(&mut self, aig: &Aig, most: usize) -> Result<(), OutOfMemory> {
        for place in 0..most {
            if self.nodes.len() >= most {
                break;
            }
            match self.at(place) {
                None => break,
                Some(node) => self.add_operands(aig, node)?,
            }
        }
        Ok(())
    }

    fn add_operands(&mut self, aig: &Aig, node: u64) -> Result<(), OutOfMemory> {
        match aig.pair(node) {
            None => Ok(()),
            Some((first, second)) => {
                self.add(first.node())?;
                self.add(second.node())
            }
        }
    }
}
