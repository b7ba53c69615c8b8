//! Rows of bits, one for each node of a graph.

ghost use Rattle.std.specs.Prelude.{IfOk};
ghost use Rattle.eco_merge.specs.Rows.{IsRow};

use eco_aig::{Aig, Edge};
use eco_meaning::OutOfMemory;
use eco_simulate::Congruence;
use std::alloc::Global;
use std::marker::Model;

/// A bit for each node of a graph, such that each fits its node.
#[derive(Drop)]
pub(crate) struct Row {
    bits: Vec<bool>,
}

impl Model for Row {
    ghost use Rattle.std.specs.Prelude.{List, Bool};

    ghost Value = { List Bool };

    ghost view = { λ row. row.bits.items };
}

impl Row {
    ghost use Rattle.std.specs.Prelude.{◌≡◌, IfOk, IsTrue, OnOk, length};
    ghost use Rattle.eco_lists.specs.Bits.{bit_at};
    ghost use Rattle.eco_aig.specs.Edges.{value_of};
    ghost use Rattle.eco_merge.specs.Rows.{IsRow, TellsApart, grown};

    /// The row in which the inputs have these bits.
    pub(crate) fn new(aig: &Aig, mut bits: Vec<bool>) -> Row
        requires { length bits.items ≡ length aig.now }
        ensures { IsRow aig.now result }
    {
        aig.fill(bits.as_mut_slice());
        Row { bits }
    }

    /// Adds the bit of one more node, the conjunction of two edges.
    pub(crate) fn grow(&mut self, first: Edge, second: Edge) -> Result<(), OutOfMemory>
        ensures { OnOk result (self.new ≡ grown first second self.old) }
    {
        let bit = self.edge_bit(first) && self.edge_bit(second);
        self.bits.push(bit)?;
        Ok(())
    }

    /// Whether the row tells the nodes apart: the node hasn't the other one's bit, or not its complement where `same` is
    /// false. Without another node the other bit is 0.
    pub(crate) fn tells_apart(&self, node: u64, other: Option<u64>, same: bool) -> bool
        ensures { IsTrue result → TellsApart self.now node other same }
    {
        let other_bit = match other {
            Some(other) => self.bit(other),
            None => false,
        };
        self.bit(node) != (other_bit == same)
    }

    /// The bit of an edge.
    pub(crate) fn edge_bit(&self, edge: Edge) -> bool
        ensures { result ≡ value_of (bit_at self.now) edge }
    {
        self.bit(edge.node) != edge.complemented
    }

    /// The bit of a node.
    pub(crate) fn bit(&self, node: u64) -> bool
        ensures { result ≡ bit_at self.now node }
    {
        self.bits
            .as_slice()
            .get(node as usize)
            .copied()
            .unwrap_or(false)
    }
}

/// A row whose inputs have bits that look random.
pub(crate) fn drawn(alloc: Global, aig: &Aig, draws: &mut Congruence) -> Result<Row, OutOfMemory>
    ensures { IfOk result (IsRow aig.now) }
{
    let mut bits = Vec::with_capacity(alloc, aig.nodes() as usize)?;
    for _ in 0..aig.nodes() {
        bits.push(draws.next() >> 63 == 1)?;
    }
    Ok(Row::new(aig, bits))
}
