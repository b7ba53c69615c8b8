//! Bits of nets and of edges.

ghost use Rattle.std.specs.Prelude.{◌≡◌, length};

use eco_aig::{Aig, Edge, OutOfMemory};
use std::alloc::Global;

/// The bit at the place; 0 behind the last.
pub(crate) fn bit_at(bits: &[bool], place: u64) -> bool {
    bits.get(place as usize).copied().unwrap_or(false)
}

/// Sets the bit at the place, if there is one.
pub(crate) fn set_bit(bits: &mut [bool], place: u64, bit: bool)
    ensures { length bits.new ≡ length bits.old }
{
    if let Some(at) = bits.get_mut(place as usize) {
        *at = bit;
    }
}

/// The edge's bit, where the nodes have these.
pub(crate) fn edge_bit(bits: &[bool], edge: Edge) -> bool {
    bit_at(bits, edge.node()) != edge.complemented()
}

/// The bits of the nodes where the inputs have the bits of the row, the first one the lowest.
pub(crate) fn row_bits(alloc: Global, graph: &Aig, row: u64) -> Result<Vec<bool>, OutOfMemory> {
    let mut bits = vec![in alloc; false; graph.nodes() as usize]?;
    set_inputs(bits.as_mut_slice(), graph.inputs(), row);
    if bits.len() as u64 == graph.nodes() {
        graph.fill(bits.as_mut_slice());
    }
    Ok(bits)
}

/// Sets the bits of the inputs to those of the row.
fn set_inputs(bits: &mut [bool], inputs: &[u64], row: u64) {
    let mut rest = row;
    for input in inputs {
        set_bit(bits, *input, rest & 1 == 1);
        rest >>= 1;
    }
}
