//! Signatures of nodes: numbers that tell most nodes apart at a glance.

ghost use Rattle.std.specs.Prelude.{◌≡◌, IfOk, length};
ghost use Rattle.eco_merge.specs.Signatures.{AreSignatures, cleared, signature_at, with_bit};

use crate::row::Row;
use eco_aig::Edge;
use eco_meaning::OutOfMemory;
use std::alloc::Global;

/// The signatures of the first nodes, so many of them.
pub(crate) fn signatures_of(
    alloc: Global,
    rows: &[Row],
    nodes: u64,
) -> Result<Vec<u64>, OutOfMemory>
    ensures count { IfOk result (λ signatures. length signatures.items ≡ nodes) }
    ensures each { IfOk result (λ signatures. AreSignatures rows.now signatures.items) }
{
    let mut signatures = Vec::new(alloc);
    for node in 0..nodes {
        signatures.push(signature_of(rows, node))?;
    }
    Ok(signatures)
}

/// A number for the node's bits in the rows, which a node with the same bits has too, and one with their complements.
pub(crate) fn signature_of(rows: &[Row], node: u64) -> u64
    ensures { result ≡ signature_at rows.now node }
{
    let edge = edge_cleared(rows, node);
    let mut signature = 0;
    for row in rows {
        signature = extended(signature, row.edge_bit(edge));
    }
    signature
}

/// The edge to the node that has bit 0 in the first row.
fn edge_cleared(rows: &[Row], node: u64) -> Edge
    ensures { result ≡ cleared rows.now node }
{
    let complemented = match rows.first() {
        None => false,
        Some(row) => row.bit(node),
    };
    Edge { node, complemented }
}

/// The signature with one more bit.
#[tactic(auto, unfolding(crate::specs::Signatures::with_bit))]
fn extended(signature: u64, bit: bool) -> u64
    ensures { result ≡ with_bit signature bit }
{
    signature.wrapping_mul(2).wrapping_add(u64::from(bit))
}
