//! The nodes that edges reach, as an encoder makes clauses of them.

ghost use Rattle.std.specs.Prelude.{◌≤◌, All, IfOk, OnOk, length};
ghost use Rattle.eco_aig.specs.Graph.{IsEdge};
ghost use Rattle.eco_trace.specs.Clauses.{IsVarWithin};
ghost use Rattle.eco_tseitin.specs.Encoded.{IsEncoded, IsReady, Encodes, Asserts};

use crate::encoder::Encoder;
use crate::sides::EncodedSide;
use eco_aig::{Aig, Edge};
use eco_meaning::OutOfMemory;
use eco_trace::Lit;
use std::alloc::Global;

/// The clauses whose models are the inputs at which the asserted edges are 1, and the literals of the inputs' and of the
/// base edges. Time and memory are those of the nodes that the edges reach.
pub fn encode_side(
    alloc: Global,
    aig: &Aig,
    inputs: &[Edge],
    base: &[Edge],
    asserted: &[Edge],
) -> Result<EncodedSide, OutOfMemory>
    requires inputs { All (IsEdge aig.now) inputs.now }
    requires base { All (IsEdge aig.now) base.now }
    requires asserted { All (IsEdge aig.now) asserted.now }
    ensures encoded { IfOk result (IsEncoded aig.now inputs.now base.now asserted.now) }
    ensures ready { IfOk result IsReady }
    ensures few { IfOk result (λ side. side.cnf.vars ≤ length aig.now) }
{
    // it is a graph
    let _ = aig.nodes();
    let mut encoder = Encoder::new(alloc);
    let input_lits = encode_all(alloc, &mut encoder, aig, inputs)?;
    let base_lits = encode_all(alloc, &mut encoder, aig, base)?;
    let asserted_lits = encode_all(alloc, &mut encoder, aig, asserted)?;
    assert_all(&mut encoder, asserted_lits.as_slice())?;
    let cnf = encoder.finish();
    // they are clauses
    let _ = cnf.clauses();
    Ok(EncodedSide {
        cnf,
        inputs: input_lits,
        base: base_lits,
    })
}

/// The literals of the edges, each of which is encoded.
fn encode_all(
    alloc: Global,
    encoder: &mut Encoder,
    aig: &Aig,
    edges: &[Edge],
) -> Result<Vec<Lit>, OutOfMemory>
    requires { All (IsEdge aig.now) edges.now }
    ensures encoded { IfOk result (λ lits. Encodes aig.now edges.now encoder.old encoder.new lits.items) }
{
    let mut lits = Vec::with_capacity(alloc, edges.len())?;
    for edge in edges {
        lits.push(encoder.encode(aig, *edge)?)?;
    }
    Ok(lits)
}

/// Lets each of the literals be true in each model from now on.
fn assert_all(encoder: &mut Encoder, lits: &[Lit]) -> Result<(), OutOfMemory>
    requires { All (IsVarWithin (length encoder.old.nodes)) lits.now }
    ensures asserted { OnOk result (Asserts lits.now encoder.old encoder.new) }
{
    for lit in lits {
        encoder.assert_lit(*lit)?;
    }
    Ok(())
}
