//! Whether a gate gives the edge that it is to give.

ghost use Rattle.std.specs.Prelude.{◌≡◌, ◌↔◌, ◌∷◌, [], IfOk, IsTrue, map};
ghost use Rattle.eco_aig.specs.Edges.{complement};
ghost use Rattle.eco_aig.specs.Graph.{IsGraph};
ghost use Rattle.eco_splice.specs.declared.join.Join.TheVariants.{Conjunction};
ghost use Rattle.eco_splice.specs.Lines.{IsLine};
ghost use Rattle.eco_splice.specs.Trees.{IsBuilt, IsBuiltAs, IsJoined};

use crate::join::Join;
use crate::line::Line;
use crate::walking::is_joined;
use eco_aig::{Aig, Edge};
use eco_meaning::{Kind, OutOfMemory};
use std::alloc::Global;

/// Whether the line's edge is one of the graph, and the nodes between it and the operands are those of the line's gate: for an
/// `and` and-nodes, entered by plain edges; for an `xor` nodes that are made as `Aig::xor` makes them; for a `buf` none, the
/// operand is the edge; and for the other kinds the same with complements drawn into the kind. Then the gate has its edge's
/// value. It takes time linear in the operands.
///
/// The order of the operands is that in which a walk down from the edge meets them, which goes to an and-node's operands in the
/// order of `Aig::pair`, and below an exclusive disjunction to those of the first of its node's two operands, in that order.
pub fn is_line(alloc: Global, aig: &Aig, line: &Line) -> Result<bool, OutOfMemory>
    ensures exactly { IfOk result (λ is. IsTrue is ↔ IsBuilt aig.now line.now) }
    ensures line { IfOk result (λ is. IsTrue is → IsLine aig.now line.now) }
{
    if line.edge.node >= aig.nodes() {
        return Ok(false);
    }
    is_built(alloc, aig, line.kind, line.edge, line.operands.as_slice())
}

/// Whether the edge has the structure of a gate of this kind over the operands.
fn is_built(
    alloc: Global,
    aig: &Aig,
    kind: Kind,
    edge: Edge,
    operands: &[Edge],
) -> Result<bool, OutOfMemory>
    requires graph { IsGraph aig.now }
    ensures { IfOk result (λ is. IsTrue is ↔ IsBuiltAs aig.now kind edge operands.now) }
{
    match kind {
        Kind::And => is_joined(alloc, aig, Join::Conjunction, edge, operands),
        Kind::Nand => is_joined(alloc, aig, Join::Conjunction, edge.not(), operands),
        Kind::Or => is_joined_complemented(alloc, aig, edge.not(), operands),
        Kind::Nor => is_joined_complemented(alloc, aig, edge, operands),
        Kind::Xor => is_joined(alloc, aig, Join::Parity, edge, operands),
        Kind::Xnor => is_joined(alloc, aig, Join::Parity, edge.not(), operands),
        Kind::Buf => Ok(is_alone(edge, operands)),
        Kind::Not => Ok(is_alone(edge.not(), operands)),
    }
}

/// Whether the edge is a conjunction of the operands' complements.
fn is_joined_complemented(
    alloc: Global,
    aig: &Aig,
    edge: Edge,
    operands: &[Edge],
) -> Result<bool, OutOfMemory>
    requires graph { IsGraph aig.now }
    ensures { IfOk result (λ is. IsTrue is ↔ IsJoined aig.now Conjunction edge (map complement operands.now)) }
{
    let complements = complements_of(alloc, operands)?;
    is_joined(alloc, aig, Join::Conjunction, edge, complements.as_slice())
}

/// The complements of the edges.
fn complements_of(alloc: Global, edges: &[Edge]) -> Result<Vec<Edge>, OutOfMemory>
    ensures { IfOk result (λ complements. complements.items ≡ map complement edges.now) }
{
    let mut complements = Vec::with_capacity(alloc, edges.len())?;
    for edge in edges {
        complements.push(edge.not())?;
    }
    Ok(complements)
}

/// Whether the edge is the one operand.
fn is_alone(edge: Edge, operands: &[Edge]) -> bool
    ensures { IsTrue result ↔ (operands.now ≡ edge ∷ []) }
{
    match operands {
        [operand] => *operand == edge,
        _ => false,
    }
}
