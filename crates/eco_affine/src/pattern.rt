//! Which conjunctions are exclusive disjunctions.

ghost use Rattle.std.specs.Prelude.{◌≡◌, ◌&&◌, ℕ, Bool, IfSome, IsTrue};
ghost use Rattle.eco_aig.specs.Edges.{value_of};
ghost use Rattle.eco_affine.specs.Forms.{IsParityOf};
ghost use Rattle.eco_affine.specs.Patterns.{IsNeither, IsNand};

use eco_aig::{Aig, Edge};

/// Two edges of which just one has bit 1 where the node has; None where the node isn't made in one of the usual ways: as
/// `Aig::xor` makes it, or as neither `a and c` nor `b and c` where `c` is the complement of `a and b`.
pub(crate) fn xor_of(aig: &Aig, node: u64) -> Option<(Edge, Edge)>
    ensures { IfSome result (λ pair. IsParityOf aig.now node pair.0 pair.1) }
{
    // it is a graph: operands are nodes of it
    let _ = aig.nodes();
    match aig.exclusive(node) {
        Some((a, b)) => Some((a, b)),
        None => xor_by_nand(aig, node),
    }
}

/// The two edges where the node is neither `a and c` nor `b and c`, and `c` is the complement of `a and b`.
fn xor_by_nand(aig: &Aig, node: u64) -> Option<(Edge, Edge)>
    ensures { IfSome result (λ pair. IsParityOf aig.now node pair.0 pair.1) }
{
    let Pairs { a, b, c, d } = pairs_of(aig, node)?;
    if b == d && is_nand(aig, b, a, c) {
        return Some((a.not(), c));
    }
    None
}

/// The operands of two conjunctions: `a` and `b`, `c` and `d`.
#[derive(Clone, Copy)]
struct Pairs {
    a: Edge,
    b: Edge,
    c: Edge,
    d: Edge,
}

/// The operands of two conjunctions where the node has bit 1 just where neither of them has.
fn pairs_of(aig: &Aig, node: u64) -> Option<Pairs>
    ensures { IfSome result (λ pairs. IsNeither aig.now node pairs.a pairs.b pairs.c pairs.d) }
{
    // it is a graph: operands are nodes of it
    let _ = aig.nodes();
    let (first, second) = aig.pair(node)?;
    if !first.complemented || !second.complemented {
        return None;
    }
    let (a, b) = aig.pair(first.node)?;
    let (c, d) = aig.pair(second.node)?;
    Some(Pairs { a, b, c, d })
}

/// Whether the edge is the complement of the conjunction of the two.
fn is_nand(aig: &Aig, edge: Edge, a: Edge, b: Edge) -> bool
    ensures { IsTrue result → IsNand aig.now edge a b }
{
    match aig.pair(edge.node) {
        None => false,
        Some((first, second)) => {
            if !edge.complemented {
                return false;
            }
            are_the_two(first, second, a, b)
        }
    }
}

/// Whether the first two edges are the others, in this order or the other way about.
fn are_the_two(first: Edge, second: Edge, a: Edge, b: Edge) -> bool
    ensures { (w : ℕ → Bool) → IsTrue result → (value_of w first && value_of w second) ≡ (value_of w a && value_of w b) }
{
    if first == a {
        return second == b;
    }
    if first != b {
        return false;
    }
    second == a
}
