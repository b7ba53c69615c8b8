//! Joining edges.

ghost use Rattle.std.specs.Prelude.{◌≡◌, ◌*◌, ◌-◌, [], ◌∷◌, length, map, IfOk, take, Bool, ℕ, All};
ghost use Rattle.eco_gates.specs.Gates.{IsTermBelow};
ghost use Rattle.eco_gates.specs.Evaluation.{term_value};
ghost use Rattle.eco_aig.specs.Edges.{value_of, bits_of};
ghost use Rattle.eco_aig.specs.Graph.{IsEdge, HasValue, Grows};
ghost use Rattle.eco_compile.specs.Compiled.{AreEdges};
ghost use Rattle.eco_compile.specs.Joins.{joined, joined_two, join_of, join_nodes, inverts};

use eco_aig::{Aig, Edge};
use eco_gates::Term;
use eco_meaning::{Kind, OutOfMemory};

/// How bits are joined to one: whether all are 1, some bit is, or an odd number of them is.
#[derive(Clone, Copy)]
pub(crate) enum Join {
    All,
    Any,
    Odd,
}

/// How a gate joins its inputs.
pub(crate) fn join_of(kind: Kind) -> Join
    ensures { result ≡ join_of kind }
{
    match kind {
        Kind::And | Kind::Nand | Kind::Buf | Kind::Not => Join::All,
        Kind::Or | Kind::Nor => Join::Any,
        Kind::Xor | Kind::Xnor => Join::Odd,
    }
}

/// Whether a gate's output is the complement of its joined inputs.
pub(crate) fn inverts(kind: Kind) -> bool
    ensures { result ≡ inverts kind }
{
    match kind {
        Kind::Nand | Kind::Nor | Kind::Xnor | Kind::Not => true,
        Kind::And | Kind::Or | Kind::Xor | Kind::Buf => false,
    }
}

/// The edge of these terms, joined from the first one on, where the nets have these edges.
pub(crate) fn join_terms(
    join: Join,
    terms: &[Term],
    edges: &[Edge],
    aig: &mut Aig,
) -> Result<Edge, OutOfMemory>
    requires edges { AreEdges aig.old edges.now }
    requires within { All (IsTermBelow (length edges.now)) terms.now }
    ensures value { IfOk result (λ e. HasValue aig.new e (λ w. joined join (map (term_value (bits_of w edges.now)) terms.now))) }
    ensures grows { Grows aig.old aig.new (join_nodes join * (length terms.now - 1)) }
{
    match terms.split_first() {
        None => Ok(neutral(join, aig)),
        Some((first, rest)) => {
            let edge = term_edge(*first, edges, aig);
            join_rest(join, edge, rest, edges, aig)
        }
    }
}

/// The edge joined with those of further terms, one by one.
fn join_rest(
    join: Join,
    first: Edge,
    rest: &[Term],
    edges: &[Edge],
    aig: &mut Aig,
) -> Result<Edge, OutOfMemory>
    requires first { IsEdge aig.old first }
    requires edges { AreEdges aig.old edges.now }
    requires within { All (IsTermBelow (length edges.now)) rest.now }
    ensures value { IfOk result (λ e. HasValue aig.new e
        (λ w. joined join (value_of w first ∷ map (term_value (bits_of w edges.now)) rest.now))) }
    ensures grows { Grows aig.old aig.new (join_nodes join * length rest.now) }
{
    let mut edge = first;
    for term in rest {
        edge = join_two(join, edge, term_edge(*term, edges, aig), aig)?;
    }
    Ok(edge)
}

/// The edge of no terms: it joins with each other one to that one.
fn neutral(join: Join, aig: &Aig) -> Edge
    ensures { HasValue aig.now result (λ w. joined join []) }
{
    // the constant is node 0
    let _ = aig.nodes();
    match join {
        Join::All => Edge::ONE,
        Join::Any | Join::Odd => Edge::ZERO,
    }
}

/// The two edges joined.
fn join_two(join: Join, a: Edge, b: Edge, aig: &mut Aig) -> Result<Edge, OutOfMemory>
    requires first { IsEdge aig.old a }
    requires second { IsEdge aig.old b }
    ensures value { IfOk result (λ e. HasValue aig.new e (λ w. joined_two join (value_of w a) (value_of w b))) }
    ensures grows { Grows aig.old aig.new (join_nodes join) }
{
    match join {
        Join::All => aig.and(a, b),
        Join::Any => aig.or(a, b),
        Join::Odd => aig.xor(a, b),
    }
}

/// The edge that a gate's input reads.
fn term_edge(term: Term, edges: &[Edge], aig: &Aig) -> Edge
    requires edges { AreEdges aig.now edges.now }
    requires within { IsTermBelow (length edges.now) term }
    ensures { HasValue aig.now result (λ w. term_value (bits_of w edges.now) term) }
{
    // the constant is node 0
    let _ = aig.nodes();
    match term {
        Term::Zero => Edge::ZERO,
        Term::One => Edge::ONE,
        Term::Net(net) => edges[net.0 as usize],
    }
}
