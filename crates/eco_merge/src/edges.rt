//! Edges whose nodes are merged.

ghost use Rattle.std.specs.Prelude.{◌≡◌, ◌≤◌, All, IfOk, length};
ghost use Rattle.std.specs.List.{AllZip};
ghost use Rattle.eco_aig.specs.Edges.{value_of};
ghost use Rattle.eco_aig.specs.Graph.{Grows, HasValue, IsEdge};
ghost use Rattle.eco_merge.specs.Counting.{AreNoMore, AreUnlike, IsAboutReached, IsGate, IsItem, ReachNoMoreInputs};
ghost use Rattle.eco_merge.specs.Questions.{IsEntry};

use crate::entries::keep_reached;
use crate::loose::Loose;
use crate::merging::Merging;
use eco_aig::{Aig, Edge};
use eco_meaning::OutOfMemory;
use eco_trace::Refuter;
use std::alloc::Global;

/// Edges whose nodes are merged.
#[derive(Drop)]
pub struct Swept {
    /// The edges, in order.
    pub roots: Vec<Edge>,
    /// Nodes that the edges reach, of which it isn't known whether they are alike.
    pub apart: Vec<Loose>,
}

/// Edges with the values of the given ones, in which no two and-nodes are equal or complementary, and none is constant,
/// but where a search that learnt `limit` clauses didn't tell. They reach no more and-nodes, and with the complements of
/// operands no more either; and each reaches only inputs that the given edges up to its place reach.
pub fn sweep<R: Refuter>(
    alloc: Global,
    aig: &mut Aig,
    roots: &[Edge],
    refuter: &mut R,
    limit: u64,
) -> Result<Swept, OutOfMemory>
    requires roots { All (IsEdge aig.old) roots.now }
    requires limit { 1 ≤ limit }
    ensures values { IfOk result (λ swept. AllZip (λ e r. HasValue aig.new r (λ w. value_of w e)) roots.now swept.roots.items) }
    ensures grows { Grows aig.old aig.new (length aig.old) }
    ensures gates { IfOk result (λ swept. AreNoMore (IsGate aig.new swept.roots.items) (IsGate aig.old roots.now)) }
    ensures items { IfOk result (λ swept. AreNoMore (IsItem aig.new swept.roots.items) (IsItem aig.old roots.now)) }
    ensures inputs { IfOk result (λ swept. ReachNoMoreInputs aig.old roots.now aig.new swept.roots.items) }
    ensures unlike { IfOk result (λ swept. AreUnlike aig.new swept.roots.items swept.apart.items) }
    ensures entries { IfOk result (λ swept. All (IsEntry aig.new limit) swept.apart.items) }
    ensures about { IfOk result (λ swept. All (IsAboutReached aig.new swept.roots.items) swept.apart.items) }
{
    // it is a graph, and stays one
    let _ = aig.nodes();
    let mut swept = Vec::with_capacity(alloc, roots.len())?;
    let mut merging = Merging::new(alloc, aig)?;
    for root in roots {
        let edge = merging.reduce(aig, *root, refuter, limit)?;
        swept.push(edge)?;
        let _ = aig.nodes();
    }
    let mut findings = merging.findings;
    keep_reached(alloc, aig, swept.as_slice(), &mut findings.apart)?;
    Ok(Swept {
        roots: swept,
        apart: findings.apart,
    })
}
