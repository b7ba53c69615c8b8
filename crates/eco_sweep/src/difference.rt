//! Whether two edges differ, by a part of the graph.

ghost use Rattle.std.specs.Prelude.{◌≤◌, List, IfOk};
ghost use Rattle.eco_aig.specs.declared.node.Node.{Node};
ghost use Rattle.eco_aig.specs.Edges.{plain};
ghost use Rattle.eco_sweep.specs.Parts.{Mirrors};
ghost use Rattle.eco_sweep.specs.Questions.{AreEqual, IsComparisonSpent, IfNever, IfSpent};

use crate::cone::Cone;
use crate::part::Part;
use crate::question::{Answer, can_be_one};
use eco_aig::Edge;
use eco_meaning::OutOfMemory;
use eco_trace::Refuter;

/// Whether the node and the edge differ under some input, as far as the search can tell within `limit` learnt clauses. An input that
/// tells the copies apart is one of the part; nothing is asked where one of them has no copy.
pub(crate) fn can_differ<R: Refuter>(
    cone: &Cone,
    part: &mut Part,
    node: u64,
    other: Edge,
    refuter: &mut R,
    limit: u64,
) -> Result<Answer, OutOfMemory>
    requires mirrors { (whole : List Node) × Mirrors whole cone.now.nodes.items part.old.graph part.old.copies.items }
    requires limit { 1 ≤ limit }
    ensures never { (whole : List Node) → Mirrors whole cone.now.nodes.items part.old.graph part.old.copies.items
        → IfOk result (λ answer. IfNever answer (AreEqual whole (plain node) other)) }
    ensures spent { (whole : List Node) → Mirrors whole cone.now.nodes.items part.old.graph part.old.copies.items
        → IfOk result (λ answer. IfSpent answer (IsComparisonSpent whole (plain node) other limit)) }
{
    let edge = Edge {
        node,
        complemented: false,
    };
    let Some(first) = part.copy(cone, edge) else {
        return Ok(Answer::Unasked);
    };
    let Some(second) = part.copy(cone, other) else {
        return Ok(Answer::Unasked);
    };
    // it is a graph, and it stays one: its valuations go on to new nodes
    let _ = part.graph.nodes();
    let difference = part.graph.xor(first, second)?;
    let _ = part.graph.nodes();
    can_be_one(
        *part.copies.allocator(),
        &part.graph,
        difference,
        refuter,
        limit,
    )
}
