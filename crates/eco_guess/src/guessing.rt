//! The call.

ghost use Rattle.std.specs.Prelude.{◌≡◌, ◌*◌, All, IfOk, IfSome, length};
ghost use Rattle.eco_aig.specs.Graph.{IsEdge, Grows};

use crate::bounds::MOST_TARGETS;
use crate::making::made;
use crate::opened::{Hints, Opened};
use crate::patterns::Patterns;
use crate::trial::{Scene, forms_of};
use eco_aig::{Aig, Edge};
use eco_meaning::OutOfMemory;
use std::alloc::Global;

/// A reference for each target of the group, in its order: an edge of the graph with which, at all patterns that were tried, the
/// implementation is right at the outputs that the group reaches. Nothing if there are more than twelve targets, or if no such
/// functions of up to three nodes were found. The group's targets are given by their numbers among the open ones; the others
/// must reach none of its outputs (`groups`). After `OutOfMemory` the graph may have nodes more.
///
/// Errors: out of memory.
pub fn guess(
    alloc: Global,
    opened: &Opened,
    group: &[usize],
    graph: &mut Aig,
    hints: &Hints,
) -> Result<Option<Vec<Edge>>, OutOfMemory>
    ensures count { IfOk result (λ found. IfSome found (λ edges. length edges.items ≡ length group.now)) }
    ensures edges { IfOk result (λ found. IfSome found (λ edges. All (IsEdge graph.new) edges.items)) }
    ensures grows { Grows graph.old graph.new (6 * length group.now) }
{
    if group.len() > MOST_TARGETS {
        return Ok(None);
    }
    let scene = Scene {
        alloc,
        opened,
        group,
        graph,
        hints,
        patterns: Patterns::new(hints.seen),
    };
    match forms_of(&scene)? {
        Some(forms) if forms.len() == group.len() => {
            let edges = made(alloc, graph, forms.as_slice())?;
            Ok(Some(edges))
        }
        _ => Ok(None),
    }
}
