//! Which signals are steady over a tuple.

ghost use Rattle.std.specs.Prelude.{◌≡◌, ℕ, false, IfOk, Some, length};
ghost use Rattle.std.specs.List.{slice_get};
ghost use Rattle.eco_meaning.specs.Circuit.{names};
ghost use Rattle.eco_netlist.specs.Netlists.{AreNets, names_at};
ghost use Rattle.eco_tuples.specs.Graphs.{AreInputsOf, IsTargetGraph, Stretches};
ghost use Rattle.eco_tuples.specs.Rows.{AreSharedUnless, AreSteadyUnless, IsSteadyBeside};

use crate::target_graph::{TargetGraph, edges_at, target_graph};
use eco_aig::Edge;
use eco_floor::Row;
use eco_meaning::{Bits, OutOfMemory};
use eco_netlist::{NetId, Netlist};
use std::alloc::Global;

/// Signals of the netlist, by their places, such that all others are steady over the tuple: those which it doesn't have one edge
/// for in copies over one graph of the targets, one for each input of the tuple. A signal that is steady may be among them, since
/// edges that always have one bit may differ.
pub fn steady_row(
    alloc: Global,
    netlist: &Netlist,
    signals: &[NetId],
    tuple: &[Bits],
) -> Result<Row, OutOfMemory>
    requires signals { AreNets (names netlist.now) signals.now }
    requires tuple { AreInputsOf netlist.now tuple.now }
    ensures { IfOk result (IsSteadyBeside netlist.now (names_at (names netlist.now) signals.now) tuple.now) }
{
    let mut targets = target_graph(alloc, netlist)?;
    let marks = marks_of(netlist, signals, tuple, &mut targets);
    drop(targets);
    let marks = marks?;
    let row = Row::of(alloc, marks.as_slice())?;
    Ok(row)
}

/// A mark for each of the signals; one without is steady over the tuple.
fn marks_of(
    netlist: &Netlist,
    signals: &[NetId],
    tuple: &[Bits],
    targets: &mut TargetGraph,
) -> Result<Vec<bool>, OutOfMemory>
    requires signals { AreNets (names netlist.now) signals.now }
    requires tuple { AreInputsOf netlist.now tuple.now }
    requires targets { IsTargetGraph netlist.now targets.old }
    ensures count { IfOk result (λ marks. length marks.items ≡ length signals.now) }
    ensures steady { IfOk result (λ marks. AreSteadyUnless netlist.now (names_at (names netlist.now) signals.now) tuple.now marks.items) }
{
    match tuple.split_first() {
        None => Ok(vec![in targets.alloc; false; signals.len()]?),
        Some((first, rest)) => {
            let edges = edges_at(netlist, signals, first.as_slice(), targets)?;
            let marks = marks_beside(netlist, signals, edges.as_slice(), rest, targets)?;
            Ok(marks)
        }
    }
}

/// A mark for each of the signals that hasn't the given edge at some of these inputs.
fn marks_beside(
    netlist: &Netlist,
    signals: &[NetId],
    edges: &[Edge],
    rest: &[Bits],
    targets: &mut TargetGraph,
) -> Result<Vec<bool>, OutOfMemory>
    requires signals { AreNets (names netlist.now) signals.now }
    requires count { length edges.now ≡ length signals.now }
    requires rest { AreInputsOf netlist.now rest.now }
    requires targets { IsTargetGraph netlist.now targets.old }
    ensures count { IfOk result (λ marks. length marks.items ≡ length signals.now) }
    ensures shared { IfOk result (λ marks. AreSharedUnless netlist.now (names_at (names netlist.now) signals.now) targets.new rest.now edges.now marks.items) }
    ensures stretches { IfOk result (λ _. Stretches targets.old targets.new) }
    ensures targets { IfOk result (λ _. IsTargetGraph netlist.now targets.new) }
{
    let mut marks = vec![in targets.alloc; false; signals.len()]?;
    for input in rest {
        let others = edges_at(netlist, signals, input.as_slice(), targets)?;
        marks = with_unlike(targets.alloc, marks.as_slice(), edges, others.as_slice())?;
    }
    Ok(marks)
}

/// The marks, and one more at each place at which the edges differ.
fn with_unlike(
    alloc: Global,
    marks: &[bool],
    edges: &[Edge],
    others: &[Edge],
) -> Result<Vec<bool>, OutOfMemory>
    requires edges { length edges.now ≡ length marks.now }
    requires others { length others.now ≡ length marks.now }
    ensures count { IfOk result (λ made. length made.items ≡ length marks.now) }
    ensures unmarked { IfOk result (λ made. (k : ℕ) → slice_get made.items k ≡ Some false →
        (slice_get marks.now k ≡ Some false) × (slice_get edges.now k ≡ slice_get others.now k)) }
{
    let mut made = Vec::with_capacity(alloc, marks.len())?;
    for (place, mark) in marks.iter().enumerate() {
        made.push(is_marked(*mark, edges[place], others[place]))?;
    }
    Ok(made)
}

/// Whether there is a mark, or the edges differ.
fn is_marked(mark: bool, edge: Edge, other: Edge) -> bool
    ensures { result ≡ false → (mark ≡ false) × (edge ≡ other) }
{
    mark || edge != other
}
