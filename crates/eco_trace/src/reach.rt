//! The clauses that a refutation stands on.

ghost use Rattle.std.specs.Prelude.{◌≡◌, ◌↔◌, ◌⊎◌, ◌<◌, ◌≤◌, ℕ, All, IfOk, length, true};
ghost use Rattle.eco_trace.specs.Clauses.{Valuation};
ghost use Rattle.eco_trace.specs.Resolution.{EndsEmpty, IsLegal, clauses_of};
ghost use Rattle.eco_trace.specs.Split.{IsModelOf};
ghost use Rattle.eco_trace.specs.Core.{IsCore, IsSet, Names, Reaches, Uses, last_of};

use crate::node::{Link, NodeId};
use crate::trace::Trace;
use eco_meaning::OutOfMemory;
use std::alloc::Global;

/// The core of a refutation: a mark for each clause that it begins with, set where the empty clause is derived from it,
/// by any number of chains. The clauses with a mark have no model. It takes time linear in the proof.
pub fn core_of(alloc: Global, trace: &Trace<'_>) -> Result<Vec<bool>, OutOfMemory>
    requires { EndsEmpty trace.now }
    ensures core { IfOk result (λ marks. IsCore trace.now marks.items) }
    ensures refuted { IfOk result (λ marks. (v : Valuation)
        → IsModelOf (record { clauses = trace.now.originals; marks = marks.items }) true v → ⊥) }
{
    trace.is_sound();
    let mut marks = reached(alloc, trace)?;
    marks.truncate(trace.originals() as usize);
    Ok(marks)
}

/// A mark for each node, set where it is reached from the last one.
fn reached(alloc: Global, trace: &Trace<'_>) -> Result<Vec<bool>, OutOfMemory>
    requires { 0 < length (clauses_of trace.now) }
    ensures length { IfOk result (λ marks. length marks.items ≡ length (clauses_of trace.now)) }
    ensures reached { IfOk result (λ marks. (k : ℕ) → IsSet marks.items k ↔ Reaches trace.now (last_of trace.now) k) }
{
    trace.is_sound();
    let nodes = trace.len();
    let mut marks = vec![in alloc; false; nodes as usize]?;
    marks[nodes as usize - 1] = true;
    for back in 0..nodes - trace.originals() {
        let node = nodes - 1 - back;
        if marks[node as usize] {
            mark_chain(trace, NodeId(node), &mut marks);
        }
    }
    Ok(marks)
}

/// Sets the marks of the nodes that the chain of a learnt node names.
fn mark_chain(trace: &Trace<'_>, node: NodeId, marks: &mut Vec<bool>)
    requires legal { IsLegal trace.now }
    requires learnt { length trace.now.originals ≤ node.0 }
    requires within { node.0 < length (clauses_of trace.now) }
    requires length { length marks.old.items ≡ length (clauses_of trace.now) }
    ensures length { length marks.new.items ≡ length marks.old.items }
    ensures marked { (k : ℕ) → IsSet marks.new.items k ↔ (IsSet marks.old.items k ⊎ Uses trace.now node.0 k) }
{
    match trace.chain(node) {
        None => unreachable!(),
        Some((start, links)) => mark_named(start, links, marks),
    }
}

/// Sets the marks of the nodes that the chain names.
fn mark_named(start: NodeId, links: &[Link], marks: &mut Vec<bool>)
    requires start { start.0 < length marks.old.items }
    requires links { All (λ link. link.with.0 < length marks.old.items) links.now }
    ensures length { length marks.new.items ≡ length marks.old.items }
    ensures marked { (k : ℕ) → IsSet marks.new.items k ↔ (IsSet marks.old.items k ⊎ Names start links.now k) }
{
    marks[start.0 as usize] = true;
    for link in links {
        marks[link.with.0 as usize] = true;
    }
}
