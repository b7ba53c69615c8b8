//! Whether the variables that occur in both parts have edges.

ghost use Rattle.std.specs.Prelude.{◌≡◌, ◌≢◌, ◌↔◌, ◌<◌, All, AllPairs, IfOk, IsTrue, List, Some, length, slice_get, true};
ghost use Rattle.eco_trace.specs.declared.clause.Lit.{Lit};
ghost use Rattle.eco_itp.specs.Between.{IsCovered};
ghost use Rattle.eco_itp.specs.Parts.{has_needed_edge, IsClauseCovered};

use crate::parts::Parts;
use eco_aig::Edge;
use eco_meaning::OutOfMemory;
use eco_trace::{Lit, NodeId, Trace, Var};
use std::alloc::Global;

/// Whether each variable that occurs in both parts has an edge, as `interpolate` requires.
pub fn covers(
    alloc: Global,
    trace: &Trace<'_>,
    side: &[bool],
    shared: &[(Var, Edge)],
) -> Result<bool, OutOfMemory>
    requires marked { length side.now ≡ length trace.now.originals }
    requires distinct { AllPairs (λ p q. p.0 ≢ q.0) shared.now }
    ensures { IfOk result (λ covered. IsTrue covered
        ↔ IsCovered (record { clauses = trace.now.originals; marks = side.now }) shared.now) }
{
    let parts = Parts::new(alloc, trace, side, shared)?;
    for number in 0..side.len() {
        if !is_clause_covered(&parts, number) {
            return Ok(false);
        }
    }
    Ok(true)
}

/// Whether the literals of the clause, if it belongs to A, have the edges that they need.
fn is_clause_covered(parts: &Parts<'_, '_>, number: usize) -> bool
    requires marked { length parts.now.side.now ≡ length parts.now.trace.now.originals }
    requires number { number < length parts.now.side.now }
    ensures { IsTrue result ↔ IsClauseCovered parts.now number }
{
    if parts.side[number] {
        have_needed_edges(parts, parts.trace.clause(NodeId(number as u64)))
    } else {
        true
    }
}

fn have_needed_edges(parts: &Parts<'_, '_>, clause: &[Lit]) -> bool
    ensures { IsTrue result ↔ All (λ l. has_needed_edge parts.now l.var ≡ true) clause.now }
{
    clause.iter().all(|lit| parts.has_needed_edge(lit.var))
}
