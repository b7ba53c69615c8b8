//! Interpolants out of refutations.

ghost use Rattle.std.specs.Prelude.{◌≡◌, ◌≢◌, ◌+◌, All, AllPairs, IfOk, length};
ghost use Rattle.eco_trace.specs.Resolution.{EndsEmpty};
ghost use Rattle.eco_aig.specs.Graph.{Grows, IsEdge};
ghost use Rattle.eco_itp.specs.Between.{IsBetween, IsCovered};
ghost use Rattle.eco_itp.specs.Bound.{links_of, literals_of_a};

use crate::chain::add_learnt;
use crate::leaf::leaves;
use crate::parts::Parts;
use eco_aig::{Aig, Edge};
use eco_meaning::OutOfMemory;
use eco_trace::{Trace, Var};
use std::alloc::Global;

/// The interpolant of a refutation after McMillan ("Interpolation and SAT-Based Model Checking", CAV 2003). The mark at
/// a clause's place in `side` is true where it belongs to A; `shared` has the edges of variables. A clause of A has
/// the disjunction of its literals whose variables occur in B, a clause of B has the constant 1; a resolvent has the
/// conjunction of those of the two clauses where the pivot occurs in B, else their disjunction. There is one edge for
/// each clause of the proof, so the time is linear in the proof and `shared`.
pub fn interpolate<'t>(
    alloc: Global,
    trace: &Trace<'t>,
    side: &[bool],
    shared: &[(Var, Edge)],
    aig: &mut Aig,
) -> Result<Edge, OutOfMemory>
    requires refutation { EndsEmpty trace.now }
    requires marked { length side.now ≡ length trace.now.originals }
    requires distinct { AllPairs (λ p q. p.0 ≢ q.0) shared.now }
    requires covered { IsCovered (record { clauses = trace.now.originals; marks = side.now }) shared.now }
    requires within { All (λ pair. IsEdge aig.old pair.1) shared.now }
    ensures between { IfOk result (IsBetween (record { clauses = trace.now.originals; marks = side.now }) shared.now aig.new) }
    ensures grows { Grows aig.old aig.new (links_of trace.now.learnt + literals_of_a trace.now.originals side.now) }
{
    let parts = Parts::new(alloc, trace, side, shared)?;
    let mut edges = leaves(alloc, &parts, aig)?;
    add_learnt(&parts, &mut edges, aig)?;
    Ok(edges[edges.len() - 1])
}
