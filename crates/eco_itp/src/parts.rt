//! The two parts of a proof's clauses, and look-ups of its variables.

ghost use Rattle.std.specs.Prelude.{◌≡◌, ◌≢◌, ◌↔◌, Some, AllPairs, Contains, IfOk, nat_eq};
ghost use Rattle.std.specs.HashMap.{get};
ghost use Rattle.eco_trace.specs.declared.clause.Var.{Var};
ghost use Rattle.eco_aig.specs.declared.edge.Edge.{Edge};

use eco_aig::Edge;
use eco_meaning::OutOfMemory;
use eco_trace::{Lit, Trace, Var, Variables, variables_of};
use std::alloc::Global;
use std::collections::HashMap;

/// A proof whose clauses are marked as those of A (`true`) and those of B, with the edges of variables.
#[derive(Drop)]
pub(crate) struct Parts<'a, 't> {
    pub(crate) trace: &'a Trace<'t>,
    pub(crate) side: &'a [bool],
    pub(crate) shared: &'a [(Var, Edge)],
    /// The variables that occur in B.
    in_b: Variables,
    /// The edges of variables, by their numbers.
    edges: HashMap<u64, Edge>,
}

impl<'a, 't> Parts<'a, 't> {
    ghost use Rattle.std.specs.Prelude.{◌≡◌, ◌≢◌, AllPairs, IfOk, IsSome, length};
    ghost use Rattle.eco_itp.specs.Parts.{AreParts, edge_of, has_needed_edge, literal_edge, occurs};

    pub(crate) fn new(
        alloc: Global,
        trace: &'a Trace<'t>,
        side: &'a [bool],
        shared: &'a [(Var, Edge)],
    ) -> Result<Parts<'a, 't>, OutOfMemory>
        requires marked { length side.now ≡ length trace.now.originals }
        requires distinct { AllPairs (λ p q. p.0 ≢ q.0) shared.now }
        ensures parts { IfOk result AreParts }
        ensures trace { IfOk result (λ parts. parts.trace.now ≡ trace.now) }
        ensures side { IfOk result (λ parts. parts.side.now ≡ side.now) }
        ensures shared { IfOk result (λ parts. parts.shared.now ≡ shared.now) }
    {
        let in_b = variables_of(alloc, trace, side, false)?;
        let edges = edges_by_number(alloc, shared)?;
        Ok(Parts {
            trace,
            side,
            shared,
            in_b,
            edges,
        })
    }

    /// Whether the variable occurs in B.
    pub(crate) fn is_in_b(&self, var: Var) -> bool
        ensures { result ≡ occurs self.now var }
    {
        self.in_b.contains(var)
    }

    /// Whether the variable has an edge, if it occurs in B.
    pub(crate) fn has_needed_edge(&self, var: Var) -> bool
        ensures { result ≡ has_needed_edge self.now var }
    {
        !self.is_in_b(var) || self.edges.contains_key(&var.0)
    }

    /// The edge of a literal: that of its variable, or the complement of it.
    pub(crate) fn literal_edge(&self, lit: Lit) -> Edge
        requires { IsSome (edge_of self.now lit.var) }
        ensures { result ≡ literal_edge self.now lit }
    {
        let edge = self.edges.get(&lit.var.0).copied().unwrap();
        if lit.positive { edge } else { edge.not() }
    }
}

/// The edges of variables, by their numbers.
fn edges_by_number(alloc: Global, shared: &[(Var, Edge)]) -> Result<HashMap<u64, Edge>, OutOfMemory>
    requires { AllPairs (λ p q. p.0 ≢ q.0) shared.now }
    ensures { IfOk result (λ edges. (x : Var) (e : Edge) → (get nat_eq edges x.0 ≡ Some e) ↔ Contains shared.now (x, e)) }
{
    let mut edges = HashMap::new(alloc);
    for (var, edge) in shared {
        edges.insert(var.0, *edge)?;
    }
    Ok(edges)
}
