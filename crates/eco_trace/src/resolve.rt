//! Resolvents.

ghost use Rattle.std.specs.Prelude.{◌≡◌, ◌≢◌, ◌↔◌, List, Bool, All, Contains, IfOk, IfSome, IfNone, IsTrue, MatchOption};
ghost use Rattle.eco_trace.specs.declared.clause.Lit.{Lit as Literal};
ghost use Rattle.eco_trace.specs.Clauses.{IsClause};
ghost use Rattle.eco_trace.specs.Resolution.{IsOpposed, IsResolvent};

use crate::clause::{Lit, Var};
use crate::merge::union_without;
use eco_meaning::OutOfMemory;
use std::alloc::Global;

/// The resolvent of two clauses on the pivot; None exactly where they have none. It takes time linear in their
/// lengths.
pub(crate) fn resolve(
    alloc: Global,
    left: &[Lit],
    right: &[Lit],
    pivot: Var,
) -> Result<Option<Vec<Lit>>, OutOfMemory>
    requires left { IsClause left.now }
    requires right { IsClause right.now }
    ensures made { IfOk result (λ made. IfSome made (λ clause. IsResolvent left.now right.now pivot clause.items)) }
    ensures none { IfOk result (λ made. IfNone made ((clause : List Literal)
        → IsResolvent left.now right.now pivot clause → ⊥)) }
{
    if are_opposed(left, right, pivot) {
        union_without(alloc, pivot, left, right)
    } else {
        Ok(None)
    }
}

/// Whether the clauses hold the pivot with opposite signs.
fn are_opposed(left: &[Lit], right: &[Lit], pivot: Var) -> bool
    requires left { IsClause left.now }
    requires right { IsClause right.now }
    ensures { IsTrue result ↔ IsOpposed left.now right.now pivot }
{
    match (lit_of(left, pivot), lit_of(right, pivot)) {
        (Some(one), Some(other)) => one.positive != other.positive,
        _ => false,
    }
}

/// The literal of the variable in the clause.
fn lit_of(lits: &[Lit], var: Var) -> Option<Lit>
    ensures some { IfSome result (λ lit. Contains lits.now lit × (lit.var ≡ var)) }
    ensures none { IfNone result (All (λ lit. lit.var ≢ var) lits.now) }
{
    lits.iter().copied().find(|lit| lit.var == var)
}
