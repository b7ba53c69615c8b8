//! Clauses put together from sorted literals.

ghost use Rattle.std.specs.Prelude.{◌≡◌, ◌≢◌, ◌-◌, List, [], Contains, Some, length, slice_get, IfOk, IfSome, IfNone, MatchBool, MatchOption, OnErr};
ghost use Rattle.eco_trace.specs.Clauses.{IsClause, IsClauseOf, HasBothSigns, complement};
ghost use Rattle.eco_trace.specs.declared.clause.Lit.{Lit as Literal};
ghost use Rattle.eco_trace.specs.Merging.{Either, IsUpTo, IsNonFalling, Takes, TakesUnless, Clashes, TakesLeast, IsUnion};

use crate::clause::{Lit, Var};
use eco_meaning::OutOfMemory;
use std::alloc::Global;

/// What is left of two clauses.
#[derive(Clone, Copy)]
pub(crate) struct Heads<'a> {
    left: &'a [Lit],
    right: &'a [Lit],
}

impl<'a> Heads<'a> {
    /// The literal with the least variable, and what is left without it.
    fn least(self) -> Option<(Lit, Heads<'a>)>
        requires left { IsClause self.left.now }
        requires right { IsClause self.right.now }
        ensures { MatchOption result ((self.entry.left.now ≡ []) × (self.entry.right.now ≡ []))
            (λ taken. TakesLeast self.entry.left.now self.entry.right.now taken.0 taken.1.left.now taken.1.right.now) }
    {
        match self.left.split_first() {
            None => {
                let (lit, right) = self.right.split_first()?;
                let left = self.left;
                Some((*lit, Heads { left, right }))
            }
            Some((one, left)) => match self.right.split_first() {
                None => {
                    let right = self.right;
                    Some((*one, Heads { left, right }))
                }
                Some((other, right)) => {
                    if other.var.0 < one.var.0 {
                        let left = self.left;
                        Some((*other, Heads { left, right }))
                    } else {
                        let right = self.right;
                        Some((*one, Heads { left, right }))
                    }
                }
            },
        }
    }
}

/// The last literal, if it is one of this variable.
fn last_of(lits: &[Lit], var: Var) -> Option<Lit>
    ensures some { IfSome result (λ last. Contains lits.now last × (last.var ≡ var)) }
    ensures none { IfNone result ((l : Literal) → slice_get lits.now (length lits.now - 1) ≡ Some l → l.var ≢ var) }
{
    lits.last().copied().filter(|last| last.var == var)
}

/// Puts the literal, whose variable is no smaller than the others, behind them, unless it is there already. False
/// where it is there with the other sign.
pub(crate) fn append(lits: &mut Vec<Lit>, lit: Lit) -> Result<bool, OutOfMemory>
    requires clause { IsClause lits.old.items }
    requires up_to { IsUpTo lits.old.items lit.var.0 }
    ensures taken { IfOk result (λ fits. MatchBool fits (Takes lits.old.items lit lits.new.items)
        (Contains lits.old.items (complement lit))) }
{
    match last_of(lits.as_slice(), lit.var) {
        Some(last) => Ok(last.positive == lit.positive),
        None => {
            lits.push(lit)?;
            Ok(true)
        }
    }
}

/// The same, but for the literals of the pivot, which are left out.
fn append_unless(pivot: Var, lits: &mut Vec<Lit>, lit: Lit) -> Result<bool, OutOfMemory>
    requires clause { IsClause lits.old.items }
    requires up_to { IsUpTo lits.old.items lit.var.0 }
    ensures taken { IfOk result (λ fits. MatchBool fits (TakesUnless pivot lits.old.items lit lits.new.items)
        (Clashes pivot lits.old.items lit)) }
{
    if lit.var == pivot {
        Ok(true)
    } else {
        let fits = append(lits, lit)?;
        Ok(fits)
    }
}

/// The union of two clauses without the literals of the pivot; None exactly where it holds a variable with both signs.
/// It takes time linear in their lengths.
pub(crate) fn union_without(
    alloc: Global,
    pivot: Var,
    left: &[Lit],
    right: &[Lit],
) -> Result<Option<Vec<Lit>>, OutOfMemory>
    requires left { IsClause left.now }
    requires right { IsClause right.now }
    ensures made { IfOk result (λ made. IfSome made (λ clause. IsUnion pivot left.now right.now clause.items)) }
    ensures none { IfOk result (λ made. IfNone made ((clause : List Literal) → IsUnion pivot left.now right.now clause → ⊥)) }
{
    let mut union = Vec::with_capacity(alloc, left.len() + right.len())?;
    let mut heads = Heads { left, right };
    while let Some((lit, rest)) = heads.least() {
        heads = rest;
        if !append_unless(pivot, &mut union, lit)? {
            return Ok(None);
        }
    }
    Ok(Some(union))
}

/// The literals, whose variables don't fall, each once; None exactly where a variable has both signs.
pub(crate) fn once_each(alloc: Global, sorted: &[Lit]) -> Result<Option<Vec<Lit>>, OutOfMemory>
    requires { IsNonFalling sorted.now }
    ensures made { IfOk result (λ made. IfSome made (λ clause. IsClauseOf sorted.now clause.items)) }
    ensures none { IfOk result (λ made. IfNone made (HasBothSigns sorted.now)) }
{
    let mut clause = Vec::with_capacity(alloc, sorted.len())?;
    for lit in sorted {
        if !append(&mut clause, *lit)? {
            return Ok(None);
        }
    }
    Ok(Some(clause))
}
