//! The clause that a set of variables marks on a trail.

ghost use Rattle.std.specs.Prelude.{◌≡◌, ◌+◌, ◌∷◌, [], ◌++◌, List, Contains, MatchOption, OnOk, length};
ghost use Rattle.eco_trace.specs.declared.clause.Lit.{Lit as Literal};
ghost use Rattle.eco_trace.specs.Clauses.{complement};
ghost use Rattle.eco_learn.specs.Marks.{IsIn, IsChosen, AreChosen};

use crate::taken::Truth;
use crate::trail::Trail;
use crate::var_set::VarSet;
use eco_meaning::OutOfMemory;
use eco_trace::{Lit, Var};

/// Writes the clause of the literals that are false and whose variables are in the set. It takes time n log n in the
/// number of literals that the set has found.
pub(crate) fn write_chosen(
    marks: &VarSet,
    trail: &Trail,
    clause: &mut Vec<Lit>,
) -> Result<(), OutOfMemory>
    requires room { length marks.now ≡ trail.now.vars + 1 }
    ensures chosen { OnOk result (IsChosen trail.now.lits marks.now clause.new.items) }
{
    trail.is_sound();
    choose_all(marks, marks.found(), trail, clause)?;
    clause.sort_unstable();
    clause.dedup();
    Ok(())
}

/// Writes the literals that are false and whose variables are in the set, in any order.
fn choose_all(
    marks: &VarSet,
    found: &[Lit],
    trail: &Trail,
    clause: &mut Vec<Lit>,
) -> Result<(), OutOfMemory>
    requires room { length marks.now ≡ trail.now.vars + 1 }
    ensures { OnOk result (AreChosen trail.now.lits marks.now found.now clause.new.items) }
{
    clause.clear();
    for lit in found {
        choose(marks, *lit, trail, clause)?;
    }
    Ok(())
}

/// Writes the false one of the literal and its complement, if their variable is in the set.
fn choose(marks: &VarSet, lit: Lit, trail: &Trail, clause: &mut Vec<Lit>) -> Result<(), OutOfMemory>
    requires room { length marks.now ≡ trail.now.vars + 1 }
    ensures { (done : List Literal) → AreChosen trail.now.lits marks.now done clause.old.items
        → OnOk result (AreChosen trail.now.lits marks.now (done ++ lit ∷ []) clause.new.items) }
{
    trail.is_sound();
    match chosen(marks, trail, lit.var) {
        None => Ok(()),
        Some(lit) => {
            clause.push(lit)?;
            Ok(())
        }
    }
}

/// The variable's literal that is false, if the variable is in the set and has one.
pub(crate) fn chosen(marks: &VarSet, trail: &Trail, var: Var) -> Option<Lit>
    requires room { length marks.now ≡ trail.now.vars + 1 }
    ensures { MatchOption result
        ((x : Literal) → x.var ≡ var → IsIn marks.now x.var.0 → Contains trail.now.lits (complement x) → ⊥)
        (λ lit. (lit.var ≡ var) × IsIn marks.now lit.var.0 × Contains trail.now.lits (complement lit)) }
{
    trail.is_sound();
    if var.0 < 1 || trail.vars() < var.0 || !marks.has(var) {
        return None;
    }
    let lit = Lit {
        var,
        positive: true,
    };
    match trail.truth(lit) {
        Truth::True => Some(lit.complement()),
        Truth::False => Some(lit),
        Truth::Open => None,
    }
}
