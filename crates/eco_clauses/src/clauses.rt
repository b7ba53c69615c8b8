//! Clauses, one behind the other.

ghost use Rattle.std.specs.Prelude.{◌≡◌, ◌≤◌, [], ◌∷◌, ◌++◌, map, All, IfOk, OnOk};
ghost use Rattle.eco_trace.specs.Clauses.{IsVarWithin, complement};
ghost use Rattle.eco_clauses.specs.Listing.{next_literal, with_list, with_lists, with_variables};
ghost use Rattle.eco_clauses.specs.Gates.{and_clauses, or_clauses, xor_clauses, with_xor, with_chain, with_parity};
ghost use Rattle.eco_trace.specs.declared.clause.Lit.{Lit as Literal};

use eco_meaning::OutOfMemory;
use eco_trace::{Clause, Cnf, Lit, Var};
use std::alloc::Global;

/// The literal of the next variable. `OutOfMemory` where all numbers are used: no memory would hold the clauses then.
pub fn fresh(cnf: &mut Cnf) -> Result<Lit, OutOfMemory>
    ensures literal { IfOk result (λ lit. lit ≡ next_literal cnf.old) }
    ensures more { OnOk result (cnf.new ≡ with_variables 1 cnf.old) }
{
    let number = cnf.vars().checked_add(1).ok_or(OutOfMemory)?;
    cnf.widen(number);
    Ok(Lit {
        var: Var(number),
        positive: true,
    })
}

/// Adds the clause of these literals, unless a variable has both signs.
pub fn add_clause(alloc: Global, cnf: &mut Cnf, lits: &[Lit]) -> Result<(), OutOfMemory>
    requires { All (IsVarWithin cnf.old.vars) lits.now }
    ensures { OnOk result (cnf.new ≡ with_list cnf.old lits.now) }
{
    let lits = Vec::from_slice(alloc, lits)?;
    match Clause::new(alloc, lits)? {
        Some(clause) => cnf.add(clause),
        None => Ok(()),
    }
}

/// Adds the clauses that say that `out` is the conjunction of the literals.
pub fn add_conjunction(
    alloc: Global,
    cnf: &mut Cnf,
    out: Lit,
    ins: &[Lit],
) -> Result<(), OutOfMemory>
    requires out { IsVarWithin cnf.old.vars out }
    requires ins { All (IsVarWithin cnf.old.vars) ins.now }
    ensures { OnOk result (cnf.new ≡ with_lists cnf.old (and_clauses out ins.now)) }
{
    for lit in ins {
        add_clause(alloc, cnf, &[out.complement(), *lit])?;
    }
    let all = before_complements(alloc, out, ins)?;
    add_clause(alloc, cnf, all.as_slice())
}

/// The first literal and the complements of the others.
fn before_complements(alloc: Global, first: Lit, others: &[Lit]) -> Result<Vec<Lit>, OutOfMemory>
    ensures { IfOk result (λ all. all.items ≡ first ∷ map complement others.now) }
{
    let mut all = vec![in alloc; first]?;
    for lit in others {
        all.push(lit.complement())?;
    }
    Ok(all)
}

/// Adds the clauses that say that `out` is the disjunction of the literals.
pub fn add_disjunction(
    alloc: Global,
    cnf: &mut Cnf,
    out: Lit,
    ins: &[Lit],
) -> Result<(), OutOfMemory>
    requires out { IsVarWithin cnf.old.vars out }
    requires ins { All (IsVarWithin cnf.old.vars) ins.now }
    ensures { OnOk result (cnf.new ≡ with_lists cnf.old (or_clauses out ins.now)) }
{
    for lit in ins {
        add_clause(alloc, cnf, &[out, lit.complement()])?;
    }
    let mut all = vec![in alloc; out.complement()]?;
    all.extend_from_slice(ins)?;
    add_clause(alloc, cnf, all.as_slice())
}

/// Adds the clauses that say that `out` is the exclusive or of two literals.
fn add_xor(alloc: Global, cnf: &mut Cnf, out: Lit, one: Lit, other: Lit) -> Result<(), OutOfMemory>
    requires within { All (IsVarWithin cnf.old.vars) (out ∷ one ∷ other ∷ []) }
    ensures { OnOk result (cnf.new ≡ with_lists cnf.old (xor_clauses out one other)) }
{
    add_clause(alloc, cnf, &[out.complement(), one, other])?;
    add_clause(
        alloc,
        cnf,
        &[out.complement(), one.complement(), other.complement()],
    )?;
    add_clause(alloc, cnf, &[out, one.complement(), other])?;
    add_clause(alloc, cnf, &[out, one, other.complement()])
}

/// A new variable that is the exclusive or of two literals.
pub fn fresh_xor(alloc: Global, cnf: &mut Cnf, one: Lit, other: Lit) -> Result<Lit, OutOfMemory>
    requires within { All (IsVarWithin cnf.old.vars) (one ∷ other ∷ []) }
    ensures literal { IfOk result (λ lit. lit ≡ next_literal cnf.old) }
    ensures clauses { OnOk result (cnf.new ≡ with_xor cnf.old one other) }
{
    let out = fresh(cnf)?;
    add_xor(alloc, cnf, out, one, other)?;
    Ok(out)
}

/// Further literals added one by one to the first one, each result a new variable.
fn fresh_sum(alloc: Global, cnf: &mut Cnf, first: Lit, further: &[Lit]) -> Result<Lit, OutOfMemory>
    requires first { IsVarWithin cnf.old.vars first }
    requires further { All (IsVarWithin cnf.old.vars) further.now }
    ensures sum { IfOk result (IsVarWithin cnf.new.vars) }
    ensures more { OnOk result (cnf.old.vars ≤ cnf.new.vars) }
    ensures chain { IfOk result (λ sum. (out last : Literal) →
        with_lists cnf.new (xor_clauses out sum last) ≡ with_chain cnf.old out first (further.now ++ last ∷ [])) }
{
    let mut sum = first;
    for lit in further {
        sum = fresh_xor(alloc, cnf, sum, *lit)?;
    }
    Ok(sum)
}

/// Adds the clauses that say that `out` is the exclusive or of the literals, of which there is one at least: from the
/// first one on, each result but the last is a new variable.
pub fn add_parity(alloc: Global, cnf: &mut Cnf, out: Lit, ins: &[Lit]) -> Result<(), OutOfMemory>
    requires out { IsVarWithin cnf.old.vars out }
    requires ins { All (IsVarWithin cnf.old.vars) ins.now }
    ensures { OnOk result (cnf.new ≡ with_parity cnf.old out ins.now) }
{
    match ins.split_first() {
        None => Ok(()),
        Some((first, further)) => add_chain(alloc, cnf, out, *first, further),
    }
}

/// Adds the clauses that say that `out` is the exclusive or of the first literal and further ones.
fn add_chain(
    alloc: Global,
    cnf: &mut Cnf,
    out: Lit,
    first: Lit,
    further: &[Lit],
) -> Result<(), OutOfMemory>
    requires out { IsVarWithin cnf.old.vars out }
    requires first { IsVarWithin cnf.old.vars first }
    requires further { All (IsVarWithin cnf.old.vars) further.now }
    ensures { OnOk result (cnf.new ≡ with_chain cnf.old out first further.now) }
{
    match further.split_last() {
        None => add_conjunction(alloc, cnf, out, &[first]),
        Some((last, middle)) => {
            let sum = fresh_sum(alloc, cnf, first, middle)?;
            add_xor(alloc, cnf, out, sum, *last)
        }
    }
}
