//! The clauses of one part.

ghost use Rattle.std.specs.Prelude.{◌≡◌, ◌↔◌, ◌≤◌, ◌++◌, ◌∷◌, [], All, IfOk, IsTrue, OnOk, length};
ghost use Rattle.eco_trace.specs.Clauses.{IsClause, Satisfies, Valuation};
ghost use Rattle.eco_trace.specs.Split.{Split, IsModelOf};
ghost use Rattle.eco_accept.specs.Posing.{IsVarUpTo};

use eco_meaning::OutOfMemory;
use eco_trace::{Clause, Cnf, Lit, NodeId, Trace, Var};
use std::alloc::Global;

/// The clauses of the part among those that the proof begins with, over variables up to the largest one in them. Memory is
/// wanting too where a variable's number is 0.
pub(crate) fn part_of(
    alloc: Global,
    trace: &Trace<'_>,
    side: &[bool],
    part: bool,
) -> Result<Cnf, OutOfMemory>
    requires marked { length side.now ≡ length trace.now.originals }
    ensures models { IfOk result (λ cnf. (v : Valuation) → Satisfies v cnf.clauses
        ↔ IsModelOf (record { clauses = trace.now.originals; marks = side.now }) part v) }
{
    let mut cnf = Cnf::new(alloc, 0);
    match add_part(alloc, &mut cnf, trace, side, part) {
        Ok(()) => Ok(cnf),
        Err(error) => {
            drop(cnf);
            Err(error)
        }
    }
}

/// Adds the clauses of the part among those that the proof begins with.
fn add_part(
    alloc: Global,
    cnf: &mut Cnf,
    trace: &Trace<'_>,
    side: &[bool],
    part: bool,
) -> Result<(), OutOfMemory>
    requires marked { length side.now ≡ length trace.now.originals }
    requires empty { cnf.old.clauses ≡ [] }
    ensures models { OnOk result ((v : Valuation) → Satisfies v cnf.new.clauses
        ↔ IsModelOf (record { clauses = trace.now.originals; marks = side.now }) part v) }
{
    for number in 0..side.len() {
        if side[number] == part {
            add_clause(alloc, cnf, trace.clause(NodeId(number as u64)))?;
        }
    }
    Ok(())
}

/// Adds the clause of these literals, and lets its variables stand there.
fn add_clause(alloc: Global, cnf: &mut Cnf, lits: &[Lit]) -> Result<(), OutOfMemory>
    requires clause { IsClause lits.now }
    ensures added { OnOk result (cnf.new.clauses ≡ cnf.old.clauses ++ lits.now ∷ []) }
{
    if let Some(last) = lits.last() {
        reach(cnf, last.var.0);
    }
    let clause = clause_of(alloc, lits)?;
    if cnf.try_add(clause)? {
        Ok(())
    } else {
        Err(OutOfMemory)
    }
}

/// The clause that has just these literals.
fn clause_of(alloc: Global, lits: &[Lit]) -> Result<Clause, OutOfMemory>
    requires { IsClause lits.now }
    ensures { IfOk result (λ clause. clause ≡ lits.now) }
{
    let lits = Vec::from_slice(alloc, lits)?;
    match Clause::new(alloc, lits)? {
        Some(clause) => Ok(clause),
        None => unreachable!(),
    }
}

/// Lets the variables up to this one stand in clauses.
fn reach(cnf: &mut Cnf, last: u64)
    ensures clauses { cnf.new.clauses ≡ cnf.old.clauses }
    ensures more { cnf.old.vars ≤ cnf.new.vars }
    ensures there { last ≤ cnf.new.vars }
{
    cnf.widen(cnf.vars().max(last));
}

/// Lets the variables stand in clauses; false where the number of one is 0.
pub(crate) fn reach_all(cnf: &mut Cnf, vars: &[Var]) -> bool
    ensures clauses { cnf.new.clauses ≡ cnf.old.clauses }
    ensures within { IsTrue result → All (IsVarUpTo cnf.new.vars) vars.now }
{
    for var in vars {
        if var.0 == 0 {
            return false;
        }
        reach(cnf, var.0);
    }
    true
}
