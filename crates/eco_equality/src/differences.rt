//! The variables that tell where two lists of literals differ.

ghost use Rattle.std.specs.Prelude.{◌≡◌, length, All, IfOk, OnOk};
ghost use Rattle.eco_trace.specs.Clauses.{IsVarWithin};
ghost use Rattle.eco_equality.specs.Equality.{with_differences};
ghost use Rattle.eco_clauses.specs.Numbering.{new_literals};

use eco_clauses::fresh_xor;
use eco_meaning::OutOfMemory;
use eco_trace::{Cnf, Lit};
use std::alloc::Global;

/// For each literal of the first list a new variable that is the exclusive or of it and the one in the second list.
pub(crate) fn fresh_differences(
    alloc: Global,
    cnf: &mut Cnf,
    ones: &[Lit],
    others: &[Lit],
) -> Result<Vec<Lit>, OutOfMemory>
    requires ones { All (IsVarWithin cnf.old.vars) ones.now }
    requires others { All (IsVarWithin cnf.old.vars) others.now }
    requires count { length ones.now ≡ length others.now }
    ensures literals { IfOk result (λ lits. lits.items ≡ new_literals cnf.old.vars ones.now) }
    ensures clauses { OnOk result (cnf.new ≡ with_differences cnf.old ones.now others.now) }
{
    let mut lits = Vec::with_capacity(alloc, ones.len())?;
    for (place, one) in ones.iter().enumerate() {
        lits.push(fresh_xor(alloc, cnf, *one, others[place])?)?;
    }
    Ok(lits)
}
