//! The literals of nets.

ghost use Rattle.std.specs.Prelude.{◌≡◌, ◌<◌, List, ℕ, length, map, All, IfOk, OnOk};
ghost use Rattle.eco_netlist.specs.Netlists.{names_at};
ghost use Rattle.eco_trace.specs.declared.clause.Lit.{Lit as Literal};
ghost use Rattle.eco_clauses.specs.Listing.{with_variables};
ghost use Rattle.eco_clauses.specs.Numbering.{new_literals};

use crate::clauses::fresh;
use eco_meaning::OutOfMemory;
use eco_netlist::NetId;
use eco_trace::{Cnf, Lit};
use std::alloc::Global;

/// The literals of new variables, one for each of the nets.
pub fn fresh_literals(alloc: Global, cnf: &mut Cnf, nets: &[NetId]) -> Result<Vec<Lit>, OutOfMemory>
    ensures literals { IfOk result (λ lits. lits.items ≡ new_literals cnf.old.vars nets.now) }
    ensures more { OnOk result (cnf.new ≡ with_variables (length nets.now) cnf.old) }
{
    let mut lits = Vec::with_capacity(alloc, nets.len())?;
    for _net in nets {
        lits.push(fresh(cnf)?)?;
    }
    Ok(lits)
}

/// The literals of these nets, where the netlist's nets have these literals.
pub fn literals_at(alloc: Global, nets: &[NetId], lits: &[Lit]) -> Result<Vec<Lit>, OutOfMemory>
    requires { All (λ net. net.0 < length lits.now) nets.now }
    ensures { (list : List (List ℕ)) (literal : List ℕ → Literal) → lits.now ≡ map literal list →
        IfOk result (λ found. found.items ≡ map literal (names_at list nets.now)) }
{
    let mut found = Vec::with_capacity(alloc, nets.len())?;
    for net in nets {
        found.push(lits[net.0 as usize])?;
    }
    Ok(found)
}
