//! The search for a model of a question.

ghost use Rattle.std.specs.Prelude.{◌≡◌, ◌≤◌, All, IfOk, length};
ghost use Rattle.eco_trace.specs.Clauses.{valuation_of};
ghost use Rattle.eco_tseitin.specs.Reading.{read_vars};
ghost use Rattle.eco_accept.specs.Posing.{IsFound, IsVarUpTo};

use crate::judge::Judgement;
use bumpalo::Bump;
use eco_meaning::OutOfMemory;
use eco_trace::{Cnf, Model, Refuter, Var, Verdict};
use std::alloc::Global;

/// What is found where the clauses have no model, where they have one, and where the search learnt `limit` clauses.
pub(crate) fn search<R: Refuter>(
    alloc: Global,
    cnf: &Cnf,
    shared: &[Var],
    refuter: &mut R,
    limit: u64,
) -> Result<Judgement, OutOfMemory>
    requires shared { All (IsVarUpTo cnf.now.vars) shared.now }
    requires limit { 1 ≤ limit }
    ensures { IfOk result (IsFound cnf.now shared.now limit) }
{
    let arena = Bump::new(alloc);
    let found = search_in(alloc, cnf, shared, refuter, limit, &arena);
    drop(arena);
    found
}

/// The same; the search leaves its proof in the arena.
fn search_in<R: Refuter>(
    alloc: Global,
    cnf: &Cnf,
    shared: &[Var],
    refuter: &mut R,
    limit: u64,
    arena: &Bump,
) -> Result<Judgement, OutOfMemory>
    requires shared { All (IsVarUpTo cnf.now.vars) shared.now }
    requires limit { 1 ≤ limit }
    ensures { IfOk result (IsFound cnf.now shared.now limit) }
{
    match refuter.refute(alloc, cnf, limit, arena)? {
        Verdict::Unsat(trace) => {
            // its last clause is the empty one: there is no model
            let _ = trace.ends_empty();
            drop(trace);
            Ok(Judgement::Accepted)
        }
        Verdict::Sat(model) => {
            let bits = bits_of(alloc, shared, &model);
            drop(model);
            Ok(Judgement::Refused(bits?))
        }
        Verdict::Spent(trace) => {
            drop(trace);
            Ok(Judgement::Unknown)
        }
    }
}

/// The values of the variables in the model.
fn bits_of(alloc: Global, vars: &[Var], model: &Model) -> Result<Vec<bool>, OutOfMemory>
    requires { All (IsVarUpTo (length model.now)) vars.now }
    ensures { IfOk result (λ bits. bits.items ≡ read_vars (valuation_of model.now) vars.now) }
{
    let mut bits = Vec::with_capacity(alloc, vars.len())?;
    for var in vars {
        bits.push(model.value(*var))?;
    }
    Ok(bits)
}
