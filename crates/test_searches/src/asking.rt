//! What a search answers, looked at again.

use crate::freshness::is_fresh;
use crate::replay::is_checked;
use bumpalo::Bump;
use eco_trace::{Cnf, Model, OutOfMemory, Refuter, Verdict, satisfies};
use std::alloc::Global;

/// What a search answered.
#[derive(Clone, Copy, PartialEq, Eq)]
pub enum Said {
    /// A model, and it is one.
    Model,
    /// A proof that ends in the empty clause, and whose steps the check takes.
    Refuted,
    /// A fresh proof of just as many clauses as the limit.
    Spent,
    /// Something else.
    Wrong,
}

/// What the search says of the clauses. A limit of 0 can't be asked for.
pub fn asked<R: Refuter>(
    alloc: Global,
    refuter: &mut R,
    cnf: &Cnf,
    limit: u64,
) -> Result<Said, OutOfMemory> {
    if limit == 0 {
        return Ok(Said::Wrong);
    }
    let arena = Bump::new(alloc);
    let said = match refuter.refute(alloc, cnf, limit, &arena) {
        Ok(verdict) => {
            let said = said_by(alloc, cnf, limit, &verdict);
            drop(verdict);
            said
        }
        Err(error) => Err(error),
    };
    drop(arena);
    said
}

/// What the verdict is, once it is looked at again.
fn said_by(
    alloc: Global,
    cnf: &Cnf,
    limit: u64,
    verdict: &Verdict<'_>,
) -> Result<Said, OutOfMemory> {
    match verdict {
        Verdict::Sat(model) => Ok(if_right(Said::Model, is_model(model, cnf))),
        Verdict::Unsat(trace) => {
            let is_proof = trace.ends_empty() & is_checked(alloc, cnf, trace)?;
            Ok(if_right(Said::Refuted, is_proof))
        }
        Verdict::Spent(trace) => {
            let learnt = trace.len().wrapping_sub(trace.originals());
            let is_fresh = is_fresh(alloc, trace, cnf.vars())?;
            Ok(if_right(Said::Spent, is_fresh & (learnt == limit)))
        }
    }
}

fn is_model(model: &Model, cnf: &Cnf) -> bool {
    cnf.vars() <= model.len() && satisfies(model, cnf)
}

/// What was said, where that is right.
fn if_right(said: Said, is_right: bool) -> Said {
    if is_right { said } else { Said::Wrong }
}
