//! Variables behind others.

ghost use Rattle.std.specs.Prelude.{◌≡◌, ◌+◌, ◌^◌, ◌<◌, IfOk, map};
ghost use Rattle.eco_tseitin.specs.Joined.{positive, AreNumbered};

use eco_meaning::OutOfMemory;
use eco_trace::{Lit, Var};
use std::alloc::Global;

/// So many variables, in order, behind those from 1 to `after`.
pub(crate) fn numbered(alloc: Global, after: u64, count: usize) -> Result<Vec<Var>, OutOfMemory>
    requires { after + count < 2 ^ 64 }
    ensures { IfOk result (λ vars. AreNumbered after count vars.items) }
{
    let mut vars = Vec::with_capacity(alloc, count)?;
    for place in 0..count {
        vars.push(Var(after + 1 + place as u64))?;
    }
    Ok(vars)
}

/// The variables as literals.
pub(crate) fn positives(alloc: Global, vars: &[Var]) -> Result<Vec<Lit>, OutOfMemory>
    ensures { IfOk result (λ lits. lits.items ≡ map positive vars.now) }
{
    let mut lits = Vec::with_capacity(alloc, vars.len())?;
    for var in vars {
        lits.push(Lit {
            var: *var,
            positive: true,
        })?;
    }
    Ok(lits)
}
