//! Variables, literals and clauses.

ghost use Rattle.std.specs.Prelude.{◌≡◌, ◌+◌, ◌^◌, ◌<◌, All, IfOk, map};
ghost use Rattle.eco_trace.specs.Adding.{shifted};

use crate::merge::once_each;
use eco_meaning::OutOfMemory;
use std::alloc::Global;
use std::marker;

/// A variable, by its number. The first one is 1.
#[derive(Clone, Copy, PartialEq, Eq, PartialOrd, Ord)]
pub struct Var(pub u64);

/// A variable (`positive`) or its negation. Literals are ordered by their variables.
#[derive(Clone, Copy, PartialEq, Eq, PartialOrd, Ord)]
pub struct Lit {
    pub var: Var,
    pub positive: bool,
}

impl Lit {
    ghost use Rattle.std.specs.Prelude.{◌≡◌, ◌+◌, ◌^◌, ◌<◌};
    ghost use Rattle.eco_trace.specs.Clauses.{complement};
    ghost use Rattle.eco_trace.specs.Adding.{shifted};

    /// The literal of the same variable with the other sign.
    pub fn complement(self) -> Lit
        ensures { result ≡ complement self }
    {
        Lit {
            var: self.var,
            positive: !self.positive,
        }
    }

    /// The literal with the same sign of the variable whose number is larger by this much.
    pub fn shifted(self, by: u64) -> Lit
        requires { self.var.0 + by < 2 ^ 64 }
        ensures { result ≡ shifted by self }
    {
        Lit {
            var: Var(self.var.0 + by),
            positive: self.positive,
        }
    }
}

/// A clause: a set of literals, of which one has to be true. No variable stands in it with both signs.
#[derive(Drop)]
pub struct Clause {
    lits: Vec<Lit>,
}

impl marker::Model for Clause {
    ghost use Rattle.std.specs.Prelude.{List};
    ghost use Rattle.eco_trace.specs.declared.clause.Lit.{Lit};
    ghost use Rattle.eco_trace.specs.Clauses.{IsClause};

    ghost Value = { List Lit };

    ghost view = { λ clause. clause.lits.items };

    ghost invariant = { λ clause. IsClause clause.lits.items };
}

impl Clause {
    ghost use Rattle.std.specs.Prelude.{◌≡◌, ◌↔◌, ◌+◌, ◌^◌, ◌<◌, All, IfOk, IfSome, IsNone, map};
    ghost use Rattle.eco_trace.specs.Clauses.{IsClause, IsClauseOf, HasBothSigns};
    ghost use Rattle.eco_trace.specs.Adding.{shifted};

    /// The clause of these literals; None exactly where a variable has both signs. A literal that is given several
    /// times counts once.
    pub fn new(alloc: Global, mut lits: Vec<Lit>) -> Result<Option<Clause>, OutOfMemory>
        ensures none { IfOk result (λ made. IsNone made ↔ HasBothSigns lits.items) }
        ensures some { IfOk result (λ made. IfSome made (IsClauseOf lits.items)) }
    {
        lits.sort()?;
        match once_each(alloc, lits.as_slice())? {
            None => Ok(None),
            Some(lits) => Ok(Some(Clause { lits })),
        }
    }

    /// The literals, by rising variables.
    pub fn lits(&self) -> &[Lit]
        ensures lits { result.now ≡ self.now }
        ensures clause { IsClause self.now }
    {
        self.lits.as_slice()
    }

    /// The same clause again.
    pub fn copy(&self) -> Result<Clause, OutOfMemory>
        ensures same { IfOk result (λ clause. clause ≡ self.now) }
    {
        let lits = Vec::from_slice(*self.lits.allocator(), self.lits.as_slice())?;
        Ok(Clause { lits })
    }

    /// The clause over variables whose numbers are larger by this much.
    pub fn shifted(&self, by: u64) -> Result<Clause, OutOfMemory>
        requires { All (λ l. l.var.0 + by < 2 ^ 64) self.now }
        ensures { IfOk result (λ clause. clause ≡ map (shifted by) self.now) }
    {
        let lits = shifted_lits(*self.lits.allocator(), self.lits.as_slice(), by)?;
        Ok(Clause { lits })
    }
}

/// The literals with variables whose numbers are larger by this much.
pub fn shifted_lits(alloc: Global, lits: &[Lit], by: u64) -> Result<Vec<Lit>, OutOfMemory>
    requires { All (λ l. l.var.0 + by < 2 ^ 64) lits.now }
    ensures { IfOk result (λ moved. moved.items ≡ map (shifted by) lits.now) }
{
    let mut moved = Vec::with_capacity(alloc, lits.len())?;
    for lit in lits {
        moved.push(lit.shifted(by))?;
    }
    Ok(moved)
}
