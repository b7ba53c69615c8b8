//! What the clauses watch, beside copies of the clauses.

ghost use Rattle.std.specs.Prelude.{◌≡◌, ◌<◌, ◌^◌, ◌++◌, List, All, OnOk};
ghost use Rattle.eco_trace.specs.declared.clause.Lit.{Lit as Literal};
ghost use Rattle.eco_cdcl.specs.Entries.{code_of};

use crate::code::Code;
use crate::pair::Pair;
use eco_meaning::OutOfMemory;
use eco_trace::Lit;
use std::alloc::Global;
use std::marker;

/// For each clause that watches the two literals that it does, and a copy of its literals, in 32 bits each: all copies
/// lie in one list.
#[derive(Drop)]
pub struct Pairs {
    pairs: Vec<Pair>,
    codes: Vec<Code>,
}

impl marker::Model for Pairs {
    ghost use Rattle.std.specs.Prelude.{List};
    ghost use Rattle.eco_cdcl.specs.Pairs.{Two, twos_of, AreSeated};

    ghost Value = { List Two };

    ghost view = { λ p. twos_of p.codes.items p.pairs.items };

    ghost invariant = { λ p. AreSeated p.codes.items p.pairs.items };
}

impl Pairs {
    ghost use Rattle.std.specs.Prelude.{◌≡◌, ◌<◌, ◌^◌, ◌++◌, ◌∷◌, [], All, OnOk, Some, length, slice_get, slice_set};
    ghost use Rattle.eco_cdcl.specs.Entries.{code_of};
    ghost use Rattle.eco_cdcl.specs.Pairs.{Two, IsBeside, moved_to};

    /// No clause watches.
    pub fn new(alloc: Global) -> Pairs
        ensures { result ≡ [] }
    {
        Pairs {
            pairs: Vec::new(alloc),
            codes: Vec::new(alloc),
        }
    }

    /// One of the two literals that the clause watches: the other one, where this literal is the first.
    pub fn besides(&self, number: usize, lit: Lit) -> Lit
        requires { number < length self.now }
        ensures { IsBeside self.now number lit result }
    {
        let pair = &self.pairs[number];
        pair.besides(lit)
    }

    /// Where in the clause to look first for another literal to watch.
    pub fn from(&self, number: usize) -> usize
        requires { number < length self.now }
    {
        let pair = &self.pairs[number];
        pair.from()
    }

    /// The copy of the clause.
    pub fn clause(&self, number: usize) -> &[Code]
        requires { number < length self.now }
        ensures { (two : Two) → slice_get self.now number ≡ Some two → result.now ≡ two.lits }
    {
        let pair = &self.pairs[number];
        &self.codes[pair.start()..pair.end()]
    }

    /// The clause watches these two literals from now on, of which one stands at this place of it.
    pub fn set(&mut self, number: usize, one: Lit, other: Lit, place: usize)
        requires within { number < length self.old }
        requires one { code_of one < 2 ^ 32 }
        requires other { code_of other < 2 ^ 32 }
        ensures { (two : Two) → slice_get self.old number ≡ Some two → self.new ≡ slice_set self.old number (moved_to two one other) }
    {
        let pair = &mut self.pairs[number];
        *pair = Pair::new(one, other, place, pair.start(), pair.end());
    }

    /// One more clause watches these two literals of it.
    pub fn push(&mut self, clause: &[Lit], one: Lit, other: Lit) -> Result<(), OutOfMemory>
        requires codes { All (λ l. code_of l < 2 ^ 32) clause.now }
        requires one { code_of one < 2 ^ 32 }
        requires other { code_of other < 2 ^ 32 }
        ensures { OnOk result (self.new ≡ self.old ++ record { one = one; other = other; lits = clause.now } ∷ []) }
    {
        let start = self.codes.len();
        copy(&mut self.codes, clause)?;
        let end = self.codes.len();
        self.pairs.push(Pair::new(one, other, 0, start, end))?;
        Ok(())
    }
}

/// Adds a copy of the literals.
fn copy(codes: &mut Vec<Code>, clause: &[Lit]) -> Result<(), OutOfMemory>
    requires { All (λ l. code_of l < 2 ^ 32) clause.now }
    ensures copied { OnOk result (codes.new.items ≡ codes.old.items ++ clause.now) }
    ensures longer { (more : List Literal) × (codes.new.items ≡ codes.old.items ++ more) }
{
    for lit in clause {
        codes.push(Code::new(*lit))?;
    }
    Ok(())
}
