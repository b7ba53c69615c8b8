//! The two literals that a clause watches.

ghost use Rattle.std.specs.Prelude.{◌≡◌};

use crate::entry::{code, lit_of};
use eco_trace::Lit;
use std::marker;

/// The two literals that a clause watches, each kept in 32 bits, and where the copy of the clause lies among those of the
/// others. Where the clause has just one literal, both are that one.
/// Beside them stands where in the clause to look first for another literal to watch: behind the place where the last
/// one was found, since those before it were false then. Nothing rests on that place.
#[derive(Drop)]
pub struct Pair {
    one: u32,
    other: u32,
    from: u32,
    start: usize,
    end: usize,
}

impl marker::Model for Pair {
    ghost use Rattle.eco_cdcl.specs.Entries.{lit_of};
    ghost use Rattle.eco_cdcl.specs.Pairs.{Seat};

    ghost Value = { Seat };

    ghost view = { λ p. record { one = lit_of p.one; other = lit_of p.other; start = p.start; end = p.end } };
}

impl Pair {
    ghost use Rattle.std.specs.Prelude.{◌≡◌, ◌⊎◌, ◌<◌, ◌^◌};
    ghost use Rattle.eco_cdcl.specs.Entries.{code_of};

    /// The pair of these literals, of which one stands at this place of the clause, whose copy lies between these two
    /// places.
    pub fn new(one: Lit, other: Lit, place: usize, start: usize, end: usize) -> Pair
        requires one { code_of one < 2 ^ 32 }
        requires other { code_of other < 2 ^ 32 }
        ensures { result ≡ record { one = one; other = other; start = start; end = end } }
    {
        Pair {
            one: code(one) as u32,
            other: code(other) as u32,
            from: low_bits(place),
            start,
            end,
        }
    }

    /// One of the two: the other one, where this literal is the first.
    pub fn besides(&self, lit: Lit) -> Lit
        ensures one_of { (result ≡ self.now.one) ⊎ (result ≡ self.now.other) }
        ensures same { result ≡ lit → self.now.one ≡ self.now.other }
    {
        let one = lit_of(self.one);
        if one == lit { lit_of(self.other) } else { one }
    }

    /// Where in the clause to look first for another literal to watch.
    pub fn from(&self) -> usize {
        self.from as usize
    }

    /// Where the copy of the clause begins.
    pub fn start(&self) -> usize
        ensures { result ≡ self.now.start }
    {
        self.start
    }

    /// Where the copy of the clause ends.
    pub fn end(&self) -> usize
        ensures { result ≡ self.now.end }
    {
        self.end
    }
}

/// The place, if 32 bits hold it; otherwise the first one.
fn low_bits(place: usize) -> u32 {
    if place < 1 << 32 { place as u32 } else { 0 }
}
