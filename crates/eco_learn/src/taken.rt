//! Literals that are taken to be true, and what they say of each variable.

ghost use Rattle.std.specs.Prelude.{◌≡◌, ◌<◌, MatchOption, IfOk, slice_get, map, drop, false};
ghost use Rattle.std.specs.Option.{unwrap_or};
ghost use Rattle.eco_learn.specs.TakenLits.{HasNoneOpen};

use eco_meaning::OutOfMemory;
use eco_trace::{Lit, Model, Var};
use std::alloc::Global;
use std::marker;

/// What is known of a literal.
#[derive(Clone, Copy, PartialEq, Eq)]
pub enum Truth {
    True,
    False,
    Open,
}

/// For more variables than this there is no memory.
pub(crate) const MOST_VARS: u64 = 0x7fff_ffff;

/// The literals that are taken to be true, in order, with the value and the place of each variable.
#[derive(Drop)]
pub(crate) struct Taken {
    vars: u64,
    values: Vec<Option<bool>>,
    places: Vec<usize>,
    lits: Vec<Lit>,
}

impl marker::Model for Taken {
    ghost use Rattle.std.specs.Vec.{vec_capacity};
    ghost use Rattle.eco_learn.specs.TakenLits.{Literals, AreKept};

    ghost Value = { Literals };

    ghost view = { λ t. record { vars = t.vars; lits = t.lits.items } };

    ghost invariant = { λ t. AreKept t.vars t.values.items t.places.items t.lits.items (vec_capacity t.lits) };
}

impl Taken {
    ghost use Rattle.std.specs.Prelude.{◌≡◌, ◌≢◌, ◌≤◌, ◌<◌, ◌^◌, ◌-◌, [], ◌∷◌, ◌++◌, All, AllPairs, Contains, Some, IfOk, MatchOption, length, take, slice_get};
    ghost use Rattle.eco_trace.specs.declared.clause.Lit.{Lit as Literal};
    ghost use Rattle.eco_trace.specs.Clauses.{IsVarWithin, IsTrueIn, valuation_of};
    ghost use Rattle.eco_trace.specs.Freshness.{Lacks};
    ghost use Rattle.eco_learn.specs.TakenLits.{Literals};
    ghost use Rattle.eco_learn.specs.Trails.{IsTruthOf, IsOpenVar, IsWhole};

    /// No literals yet, over the variables from 1 to `vars`.
    pub fn new(alloc: Global, vars: u64) -> Result<Taken, OutOfMemory>
        ensures { IfOk result (λ taken. taken ≡ record { vars = vars; lits = [] }) }
    {
        if MOST_VARS < vars {
            return Err(OutOfMemory);
        }
        let len = vars as usize + 1;
        let values = vec![in alloc; None; len]?;
        let places = vec![in alloc; 0; len]?;
        let lits = Vec::with_capacity(alloc, len)?;
        Ok(Taken {
            vars,
            values,
            places,
            lits,
        })
    }

    /// Hands out what the literals always are.
    pub fn is_sound(&self)
        ensures within { All (IsVarWithin self.now.vars) self.now.lits }
        ensures apart { AllPairs (λ a b. a.var ≢ b.var) self.now.lits }
        ensures few { length self.now.lits ≤ self.now.vars }
        ensures small { self.now.vars < 2 ^ 31 }
    {
        let _ = &self.lits;
    }

    pub fn vars(&self) -> u64
        ensures { result ≡ self.now.vars }
    {
        self.vars
    }

    pub fn lits(&self) -> &[Lit]
        ensures { result.now ≡ self.now.lits }
    {
        self.lits.as_slice()
    }

    pub fn len(&self) -> usize
        ensures { result ≡ length self.now.lits }
    {
        self.lits.len()
    }

    pub fn lit(&self, place: usize) -> Lit
        requires { place < length self.now.lits }
        ensures { slice_get self.now.lits place ≡ Some result }
    {
        self.lits[place]
    }

    pub fn truth(&self, lit: Lit) -> Truth
        requires { IsVarWithin self.now.vars lit }
        ensures { IsTruthOf self.now.lits lit result }
    {
        match self.values[lit.var.0 as usize] {
            None => Truth::Open,
            Some(value) => {
                if value == lit.positive {
                    Truth::True
                } else {
                    Truth::False
                }
            }
        }
    }

    pub fn place(&self, lit: Lit) -> usize
        requires { Contains self.now.lits lit }
        ensures { slice_get self.now.lits result ≡ Some lit }
    {
        self.places[lit.var.0 as usize]
    }

    /// Takes one more literal.
    pub fn push(&mut self, lit: Lit)
        requires within { IsVarWithin self.old.vars lit }
        requires lacking { Lacks self.old.lits lit }
        ensures pushed { self.new ≡ record { vars = self.old.vars; lits = self.old.lits ++ lit ∷ [] } }
    {
        let var = lit.var.0 as usize;
        let place = self.lits.len();
        self.values[var] = Some(lit.positive);
        self.places[var] = place;
        match self.lits.push(lit) {
            Ok(()) => (),
            Err(_) => unreachable!(),
        }
    }

    /// Takes back the last literal, if there is one.
    fn pop(&mut self)
        ensures popped { self.new ≡ record { vars = self.old.vars; lits = take (length self.old.lits - 1) self.old.lits } }
    {
        match self.lits.pop() {
            None => (),
            Some(lit) => self.values[lit.var.0 as usize] = None,
        }
    }

    /// Takes back all literals but the first `len`.
    pub fn truncate(&mut self, len: usize)
        ensures cut { self.new ≡ record { vars = self.old.vars; lits = take len self.old.lits } }
    {
        while len < self.len() {
            self.pop();
        }
    }

    /// The first variable of which nothing is known.
    pub fn open(&self) -> Option<Var>
        ensures { MatchOption result (IsWhole self.now.vars self.now.lits) (IsOpenVar self.now.vars self.now.lits) }
    {
        match first_open(self.values.as_slice()) {
            None => None,
            Some(number) => Some(Var(number as u64)),
        }
    }

    /// The truth values of the variables, false for those of which nothing is known.
    pub fn model(&self, alloc: Global) -> Result<Model, OutOfMemory>
        ensures all { IfOk result (λ model. length model ≡ self.now.vars) }
        ensures each { IfOk result (λ model. (l : Literal) → Contains self.now.lits l → IsTrueIn (valuation_of model) l) }
    {
        let values = bits(alloc, self.values.as_slice())?;
        Ok(Model::new(values))
    }
}

/// The values from place 1 on, false where there is none.
fn bits(alloc: Global, values: &[Option<bool>]) -> Result<Vec<bool>, OutOfMemory>
    ensures { IfOk result (λ bits. bits.items ≡ map (λ value. unwrap_or value false) (drop 1 values.now)) }
{
    let bits = values
        .iter()
        .skip(1)
        .map(|value| value.unwrap_or(false))
        .collect(alloc)?;
    Ok(bits)
}

/// The first number from 1 on that has no value.
fn first_open(values: &[Option<bool>]) -> Option<usize>
    ensures { MatchOption result (HasNoneOpen values.now) (λ v. (0 < v) × (slice_get values.now v ≡ Some None)) }
{
    for (number, value) in values.iter().enumerate() {
        if 0 < number && value.is_none() {
            return Some(number);
        }
    }
    None
}
