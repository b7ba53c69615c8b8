//! The trail of a search.

ghost use Rattle.std.specs.Prelude.{◌≡◌, ◌≢◌, ◌≤◌, ◌<◌, ◌∷◌, [], ◌++◌, ℕ, AllPairs, Some, length, slice_index};
ghost use Rattle.std.specs.Vec.{vec_capacity};
ghost use Rattle.eco_trace.specs.Clauses.{IsVarWithin};
ghost use Rattle.eco_trace.specs.Freshness.{Lacks};

use crate::taken::{Taken, Truth};
use eco_meaning::OutOfMemory;
use eco_trace::{Lit, Model, NodeId, Var};
use std::alloc::Global;
use std::marker;

/// The literals that a search takes to be true, in order, by levels: level 0 has what follows from the clauses alone,
/// and each other level begins with a decision, which the literals behind it follow from. Each literal that was
/// not decided has a reason, the node of the clause that forces it.
#[derive(Drop)]
pub struct Trail {
    taken: Taken,
    marks: Vec<usize>,
    reasons: Vec<Option<NodeId>>,
}

impl marker::Model for Trail {
    ghost use Rattle.std.specs.Vec.{vec_capacity};
    ghost use Rattle.eco_learn.specs.Trails.{Known, AreLevels};

    ghost Value = { Known };

    ghost view = { λ t. record { vars = t.taken.vars; lits = t.taken.lits; marks = t.marks.items; reasons = t.reasons.items } };

    ghost invariant = { λ t. AreLevels t.taken.vars t.taken.lits t.marks.items t.reasons.items (vec_capacity t.reasons) };
}

impl Trail {
    ghost use Rattle.std.specs.Prelude.{◌≡◌, ◌↔◌, ◌≤◌, ◌<◌, Contains, Some, None, IfOk, OnOk, OnErr, MatchOption, length, slice_get};
    ghost use Rattle.eco_trace.specs.declared.clause.Lit.{Lit as Literal};
    ghost use Rattle.eco_trace.specs.Clauses.{IsVarWithin, IsTrueIn, valuation_of};
    ghost use Rattle.eco_trace.specs.Freshness.{Lacks};
    ghost use Rattle.eco_learn.specs.Trails.{Known, IsTrail, IsTruthOf, IsOpenVar, IsWhole, IsLevelAt, begun, decided, implied, cut_to, end_of};

    /// The trail of these variables, of which nothing is known yet. There is no memory for more than 2^31 - 1 of them.
    pub fn new(alloc: Global, vars: u64) -> Result<Trail, OutOfMemory>
        ensures begun { IfOk result (λ trail. trail ≡ begun vars) }
    {
        let taken = Taken::new(alloc, vars)?;
        let reasons = Vec::with_capacity(alloc, vars as usize)?;
        Ok(Trail {
            taken,
            marks: Vec::new(alloc),
            reasons,
        })
    }

    /// Hands out what every trail keeps.
    pub fn is_sound(&self)
        ensures sound { IsTrail self.now }
    {
        self.taken.is_sound();
    }

    /// The largest number of a variable.
    pub fn vars(&self) -> u64
        ensures { result ≡ self.now.vars }
    {
        self.taken.vars()
    }

    /// The number of literals that are taken to be true.
    pub fn len(&self) -> usize
        ensures { result ≡ length self.now.lits }
    {
        self.taken.len()
    }

    /// The literals that are taken to be true, in order.
    pub fn lits(&self) -> &[Lit]
        ensures { result.now ≡ self.now.lits }
    {
        self.taken.lits()
    }

    /// The literal at this place.
    pub fn lit(&self, place: usize) -> Lit
        requires { place < length self.now.lits }
        ensures { slice_get self.now.lits place ≡ Some result }
    {
        self.taken.lit(place)
    }

    /// The node of the clause that forces the literal at this place; None if it was decided.
    pub fn reason(&self, place: usize) -> Option<NodeId>
        requires { place < length self.now.lits }
        ensures { slice_get self.now.reasons place ≡ Some result }
    {
        self.reasons[place]
    }

    /// What is known of the literal.
    pub fn truth(&self, lit: Lit) -> Truth
        requires { IsVarWithin self.now.vars lit }
        ensures { IsTruthOf self.now.lits lit result }
    {
        self.taken.truth(lit)
    }

    /// The place of a literal that is true.
    pub fn place(&self, lit: Lit) -> usize
        requires { Contains self.now.lits lit }
        ensures { slice_get self.now.lits result ≡ Some lit }
    {
        self.taken.place(lit)
    }

    /// The number of the last level.
    pub fn level(&self) -> usize
        ensures { result ≡ length self.now.marks }
    {
        self.marks.len()
    }

    /// Where the literals of the levels above this one begin.
    pub fn end(&self, level: usize) -> usize
        ensures end { result ≡ end_of self.now level }
        ensures within { result ≤ length self.now.lits }
    {
        if level < self.marks.len() {
            self.marks[level]
        } else {
            self.taken.len()
        }
    }

    /// The level of the literal at this place.
    pub fn level_at(&self, place: usize) -> usize
        requires { place < length self.now.lits }
        ensures { IsLevelAt self.now place result }
    {
        levels_before(self.marks.as_slice(), place)
    }

    /// Begins a new level with a literal of which nothing is known.
    pub fn decide(&mut self, lit: Lit) -> Result<(), OutOfMemory>
        requires within { IsVarWithin self.old.vars lit }
        requires lacking { Lacks self.old.lits lit }
        ensures ok { OnOk result (self.new ≡ decided self.old lit) }
        ensures err { OnErr result (self.new ≡ self.old) }
    {
        let end = self.taken.len();
        self.marks.push(end)?;
        take(&mut self.taken, &mut self.reasons, lit, None);
        Ok(())
    }

    /// Takes a literal to be true, of which nothing is known, because the clause of the node forces it.
    pub fn imply(&mut self, lit: Lit, reason: NodeId)
        requires within { IsVarWithin self.old.vars lit }
        requires lacking { Lacks self.old.lits lit }
        ensures implied { self.new ≡ implied self.old lit reason }
    {
        take(&mut self.taken, &mut self.reasons, lit, Some(reason));
    }

    /// Takes back all literals of the levels above this one.
    pub fn cut(&mut self, level: usize)
        ensures cut { self.new ≡ cut_to self.old level }
    {
        let end = self.end(level);
        self.taken.truncate(end);
        self.reasons.truncate(end);
        self.marks.truncate(level);
    }

    /// The first variable of which nothing is known; None exactly where there is none.
    pub fn open(&self) -> Option<Var>
        ensures { MatchOption result (IsWhole self.now.vars self.now.lits) (IsOpenVar self.now.vars self.now.lits) }
    {
        self.taken.open()
    }

    /// The truth values of the variables, false for those of which nothing is known.
    pub fn model(&self, alloc: Global) -> Result<Model, OutOfMemory>
        ensures all { IfOk result (λ model. length model ≡ self.now.vars) }
        ensures each { IfOk result (λ model. (l : Literal) → Contains self.now.lits l → IsTrueIn (valuation_of model) l) }
    {
        self.taken.model(alloc)
    }
}

/// Takes a literal to be true, and notes its reason.
fn take(taken: &mut Taken, reasons: &mut Vec<Option<NodeId>>, lit: Lit, reason: Option<NodeId>)
    requires within { IsVarWithin taken.old.vars lit }
    requires lacking { Lacks taken.old.lits lit }
    requires reasoned { length reasons.old.items ≡ length taken.old.lits }
    requires roomy { taken.old.vars ≤ vec_capacity reasons.old }
    ensures taken { taken.new ≡ record { vars = taken.old.vars; lits = taken.old.lits ++ lit ∷ [] } }
    ensures reasons { reasons.new.items ≡ reasons.old.items ++ reason ∷ [] }
    ensures roomy { vec_capacity reasons.old ≤ vec_capacity reasons.new }
{
    taken.push(lit);
    taken.is_sound();
    match reasons.push(reason) {
        Ok(()) => (),
        Err(_) => unreachable!(),
    }
}

/// How many of the levels begin no later than at this place.
fn levels_before(marks: &[usize], place: usize) -> usize
    requires rising { AllPairs (λ a b. a < b) marks.now }
    ensures within { result ≤ length marks.now }
    ensures before { (i : ℕ) → i < result → slice_index marks.now i ≤ place }
    ensures behind { (i : ℕ) → result ≤ i → i < length marks.now → place < slice_index marks.now i }
{
    marks.partition_point(|mark| *mark <= place)
}
