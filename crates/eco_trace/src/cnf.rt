//! Clauses over numbered variables.

ghost use Rattle.std.specs.Prelude.{◌≡◌, ◌↔◌, All, IsTrue, IfOk};
ghost use Rattle.eco_trace.specs.Clauses.{IsVarWithin};

use crate::clause::{Clause, Lit};
use eco_meaning::OutOfMemory;
use std::alloc::Global;
use std::marker;

/// Clauses in order (a formula in conjunctive normal form), whose variables are from 1 to a largest one.
#[derive(Drop)]
pub struct Cnf {
    vars: u64,
    clauses: Vec<Clause>,
}

impl marker::Model for Cnf {
    ghost use Rattle.eco_trace.specs.Clauses.{Clauses, AreFormed};

    ghost Value = { Clauses };

    ghost view = { λ cnf. record { vars = cnf.vars; clauses = cnf.clauses.items } };

    ghost invariant = { λ cnf. AreFormed (record { vars = cnf.vars; clauses = cnf.clauses.items }) };
}

impl Cnf {
    ghost use Rattle.std.specs.Prelude.{◌≡◌, ◌≢◌, ◌↔◌, ◌+◌, ◌^◌, ◌<◌, ◌≤◌, [], ◌∷◌, All, AllPairs, IsTrue, IfOk, OnOk, OnErr, if◌then◌else◌, length, map, take};
    ghost use Rattle.eco_trace.specs.Clauses.{AreFormed, IsVarWithin, with_clause};
    ghost use Rattle.eco_trace.specs.Adding.{AddsClausesOf, Extends, equality, shifted, with_clauses};

    /// No clauses yet, over the variables from 1 to `vars`.
    pub fn new(alloc: Global, vars: u64) -> Cnf
        ensures empty { result ≡ record { vars = vars; clauses = [] } }
    {
        Cnf {
            vars,
            clauses: Vec::new(alloc),
        }
    }

    /// Adds a clause behind the others. Where memory is wanting the clause is spent.
    pub fn add(&mut self, clause: Clause) -> Result<(), OutOfMemory>
        requires within { All (IsVarWithin self.old.vars) clause }
        ensures ok { OnOk result (self.new ≡ with_clause self.old clause) }
        ensures err { OnErr result (self.new ≡ self.old) }
    {
        let _ = clause.lits();
        self.clauses.push(clause)?;
        Ok(())
    }

    /// Adds the clause, unless it has a variable that isn't from 1 to `vars`: then false is answered, and the clauses
    /// stay as they are.
    pub fn try_add(&mut self, clause: Clause) -> Result<bool, OutOfMemory>
        ensures within { IfOk result (λ added. IsTrue added ↔ All (IsVarWithin self.old.vars) clause) }
        ensures ok { IfOk result (λ added. self.new ≡ (if added then with_clause self.old clause else self.old)) }
        ensures err { OnErr result (self.new ≡ self.old) }
    {
        if are_within(self.vars, clause.lits()) {
            self.add(clause)?;
            Ok(true)
        } else {
            Ok(false)
        }
    }

    /// Adds the clause of these literals, each of another variable, behind the others.
    pub fn add_lits(&mut self, lits: &[Lit]) -> Result<(), OutOfMemory>
        requires within { All (IsVarWithin self.old.vars) lits.now }
        requires apart { AllPairs (λ l m. l.var.0 ≢ m.var.0) lits.now }
        ensures ok { OnOk result (AddsClausesOf self.old self.new (lits.now ∷ [])) }
        ensures err { OnErr result (self.new ≡ self.old) }
    {
        let alloc = *self.clauses.allocator();
        let lits = Vec::from_slice(alloc, lits)?;
        match Clause::new(alloc, lits)? {
            Some(clause) => self.add(clause),
            None => unreachable!(),
        }
    }

    /// Adds the two clauses that make the literals equal, behind the others. Where memory is wanting the first one may have
    /// been added.
    pub fn add_equal(&mut self, left: Lit, right: Lit) -> Result<(), OutOfMemory>
        requires within { All (IsVarWithin self.old.vars) (left ∷ right ∷ []) }
        requires apart { left.var.0 ≢ right.var.0 }
        ensures ok { OnOk result (AddsClausesOf self.old self.new (equality left right)) }
        ensures vars { self.new.vars ≡ self.old.vars }
        ensures front { Extends self.old self.new }
    {
        self.add_lits(&[left.complement(), right])?;
        self.add_lits(&[left, right.complement()])
    }

    /// Adds the clauses behind the others, over variables whose numbers are larger by this much. Where memory is wanting some
    /// may have been added.
    pub fn add_shifted(&mut self, others: &Cnf, by: u64) -> Result<(), OutOfMemory>
        requires fits { others.now.vars + by < 2 ^ 64 }
        requires within { others.now.vars + by ≤ self.old.vars }
        ensures ok { OnOk result (self.new ≡ with_clauses self.old (map (map (shifted by)) others.now.clauses)) }
        ensures vars { self.new.vars ≡ self.old.vars }
        ensures front { Extends self.old self.new }
    {
        for clause in others.clauses() {
            self.add(clause.shifted(by)?)?;
        }
        Ok(())
    }

    /// Lets more variables stand in the clauses that are added from now on: those from 1 to `vars`.
    pub fn widen(&mut self, vars: u64)
        requires more { self.old.vars ≤ vars }
        ensures { self.new ≡ record self.old { vars = vars } }
    {
        self.vars = vars;
    }

    /// Drops the last clauses, all but the first `count`, and lets no variable above `vars` stand in clauses from now on.
    pub fn cut(&mut self, vars: u64, count: usize)
        requires within { AreFormed (record { vars = vars; clauses = take count self.old.clauses }) }
        ensures { self.new ≡ record { vars = vars; clauses = take count self.old.clauses } }
    {
        self.clauses.truncate(count);
        self.vars = vars;
    }

    /// The largest number that a variable may have.
    pub fn vars(&self) -> u64
        ensures { result ≡ self.now.vars }
    {
        self.vars
    }

    /// The clauses, in the order in which they were added; there are at most 2^63 - 1.
    pub fn clauses(&self) -> &[Clause]
        ensures clauses { result.now ≡ self.now.clauses }
        ensures formed { AreFormed self.now }
        ensures few { length self.now.clauses ≤ 9223372036854775807 }
    {
        self.clauses.as_slice()
    }

    /// The same clauses again.
    pub fn copy(&self) -> Result<Cnf, OutOfMemory>
        ensures same { IfOk result (λ cnf. cnf ≡ self.now) }
    {
        let clauses = copied(*self.clauses.allocator(), self.clauses.as_slice())?;
        let vars = self.vars;
        Ok(Cnf { vars, clauses })
    }
}

/// The same clauses again.
fn copied(alloc: Global, clauses: &[Clause]) -> Result<Vec<Clause>, OutOfMemory>
    ensures { IfOk result (λ copied. copied.items ≡ clauses.now) }
{
    let mut copied = Vec::with_capacity(alloc, clauses.len())?;
    for clause in clauses {
        copied.push(clause.copy()?)?;
    }
    Ok(copied)
}

/// Whether the variables are from 1 to `vars`.
fn are_within(vars: u64, lits: &[Lit]) -> bool
    ensures { IsTrue result ↔ All (IsVarWithin vars) lits.now }
{
    lits.iter().all(|lit| is_within(vars, *lit))
}

fn is_within(vars: u64, lit: Lit) -> bool
    ensures { IsTrue result ↔ IsVarWithin vars lit }
{
    1 <= lit.var.0 && lit.var.0 <= vars
}
