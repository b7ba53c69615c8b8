//! Truth values of variables.

ghost use Rattle.std.specs.Prelude.{◌↔◌, ◌≤◌, All, IsTrue, length};
ghost use Rattle.eco_trace.specs.Clauses.{Satisfies, HoldsIn, IsTrueIn, IsVarWithin, valuation_of};

use crate::clause::{Clause, Lit, Var};
use crate::cnf::Cnf;
use std::marker;

/// A truth value for each variable from 1 to a last one.
#[derive(Drop)]
pub struct Model {
    values: Vec<bool>,
}

impl marker::Model for Model {
    ghost use Rattle.std.specs.Prelude.{List, Bool};

    ghost Value = { List Bool };

    ghost view = { λ model. model.values.items };
}

impl Model {
    ghost use Rattle.std.specs.Prelude.{◌≡◌, ◌≤◌, length};
    ghost use Rattle.eco_trace.specs.Clauses.{valuation_of};

    /// The model in which the variables 1, 2, .. have these values.
    pub fn new(values: Vec<bool>) -> Model
        ensures { result ≡ values.items }
    {
        Model { values }
    }

    /// The number of variables that have a value.
    pub fn len(&self) -> u64
        ensures { result ≡ length self.now }
    {
        self.values.len() as u64
    }

    /// The value of the variable.
    pub fn value(&self, var: Var) -> bool
        requires first { 1 ≤ var.0 }
        requires last { var.0 ≤ length self.now }
        ensures { result ≡ valuation_of self.now var.0 }
    {
        self.values[(var.0 - 1) as usize]
    }
}

/// Whether each of the clauses has a literal that is true in the model.
pub fn satisfies(model: &Model, cnf: &Cnf) -> bool
    requires { cnf.now.vars ≤ length model.now }
    ensures { IsTrue result ↔ Satisfies (valuation_of model.now) cnf.now.clauses }
{
    for clause in cnf.clauses() {
        if !holds(model, clause) {
            return false;
        }
    }
    true
}

/// Whether the clause has a literal that is true in the model.
fn holds(model: &Model, clause: &Clause) -> bool
    requires { All (IsVarWithin (length model.now)) clause.now }
    ensures { IsTrue result ↔ HoldsIn (valuation_of model.now) clause.now }
{
    clause.lits().iter().any(|lit| is_true(model, *lit))
}

fn is_true(model: &Model, lit: Lit) -> bool
    requires { IsVarWithin (length model.now) lit }
    ensures { IsTrue result ↔ IsTrueIn (valuation_of model.now) lit }
{
    model.value(lit.var) == lit.positive
}
