//! Posed questions, and how models of their clauses are read.

use eco_meaning::{Bits, OutOfMemory};
use eco_trace::{Cnf, Lit, Model, Var};
use std::alloc::Global;
use std::marker;

/// Clauses that have a model exactly where a question has an answer, with what reads answers from models.
#[derive(Drop)]
pub struct Posed {
    pub(crate) alloc: Global,
    pub(crate) cnf: Cnf,
    pub(crate) side: Vec<bool>,
    pub(crate) shared: Vec<Var>,
    pub(crate) first: Vec<Lit>,
    pub(crate) second: Vec<Lit>,
    pub(crate) targets: Vec<Lit>,
}

impl marker::Model for Posed {
    ghost use Rattle.eco_pose.specs.Posing.{PosedValue, IsReadable};

    ghost Value = { PosedValue };

    ghost view = { λ posed. record {
      clauses = posed.cnf;
      side = posed.side.items;
      shared = posed.shared.items;
      first = posed.first.items;
      second = posed.second.items;
      targets = posed.targets.items;
    } };

    ghost invariant = { λ posed. IsReadable (record {
      clauses = posed.cnf;
      side = posed.side.items;
      shared = posed.shared.items;
      first = posed.first.items;
      second = posed.second.items;
      targets = posed.targets.items;
    }) };
}

impl Posed {
    ghost use Rattle.std.specs.Prelude.{◌≡◌, ◌≤◌, IfOk, length};
    ghost use Rattle.eco_trace.specs.Clauses.{valuation_of, truth, read};

    /// The clauses.
    pub fn cnf(&self) -> &Cnf
        ensures { result.now ≡ self.now.clauses }
    {
        &self.cnf
    }

    /// Where two inputs are asked for, a mark for each clause: `true` on the side of the first. No clause says what stands
    /// here for the other questions.
    pub fn side(&self) -> &[bool]
        ensures { result.now ≡ self.now.side }
    {
        self.side.as_slice()
    }

    /// The variables that stand on both sides: one for each base signal, in order.
    pub fn shared(&self) -> &[Var]
        ensures { result.now ≡ self.now.shared }
    {
        self.shared.as_slice()
    }

    /// The input that the model is read as, or the first of two.
    pub fn input1(&self, model: &Model) -> Result<Bits, OutOfMemory>
        requires { self.now.clauses.vars ≤ length model.now }
        ensures { IfOk result (λ bits. bits ≡ read (valuation_of model.now) self.now.first) }
    {
        bits_of(self.alloc, self.cnf.vars(), model, self.first.as_slice())
    }

    /// The second input that the model is read as, where two are asked for.
    pub fn input2(&self, model: &Model) -> Result<Bits, OutOfMemory>
        requires { self.now.clauses.vars ≤ length model.now }
        ensures { IfOk result (λ bits. bits ≡ read (valuation_of model.now) self.now.second) }
    {
        bits_of(self.alloc, self.cnf.vars(), model, self.second.as_slice())
    }

    /// The values of the targets that the model is read as, where they are asked for.
    pub fn target_values(&self, model: &Model) -> Result<Bits, OutOfMemory>
        requires { self.now.clauses.vars ≤ length model.now }
        ensures { IfOk result (λ bits. bits ≡ read (valuation_of model.now) self.now.targets) }
    {
        bits_of(self.alloc, self.cnf.vars(), model, self.targets.as_slice())
    }
}

ghost use Rattle.std.specs.Prelude.{◌≡◌, ◌≤◌, All, IfOk, length};
ghost use Rattle.eco_trace.specs.Clauses.{IsVarWithin, valuation_of, truth, read};

/// The bits of the literals in the model, where their variables are among the first `vars`.
pub fn bits_of(alloc: Global, vars: u64, model: &Model, lits: &[Lit]) -> Result<Bits, OutOfMemory>
    requires model { vars ≤ length model.now }
    requires within { All (IsVarWithin vars) lits.now }
    ensures { IfOk result (λ bits. bits ≡ read (valuation_of model.now) lits.now) }
{
    let mut bits = Vec::with_capacity(alloc, lits.len())?;
    for lit in lits {
        bits.push(truth(model, *lit))?;
    }
    Ok(Bits::of(bits))
}

/// The bit of the literal in the model.
fn truth(model: &Model, lit: Lit) -> bool
    requires { IsVarWithin (length model.now) lit }
    ensures { result ≡ truth (valuation_of model.now) lit }
{
    let value = model.value(lit.var);
    if lit.positive { value } else { !value }
}
