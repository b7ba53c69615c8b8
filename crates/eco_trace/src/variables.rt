//! Sets of variables, and those of the parts of a proof's clauses.

ghost use Rattle.std.specs.Prelude.{◌≡◌, ◌||◌, ◌==◌, ℕ, IfOk, OnOk, length, nat_eq};
ghost use Rattle.std.specs.List.{list_any};
ghost use Rattle.std.specs.HashSet.{contains};
ghost use Rattle.eco_trace.specs.Split.{AreOfPart};
ghost use Rattle.eco_trace.specs.Variables.{holds};

use crate::clause::{Lit, Var};
use crate::node::NodeId;
use crate::trace::Trace;
use eco_meaning::OutOfMemory;
use std::alloc::Global;
use std::collections::HashSet;

/// A set of variables. A look-up takes constant time on average.
#[derive(Drop)]
pub struct Variables {
    numbers: HashSet<u64>,
}

impl Variables {
    ghost use Rattle.std.specs.Prelude.{◌≡◌, ◌↔◌, ◌⊎◌, false, true, OnOk};
    ghost use Rattle.eco_trace.specs.declared.clause.Var.{Var as Variable};
    ghost use Rattle.eco_trace.specs.Split.{Mentions};
    ghost use Rattle.eco_trace.specs.Variables.{holds};

    /// No variables.
    pub fn new(alloc: Global) -> Variables
        ensures { (x : Variable) → holds result x ≡ false }
    {
        Variables {
            numbers: HashSet::new(alloc),
        }
    }

    /// Whether the variable is one of them.
    pub fn contains(&self, var: Var) -> bool
        ensures { result ≡ holds self.now var }
    {
        self.numbers.contains(&var.0)
    }

    /// Adds the clause's variables. Where memory is wanting some of them may have been added.
    pub fn add_clause(&mut self, clause: &[Lit]) -> Result<(), OutOfMemory>
        ensures { OnOk result ((x : Variable)
            → (holds self.new x ≡ true) ↔ ((holds self.old x ≡ true) ⊎ Mentions clause.now x)) }
    {
        add_variables(&mut self.numbers, clause)
    }
}

/// Adds the numbers of the clause's variables.
fn add_variables(numbers: &mut HashSet<u64>, clause: &[Lit]) -> Result<(), OutOfMemory>
    ensures { OnOk result ((q : ℕ) → contains nat_eq numbers.new q
        ≡ (contains nat_eq numbers.old q || list_any (λ l. q == l.var.0) clause.now)) }
{
    for lit in clause {
        numbers.insert(lit.var.0)?;
    }
    Ok(())
}

/// The variables of a part of the clauses that the proof begins with. The mark at a clause's place is true where it
/// belongs to A; the part is A (true) or B (false). It takes time linear in the clauses.
pub fn variables_of(
    alloc: Global,
    trace: &Trace<'_>,
    marks: &[bool],
    part: bool,
) -> Result<Variables, OutOfMemory>
    requires { length marks.now ≡ length trace.now.originals }
    ensures { IfOk result (λ variables. AreOfPart (record { clauses = trace.now.originals; marks = marks.now }) part (holds variables)) }
{
    let mut variables = Variables::new(alloc);
    for number in 0..marks.len() {
        if marks[number] == part {
            variables.add_clause(trace.clause(NodeId(number as u64)))?;
        }
    }
    Ok(variables)
}
