//! Clauses with a mark each.

ghost use Rattle.std.specs.Prelude.{◌≡◌, ◌+◌, ◌^◌, ◌<◌, ◌≤◌, ◌++◌, [], ◌∷◌, All, IfOk, OnOk, length, map, replicate};
ghost use Rattle.eco_trace.specs.Adding.{shifted, equality};
ghost use Rattle.eco_trace.specs.Clauses.{IsVarWithin};
ghost use Rattle.eco_tseitin.specs.Joined.{equalities};
ghost use Rattle.eco_tseitin.specs.Marking.{Adds, AreBelow};

use eco_meaning::OutOfMemory;
use eco_trace::{Cnf, Lit};
use std::alloc::Global;

/// Clauses, and a mark for each.
#[derive(Drop)]
pub(crate) struct Marked {
    pub(crate) cnf: Cnf,
    pub(crate) marks: Vec<bool>,
}

impl Marked {
    /// These clauses, each with this mark.
    pub(crate) fn new(alloc: Global, cnf: Cnf, mark: bool) -> Result<Marked, OutOfMemory>
        ensures { IfOk result (λ marked. (marked.cnf ≡ cnf) × (marked.marks.items ≡ map (λ clause. mark) cnf.clauses)) }
    {
        let marks = vec![in alloc; mark; cnf.clauses().len()]?;
        Ok(Marked { cnf, marks })
    }

    /// Adds, for each pair of literals at one place, the two clauses that make them equal.
    pub(crate) fn add_equalities(
        &mut self,
        lefts: &[Lit],
        rights: &[Lit],
        mark: bool,
    ) -> Result<(), OutOfMemory>
        requires count { length lefts.now ≡ length rights.now }
        requires order { AreBelow lefts.now rights.now }
        requires lefts { All (IsVarWithin self.old.cnf.vars) lefts.now }
        requires rights { All (IsVarWithin self.old.cnf.vars) rights.now }
        ensures { OnOk result (Adds self.old self.new (equalities lefts.now rights.now) mark) }
    {
        for (left, right) in lefts.iter().zip(rights) {
            self.add_equality(*left, *right, mark)?;
        }
        Ok(())
    }

    /// Adds the two clauses that make the literals equal.
    fn add_equality(&mut self, left: Lit, right: Lit, mark: bool) -> Result<(), OutOfMemory>
        requires order { left.var.0 < right.var.0 }
        requires within { All (IsVarWithin self.old.cnf.vars) (left ∷ right ∷ []) }
        ensures { OnOk result (Adds self.old self.new (equality left right) mark) }
    {
        self.cnf.add_equal(left, right)?;
        self.marks.push(mark)?;
        self.marks.push(mark)?;
        Ok(())
    }

    /// Adds the clauses, with variables whose numbers are larger by this much.
    pub(crate) fn add_shifted(&mut self, cnf: &Cnf, by: u64, mark: bool) -> Result<(), OutOfMemory>
        requires fits { cnf.now.vars + by < 2 ^ 64 }
        requires within { cnf.now.vars + by ≤ self.old.cnf.vars }
        ensures { OnOk result (Adds self.old self.new (map (map (shifted by)) cnf.now.clauses) mark) }
    {
        self.cnf.add_shifted(cnf, by)?;
        add_marks(&mut self.marks, cnf.clauses().len(), mark)
    }
}

/// Adds the mark so many times.
fn add_marks(marks: &mut Vec<bool>, count: usize, mark: bool) -> Result<(), OutOfMemory>
    ensures { OnOk result (marks.new.items ≡ marks.old.items ++ replicate count mark) }
{
    for _ in 0..count {
        marks.push(mark)?;
    }
    Ok(())
}
