//! Two encoded sides as one formula.

ghost use Rattle.std.specs.Prelude.{◌≡◌, ◌≢◌, ◌<◌, ◌+◌, ◌^◌, true, false, List, All, AllPairs, IfOk, length};
ghost use Rattle.eco_aig.specs.declared.edge.Edge.{Edge};
ghost use Rattle.eco_aig.specs.declared.node.Node.{Node};
ghost use Rattle.eco_trace.specs.Clauses.{IsVarWithin};
ghost use Rattle.eco_tseitin.specs.Encoded.{IsEncoded, IsReady};
ghost use Rattle.eco_tseitin.specs.Joined.{IsJoined, IsSewn};
ghost use Rattle.eco_tseitin.specs.Sides.{IsPart, HaveBothInputs, HaveModel, IsApart, split_of};

use crate::marked::Marked;
use crate::sides::{EncodedSide, TwoSides};
use crate::variables::{numbered, positives};
use eco_meaning::OutOfMemory;
use eco_trace::{Cnf, Lit, Var, shifted_lits};
use std::alloc::Global;

/// The clauses whose models are two inputs, one for each side, at which the base edges of both have equal values: the
/// clauses of both sides, the second's variables behind the first's, and between them a variable for each base edge, equal
/// to its literals on both sides. The sides may be of different graphs. Time and memory are those of the clauses.
pub fn join(alloc: Global, first: EncodedSide, second: EncodedSide) -> Result<TwoSides, OutOfMemory>
    requires first { IsReady first }
    requires second { IsReady second }
    requires count { length second.base.items ≡ length first.base.items }
    ensures first { (graph : List Node) (inputs base asserted : List Edge) → IsEncoded graph inputs base asserted first →
        IfOk result (λ sides. IsPart graph inputs base asserted (split_of sides) true sides.shared.items sides.one.items) }
    ensures second { (graph : List Node) (inputs base asserted : List Edge) → IsEncoded graph inputs base asserted second →
        IfOk result (λ sides. IsPart graph inputs base asserted (split_of sides) false sides.shared.items sides.other.items) }
    ensures models { IfOk result (HaveBothInputs first second) }
    ensures answers { IfOk result (HaveModel first second) }
    ensures apart { IfOk result (λ sides. IsApart (split_of sides) sides.shared.items) }
    ensures marks { IfOk result (λ sides. length sides.side.items ≡ length sides.cnf.clauses) }
    ensures count { IfOk result (λ sides. length sides.shared.items ≡ length first.base.items) }
    ensures distinct { IfOk result (λ sides. AllPairs (λ x y. x ≢ y) sides.shared.items) }
    ensures one_within { IfOk result (λ sides. All (IsVarWithin sides.cnf.vars) sides.one.items) }
    ensures other_within { IfOk result (λ sides. All (IsVarWithin sides.cnf.vars) sides.other.items) }
    ensures few { IfOk result (λ sides. sides.cnf.vars ≡ first.cnf.vars + length first.base.items + second.cnf.vars) }
    ensures shape { IfOk result (IsJoined first second) }
{
    let seam = sewn(alloc, first.cnf, first.base.as_slice(), &second);
    drop(second);
    match seam {
        Ok(seam) => Ok(TwoSides {
            cnf: seam.marked.cnf,
            side: seam.marked.marks,
            shared: seam.shared,
            one: first.inputs,
            other: seam.other,
        }),
        Err(error) => Err(error),
    }
}

/// The clauses of both sides, marked, with what stands between them and behind.
#[derive(Drop)]
struct Seam {
    marked: Marked,
    /// a variable for each base edge
    shared: Vec<Var>,
    /// the literals of the second side's inputs
    other: Vec<Lit>,
}

/// The first side's clauses and the second's behind them, with the variables that stand between.
fn sewn(alloc: Global, cnf: Cnf, base: &[Lit], second: &EncodedSide) -> Result<Seam, OutOfMemory>
    requires few_vars { cnf.vars < 2 ^ 60 }
    requires few_base { length base.now < 2 ^ 60 }
    requires base_within { All (IsVarWithin cnf.vars) base.now }
    requires second { IsReady second.now }
    requires count { length second.now.base.items ≡ length base.now }
    ensures { IfOk result (IsSewn cnf base.now second.now) }
{
    let shared = numbered(alloc, cnf.vars(), base.len())?;
    let by = cnf.vars() + base.len() as u64;
    let bits = positives(alloc, shared.as_slice())?;
    let other = shifted_lits(alloc, second.inputs.as_slice(), by)?;
    let other_base = shifted_lits(alloc, second.base.as_slice(), by)?;
    let mut marked = Marked::new(alloc, cnf, true)?;
    marked.cnf.widen(by + second.cnf.vars());
    marked.add_equalities(base, bits.as_slice(), true)?;
    marked.add_shifted(&second.cnf, by, false)?;
    marked.add_equalities(bits.as_slice(), other_base.as_slice(), false)?;
    Ok(Seam {
        marked,
        shared,
        other,
    })
}
