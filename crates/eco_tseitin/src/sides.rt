//! The clauses of one side, and what two sides are made of and give.

ghost use Rattle.std.specs.Prelude.{◌≡◌, ◌≤◌, ℕ, Bool, All, IfOk, length};
ghost use Rattle.eco_aig.specs.Graph.{IsEdge};
ghost use Rattle.eco_aig.specs.Edges.{bits_of};
ghost use Rattle.eco_trace.specs.Clauses.{Valuation, IsVarWithin, Satisfies, read};
ghost use Rattle.eco_tseitin.specs.Reading.{Makes};
ghost use Rattle.eco_tseitin.specs.Sides.{IsOneSide};

use crate::encode::encode_side;
use eco_aig::{Aig, Edge};
use eco_meaning::OutOfMemory;
use eco_trace::{Cnf, Lit, Var};
use std::alloc::Global;

/// The clauses that ask for an input at which some edges are 1, and the literals of the input's edges and of base edges.
#[derive(Drop)]
pub struct EncodedSide {
    pub cnf: Cnf,
    pub inputs: Vec<Lit>,
    pub base: Vec<Lit>,
}

/// The clauses that ask for an input at which some edges are 1, and the literals of the input's edges.
#[derive(Drop)]
pub struct OneSide {
    pub cnf: Cnf,
    pub inputs: Vec<Lit>,
}

/// The clauses that ask for two inputs, each with edges of its own that are 1, at which the base edges have equal values:
/// a mark for each clause (true on the first side), a variable for each base edge, in order, that stands on both sides,
/// and the literals of the input's edges on the first side (`one`) and on the second (`other`).
#[derive(Drop)]
pub struct TwoSides {
    pub cnf: Cnf,
    pub side: Vec<bool>,
    pub shared: Vec<Var>,
    pub one: Vec<Lit>,
    pub other: Vec<Lit>,
}

/// The clauses whose models are the inputs at which the asserted edges are 1. Time and memory are those of the nodes that
/// the edges reach.
pub fn one_side(
    alloc: Global,
    aig: &Aig,
    inputs: &[Edge],
    asserted: &[Edge],
) -> Result<OneSide, OutOfMemory>
    requires inputs { All (IsEdge aig.now) inputs.now }
    requires asserted { All (IsEdge aig.now) asserted.now }
    ensures models { IfOk result (λ side. (v : Valuation) → Satisfies v side.cnf.clauses
        → (w : ℕ → Bool) × Makes aig.now asserted.now w × (read v side.inputs.items ≡ bits_of w inputs.now)) }
    ensures answers { IfOk result (λ side. (w : ℕ → Bool) → Makes aig.now asserted.now w
        → (v : Valuation) × Satisfies v side.cnf.clauses × (read v side.inputs.items ≡ bits_of w inputs.now)) }
    ensures within { IfOk result (λ side. All (IsVarWithin side.cnf.vars) side.inputs.items) }
    ensures few { IfOk result (λ side. side.cnf.vars ≤ length aig.now) }
    ensures shape { IfOk result (IsOneSide aig.now inputs.now asserted.now) }
{
    let side = encode_side(alloc, aig, inputs, &[], asserted)?;
    Ok(OneSide {
        cnf: side.cnf,
        inputs: side.inputs,
    })
}
