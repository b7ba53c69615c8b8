//! The question whether a function hasn't the part's mark in some model of the part.

ghost use Rattle.std.specs.Prelude.{◌≡◌, ◌≢◌, ◌^◌, ◌<◌, All, IfOk, OnOk, length};
ghost use Rattle.eco_aig.specs.Graph.{IsEdge, inputs_of};
ghost use Rattle.eco_trace.specs.Adding.{Extends};
ghost use Rattle.eco_tseitin.specs.Joined.{positive};
ghost use Rattle.eco_accept.specs.Posing.{AreEqual, ArePairsBefore, FitsBehind, HaveAlso, IsBehind, IsFunction, IsPairWithin, IsPosed, IsVarUpTo, against as mark_against};

use eco_aig::{Aig, Edge};
use eco_meaning::OutOfMemory;
use eco_trace::{Cnf, Lit, Var};
use eco_tseitin::Encoder;
use std::alloc::Global;

/// A variable of the part, and one of the function's clauses that is to be equal to it.
#[derive(Clone, Copy)]
struct Pair {
    shared: Var,
    own: Var,
}

/// The clauses of a function, the literal that is true where it is 1, and its inputs.
#[derive(Drop)]
struct Function {
    cnf: Cnf,
    root: Lit,
    inputs: Vec<Pair>,
}

/// Adds to the clauses of a part those of an edge of a graph, behind the part's variables, and that the graph's inputs have the
/// bits of the shared variables, in order, but the edge hasn't the mark. Where memory is wanting some may have been added.
pub(crate) fn pose(
    alloc: Global,
    cnf: &mut Cnf,
    shared: &[Var],
    part: bool,
    aig: &Aig,
    root: Edge,
) -> Result<(), OutOfMemory>
    requires few { cnf.old.vars < 2 ^ 60 }
    requires shared { All (IsVarUpTo cnf.old.vars) shared.now }
    requires inputs { length (inputs_of aig.now) ≡ length shared.now }
    requires edge { IsEdge aig.now root }
    ensures front { Extends cnf.old cnf.new }
    ensures posed { OnOk result (IsPosed (record { clauses = cnf.old; shared = shared.now; part = part }) aig.now root cnf.new) }
{
    let function = function_of(alloc, aig, root, shared)?;
    let added = add_function(cnf, &function, part);
    drop(function);
    added
}

/// The edge's clauses and inputs.
fn function_of(
    alloc: Global,
    aig: &Aig,
    root: Edge,
    shared: &[Var],
) -> Result<Function, OutOfMemory>
    requires inputs { length (inputs_of aig.now) ≡ length shared.now }
    requires edge { IsEdge aig.now root }
    ensures { IfOk result (IsFunction aig.now root shared.now) }
{
    // it is a graph, of which no node is encoded yet
    let _ = aig.nodes();
    let mut encoder = Encoder::new(alloc);
    let root = encoder.encode(aig, root)?;
    let inputs = pairs_of(alloc, aig, &encoder, shared)?;
    let cnf = encoder.finish();
    // they are clauses
    let _ = cnf.clauses();
    Ok(Function { cnf, root, inputs })
}

/// The inputs that have variables, each with the shared variable at its place.
fn pairs_of(
    alloc: Global,
    aig: &Aig,
    encoder: &Encoder,
    shared: &[Var],
) -> Result<Vec<Pair>, OutOfMemory>
    requires { length (inputs_of aig.now) ≡ length shared.now }
    ensures { IfOk result (λ pairs. ArePairsBefore (inputs_of aig.now) shared.now encoder.now.nodes (length (inputs_of aig.now)) pairs.items) }
{
    let inputs = aig.inputs();
    let mut pairs = Vec::new(alloc);
    for place in 0..inputs.len() {
        if let Some(own) = encoder.var_of(inputs[place]) {
            pairs.push(Pair {
                shared: shared[place],
                own,
            })?;
        }
    }
    Ok(pairs)
}

/// Adds the function's clauses behind the variables that are there, the equalities of its inputs, and that it hasn't the mark.
fn add_function(cnf: &mut Cnf, function: &Function, part: bool) -> Result<(), OutOfMemory>
    requires few { cnf.old.vars < 2 ^ 60 }
    requires fits { FitsBehind cnf.old.vars function.now }
    ensures front { Extends cnf.old cnf.new }
    ensures models { OnOk result (HaveAlso cnf.old cnf.new (IsBehind cnf.old.vars function.now part)) }
{
    let by = cnf.vars();
    cnf.widen(by + function.cnf.vars());
    cnf.add_shifted(&function.cnf, by)?;
    add_pairs(cnf, function.inputs.as_slice(), by)?;
    let lacks = against(part, function.root);
    cnf.add_lits(&[lacks.shifted(by)])
}

/// Adds that each pair's variables are equal, the second one's number larger by this much.
fn add_pairs(cnf: &mut Cnf, pairs: &[Pair], by: u64) -> Result<(), OutOfMemory>
    requires within { All (IsPairWithin by cnf.old.vars) pairs.now }
    ensures front { Extends cnf.old cnf.new }
    ensures models { OnOk result (HaveAlso cnf.old cnf.new (AreEqual by pairs.now)) }
{
    for pair in pairs {
        add_equality(cnf, pair.shared, Var(pair.own.0 + by))?;
    }
    Ok(())
}

/// Adds the two clauses that make the variables equal.
fn add_equality(cnf: &mut Cnf, left: Var, right: Var) -> Result<(), OutOfMemory>
    requires left { IsVarUpTo cnf.old.vars left }
    requires right { IsVarUpTo cnf.old.vars right }
    requires apart { left.0 ≢ right.0 }
    ensures front { Extends cnf.old cnf.new }
    ensures models { OnOk result (HaveAlso cnf.old cnf.new (λ v. v left.0 ≡ v right.0)) }
{
    cnf.add_equal(literal(left), literal(right))
}

/// The literal that is true where the variable is.
fn literal(var: Var) -> Lit
    ensures { result ≡ positive var }
{
    Lit {
        var,
        positive: true,
    }
}

/// The literal that is true where the other one's bit isn't the mark.
fn against(part: bool, literal: Lit) -> Lit
    ensures { result ≡ mark_against part literal }
{
    if part { literal.complement() } else { literal }
}
