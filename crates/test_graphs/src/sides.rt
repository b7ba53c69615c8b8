//! Small questions, with all values of their variables tried.

ghost use Rattle.std.specs.Prelude.{◌≡◌, ◌≤◌, IfOk, length};
ghost use Rattle.eco_aig.specs.Graph.{IsEdge};
ghost use Rattle.eco_tseitin.specs.Encoded.{IsReady};

use eco_aig::{Aig, Edge};
use eco_meaning::OutOfMemory;
use eco_trace::{Cnf, Lit, Model, satisfies};
use eco_tseitin::{EncodedSide, OneSide, TwoSides, encode_side, join, one_side};
use std::alloc::Global;
use std::process::Abort;
use std::test::Fail;

/// Stops the test where the edge is of no node of the graph.
fn expect_edge(rt: &impl Abort, aig: &Aig, edge: Edge)
    ensures { IsEdge aig.now edge }
{
    assert!(rt; edge.node() < aig.nodes());
}

/// Stops the test where there are more than eight variables.
fn expect_few(rt: &impl Abort, cnf: &Cnf)
    ensures { cnf.now.vars ≤ 8 }
{
    assert!(rt; cnf.vars() <= 8);
}

/// Stops the test where the side has another number of base edges than one.
fn expect_one(rt: &impl Abort, side: &EncodedSide)
    ensures { length side.now.base.items ≡ 1 }
{
    assert!(rt; side.base.len() == 1);
}

/// The row's eight digits in base two, the lowest first.
fn digits(row: u64) -> [bool; 8] {
    [
        row & 1 != 0,
        row & 2 != 0,
        row & 4 != 0,
        row & 8 != 0,
        row & 16 != 0,
        row & 32 != 0,
        row & 64 != 0,
        row & 128 != 0,
    ]
}

/// Whether the literal is true at the values.
fn is_true(values: &[bool], lit: Lit) -> bool {
    let place = lit.var.0.saturating_sub(1) as usize;
    values.get(place).copied().unwrap_or(false) == lit.positive
}

/// The values of up to eight variables, of as many rows of a truth table, that satisfy the clauses.
fn models(alloc: Global, cnf: &Cnf, rows: u64) -> Result<Vec<[bool; 8]>, OutOfMemory>
    requires { cnf.now.vars ≤ 8 }
{
    let mut found = Vec::new(alloc);
    for row in 0..rows {
        let values = digits(row);
        let model = Model::new(Vec::from_slice(alloc, &values)?);
        if satisfies(&model, cnf) {
            found.push(values)?;
        }
    }
    Ok(found)
}

/// The digits of the literals at each of the values, with a slash behind those of each.
fn text_of(alloc: Global, found: &[[bool; 8]], lits: &[Lit]) -> Result<Vec<u8>, OutOfMemory> {
    let mut text = Vec::new(alloc);
    for values in found {
        push_digits(&mut text, values, lits)?;
        text.push(b'/')?;
    }
    Ok(text)
}

/// Puts the digits of the literals at the values behind the text.
fn push_digits(text: &mut Vec<u8>, values: &[bool], lits: &[Lit]) -> Result<(), OutOfMemory> {
    for lit in lits {
        text.push(if is_true(values, *lit) { b'1' } else { b'0' })?;
    }
    Ok(())
}

/// The clauses of `x ∧ ¬t`.
fn one_of_conjunction(
    rt: &impl Abort,
    alloc: Global,
    aig: &mut Aig,
) -> Result<OneSide, OutOfMemory> {
    let x = aig.input()?;
    let t = aig.input()?;
    expect_edge(rt, aig, x);
    let both = aig.and(x, t.not())?;
    expect_edge(rt, aig, x);
    expect_edge(rt, aig, t);
    expect_edge(rt, aig, both);
    one_side(alloc, aig, &[x, t], &[both])
}

/// The models of the clauses, as the digits of the inputs.
fn read_of_side(rt: &impl Abort, alloc: Global, side: &OneSide) -> Result<Vec<u8>, OutOfMemory> {
    expect_few(rt, &side.cnf);
    let found = models(alloc, &side.cnf, 8)?;
    text_of(alloc, found.as_slice(), side.inputs.as_slice())
}

/// The models of `x ∧ ¬t`, as the digits of `x` and `t`.
fn read_of_one(rt: &impl Abort, alloc: Global) -> Result<Vec<u8>, OutOfMemory> {
    let mut aig = Aig::new(alloc)?;
    let side = one_of_conjunction(rt, alloc, &mut aig);
    drop(aig);
    let side = side?;
    let text = read_of_side(rt, alloc, &side);
    drop(side);
    text
}

/// The side of `x ∧ t`, with `x` for its base.
fn side_of_conjunction(
    rt: &impl Abort,
    alloc: Global,
    aig: &mut Aig,
) -> Result<EncodedSide, OutOfMemory>
    ensures { IfOk result IsReady }
{
    let x = aig.input()?;
    let t = aig.input()?;
    expect_edge(rt, aig, x);
    let both = aig.and(x, t)?;
    expect_edge(rt, aig, x);
    expect_edge(rt, aig, t);
    expect_edge(rt, aig, both);
    encode_side(alloc, aig, &[x, t], &[x], &[both])
}

fn conjunction(rt: &impl Abort, alloc: Global) -> Result<EncodedSide, OutOfMemory>
    ensures { IfOk result IsReady }
{
    let mut aig = Aig::new(alloc)?;
    let side = side_of_conjunction(rt, alloc, &mut aig);
    drop(aig);
    side
}

/// The side of an input, or of its complement, with the input for its base.
fn side_of_input(
    rt: &impl Abort,
    alloc: Global,
    aig: &mut Aig,
    complemented: bool,
) -> Result<EncodedSide, OutOfMemory>
    ensures { IfOk result IsReady }
{
    let y = aig.input()?;
    expect_edge(rt, aig, y);
    let asserted = if complemented { y.not() } else { y };
    expect_edge(rt, aig, asserted);
    encode_side(alloc, aig, &[y], &[y], &[asserted])
}

fn input_alone(
    rt: &impl Abort,
    alloc: Global,
    complemented: bool,
) -> Result<EncodedSide, OutOfMemory>
    ensures { IfOk result IsReady }
{
    let mut aig = Aig::new(alloc)?;
    let side = side_of_input(rt, alloc, &mut aig, complemented);
    drop(aig);
    side
}

/// Both sides joined.
fn joined(rt: &impl Abort, alloc: Global, complemented: bool) -> Result<TwoSides, OutOfMemory> {
    let first = conjunction(rt, alloc)?;
    match input_alone(rt, alloc, complemented) {
        Ok(second) => {
            expect_one(rt, &first);
            expect_one(rt, &second);
            join(alloc, first, second)
        }
        Err(error) => {
            drop(first);
            Err(error)
        }
    }
}

/// The models of the clauses, as the digits of both sides' inputs.
fn read_of_sides(rt: &impl Abort, alloc: Global, sides: &TwoSides) -> Result<Vec<u8>, OutOfMemory> {
    expect_few(rt, &sides.cnf);
    let found = models(alloc, &sides.cnf, 32)?;
    let mut text = text_of(alloc, found.as_slice(), sides.one.as_slice())?;
    let other = text_of(alloc, found.as_slice(), sides.other.as_slice())?;
    text.extend_from_slice(other.as_slice())?;
    Ok(text)
}

/// The models of `x ∧ t` and of the input or its complement that agree at the base, as the digits of both sides' inputs.
fn read_of_two(rt: &impl Abort, alloc: Global, complemented: bool) -> Result<Vec<u8>, OutOfMemory> {
    let sides = joined(rt, alloc, complemented)?;
    let text = read_of_sides(rt, alloc, &sides);
    drop(sides);
    text
}

#[test]
fn a_conjunction_on_one_side(rt: HostRuntime) -> Result<(), Fail> {
    let text = read_of_one(&rt, rt.alloc())?;
    assert_eq!(rt; text.as_slice(), b"10/".as_slice());
    Ok(())
}

/// They agree at the base, or never.
#[test]
fn two_sides(rt: HostRuntime) -> Result<(), Fail> {
    let table: [(bool, &[u8]); 2] = [(false, b"11/1/"), (true, b"")];
    for (complemented, expected) in table {
        let text = read_of_two(&rt, rt.alloc(), complemented)?;
        assert_eq!(rt; text.as_slice(), expected);
    }
    Ok(())
}
