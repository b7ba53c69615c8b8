//! Interpolants of small refutations and of a long one.

ghost use Rattle.std.specs.Prelude.{◌↔◌, All, IsTrue};
ghost use Rattle.eco_trace.specs.Clauses.{IsVarWithin};

use bumpalo::Bump;
use eco_aig::{Aig, Edge};
use eco_itp::{covers, interpolate};
use eco_trace::{Clause, Cnf, Link, Lit, NodeId, Trace, Var};
use std::alloc::Global;
use std::process::Abort;
use std::test::Fail;

/// The number of steps of the long refutation.
const STEPS: u64 = 60;

fn yes(var: u64) -> Lit {
    Lit {
        var: Var(var),
        positive: true,
    }
}

fn no(var: u64) -> Lit {
    Lit {
        var: Var(var),
        positive: false,
    }
}

fn link(pivot: u64, with: u64) -> Link {
    Link {
        pivot: Var(pivot),
        with: NodeId(with),
    }
}

fn are_within(lits: &[Lit], vars: u64) -> bool
    ensures { IsTrue result ↔ All (IsVarWithin vars) lits.now }
{
    lits.iter().all(|lit| is_within(*lit, vars))
}

fn is_within(lit: Lit, vars: u64) -> bool
    ensures { IsTrue result ↔ IsVarWithin vars lit }
{
    1 <= lit.var.0 && lit.var.0 <= vars
}

fn add(rt: &impl Abort, alloc: Global, cnf: &mut Cnf, lits: &[Lit]) -> Result<(), Fail> {
    let clause = Clause::new(alloc, Vec::from_slice(alloc, lits)?)?.ok_or("both signs")?;
    assert!(rt; are_within(clause.lits(), cnf.vars()));
    cnf.add(clause)?;
    Ok(())
}

fn learn(trace: &mut Trace<'_>, start: u64, links: &[Link]) -> Result<u64, Fail> {
    let node = trace
        .try_push(NodeId(start), links)?
        .ok_or("no legal chain")?;
    Ok(node.0)
}

/// The interpolant, where one variable has an edge.
fn interpolant(
    rt: &impl Abort,
    alloc: Global,
    trace: &Trace<'_>,
    side: &[bool],
    shared: (Var, Edge),
    aig: &mut Aig,
) -> Result<Edge, Fail> {
    let shared = [shared];
    assert!(rt; trace.ends_empty());
    assert_eq!(rt; side.len() as u64, trace.originals());
    assert!(rt; shared[0].1.node() < aig.nodes());
    assert!(rt; covers(alloc, trace, side, &shared)?);
    Ok(interpolate(alloc, trace, side, &shared, aig)?)
}

/// A proof from a, not a or s, and not s.
fn three_clauses<'t>(rt: &impl Abort, alloc: Global, arena: &'t Bump) -> Result<Trace<'t>, Fail> {
    let mut cnf = Cnf::new(alloc, 2);
    add(rt, alloc, &mut cnf, &[yes(1)])?;
    add(rt, alloc, &mut cnf, &[no(1), yes(2)])?;
    add(rt, alloc, &mut cnf, &[no(2)])?;
    let mut trace = Trace::new(alloc, arena, &cnf)?;
    learn(&mut trace, 0, &[link(1, 1), link(2, 2)])?;
    Ok(trace)
}

/// Whether each row's part of the clauses has the row's interpolant, where the second variable has this edge.
fn have_interpolants(
    rt: &impl Abort,
    alloc: Global,
    trace: &Trace<'_>,
    aig: &mut Aig,
    edge: Edge,
) -> Result<bool, Fail> {
    let rows = [
        ([true, true, false], edge),
        ([false, false, true], edge.not()),
        ([true, true, true], Edge::ZERO),
        ([false, false, false], Edge::ONE),
    ];
    for (side, expected) in rows {
        if interpolant(rt, alloc, trace, &side, (Var(2), edge), aig)? != expected {
            return Ok(false);
        }
    }
    Ok(true)
}

/// The same, where that edge is a new input.
fn have_interpolants_over_input(
    rt: &impl Abort,
    alloc: Global,
    trace: &Trace<'_>,
    aig: &mut Aig,
) -> Result<bool, Fail> {
    let edge = aig.input()?;
    have_interpolants(rt, alloc, trace, aig, edge)
}

fn three_clauses_have_interpolants(
    rt: &impl Abort,
    alloc: Global,
    arena: &Bump,
) -> Result<bool, Fail> {
    let trace = three_clauses(rt, alloc, arena)?;
    let mut aig = Aig::new(alloc)?;
    let have = have_interpolants_over_input(rt, alloc, &trace, &mut aig);
    drop(aig);
    drop(trace);
    have
}

#[test]
fn parts_of_three_clauses(rt: HostRuntime) -> Result<(), Fail> {
    let arena = Bump::new(rt.alloc());
    let have = three_clauses_have_interpolants(&rt, rt.alloc(), &arena);
    drop(arena);
    assert!(rt; have?);
    Ok(())
}

/// The clauses l(0), then for each k from 1 on: l(k - 1) implies m(k), and both imply l(k); then not l(60). The
/// variable of l(k) is k + 1, that of m(k) is k + 61.
fn steps(rt: &impl Abort, alloc: Global) -> Result<Cnf, Fail> {
    let mut cnf = Cnf::new(alloc, 2 * STEPS + 1);
    add(rt, alloc, &mut cnf, &[yes(1)])?;
    for k in 0..STEPS {
        let (last, middle, next) = (k + 1, k + STEPS + 2, k + 2);
        add(rt, alloc, &mut cnf, &[no(last), yes(middle)])?;
        add(rt, alloc, &mut cnf, &[no(last), no(middle), yes(next)])?;
    }
    add(rt, alloc, &mut cnf, &[no(STEPS + 1)])?;
    Ok(cnf)
}

/// Learns m(k) and l(k) for each k, and at last the empty clause: l(k - 1) is used twice each time.
fn refute_steps(trace: &mut Trace<'_>) -> Result<(), Fail> {
    let mut reached = 0;
    for k in 0..STEPS {
        let (last, middle) = (k + 1, k + STEPS + 2);
        let node = learn(trace, 2 * k + 1, &[link(last, reached)])?;
        reached = learn(trace, 2 * k + 2, &[link(last, reached), link(middle, node)])?;
    }
    learn(trace, 2 * STEPS + 1, &[link(STEPS + 1, reached)])?;
    Ok(())
}

/// The interpolant of all clauses but the last and the last, which share l(60), is the edge of that; how many nodes the
/// graph then has, where it is.
fn nodes_of_steps(
    rt: &impl Abort,
    alloc: Global,
    trace: &Trace<'_>,
    aig: &mut Aig,
) -> Result<u64, Fail> {
    let mut side = vec![in alloc; true; 121]?;
    side.push(false)?;
    let edge = aig.input()?;
    let shared = (Var(STEPS + 1), edge);
    let between = interpolant(rt, alloc, trace, side.as_slice(), shared, aig)?;
    if between == edge {
        Ok(aig.nodes())
    } else {
        Err("another edge".into())
    }
}

fn nodes_in_new_graph(rt: &impl Abort, alloc: Global, trace: &Trace<'_>) -> Result<u64, Fail> {
    let mut aig = Aig::new(alloc)?;
    let nodes = nodes_of_steps(rt, alloc, trace, &mut aig);
    drop(aig);
    nodes
}

/// The proof of the steps.
fn refuted_steps<'t>(rt: &impl Abort, alloc: Global, arena: &'t Bump) -> Result<Trace<'t>, Fail> {
    let cnf = steps(rt, alloc)?;
    let mut trace = Trace::new(alloc, arena, &cnf)?;
    refute_steps(&mut trace)?;
    Ok(trace)
}

fn nodes_of_shared_steps(rt: &impl Abort, alloc: Global, arena: &Bump) -> Result<u64, Fail> {
    let trace = refuted_steps(rt, alloc, arena)?;
    let nodes = nodes_in_new_graph(rt, alloc, &trace);
    drop(trace);
    nodes
}

#[test]
fn shared_steps(rt: HostRuntime) -> Result<(), Fail> {
    let arena = Bump::new(rt.alloc());
    let nodes = nodes_of_shared_steps(&rt, rt.alloc(), &arena);
    drop(arena);
    assert!(rt; nodes? <= 2 + 482);
    Ok(())
}
