//! Clauses, models, chains that are legal and chains that aren't, and slices that are held while a proof grows.

ghost use Rattle.std.specs.Prelude.{◌<◌, length};
ghost use Rattle.eco_trace.specs.Resolution.{clauses_of};

use crate::asking::{Said, asked};
use crate::formulas::{add, finished, lit};
use bumpalo::Bump;
use eco_trace::{
    Clause, Cnf, KeptTrace, Link, Lit, Model, NodeId, OutOfMemory, Refuter, Trace, Var, Verdict,
    core_of, satisfies, variables_of,
};
use std::alloc::Global;

fn link(pivot: u64, with: u64) -> Link {
    Link {
        pivot: Var(pivot),
        with: NodeId(with),
    }
}

/// Learns the clause of the node again.
fn repeat(trace: &mut Trace, node: NodeId) -> Result<NodeId, OutOfMemory>
    requires { node.0 < length (clauses_of trace.old) }
{
    let clause = trace.clause(node);
    trace.push(node, &[], clause)
}

/// The clauses (1), (-1, 2), (-2).
fn small(alloc: Global) -> Result<Cnf, OutOfMemory> {
    let mut cnf = Cnf::new(alloc, 2);
    let added = add_three(alloc, &mut cnf);
    finished(cnf, added)
}

fn add_three(alloc: Global, cnf: &mut Cnf) -> Result<(), OutOfMemory> {
    let _ = add(alloc, cnf, &[lit(1, true)])?;
    let _ = add(alloc, cnf, &[lit(2, true), lit(1, false), lit(2, true)])?;
    let _ = add(alloc, cnf, &[lit(2, false)])?;
    Ok(())
}

/// A search that gives up.
#[derive(Drop)]
struct Weary;

impl Refuter for Weary {
    fn refute<'t>(
        &mut self,
        _alloc: Global,
        _cnf: &Cnf,
        _limit: u64,
        _arena: &'t Bump,
    ) -> Result<Verdict<'t>, OutOfMemory> {
        Err(OutOfMemory)
    }
}

#[test]
fn a_search_that_gives_up(rt: HostRuntime) {
    assert!(rt; small_is_asked(rt.alloc(), &mut Weary).is_err());
}

fn small_is_asked<R: Refuter>(alloc: Global, refuter: &mut R) -> Result<Said, OutOfMemory> {
    let cnf = small(alloc)?;
    let said = asked(alloc, refuter, &cnf, 9);
    drop(cnf);
    said
}

/// Whether the clause of the literals, and a copy of it, has just these; None where there is none.
fn has_lits(alloc: Global, lits: &[Lit], expected: &[Lit]) -> Result<Option<bool>, OutOfMemory> {
    match Clause::new(alloc, Vec::from_slice(alloc, lits)?)? {
        None => Ok(None),
        Some(clause) => {
            let has = clause.lits() == expected;
            let copied = copy_has_lits(&clause, expected);
            drop(clause);
            Ok(Some(has & copied?))
        }
    }
}

fn copy_has_lits(clause: &Clause, expected: &[Lit]) -> Result<bool, OutOfMemory> {
    let copy = clause.copy()?;
    let has = copy.lits() == expected;
    drop(copy);
    Ok(has)
}

#[test]
fn clauses(rt: HostRuntime) {
    let lits = [lit(7, false), lit(2, true), lit(7, false), lit(3, true)];
    let sorted = [lit(2, true), lit(3, true), lit(7, false)];
    let both = [lit(2, true), lit(1, true), lit(2, true).complement()];
    assert_eq!(rt; has_lits(rt.alloc(), &lits, &sorted), Ok(Some(true)));
    assert_eq!(rt; has_lits(rt.alloc(), &both, &[]), Ok(None));
}

/// Whether two true values satisfy the clauses; None where these have more variables.
fn holds_all(alloc: Global, cnf: &Cnf) -> Result<Option<bool>, OutOfMemory> {
    let model = Model::new(vec![in alloc; true, true]?);
    let holds = if cnf.vars() <= model.len() {
        Some(satisfies(&model, cnf))
    } else {
        None
    };
    drop(model);
    Ok(holds)
}

/// Whether the three clauses take none of a variable that they don't have, are copied, and don't hold where both
/// variables are true.
fn small_holds_three(alloc: Global) -> Result<bool, OutOfMemory> {
    let mut cnf = small(alloc)?;
    let holds = holds_three(alloc, &mut cnf);
    drop(cnf);
    holds
}

fn holds_three(alloc: Global, cnf: &mut Cnf) -> Result<bool, OutOfMemory> {
    let takes_beyond = takes(alloc, cnf, 3)?;
    let takes_zero = takes(alloc, cnf, 0)?;
    let is_copied = clauses_of_copy(cnf)? == 3;
    let holds = holds_all(alloc, cnf)?;
    Ok(!takes_beyond & !takes_zero & is_copied & (holds == Some(false)))
}

/// Whether the clauses take one of this variable.
fn takes(alloc: Global, cnf: &mut Cnf, number: u64) -> Result<bool, OutOfMemory> {
    add(alloc, cnf, &[lit(number, true)])
}

fn clauses_of_copy(cnf: &Cnf) -> Result<usize, OutOfMemory> {
    let copy = cnf.copy()?;
    let number = copy.clauses().len();
    drop(copy);
    Ok(number)
}

/// Whether (-1, 2) holds where both variables are true.
fn implication_holds(alloc: Global) -> Result<bool, OutOfMemory> {
    let mut cnf = Cnf::new(alloc, 2);
    let holds = holds_when_added(alloc, &mut cnf);
    drop(cnf);
    holds
}

fn holds_when_added(alloc: Global, cnf: &mut Cnf) -> Result<bool, OutOfMemory> {
    let is_added = add(alloc, cnf, &[lit(1, false), lit(2, true)])?;
    let holds = holds_all(alloc, cnf)?;
    Ok(is_added & (holds == Some(true)))
}

#[test]
fn models(rt: HostRuntime) {
    assert_eq!(rt; small_holds_three(rt.alloc()), Ok(true));
    assert_eq!(rt; implication_holds(rt.alloc()), Ok(true));
}

/// Whether a proof from the three clauses learns no chain that isn't legal: a pivot that both hold with one sign, one
/// that isn't there, a clause that doesn't stand yet, as a link and as the start.
fn learns_none(trace: &mut Trace<'_>) -> Result<bool, OutOfMemory> {
    for (start, links) in &ILLEGAL {
        if trace.try_push(NodeId(*start), links)?.is_some() {
            return Ok(false);
        }
    }
    Ok(!trace.ends_empty())
}

/// Starts and links of chains that aren't legal.
const ILLEGAL: [(u64, &[Link]); 4] = [
    (1, &[LINK_AT_2]),
    (0, &[LINK_AT_2]),
    (
        0,
        &[Link {
            pivot: Var(1),
            with: NodeId(3),
        }],
    ),
    (3, &[]),
];

/// Over the variable 2 to node 1.
const LINK_AT_2: Link = Link {
    pivot: Var(2),
    with: NodeId(1),
};

/// Whether the proof learns the empty clause as the node of this number.
fn learns_empty(trace: &mut Trace<'_>, number: u64) -> Result<bool, OutOfMemory> {
    let made = trace.try_push(NodeId(0), &[link(1, 1), link(2, 2)])?;
    Ok(made == Some(NodeId(number)) && trace.ends_empty())
}

/// The proof that begins with the three clauses.
fn begun(alloc: Global, arena: &Bump) -> Result<Trace<'_>, OutOfMemory> {
    let cnf = small(alloc)?;
    let trace = Trace::new(alloc, arena, &cnf);
    drop(cnf);
    trace
}

fn learns_legal(trace: &mut Trace<'_>) -> Result<bool, OutOfMemory> {
    Ok(learns_none(trace)? && learns_empty(trace, 3)?)
}

fn chains_are_legal(alloc: Global, arena: &Bump) -> Result<bool, OutOfMemory> {
    let mut trace = begun(alloc, arena)?;
    let learns = learns_legal(&mut trace);
    drop(trace);
    learns
}

#[test]
fn chains(rt: HostRuntime) {
    let arena = Bump::new(rt.alloc());
    assert_eq!(rt; chains_are_legal(rt.alloc(), &arena), Ok(true));
}

/// Learns the clause of node 1 a thousand times.
fn grow(trace: &mut Trace) -> Result<(), OutOfMemory> {
    for _ in 0..1000 {
        if 1 < trace.len() {
            let _ = repeat(trace, NodeId(1))?;
        }
    }
    Ok(())
}

/// Whether the clause of node 1 and the chain of node 3, taken before, are the same once the proof has grown.
fn holds_while_it_grows(trace: &mut Trace<'_>) -> Result<bool, OutOfMemory> {
    if trace.len() <= 3 {
        return Ok(false);
    }
    let first = trace.clause(NodeId(1));
    let chain = trace.chain(NodeId(3));
    grow(trace)?;
    Ok(first == [lit(1, false), lit(2, true)].as_slice() && is_long_chain(chain))
}

/// Whether it begins with node 0 and goes over 1 to node 1 and over 2 to node 2.
fn is_long_chain(chain: Option<(NodeId, &[Link])>) -> bool {
    match chain {
        None => false,
        Some((start, links)) => {
            start == NodeId(0) && links == [link(1, 1), link(2, 2)].as_slice()
        }
    }
}

/// Whether 1,004 clauses are kept, the last one is the second again, and the third has no chain.
fn has_grown(kept: &KeptTrace) -> bool {
    kept.len() == 1004
        && kept.clause(NodeId(1003)) == [lit(1, false), lit(2, true)].as_slice()
        && kept.chain(NodeId(2)).is_none()
}

fn is_kept(trace: &Trace<'_>) -> Result<bool, OutOfMemory> {
    let kept = trace.keep()?;
    let grown = has_grown(&kept);
    drop(kept);
    Ok(grown)
}

fn grows_and_is_kept(trace: &mut Trace<'_>) -> Result<bool, OutOfMemory> {
    let learns = learns_empty(trace, 3)?;
    let holds = holds_while_it_grows(trace)?;
    let is_kept = is_kept(trace)?;
    Ok(learns & holds & is_kept & (trace.len() == 1004))
}

fn is_held_and_kept(alloc: Global, arena: &Bump) -> Result<bool, OutOfMemory> {
    let mut trace = begun(alloc, arena)?;
    let holds = grows_and_is_kept(&mut trace);
    drop(trace);
    holds
}

#[test]
fn held_while_it_grows(rt: HostRuntime) {
    let arena = Bump::new(rt.alloc());
    assert_eq!(rt; is_held_and_kept(rt.alloc(), &arena), Ok(true));
}

/// Whether the refutation reaches just those of the clauses that are marked.
fn has_core(alloc: Global, trace: &Trace<'_>, marks: &[bool]) -> Result<bool, OutOfMemory> {
    Ok(trace.ends_empty() && core_of(alloc, trace)?.as_slice() == marks)
}

/// Whether the variables 1 and 2 occur in the clauses with this mark.
fn occur(
    alloc: Global,
    trace: &Trace<'_>,
    marks: &[bool],
    mark: bool,
) -> Result<Option<(bool, bool)>, OutOfMemory> {
    if marks.len() as u64 != trace.originals() {
        return Ok(None);
    }
    let found = variables_of(alloc, trace, marks, mark)?;
    let both = (found.contains(Var(1)), found.contains(Var(2)));
    drop(found);
    Ok(Some(both))
}

/// Whether the first variable alone occurs in the first of four clauses, and both in the others.
fn occur_in_parts(alloc: Global, trace: &Trace<'_>) -> Result<bool, OutOfMemory> {
    let marks = [true, false, false, false];
    let marked = occur(alloc, trace, &marks, true)?;
    let others = occur(alloc, trace, &marks, false)?;
    Ok((marked == Some((true, false))) & (others == Some((true, true))))
}

/// The three clauses and (1, 2).
fn four(alloc: Global) -> Result<Cnf, OutOfMemory> {
    let mut cnf = small(alloc)?;
    let added = add_fourth(alloc, &mut cnf);
    finished(cnf, added)
}

fn add_fourth(alloc: Global, cnf: &mut Cnf) -> Result<(), OutOfMemory> {
    let _ = add(alloc, cnf, &[lit(1, true), lit(2, true)])?;
    Ok(())
}

/// Whether (1, 2) isn't reached, which is used for a learnt clause that leads nowhere.
fn parts_are_found(alloc: Global, trace: &mut Trace<'_>) -> Result<bool, OutOfMemory> {
    let _ = trace.try_push(NodeId(3), &[link(2, 2)])?;
    let learns = learns_empty(trace, 5)?;
    let has_core = has_core(alloc, trace, &[true, true, true, false])?;
    let occur = occur_in_parts(alloc, trace)?;
    Ok(learns & has_core & occur)
}

fn parts_of_four(alloc: Global, arena: &Bump) -> Result<bool, OutOfMemory> {
    let cnf = four(alloc)?;
    let trace = Trace::new(alloc, arena, &cnf);
    drop(cnf);
    let mut trace = trace?;
    let found = parts_are_found(alloc, &mut trace);
    drop(trace);
    found
}

#[test]
fn core_and_parts(rt: HostRuntime) {
    let arena = Bump::new(rt.alloc());
    assert_eq!(rt; parts_of_four(rt.alloc(), &arena), Ok(true));
}
