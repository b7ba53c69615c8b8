//! Texts of proofs and of clauses, read.

ghost use Rattle.std.specs.Prelude.{◌≡◌, ◌≤◌};
ghost use Rattle.eco_prooftext.specs.Written.{AreReadBack, IsReadBack};

use bumpalo::Bump;
use eco_prooftext::{
    CnfError, TraceError, clauses_read_back, read_cnf, read_trace, reads_back, write_cnf,
    write_trace,
};
use eco_trace::{Clause, Cnf, Link, Lit, NodeId, OutOfMemory, Trace, Var};
use std::alloc::Global;

/// The number of steps of a text and the first one's start and links, or why it is none.
fn outcome(alloc: Global, text: &[u8]) -> Result<(usize, u64, usize), TraceError> {
    let steps = read_trace(alloc, text)?;
    Ok(match steps.first() {
        Some(step) => (steps.len(), step.start, step.links.len()),
        None => (0, 0, 0),
    })
}

/// Whether two outcomes are the same.
fn is_same(
    one: Result<(usize, u64, usize), TraceError>,
    other: Result<(usize, u64, usize), TraceError>,
) -> bool {
    match (one, other) {
        (Ok(one), Ok(other)) => one == other,
        (Err(TraceError::TraceSyntax(one)), Err(TraceError::TraceSyntax(other))) => one == other,
        _ => false,
    }
}

/// Texts, each with what becomes of it.
const STEPS: [(&[u8], Result<(usize, u64, usize), TraceError>); 9] = [
    (b"", Ok((0, 0, 0))),
    (b"1 1 2 0\n", Ok((1, 1, 1))),
    (b"\n\t3 0 \r\n1 1 2 5 4 0", Ok((2, 3, 0))),
    (b"1 1 2\n", Err(TraceError::TraceSyntax(1))),
    (b"1 1 2 1\n", Err(TraceError::TraceSyntax(1))),
    (b"0 1 2 0\n", Err(TraceError::TraceSyntax(1))),
    (b"1 0 2 0\n", Err(TraceError::TraceSyntax(1))),
    (b"1 0\n01 0\n", Err(TraceError::TraceSyntax(2))),
    (b"9223372036854775808 0\n", Err(TraceError::TraceSyntax(1))),
];

#[test]
fn texts(rt: HostRuntime) {
    for (text, expected) in &STEPS {
        assert!(rt;
            is_same(outcome(rt.alloc(), text), *expected),
            "at {text:?}"
        );
    }
}

/// What is written again of the clauses of a text, or why it has none.
fn again(alloc: Global, text: &[u8]) -> Result<Vec<u8>, CnfError> {
    let cnf = read_cnf(alloc, text)?;
    Ok(write_cnf(alloc, &cnf)?)
}

/// Whether the text is read, and what is read is written so.
fn is_written(alloc: Global, text: &[u8], written: &[u8]) -> bool {
    match again(alloc, text) {
        Ok(bytes) => bytes.as_slice() == written,
        Err(_) => false,
    }
}

/// Whether the text is refused at this line.
fn is_refused(alloc: Global, text: &[u8], at: u64) -> bool {
    match again(alloc, text) {
        Ok(_) => false,
        Err(CnfError::CnfSyntax(line)) => line == at,
        Err(CnfError::OutOfMemory) => false,
    }
}

const SMALL: &[u8] = b"p cnf 1 2\n1 0\n-1 0\n";

const WIDE: &[u8] = b"p cnf 9223372036854775807 0\n";

/// Texts, each with how it is written again.
const CLAUSES: [(&[u8], &[u8]); 3] = [
    (SMALL, SMALL),
    (
        b"c a comment\n\np cnf 3 2\n3 -2\n 3 0\nc 9\n0\n",
        b"p cnf 3 2\n-2 3 0\n0\n",
    ),
    (WIDE, WIDE),
];

#[test]
fn clause_texts(rt: HostRuntime) {
    for (text, written) in &CLAUSES {
        assert!(rt; is_written(rt.alloc(), text, written), "{text:?}");
    }
}

/// Both signs, a variable too high, a needless zero, no clause: each with the line that is wrong.
const REFUSED: [(&[u8], u64); 4] = [
    (b"p cnf 2 1\n1 -1 0\n", 2),
    (b"p cnf 1 1\n2 0\n", 2),
    (b"p cnf 01 0\n", 1),
    (b"p cnf 1 9223372036854775807\n", 2),
];

#[test]
fn clause_texts_that_are_refused(rt: HostRuntime) {
    for (text, line) in &REFUSED {
        assert!(rt; is_refused(rt.alloc(), text, *line), "{text:?}");
    }
}

fn add_unit(alloc: Global, cnf: &mut Cnf, positive: bool) -> Result<bool, OutOfMemory> {
    let lits = vec![in alloc;
        Lit {
            var: Var(1),
            positive
        },
    ]?;
    match Clause::new(alloc, lits)? {
        None => Ok(false),
        Some(clause) => cnf.try_add(clause),
    }
}

/// The clauses (1) and (-1).
fn two_units(alloc: Global) -> Result<Cnf, OutOfMemory> {
    let mut cnf = Cnf::new(alloc, 1);
    let _ = add_unit(alloc, &mut cnf, true)?;
    let _ = add_unit(alloc, &mut cnf, false)?;
    Ok(cnf)
}

/// Both laws, for clauses with few variables and a proof that begins with them: no caller needs to show more.
fn are_read_back(cnf: &Cnf, trace: &Trace<'_>)
    requires vars { cnf.now.vars ≤ 9223372036854775807 }
    requires originals { trace.now.originals ≡ cnf.now.clauses }
    ensures clauses { AreReadBack cnf.now }
    ensures proof { IsReadBack trace.now }
{
    let _ = cnf.clauses();
    trace.is_sound();
    clauses_read_back();
    reads_back();
}

/// The text of the proof that resolves the two clauses.
fn text_of_one_step(alloc: Global, arena: &Bump, cnf: &Cnf) -> Result<Vec<u8>, OutOfMemory> {
    let mut trace = Trace::new(alloc, arena, cnf)?;
    if cnf.vars() <= 9_223_372_036_854_775_807 {
        are_read_back(cnf, &trace);
    }
    let links = [Link {
        pivot: Var(1),
        with: NodeId(1),
    }];
    let _ = trace.try_push(NodeId(0), &links)?;
    write_trace(alloc, &trace)
}

fn is_text_of_one_step(alloc: Global, arena: &Bump, text: &[u8]) -> Result<bool, OutOfMemory> {
    let cnf = two_units(alloc)?;
    Ok(text_of_one_step(alloc, arena, &cnf)?.as_slice() == text)
}

#[test]
fn a_proof_of_one_step(rt: HostRuntime) {
    let arena = Bump::new(rt.alloc());
    assert_eq!(rt;
        is_text_of_one_step(rt.alloc(), &arena, b"1 1 2 0\n"),
        Ok(true)
    );
}
