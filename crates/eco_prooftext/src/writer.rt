//! Texts of clauses and of proofs.

ghost use Rattle.std.specs.Prelude.{◌≡◌, ◌+◌, ◌-◌, ◌<◌, ◌≤◌, ◌^◌, ◌++◌, All, Some, length, slice_get, codes, decimal, IfOk, OnOk};
ghost use Rattle.std.specs.List.{flat_map};
ghost use Rattle.eco_trace.specs.Resolution.{Learnt, clauses_of};
ghost use Rattle.eco_prooftext.specs.Texts.{lit_text, clause_text, cnf_text, link_text, chain_text, learnt_text, trace_text};

use eco_meaning::OutOfMemory;
use eco_trace::{Clause, Cnf, Link, Lit, NodeId, Trace};
use itoa::Buffer;
use std::alloc::Global;

/// The text of clauses (DIMACS CNF).
pub fn write_cnf(alloc: Global, cnf: &Cnf) -> Result<Vec<u8>, OutOfMemory>
    ensures text { IfOk result (λ text. text.items ≡ cnf_text cnf.now) }
{
    let clauses = cnf.clauses();
    let mut text = Vec::from_slice(alloc, b"p cnf ")?;
    push_number(&mut text, cnf.vars())?;
    text.extend_from_slice(b" ")?;
    push_number(&mut text, clauses.len() as u64)?;
    text.extend_from_slice(b"\n")?;
    push_clauses(&mut text, clauses)?;
    Ok(text)
}

fn push_clauses(text: &mut Vec<u8>, clauses: &[Clause]) -> Result<(), OutOfMemory>
    ensures ok { OnOk result (text.new.items ≡ text.old.items ++ flat_map clause_text clauses.now) }
{
    for clause in clauses {
        push_clause(text, clause)?;
    }
    Ok(())
}

fn push_clause(text: &mut Vec<u8>, clause: &Clause) -> Result<(), OutOfMemory>
    ensures ok { OnOk result (text.new.items ≡ text.old.items ++ clause_text clause.now) }
{
    push_lits(text, clause.lits())?;
    text.extend_from_slice(b"0\n")?;
    Ok(())
}

fn push_lits(text: &mut Vec<u8>, lits: &[Lit]) -> Result<(), OutOfMemory>
    ensures ok { OnOk result (text.new.items ≡ text.old.items ++ flat_map (λ l. lit_text l ++ codes " ") lits.now) }
{
    for lit in lits {
        push_lit(text, *lit)?;
    }
    Ok(())
}

fn push_lit(text: &mut Vec<u8>, lit: Lit) -> Result<(), OutOfMemory>
    ensures ok { OnOk result (text.new.items ≡ text.old.items ++ (lit_text lit ++ codes " ")) }
{
    let sign: &[u8] = if lit.positive { b"" } else { b"-" };
    text.extend_from_slice(sign)?;
    push_number(text, lit.var.0)?;
    text.extend_from_slice(b" ")?;
    Ok(())
}

/// The text of a proof: a line for each learnt clause.
pub fn write_trace(alloc: Global, trace: &Trace) -> Result<Vec<u8>, OutOfMemory>
    ensures text { IfOk result (λ text. text.items ≡ trace_text trace.now) }
{
    let mut text = Vec::new(alloc);
    for node in trace.originals()..trace.len() {
        push_node(&mut text, trace, NodeId(node))?;
    }
    Ok(text)
}

/// Puts the line of a learnt node behind the text.
fn push_node(text: &mut Vec<u8>, trace: &Trace, node: NodeId) -> Result<(), OutOfMemory>
    requires learnt { length trace.now.originals ≤ node.0 }
    requires within { node.0 < length (clauses_of trace.now) }
    ensures ok { OnOk result ((n : Learnt) → slice_get trace.now.learnt (node.0 - length trace.now.originals) ≡ Some n
        → text.new.items ≡ text.old.items ++ learnt_text n) }
{
    trace.is_sound();
    let _len = trace.len();
    match trace.chain(node) {
        None => unreachable!(),
        Some((start, links)) => push_learnt(text, start, links),
    }
}

fn push_learnt(text: &mut Vec<u8>, start: NodeId, links: &[Link]) -> Result<(), OutOfMemory>
    requires start { start.0 + 1 < 2 ^ 64 }
    requires links { All (λ link. link.with.0 + 1 < 2 ^ 64) links.now }
    ensures ok { OnOk result (text.new.items ≡ text.old.items ++ chain_text start links.now) }
{
    push_number(text, start.0 + 1)?;
    text.extend_from_slice(b" ")?;
    push_links(text, links)?;
    text.extend_from_slice(b"0\n")?;
    Ok(())
}

fn push_links(text: &mut Vec<u8>, links: &[Link]) -> Result<(), OutOfMemory>
    requires { All (λ link. link.with.0 + 1 < 2 ^ 64) links.now }
    ensures ok { OnOk result (text.new.items ≡ text.old.items ++ flat_map link_text links.now) }
{
    for link in links {
        push_link(text, *link)?;
    }
    Ok(())
}

fn push_link(text: &mut Vec<u8>, link: Link) -> Result<(), OutOfMemory>
    requires { link.with.0 + 1 < 2 ^ 64 }
    ensures ok { OnOk result (text.new.items ≡ text.old.items ++ link_text link) }
{
    push_number(text, link.pivot.0)?;
    text.extend_from_slice(b" ")?;
    push_number(text, link.with.0 + 1)?;
    text.extend_from_slice(b" ")?;
    Ok(())
}

fn push_number(text: &mut Vec<u8>, number: u64) -> Result<(), OutOfMemory>
    ensures ok { OnOk result (text.new.items ≡ text.old.items ++ decimal number) }
{
    let mut buffer = Buffer::new();
    text.extend_from_slice(buffer.format(number).as_bytes())?;
    Ok(())
}
