//! Proofs in an arena.

ghost use Rattle.std.specs.Prelude.{◌≡◌, IfOk, map};
ghost use Rattle.eco_trace.specs.Rows.{learnt_of};
ghost use Rattle.eco_trace.specs.KeptRows.{kept_learnt_of};

use crate::clause::{Clause, Lit};
use crate::cnf::Cnf;
use crate::kept::{KeptRow, KeptTrace};
use crate::node::{Link, NodeId};
use crate::resolve::resolve;
use bumpalo::Bump;
use eco_meaning::OutOfMemory;
use std::alloc::Global;
use std::marker;

/// The largest number of nodes, which no memory has room for.
const MOST: u64 = 9_223_372_036_854_775_807;

/// A learnt clause with its chain: slices that lie in the arena.
#[derive(Clone, Copy)]
struct Row<'t> {
    clause: &'t [Lit],
    start: NodeId,
    links: &'t [Link],
}

/// A proof by resolution: the clauses that it begins with, and the learnt ones, each with the chain that gives it. Its
/// nodes are numbered from 0, the clauses that it begins with first. Clauses and chains are slices in an arena
/// that stands outside, so they can be held while the proof grows.
#[derive(Drop)]
pub struct Trace<'t> {
    arena: &'t Bump,
    originals: Vec<&'t [Lit]>,
    rows: Vec<Row<'t>>,
}

impl<'t> marker::Model for Trace<'t> {
    ghost use Rattle.eco_trace.specs.Resolution.{Proof};
    ghost use Rattle.eco_trace.specs.Stored.{IsStored};

    ghost Value = { Proof };

    ghost use Rattle.eco_trace.specs.Rows.{proof_of};

    ghost view = { proof_of };

    ghost invariant = { λ t. IsStored (proof_of t) };
}

impl<'t> Trace<'t> {
    ghost use Rattle.std.specs.Prelude.{◌≡◌, ◌↔◌, ◌+◌, ◌-◌, ◌<◌, ◌≤◌, ℕ, [], Some, All, IsTrue, IfOk, IfSome, IfNone, List, None, OnOk, OnErr, MatchOption, length, slice_get};
    ghost use Rattle.eco_trace.specs.declared.clause.Lit.{Lit as Literal};
    ghost use Rattle.eco_trace.specs.Clauses.{IsClause, Valuation, Satisfies, IsUnsatisfiable};
    ghost use Rattle.eco_trace.specs.Resolution.{Learns, Gives, Derives, IsLinked, IsLegalChain, IsLegal, EndsEmpty, clauses_of, chain_at};

    /// The proof that begins with these clauses and has learnt nothing.
    pub fn new(alloc: Global, arena: &'t Bump, cnf: &Cnf) -> Result<Trace<'t>, OutOfMemory>
        ensures begun { IfOk result (λ trace. trace ≡ record { originals = cnf.now.clauses; learnt = [] }) }
    {
        let originals = placed(alloc, arena, cnf.clauses())?;
        Ok(Trace {
            arena,
            originals,
            rows: Vec::new(alloc),
        })
    }

    /// Learns this clause, which the chain gives, and answers the number of its node.
    pub fn push(
        &mut self,
        start: NodeId,
        links: &[Link],
        clause: &[Lit],
    ) -> Result<NodeId, OutOfMemory>
        requires given { Gives (clauses_of self.old) start links.now clause.now }
        ensures learnt { OnOk result (Learns self.old self.new start links.now) }
        ensures node { IfOk result (λ node. node.0 ≡ length (clauses_of self.old)) }
        ensures err { OnErr result (self.new ≡ self.old) }
    {
        let node = NodeId(self.len());
        if node.0 >= MOST {
            return Err(OutOfMemory);
        }
        let clause: &'t [Lit] = self.arena.try_alloc_slice_copy(clause)?;
        let links: &'t [Link] = self.arena.try_alloc_slice_copy(links)?;
        self.rows.push(Row {
            clause,
            start,
            links,
        })?;
        Ok(node)
    }

    /// Learns what the chain gives, if it is legal, and answers the number of its node; None exactly where it isn't.
    pub fn try_push(&mut self, start: NodeId, links: &[Link]) -> Result<Option<NodeId>, OutOfMemory>
        ensures illegal { IfOk result (λ made. MatchOption made (IsLegalChain (clauses_of self.old) start links.now → ⊥)
            (λ node. Learns self.old self.new start links.now)) }
        ensures node { IfOk result (λ made. MatchOption made (self.new ≡ self.old)
            (λ node. node.0 ≡ length (clauses_of self.old))) }
        ensures err { OnErr result (self.new ≡ self.old) }
    {
        match self.derived(start, links)? {
            None => Ok(None),
            Some(clause) => {
                let node = self.push(start, links, clause.as_slice())?;
                Ok(Some(node))
            }
        }
    }

    /// What the chain gives; None exactly where it isn't legal.
    fn derived(&self, start: NodeId, links: &[Link]) -> Result<Option<Vec<Lit>>, OutOfMemory>
        ensures made { IfOk result (λ made. IfSome made (λ clause. Gives (clauses_of self.now) start links.now clause.items)) }
        ensures none { IfOk result (λ made. IfNone made (IsLegalChain (clauses_of self.now) start links.now → ⊥)) }
    {
        let alloc = *self.rows.allocator();
        match self.get(start) {
            None => Ok(None),
            Some(begin) => self.derived_from(alloc, begin, links),
        }
    }

    /// What the links give from this clause on; None exactly where one of them isn't legal.
    fn derived_from(
        &self,
        alloc: Global,
        begin: &[Lit],
        links: &[Link],
    ) -> Result<Option<Vec<Lit>>, OutOfMemory>
        requires { IsClause begin.now }
        ensures made { IfOk result (λ made. IfSome made (λ clause.
            Derives (clauses_of self.now) begin.now links.now clause.items)) }
        ensures none { IfOk result (λ made. IfNone made ((clause : List Literal)
            → Derives (clauses_of self.now) begin.now links.now clause → ⊥)) }
    {
        let mut clause = Vec::from_slice(alloc, begin)?;
        for link in links {
            match self.resolved(alloc, clause.as_slice(), *link)? {
                None => return Ok(None),
                Some(next) => clause = next,
            }
        }
        Ok(Some(clause))
    }

    /// The clause resolved by this link; None exactly where the link isn't legal.
    fn resolved(
        &self,
        alloc: Global,
        clause: &[Lit],
        link: Link,
    ) -> Result<Option<Vec<Lit>>, OutOfMemory>
        requires { IsClause clause.now }
        ensures made { IfOk result (λ made. IfSome made (λ next. IsLinked (clauses_of self.now) clause.now link next.items)) }
        ensures none { IfOk result (λ made. IfNone made ((next : List Literal)
            → IsLinked (clauses_of self.now) clause.now link next → ⊥)) }
    {
        match self.get(link.with) {
            None => Ok(None),
            Some(other) => resolve(alloc, clause, other, link.pivot),
        }
    }

    /// The clause of the node, if there is one.
    fn get(&self, node: NodeId) -> Option<&'t [Lit]>
        ensures found { MatchOption result (slice_get (clauses_of self.now) node.0 ≡ None)
            (λ clause. slice_get (clauses_of self.now) node.0 ≡ Some clause.now) }
        ensures formed { IfSome result (λ clause. IsClause clause.now) }
    {
        if node.0 < self.len() {
            Some(self.clause(node))
        } else {
            None
        }
    }

    /// The clause of the node: its literals by rising variables.
    pub fn clause(&self, node: NodeId) -> &'t [Lit]
        requires { node.0 < length (clauses_of self.now) }
        ensures clause { slice_get (clauses_of self.now) node.0 ≡ Some result.now }
        ensures formed { IsClause result.now }
    {
        self.is_sound();
        self.at(node)
    }

    /// The clause of the node.
    fn at(&self, node: NodeId) -> &'t [Lit]
        requires { node.0 < length (clauses_of self.now) }
        ensures { slice_get (clauses_of self.now) node.0 ≡ Some result.now }
    {
        let first = self.originals.len() as u64;
        if node.0 < first {
            self.originals[node.0 as usize]
        } else {
            let row = &self.rows[(node.0 - first) as usize];
            row.clause
        }
    }

    /// The chain of a learnt node; None exactly where the node is one of those that the proof begins with.
    pub fn chain(&self, node: NodeId) -> Option<(NodeId, &'t [Link])>
        requires { node.0 < length (clauses_of self.now) }
        ensures chain { MatchOption result (node.0 < length self.now.originals) (λ chain.
            (length self.now.originals ≤ node.0)
            × (chain_at self.now (node.0 - length self.now.originals) ≡ Some (chain.0, chain.1.now))) }
    {
        let first = self.originals.len() as u64;
        if node.0 < first {
            None
        } else {
            let row = &self.rows[(node.0 - first) as usize];
            Some((row.start, row.links))
        }
    }

    /// The number of nodes.
    pub fn len(&self) -> u64
        ensures { result ≡ length (clauses_of self.now) }
    {
        self.originals.len() as u64 + self.rows.len() as u64
    }

    /// The number of clauses that the proof begins with.
    pub fn originals(&self) -> u64
        ensures { result ≡ length self.now.originals }
    {
        self.originals.len() as u64
    }

    /// Whether the last clause is the empty one. If so, the clauses that the proof begins with have no model.
    pub fn ends_empty(&self) -> bool
        ensures ends { IsTrue result ↔ EndsEmpty self.now }
        ensures refutes { IsTrue result → IsUnsatisfiable self.now.originals }
    {
        self.is_sound();
        let len = self.len();
        if len == 0 {
            false
        } else {
            self.clause(NodeId(len - 1)).is_empty()
        }
    }

    /// Hands out what every proof keeps: it is legal, it has at most 2^63 - 1 clauses, they are clauses, and each holds
    /// in every model of those that it begins with.
    pub fn is_sound(&self)
        ensures legal { IsLegal self.now }
        ensures few { length (clauses_of self.now) ≤ 9223372036854775807 }
        ensures formed { All IsClause (clauses_of self.now) }
        ensures sound { (v : Valuation) → Satisfies v self.now.originals → Satisfies v (clauses_of self.now) }
    {
        let _ = &self.rows;
    }

    /// The same proof, in memory of its own.
    pub fn keep(&self) -> Result<KeptTrace, OutOfMemory>
        ensures same { IfOk result (λ kept. kept ≡ self.now) }
    {
        let alloc = *self.rows.allocator();
        let originals = kept_clauses(alloc, self.originals.as_slice())?;
        let rows = kept_rows(alloc, self.rows.as_slice())?;
        Ok(KeptTrace { originals, rows })
    }
}

/// The clauses as slices in the arena.
fn placed<'t>(
    alloc: Global,
    arena: &'t Bump,
    clauses: &[Clause],
) -> Result<Vec<&'t [Lit]>, OutOfMemory>
    ensures { IfOk result (λ placed. map (λ c. c.now) placed.items ≡ clauses.now) }
{
    let mut placed = Vec::with_capacity(alloc, clauses.len())?;
    for clause in clauses {
        let lits: &'t [Lit] = arena.try_alloc_slice_copy(clause.lits())?;
        placed.push(lits)?;
    }
    Ok(placed)
}

/// The clauses in memory of their own.
fn kept_clauses(alloc: Global, clauses: &[&[Lit]]) -> Result<Vec<Vec<Lit>>, OutOfMemory>
    ensures { IfOk result (λ kept. map (λ c. c.items) kept.items ≡ map (λ c. c.now) clauses.now) }
{
    let mut kept = Vec::with_capacity(alloc, clauses.len())?;
    for clause in clauses {
        kept.push(Vec::from_slice(alloc, clause)?)?;
    }
    Ok(kept)
}

/// The learnt clauses and their chains in memory of their own.
fn kept_rows(alloc: Global, rows: &[Row]) -> Result<Vec<KeptRow>, OutOfMemory>
    ensures { IfOk result (λ kept. map kept_learnt_of kept.items ≡ map learnt_of rows.now) }
{
    let mut kept = Vec::with_capacity(alloc, rows.len())?;
    for row in rows {
        let clause = Vec::from_slice(alloc, row.clause)?;
        let links = Vec::from_slice(alloc, row.links)?;
        let start = row.start;
        kept.push(KeptRow {
            clause,
            start,
            links,
        })?;
    }
    Ok(kept)
}
