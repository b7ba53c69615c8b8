//! Proofs that own their clauses.

use crate::clause::Lit;
use crate::node::{Link, NodeId};
use std::marker;

/// A learnt clause with its chain.
#[derive(Drop)]
pub(crate) struct KeptRow {
    pub(crate) clause: Vec<Lit>,
    pub(crate) start: NodeId,
    pub(crate) links: Vec<Link>,
}

/// A proof as `Trace` has it, which needs no arena.
#[derive(Drop)]
pub struct KeptTrace {
    pub(crate) originals: Vec<Vec<Lit>>,
    pub(crate) rows: Vec<KeptRow>,
}

impl marker::Model for KeptTrace {
    ghost use Rattle.eco_trace.specs.Resolution.{Proof};
    ghost use Rattle.eco_trace.specs.Stored.{IsStored};

    ghost Value = { Proof };

    ghost use Rattle.eco_trace.specs.KeptRows.{kept_proof_of};

    ghost view = { kept_proof_of };

    ghost invariant = { λ t. IsStored (kept_proof_of t) };
}

impl KeptTrace {
    ghost use Rattle.std.specs.Prelude.{◌≡◌, ◌+◌, ◌-◌, ◌<◌, ◌≤◌, Some, All, MatchOption, length, slice_get};
    ghost use Rattle.eco_trace.specs.Clauses.{IsClause, Valuation, Satisfies};
    ghost use Rattle.eco_trace.specs.Resolution.{IsLegal, clauses_of, chain_at};

    /// The clause of the node: its literals by rising variables.
    pub fn clause(&self, node: NodeId) -> &[Lit]
        requires { node.0 < length (clauses_of self.now) }
        ensures clause { slice_get (clauses_of self.now) node.0 ≡ Some result.now }
        ensures formed { IsClause result.now }
    {
        self.is_sound();
        self.at(node)
    }

    /// The clause of the node.
    fn at(&self, node: NodeId) -> &[Lit]
        requires { node.0 < length (clauses_of self.now) }
        ensures { slice_get (clauses_of self.now) node.0 ≡ Some result.now }
    {
        let first = self.originals.len() as u64;
        if node.0 < first {
            let clause = &self.originals[node.0 as usize];
            clause.as_slice()
        } else {
            let row = &self.rows[(node.0 - first) as usize];
            row.clause.as_slice()
        }
    }

    /// The chain of a learnt node; None exactly where the node is one of those that the proof begins with.
    pub fn chain(&self, node: NodeId) -> Option<(NodeId, &[Link])>
        requires { node.0 < length (clauses_of self.now) }
        ensures chain { MatchOption result (node.0 < length self.now.originals) (λ chain.
            (length self.now.originals ≤ node.0)
            × (chain_at self.now (node.0 - length self.now.originals) ≡ Some (chain.0, chain.1.now))) }
    {
        let first = self.originals.len() as u64;
        if node.0 < first {
            None
        } else {
            let row = &self.rows[(node.0 - first) as usize];
            Some((row.start, row.links.as_slice()))
        }
    }

    /// The number of nodes.
    pub fn len(&self) -> u64
        ensures { result ≡ length (clauses_of self.now) }
    {
        self.originals.len() as u64 + self.rows.len() as u64
    }

    /// The number of clauses that the proof begins with.
    pub fn originals(&self) -> u64
        ensures { result ≡ length self.now.originals }
    {
        self.originals.len() as u64
    }

    /// Hands out what every proof keeps: it is legal, it has at most 2^63 - 1 clauses, they are clauses, and each holds
    /// in every model of those that it begins with.
    pub fn is_sound(&self)
        ensures legal { IsLegal self.now }
        ensures few { length (clauses_of self.now) ≤ 9223372036854775807 }
        ensures formed { All IsClause (clauses_of self.now) }
        ensures sound { (v : Valuation) → Satisfies v self.now.originals → Satisfies v (clauses_of self.now) }
    {
        let _ = &self.rows;
    }
}
