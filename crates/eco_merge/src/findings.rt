//! What is known of nodes: rows that tell them apart, and what a search couldn't tell.

ghost use Rattle.std.specs.Prelude.{◌≡◌, ◌≢◌, ◌≤◌, ◌<◌, ◌&&◌, ◌++◌, ◌∷◌, [], ℕ, Bool, All, Contains, IfNone, IfOk, IfSome, IsTrue, List, OnOk, false, length, map, slice_get, take};
ghost use Rattle.eco_aig.specs.declared.node.Node.{Node as GraphNode};
ghost use Rattle.eco_aig.specs.Graph.{HasValue};
ghost use Rattle.eco_merge.specs.Alike.{IsAlike, other_of as other_node};
ghost use Rattle.eco_merge.specs.Rows.{IsRow, grown};
ghost use Rattle.eco_merge.specs.Signatures.{AreSigned, signature_at};
ghost use Rattle.eco_merge.specs.Questions.{IsCompared};
ghost use Rattle.eco_merge.specs.Steps.{AreFindings, HasMore, IsComparedWith};

use crate::claim::{Claim, other_of};
use crate::loose::Loose;
use crate::question::{Answer, ask};
use crate::row::{Row, drawn};
use crate::signature::{signature_of, signatures_of};
use eco_aig::{Aig, Edge};
use eco_meaning::OutOfMemory;
use eco_simulate::Congruence;
use eco_trace::Refuter;
use std::alloc::Global;

/// How many rows are drawn at first.
const FIRST_ROWS: u64 = 64;

/// Rows of a graph, its nodes' signatures, and the claims on its nodes that a search neither refuted nor showed.
#[derive(Drop)]
pub(crate) struct Findings {
    alloc: Global,
    pub(crate) rows: Vec<Row>,
    /// How many rows were drawn at first, of which the signatures are.
    pub(crate) drawn: usize,
    /// A number for each node, which alike nodes share.
    pub(crate) signatures: Vec<u64>,
    pub(crate) apart: Vec<Loose>,
}

impl Findings {
    /// Some rows, and no claims.
    pub(crate) fn new(alloc: Global, aig: &Aig) -> Result<Findings, OutOfMemory>
        ensures rows { IfOk result (λ findings. All (IsRow aig.now) findings.rows.items) }
        ensures signed { IfOk result (λ findings. AreSigned (length aig.now) findings.rows.items findings.drawn findings.signatures.items) }
        ensures apart { IfOk result (λ findings. length findings.apart.items ≡ 0) }
    {
        let mut rows = Vec::new(alloc);
        let mut draws = Congruence::new(1);
        for _ in 0..FIRST_ROWS {
            rows.push(drawn(alloc, aig, &mut draws)?)?;
        }
        let signatures = signatures_of(alloc, rows.as_slice(), aig.nodes())?;
        Ok(Findings {
            alloc,
            drawn: rows.len(),
            rows,
            signatures,
            apart: Vec::new(alloc),
        })
    }

    /// Adds the bit of one more node, the conjunction of two edges, to each row, and that node's signature.
    pub(crate) fn grow(&mut self, first: Edge, second: Edge) -> Result<(), OutOfMemory>
        requires drawn { self.old.drawn ≤ length self.old.rows.items }
        ensures rows { OnOk result (self.new.rows.items ≡ map (grown first second) self.old.rows.items) }
        ensures drawn { OnOk result (self.new.drawn ≡ self.old.drawn) }
        ensures signatures { OnOk result (self.new.signatures.items ≡ self.old.signatures.items
            ++ signature_at (take self.old.drawn self.new.rows.items) (length self.old.signatures.items) ∷ []) }
        ensures apart { OnOk result (self.new.apart.items ≡ self.old.apart.items) }
    {
        for index in 0..self.rows.len() {
            self.rows[index].grow(first, second)?;
        }
        let node = self.signatures.len() as u64;
        let signature = signature_of(&self.rows[..self.drawn], node);
        self.signatures.push(signature)?;
        Ok(())
    }

    /// An edge to one of the kept nodes that has the node's value, if there is one. None where the node isn't like any of
    /// them, but for those of which that isn't known: these are among the claims then.
    pub(crate) fn twin<R: Refuter>(
        &mut self,
        aig: &Aig,
        node: u64,
        kept: &[u64],
        refuter: &mut R,
        limit: u64,
    ) -> Result<Option<Edge>, OutOfMemory>
        requires node { node < length aig.now }
        requires kept { All (λ k. k < length aig.now) kept.now }
        requires apart { All (λ k. k ≢ node) kept.now }
        requires limit { 1 ≤ limit }
        requires findings { AreFindings aig.now limit self.old }
        ensures some { IfOk result (λ found. IfSome found (λ e. HasValue aig.now e (λ w. w node))) }
        ensures member { IfOk result (λ found. IfSome found (λ e. Contains kept.now e.node)) }
        ensures none { IfOk result (λ found. IfNone found (All (IsComparedWith aig.now self.new.apart.items node) kept.now)) }
        ensures findings { OnOk result (AreFindings aig.now limit self.new) }
        ensures more { OnOk result (HasMore self.old.apart.items self.new.apart.items) }
    {
        // it is a graph: node 0 is the constant
        let _ = aig.nodes();
        for other in kept {
            if let Some(same) = self.sign(aig, node, *other, refuter, limit)? {
                return Ok(Some(Edge {
                    node: *other,
                    complemented: !same,
                }));
            }
        }
        Ok(None)
    }

    /// Whether the nodes are equal (true) or complementary (false); None where they are neither, or where that isn't
    /// known.
    fn sign<R: Refuter>(
        &mut self,
        aig: &Aig,
        node: u64,
        other: u64,
        refuter: &mut R,
        limit: u64,
    ) -> Result<Option<bool>, OutOfMemory>
        requires node { node < length aig.now }
        requires other { other < length aig.now }
        requires apart { other ≢ node }
        requires limit { 1 ≤ limit }
        requires findings { AreFindings aig.now limit self.old }
        ensures some { IfOk result (λ found. IfSome found (IsAlike aig.now node (other_node other))) }
        ensures none { IfOk result (λ found. IfNone found (IsComparedWith aig.now self.new.apart.items node other)) }
        ensures findings { OnOk result (AreFindings aig.now limit self.new) }
        ensures more { OnOk result (HasMore self.old.apart.items self.new.apart.items) }
    {
        // it is a graph: node 0 is the constant
        let _ = aig.nodes();
        if self.differ(node, other) {
            return Ok(None);
        }
        let equal = Claim {
            node,
            other: other_of(other),
            same: true,
        };
        if self.is_true(aig, equal, refuter, limit)? {
            return Ok(Some(true));
        }
        let complementary = Claim {
            same: false,
            ..equal
        };
        if self.is_true(aig, complementary, refuter, limit)? {
            return Ok(Some(false));
        }
        Ok(None)
    }

    /// Whether the nodes' signatures differ, so that they are neither equal nor complementary.
    fn differ(&self, node: u64, other: u64) -> bool
        requires node { node < length self.now.signatures.items }
        requires other { other < length self.now.signatures.items }
        ensures { IsTrue result → slice_get self.now.signatures.items node ≢ slice_get self.now.signatures.items other }
    {
        self.signatures[node as usize] != self.signatures[other as usize]
    }

    /// Whether the claim is true: where it is false a row may be added, where that isn't known it is listed.
    fn is_true<R: Refuter>(
        &mut self,
        aig: &Aig,
        claim: Claim,
        refuter: &mut R,
        limit: u64,
    ) -> Result<bool, OutOfMemory>
        requires node { claim.node < length aig.now }
        requires other { IfSome claim.other (λ m. (m < length aig.now) × (m ≢ claim.node)) }
        requires limit { 1 ≤ limit }
        requires findings { AreFindings aig.now limit self.old }
        ensures alike { IfOk result (λ alike. IsTrue alike → IsAlike aig.now claim.node claim.other claim.same) }
        ensures unlike { IfOk result (λ alike. alike ≡ false
            → IsCompared aig.now self.new.apart.items claim.node claim.other claim.same) }
        ensures findings { OnOk result (AreFindings aig.now limit self.new) }
        ensures more { OnOk result (HasMore self.old.apart.items self.new.apart.items) }
    {
        if self.is_refuted(claim) {
            return Ok(false);
        }
        match ask(self.alloc, aig, claim, refuter, limit)? {
            Answer::Alike => Ok(true),
            Answer::Unlike(row) => {
                self.rows.push(row)?;
                Ok(false)
            }
            Answer::Unknown(entry) => {
                self.apart.push(entry)?;
                Ok(false)
            }
        }
    }

    /// Whether a row shows that the claim is false.
    fn is_refuted(&self, claim: Claim) -> bool
        ensures { (nodes : List GraphNode) → All (IsRow nodes) self.now.rows.items
            → IsTrue result → IsAlike nodes claim.node claim.other claim.same → ⊥ }
    {
        self.rows
            .iter()
            .any(|row| row.tells_apart(claim.node, claim.other, claim.same))
    }
}
