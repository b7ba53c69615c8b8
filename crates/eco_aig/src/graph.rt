//! The graph: its nodes, and how inputs and conjunctions are added.

ghost use Rattle.std.specs.Prelude.{◌≡◌, ◌⊎◌, ◌<◌, ◌&&◌, ℕ, Bool, List, [], ◌∷◌, ◌++◌, length, IfOk, OnOk, OnErr, IfSome, IfNone, Some, false, slice_get};
ghost use Rattle.eco_aig.specs.declared.node.Node.TheVariants.{Zero, Input, And};
ghost use Rattle.eco_aig.specs.Edges.{plain, value_of};
ghost use Rattle.eco_aig.specs.Graph.{IsGraph, IsEdge, IsValuation, HasValue, Grows, AreOperands, IsConjunctionNode, pair_at, inputs_of, simple_and, in_order};

use crate::edge::Edge;
use crate::node::Node;
use crate::simple::{in_order, simple_and};
use eco_keyed::Keyed;
use eco_meaning::OutOfMemory;
use indexmap::IndexSet;
use std::alloc::Global;
use std::marker::Model;

/// An and-inverter graph. Node 0 is the constant 0; each other node is an input or the conjunction of two edges to
/// earlier nodes. No two nodes are equal, so a conjunction that was asked for before is found again.
#[derive(Drop)]
pub struct Aig {
    pub(crate) nodes: IndexSet<Node, Keyed>,
    inputs: Vec<u64>,
}

impl Model for Aig {
    ghost use Rattle.std.specs.Prelude.{List};
    ghost use Rattle.eco_aig.specs.declared.node.Node.{Node};

    ghost Value = { List Node };

    ghost use Rattle.eco_aig.specs.Kept.{IsKept};

    ghost view = { λ graph. graph.nodes.keys };

    ghost invariant = { IsKept };
}

impl Aig {
    /// The graph that has the constant alone.
    pub fn new(alloc: Global) -> Result<Aig, OutOfMemory>
        ensures constant { IfOk result (λ graph. graph ≡ Zero ∷ []) }
    {
        Aig::keyed(alloc, Keyed::by(b""))
    }

    /// The same for nodes that come of a file's gates: `keyed` is keyed by the file, since its gates could be chosen to fall on
    /// one place of a table whose hash is known beforehand.
    pub fn keyed(alloc: Global, keyed: Keyed) -> Result<Aig, OutOfMemory>
        ensures constant { IfOk result (λ graph. graph ≡ Zero ∷ []) }
    {
        let mut nodes = IndexSet::with_hasher(alloc, keyed);
        nodes.insert(Node::Zero)?;
        Ok(Aig {
            nodes,
            inputs: Vec::new(alloc),
        })
    }

    /// The number of nodes, with the constant.
    pub fn nodes(&self) -> u64
        ensures count { result ≡ length self.now }
        ensures graph { IsGraph self.now }
    {
        self.nodes.len() as u64
    }

    /// How the nodes are hashed, for other tables over them. No clause says how.
    pub fn hasher(&self) -> Keyed {
        *self.nodes.hasher()
    }

    /// The numbers of the input nodes, in the order in which they were made.
    pub fn inputs(&self) -> &[u64]
        ensures { result.now ≡ inputs_of self.now }
    {
        self.inputs.as_slice()
    }

    /// The operands of an and-node, the one to the earlier node first; nothing for another node, and where there is
    /// no node of this number.
    pub fn pair(&self, node: u64) -> Option<(Edge, Edge)>
        ensures pair { result ≡ pair_at self.now node }
        ensures operands { IfSome result (λ pair. AreOperands node pair.0 pair.1) }
    {
        match self.nodes.as_slice().get(node as usize) {
            Some(Node::And(first, second)) => Some((*first, *second)),
            _ => None,
        }
    }

    /// Adds an input, and gives the edge to it.
    pub fn input(&mut self) -> Result<Edge, OutOfMemory>
        ensures ok { IfOk result (λ e. (e ≡ plain (length self.old)) × (self.new ≡ self.old ++ Input (length self.old) ∷ [])) }
        ensures err { OnErr result (self.new ≡ self.old) }
    {
        let number = self.nodes.len() as u64;
        self.inputs.push(number)?;
        match self.nodes.insert(Node::Input(number)) {
            Ok(_) => Ok(Edge {
                node: number,
                complemented: false,
            }),
            Err(_) => {
                self.inputs.pop();
                Err(OutOfMemory)
            }
        }
    }

    /// The conjunction of two edges. It takes no node where one is a constant, where they are equal or complementary,
    /// and where there is an and-node of the two; else one node is added, that of the answer.
    pub fn and(&mut self, a: Edge, b: Edge) -> Result<Edge, OutOfMemory>
        requires first { IsEdge self.old a }
        requires second { IsEdge self.old b }
        ensures value { IfOk result (λ e. HasValue self.new e (λ w. value_of w a && value_of w b)) }
        ensures grows { Grows self.old self.new 1 }
        ensures simple { IfSome (simple_and a b) (λ e. (result ≡ Ok e) × (self.new ≡ self.old)) }
        ensures node { IfNone (simple_and a b) (IfOk result (IsConjunctionNode self.new a b)) }
        ensures again { (k : ℕ) → pair_at self.old k ≡ Some (in_order a b) → (result ≡ Ok (plain k)) × (self.new ≡ self.old) }
        ensures own { IfOk result (λ e. length self.old < length self.new → e.node ≡ length self.old) }
        ensures err { OnErr result (self.new ≡ self.old) }
    {
        // it is a graph: node 0 is the constant
        let _ = self.nodes();
        match simple_and(a, b) {
            Some(edge) => Ok(edge),
            None => {
                let (first, second) = in_order(a, b);
                self.node_of(first, second)
            }
        }
    }

    /// The edge to the and-node of two operands, which is added where there is none.
    fn node_of(&mut self, first: Edge, second: Edge) -> Result<Edge, OutOfMemory>
        requires operands { AreOperands (length self.old) first second }
        ensures node { IfOk result (λ e. (e.complemented ≡ false) × (slice_get self.new e.node ≡ Some (And first second))) }
        ensures within { IfOk result (λ e. e.node < length self.new) }
        ensures found { (k : ℕ) → slice_get self.old k ≡ Some (And first second) → (result ≡ Ok (plain k)) × (self.new ≡ self.old) }
        ensures added { IfOk result (λ e. (self.new ≡ self.old) ⊎ ((self.new ≡ self.old ++ And first second ∷ []) × (e.node ≡ length self.old))) }
        ensures err { OnErr result (self.new ≡ self.old) }
    {
        let (index, _) = self.nodes.insert_full(Node::And(first, second))?;
        Ok(Edge {
            node: index as u64,
            complemented: false,
        })
    }
}
