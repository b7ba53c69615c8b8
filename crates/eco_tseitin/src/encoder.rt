//! The encoder.

use eco_aig::{Aig, Edge};
use eco_meaning::OutOfMemory;
use eco_trace::{Cnf, Lit, Var};
use indexmap::IndexSet;
use std::alloc::Global;
use std::marker::Model;

/// Makes clauses of the nodes that edges reach, for one graph that may grow between the calls. A call that wanted for memory
/// leaves it as it was.
#[derive(Drop)]
pub struct Encoder {
    alloc: Global,
    nodes: IndexSet<u64>,
    cnf: Cnf,
}

impl Model for Encoder {
    ghost use Rattle.std.specs.Prelude.{◌≡◌, length};
    ghost use Rattle.eco_tseitin.specs.Encoding.{Encoding};

    ghost Value = { Encoding };

    ghost view = { λ encoder. record { nodes = encoder.nodes.keys; clauses = encoder.cnf.clauses } };

    ghost invariant = { λ encoder. encoder.cnf.vars ≡ length encoder.nodes.keys };
}

impl Encoder {
    ghost use Rattle.std.specs.Prelude.{◌≡◌, ◌≢◌, ◌↔◌, ℕ, ◌^◌, ◌<◌, ◌≤◌, true, List, [], ◌∷◌, ◌++◌, length, take, All, AllPairs, Contains, IfOk, OnOk, OnErr, IsSome};
    ghost use Rattle.std.specs.Option.{SomeIff};
    ghost use Rattle.eco_aig.specs.declared.edge.Edge.{Edge};
    ghost use Rattle.eco_aig.specs.declared.node.Node.{Node};
    ghost use Rattle.eco_aig.specs.Edges.{plain};
    ghost use Rattle.eco_aig.specs.Graph.{IsGraph, IsEdge, AreOperands};
    ghost use Rattle.eco_trace.specs.declared.clause.Lit.{Lit};
    ghost use Rattle.eco_trace.specs.Clauses.{Valuation, AreFormed, IsTrueIn, Satisfies, IsVarWithin, complement};
    ghost use Rattle.eco_aig.specs.Reached.{IsReached};
    ghost use Rattle.eco_tseitin.specs.Encoding.{IsEncoding, IsLiteralOf, HasGrown, variable_of, literal_of, conjunction_clauses};
    ghost use Rattle.eco_tseitin.specs.Models.{HasNodeBits, IsEdgeIn, AreModelled, AreModelledWith};
    ghost use Rattle.eco_tseitin.specs.Steps.{IsFront, IsNamed, AddsClauses, AddsConjunction, AddsNode};

    /// No node is encoded yet.
    pub fn new(alloc: Global) -> Encoder
        ensures empty { result ≡ record { nodes = []; clauses = [] } }
        ensures encoding { (graph : List Node) → IsGraph graph → IsEncoding graph [] [] result }
    {
        Encoder {
            alloc,
            nodes: IndexSet::new(alloc),
            cnf: Cnf::new(alloc, 0),
        }
    }

    /// The literal that is true where the edge's bit is 1. Each node that the edge reaches has a variable and its
    /// clauses from then on.
    pub fn encode(&mut self, aig: &Aig, edge: Edge) -> Result<Lit, OutOfMemory>
        requires { IsEdge aig.now edge }
        ensures encoding { (before : List Node) (roots : List Edge) (asserted : List Lit)
            → IsEncoding before roots asserted self.old → HasGrown before aig.now
            → OnOk result (IsEncoding aig.now (roots ++ edge ∷ []) asserted self.new) }
        ensures literal { IfOk result (IsLiteralOf self.new.nodes edge) }
        ensures value { IfOk result (λ l. (v : Valuation) → (has : HasNodeBits aig.now self.new.nodes v) → IsEdgeIn v l has.bits edge) }
        ensures constant { (before : List Node) (roots : List Edge) (asserted : List Lit)
            → IsEncoding before roots asserted self.old → HasGrown before aig.now
            → IfOk result (λ l. edge.node ≡ 0 → (v : Valuation) → Satisfies v self.new.clauses → (IsTrueIn v l ↔ (edge.complemented ≡ true))) }
        ensures err { OnErr result (self.new ≡ self.old) }
        ensures nodes { OnOk result ((added : List ℕ) × (self.new.nodes ≡ self.old.nodes ++ added)) }
        ensures kept { OnOk result ((k : ℕ) → Contains self.old.nodes k → variable_of self.new.nodes k ≡ variable_of self.old.nodes k) }
    {
        let nodes = self.nodes.len();
        let clauses = self.cnf.clauses().len();
        let encoded = self.reach(aig, edge);
        if encoded.is_err() {
            self.cut(nodes, clauses);
        }
        encoded
    }

    /// The same, where nodes and clauses of the edge stay there if memory is wanting.
    fn reach(&mut self, aig: &Aig, edge: Edge) -> Result<Lit, OutOfMemory>
        requires { IsEdge aig.now edge }
        ensures encoding { (before : List Node) (roots : List Edge) (asserted : List Lit)
            → IsEncoding before roots asserted self.old → HasGrown before aig.now
            → OnOk result (IsEncoding aig.now (roots ++ edge ∷ []) asserted self.new) }
        ensures literal { IfOk result (IsLiteralOf self.new.nodes edge) }
        ensures value { IfOk result (λ l. (v : Valuation) → (has : HasNodeBits aig.now self.new.nodes v) → IsEdgeIn v l has.bits edge) }
        ensures constant { (before : List Node) (roots : List Edge) (asserted : List Lit)
            → IsEncoding before roots asserted self.old → HasGrown before aig.now
            → IfOk result (λ l. edge.node ≡ 0 → (v : Valuation) → Satisfies v self.new.clauses → (IsTrueIn v l ↔ (edge.complemented ≡ true))) }
        ensures err { OnErr result (IsFront self.old self.new) }
        ensures nodes { OnOk result ((added : List ℕ) × (self.new.nodes ≡ self.old.nodes ++ added)) }
        ensures kept { OnOk result ((k : ℕ) → Contains self.old.nodes k → variable_of self.new.nodes k ≡ variable_of self.old.nodes k) }
    {
        // it is a graph: operands stand before their nodes
        let _ = aig.nodes();
        let mut place = self.nodes.len();
        let literal = self.literal(edge)?;
        while place < self.nodes.len() {
            let node = self.nodes.as_slice()[place];
            self.add_node(aig, node)?;
            place += 1;
        }
        Ok(literal)
    }

    /// Lets the literal be true in each model from now on.
    pub fn assert_lit(&mut self, lit: Lit) -> Result<(), OutOfMemory>
        requires { IsVarWithin (length self.old.nodes) lit }
        ensures ok { OnOk result (self.new ≡ record self.old { clauses = self.old.clauses ++ (lit ∷ []) ∷ [] }) }
        ensures err { OnErr result (self.new ≡ self.old) }
        ensures encoding { (graph : List Node) (roots : List Edge) (asserted : List Lit)
            → IsEncoding graph roots asserted self.old
            → OnOk result (IsEncoding graph roots (asserted ++ lit ∷ []) self.new) }
    {
        self.add(&[lit])
    }

    /// The variable of a node; None exactly where no edge that was encoded reaches it.
    pub fn var_of(&self, node: u64) -> Option<Var>
        ensures variable { SomeIff result (Contains self.now.nodes node) (variable_of self.now.nodes node) }
        ensures reached { (graph : List Node) (roots : List Edge) (asserted : List Lit)
            → IsEncoding graph roots asserted self.now → (IsSome result ↔ IsReached graph roots node) }
    {
        // so few nodes have variables that the next number fits
        let _ = self.nodes.len();
        match self.nodes.get_index_of(&node) {
            Some(place) => Some(Var(place as u64 + 1)),
            None => None,
        }
    }

    /// The clauses. There are fewer than 2^60 variables.
    pub fn finish(self) -> Cnf
        ensures clauses { result ≡ record { vars = length self.nodes; clauses = self.clauses } }
        ensures node_models { (graph : List Node) (roots : List Edge) (asserted : List Lit)
            → (encoding : IsEncoding graph roots asserted self) → AreModelled graph self.nodes encoding.of_nodes }
        ensures models { (graph : List Node) (roots : List Edge) (asserted : List Lit)
            → IsEncoding graph roots asserted self → AreModelledWith graph asserted self.nodes self.clauses }
        ensures few { length self.nodes < 2 ^ 60 }
    {
        // the nodes' numbers lie in memory, so there are few of them
        let _ = self.nodes.as_slice().len();
        self.cnf
    }

    /// Drops all nodes and clauses but the first ones, so many.
    fn cut(&mut self, nodes: usize, clauses: usize)
        requires few { nodes ≤ length self.old.nodes }
        requires formed { AreFormed (record { vars = nodes; clauses = take clauses self.old.clauses }) }
        ensures { self.new ≡ record { nodes = take nodes self.old.nodes; clauses = take clauses self.old.clauses } }
    {
        self.nodes.truncate(nodes);
        self.cnf.cut(nodes as u64, clauses);
    }

    /// The literal of an edge, whose node is given the next variable where it has none.
    fn literal(&mut self, edge: Edge) -> Result<Lit, OutOfMemory>
        ensures named { OnOk result (IsNamed self.old self.new edge.node) }
        ensures literal { IfOk result (λ l. l ≡ literal_of self.new.nodes edge) }
        ensures err { OnErr result (self.new ≡ self.old) }
    {
        let (place, _) = self.nodes.insert_full(edge.node)?;
        self.cnf.widen(self.nodes.len() as u64);
        Ok(Lit {
            var: Var(place as u64 + 1),
            positive: !edge.complemented,
        })
    }

    /// Adds the clauses of a node, and gives variables to its operands.
    fn add_node(&mut self, aig: &Aig, node: u64) -> Result<(), OutOfMemory>
        requires named { Contains self.old.nodes node }
        requires within { node < length aig.now }
        ensures ok { OnOk result (AddsNode aig.now self.old self.new node) }
        ensures err { OnErr result (IsFront self.old self.new) }
    {
        // it is a graph: node 0 is the constant
        let _ = aig.nodes();
        if node == 0 {
            return self.add_constant();
        }
        match aig.pair(node) {
            Some((first, second)) => self.add_conjunction(node, first, second),
            None => Ok(()),
        }
    }

    /// Adds the clause of the constant.
    fn add_constant(&mut self) -> Result<(), OutOfMemory>
        requires { Contains self.old.nodes 0 }
        ensures ok { OnOk result (AddsClauses self.old self.new ((complement (literal_of self.old.nodes (plain 0)) ∷ []) ∷ [])) }
        ensures err { OnErr result (IsFront self.old self.new) }
    {
        let literal = self.literal(Edge::ZERO)?;
        self.add(&[literal.complement()])
    }

    /// Adds the clauses of an and-node, and gives variables to its operands.
    fn add_conjunction(&mut self, node: u64, first: Edge, second: Edge) -> Result<(), OutOfMemory>
        requires named { Contains self.old.nodes node }
        requires operands { AreOperands node first second }
        ensures ok { OnOk result (AddsConjunction self.old self.new node first second) }
        ensures err { OnErr result (IsFront self.old self.new) }
    {
        let result_literal = self.literal(Edge {
            node,
            complemented: false,
        })?;
        let first_literal = self.literal(first)?;
        let second_literal = self.literal(second)?;
        self.add_three(result_literal, first_literal, second_literal)
    }

    /// Adds the three clauses that say that `n` is the conjunction of `a` and `b`.
    fn add_three(&mut self, n: Lit, a: Lit, b: Lit) -> Result<(), OutOfMemory>
        requires within { All (IsVarWithin (length self.old.nodes)) (n ∷ a ∷ b ∷ []) }
        requires apart { AllPairs (λ l m. l.var.0 ≢ m.var.0) (n ∷ a ∷ b ∷ []) }
        ensures ok { OnOk result (AddsClauses self.old self.new (conjunction_clauses n a b)) }
        ensures err { OnErr result (IsFront self.old self.new) }
    {
        self.add(&[n.complement(), a])?;
        self.add(&[n.complement(), b])?;
        self.add(&[n, a.complement(), b.complement()])
    }

    /// Adds the clause of these literals.
    fn add(&mut self, lits: &[Lit]) -> Result<(), OutOfMemory>
        requires within { All (IsVarWithin (length self.old.nodes)) lits.now }
        requires apart { AllPairs (λ l m. l.var.0 ≢ m.var.0) lits.now }
        ensures ok { OnOk result (AddsClauses self.old self.new (lits.now ∷ [])) }
        ensures err { OnErr result (self.new ≡ self.old) }
    {
        self.cnf.add_lits(lits)
    }
}
