//! The sweeper.

use crate::cone::Cone;
use crate::difference::can_differ;
use crate::part::{Part, copied};
use crate::question::{Answer, Outcome};
use crate::words::Words;
use eco_aig::{Aig, Edge, Images};
use eco_cdcl::Guided;
use eco_guide::EqualityGuide;
use eco_keyed::Keyed;
use eco_meaning::OutOfMemory;
use eco_trace::Refuter;
use std::alloc::Global;
use std::marker::Model;

/// So many nodes of the two cones are looked at, one after the other: a small part is enough where it tells that they are
/// equal, which is most often so. The last one is all.
const CUTS: [usize; 4] = [24, 150, 1_500, usize::MAX];

/// So many nodes that look equal to a node are asked about.
const CANDIDATES: usize = 8;

/// A question about a part of the cones, or about all of them at first, may learn so many clauses.
const QUICK: u64 = 300;

/// Where that wasn't enough, a guided search may learn so many for a question about all of the cones.
const THOROUGH: u64 = 2_000;

/// So many quick questions of a call may be spent; after that nothing is asked.
const QUICK_SPENT: usize = 100;

/// So many thorough questions of a call may be spent; after that only quick ones are asked.
const THOROUGH_SPENT: usize = 20;

/// Finds edges that stand for the nodes of a graph that grows: nodes that are equal under all inputs have one edge, as
/// far as questions of a limited size tell, and nodes that are each other's complements have two of one node. What is
/// known from earlier calls serves the later ones.
#[derive(Drop)]
pub struct Sweeper {
    alloc: Global,
    map: Images,
    words: Words,
    cone: Cone,
    /// The most clauses that a question may learn.
    limit: u64,
    /// How many questions of this call were spent, of those that are quick and of those that are thorough.
    quick_spent: usize,
    thorough_spent: usize,
}

impl Model for Sweeper {
    ghost use Rattle.std.specs.Prelude.{◌≤◌};
    ghost use Rattle.eco_sweep.specs.Sweepers.{SweeperValue};

    ghost Value = { SweeperValue };

    ghost view = { λ sweeper. record { map = sweeper.map; limit = sweeper.limit } };

    ghost invariant = { λ sweeper. 1 ≤ sweeper.limit };
}

impl Sweeper {
    ghost use Rattle.std.specs.Prelude.{◌≡◌, ◌⊎◌, ◌≤◌, ◌<◌, ℕ, List, [], Some, All, IfOk, IfSome, IsTrue, length, vec_len};
    ghost use Rattle.std.specs.List.{AllZip};
    ghost use Rattle.eco_aig.specs.declared.edge.Edge.{Edge};
    ghost use Rattle.eco_aig.specs.declared.node.Node.{Node};
    ghost use Rattle.eco_aig.specs.Edges.{plain, value_of};
    ghost use Rattle.eco_aig.specs.Graph.{IsEdge, HasValue, Grows, pair_at};
    ghost use Rattle.eco_aig.specs.Swept.{IsSwept, AreImages, StandsFor};
    ghost use Rattle.eco_sweep.specs.declared.question.Outcome.{Outcome};
    ghost use Rattle.eco_sweep.specs.Questions.{AreEqual, IsComparisonSpent, IfEqual, IfNever, IfSpent, IfTooLong};

    /// Nothing is known of any node. `keyed` is keyed by the file that the graph comes from, or is the graph's own hash: it is that
    /// of a table of what the nodes are under some inputs. The limit is the most clauses that a question to a search may learn.
    pub fn new(alloc: Global, keyed: Keyed, limit: u64) -> Sweeper
        requires limit { 1 ≤ limit }
        ensures empty { result.map ≡ [] }
        ensures limit { result.limit ≡ limit }
        ensures swept { (nodes : List Node) → IsSwept nodes result.map }
    {
        Sweeper {
            alloc,
            map: Images::new(alloc),
            words: Words::new(alloc, keyed),
            cone: Cone::new(alloc),
            limit,
            quick_spent: 0,
            thorough_spent: 0,
        }
    }

    /// An edge with the value of each of the given ones, in order; what they reach is swept before. The limit stays, and most
    /// questions may learn far fewer clauses. Where memory ran out, what was found before is kept.
    pub fn reduce<R: Refuter>(
        &mut self,
        aig: &mut Aig,
        edges: &[Edge],
        refuter: &mut R,
    ) -> Result<Vec<Edge>, OutOfMemory>
        requires edges { All (IsEdge aig.old) edges.now }
        requires swept { IsSwept aig.old self.old.map }
        ensures swept { IsSwept aig.new self.new.map }
        ensures limit { self.new.limit ≡ self.old.limit }
        ensures grows { Grows aig.old aig.new (length aig.old) }
        ensures stand { IfOk result (λ images. AllZip (StandsFor self.new.map) edges.now images.items) }
        ensures images { IfOk result (λ images. AreImages aig.new edges.now images.items) }
    {
        let reached = self.reached(aig, edges)?;
        for node in &reached {
            self.treat(aig, *node, refuter)?;
        }
        self.map.images_of(edges)
    }

    /// The nodes that the edges reach and that weren't treated yet, rising. Nothing was asked for them yet.
    fn reached(&mut self, aig: &Aig, edges: &[Edge]) -> Result<Vec<u64>, OutOfMemory>
        ensures kept { self.new ≡ self.old }
        ensures few { IfOk result (λ nodes. vec_len nodes ≤ length aig.now) }
    {
        self.quick_spent = 0;
        self.thorough_spent = 0;
        self.cone.clear();
        self.list(0)?;
        for edge in edges {
            self.list(edge.node())?;
        }
        let mut reached = Vec::new(self.alloc);
        for place in 0..aig.nodes() {
            match self.cone.at(place as usize) {
                None => break,
                Some(node) => {
                    reached.push(node)?;
                    self.list_operands(aig, node)?;
                }
            }
        }
        reached.sort_unstable();
        Ok(reached)
    }

    /// Lists the node, unless it was treated.
    fn list(&mut self, node: u64) -> Result<(), OutOfMemory>
        ensures { self.new ≡ self.old }
    {
        if self.words.is_treated(node) {
            return Ok(());
        }
        self.cone.add(node)
    }

    /// Lists the operands of the node, unless they were treated.
    fn list_operands(&mut self, aig: &Aig, node: u64) -> Result<(), OutOfMemory>
        ensures { self.new ≡ self.old }
    {
        match aig.pair(node) {
            None => Ok(()),
            Some((first, second)) => {
                self.list(first.node())?;
                self.list(second.node())
            }
        }
    }

    /// Finds the edge for a node whose operands were treated.
    fn treat<R: Refuter>(
        &mut self,
        aig: &mut Aig,
        node: u64,
        refuter: &mut R,
    ) -> Result<(), OutOfMemory>
        requires swept { IsSwept aig.old self.old.map }
        ensures swept { IsSwept aig.new self.new.map }
        ensures limit { self.new.limit ≡ self.old.limit }
        ensures grows { Grows aig.old aig.new 1 }
    {
        if self.words.is_treated(node) {
            return Ok(());
        }
        match aig.pair(node) {
            None => self.hold(aig, node),
            Some((first, second)) => self.treat_conjunction(aig, node, first, second, refuter),
        }
    }

    /// The edge for a conjunction is that of the conjunction of its operands' edges.
    fn treat_conjunction<R: Refuter>(
        &mut self,
        aig: &mut Aig,
        node: u64,
        first: Edge,
        second: Edge,
        refuter: &mut R,
    ) -> Result<(), OutOfMemory>
        requires pair { pair_at aig.old node ≡ Some (first, second) }
        requires swept { IsSwept aig.old self.old.map }
        ensures swept { IsSwept aig.new self.new.map }
        ensures limit { self.new.limit ≡ self.old.limit }
        ensures grows { Grows aig.old aig.new 1 }
    {
        // it is a graph: operands are nodes of it
        let _ = aig.nodes();
        let first = self.image(first);
        let second = self.image(second);
        let edge = aig.and(first, second)?;
        self.represent(aig, edge.node(), refuter)?;
        if edge.node() == node {
            return Ok(());
        }
        let image = self.image(edge);
        self.map_to(aig, node, image)
    }

    /// Finds the edge for a node whose operands stand for themselves.
    fn represent<R: Refuter>(
        &mut self,
        aig: &Aig,
        node: u64,
        refuter: &mut R,
    ) -> Result<(), OutOfMemory>
        requires within { node < length aig.now }
        requires swept { IsSwept aig.now self.old.map }
        ensures swept { IsSwept aig.now self.new.map }
        ensures limit { self.new.limit ≡ self.old.limit }
    {
        if self.words.is_treated(node) {
            return Ok(());
        }
        match self.find_equal(aig, node, refuter)? {
            Some(equal) => self.map_to(aig, node, equal),
            None => self.hold(aig, node),
        }
    }

    /// The node stands for itself.
    fn hold(&mut self, aig: &Aig, node: u64) -> Result<(), OutOfMemory>
        ensures { self.new ≡ self.old }
    {
        self.words.hold(aig, node)
    }

    /// The edge that stands for an edge.
    fn image(&self, edge: Edge) -> Edge
        ensures { (nodes : List Node) → IsEdge nodes edge → IsSwept nodes self.now.map → HasValue nodes result (λ w. value_of w edge) }
    {
        self.map.image_of(edge)
    }

    /// The edge stands for the node from now on.
    fn map_to(&mut self, aig: &Aig, node: u64, edge: Edge) -> Result<(), OutOfMemory>
        requires within { node < length aig.now }
        requires value { HasValue aig.now edge (λ w. w node) }
        requires swept { IsSwept aig.now self.old.map }
        ensures swept { IsSwept aig.now self.new.map }
        ensures limit { self.new.limit ≡ self.old.limit }
    {
        self.map.put(aig, node, edge)?;
        self.words.merge(node)
    }

    /// An edge to a node that stands for itself and is equal to the node; None where none was found.
    fn find_equal<R: Refuter>(
        &mut self,
        aig: &Aig,
        node: u64,
        refuter: &mut R,
    ) -> Result<Option<Edge>, OutOfMemory>
        ensures kept { self.new ≡ self.old }
        ensures equal { IfOk result (λ found. IfSome found (λ e. HasValue aig.now e (λ w. w node))) }
    {
        let row = self.words.row(aig, node);
        let mut slot = self.words.first(&row)?;
        for _turn in 0..CANDIDATES {
            match slot {
                None => return Ok(None),
                Some(place) => {
                    let candidate = self.candidate(aig, node, place);
                    if self.is_equal(aig, node, candidate, refuter)? {
                        return Ok(Some(candidate));
                    }
                    slot = self.next(aig, node, place);
                }
            }
        }
        Ok(None)
    }

    /// The edge to the node at the place, with the sign with which it looks like the node.
    fn candidate(&self, aig: &Aig, node: u64, place: usize) -> Edge {
        let row = self.words.row(aig, node);
        self.words.edge(&row, place)
    }

    /// The place of the next node that looks like the node.
    fn next(&mut self, aig: &Aig, node: u64, place: usize) -> Option<usize>
        ensures { self.new ≡ self.old }
    {
        let row = self.words.row(aig, node);
        self.words.next(&row, place)
    }

    /// Whether the edge has the node's value, as far as questions tell.
    fn is_equal<R: Refuter>(
        &mut self,
        aig: &Aig,
        node: u64,
        candidate: Edge,
        refuter: &mut R,
    ) -> Result<bool, OutOfMemory>
        ensures kept { self.new ≡ self.old }
        ensures equal { IfOk result (λ equal. IsTrue equal → HasValue aig.now candidate (λ w. w node)) }
    {
        if candidate.node() >= aig.nodes() || self.quick_spent >= QUICK_SPENT {
            return Ok(false);
        }
        let limit = self.limit.min(QUICK);
        for most in CUTS {
            match self.compare(aig, node, candidate, most, refuter, limit)? {
                Outcome::Equal => return Ok(true),
                Outcome::Apart => return Ok(false),
                Outcome::Spent => return self.is_surely_equal(aig, node, candidate),
                Outcome::Cut => {}
            }
        }
        Ok(false)
    }

    /// The same where a quick question was spent: by a guided search over all of the cones.
    fn is_surely_equal(
        &mut self,
        aig: &Aig,
        node: u64,
        candidate: Edge,
    ) -> Result<bool, OutOfMemory>
        requires within { candidate.node < length aig.now }
        ensures kept { self.new ≡ self.old }
        ensures equal { IfOk result (λ equal. IsTrue equal → HasValue aig.now candidate (λ w. w node)) }
    {
        self.quick_spent = self.quick_spent.saturating_add(1);
        if self.limit <= QUICK || self.thorough_spent >= THOROUGH_SPENT {
            return Ok(false);
        }
        let limit = self.limit.min(THOROUGH);
        let mut search = Guided::new(EqualityGuide::new(self.alloc));
        let outcome = self.compare(aig, node, candidate, usize::MAX, &mut search, limit);
        drop(search);
        match outcome? {
            Outcome::Equal => Ok(true),
            Outcome::Spent => {
                self.thorough_spent = self.thorough_spent.saturating_add(1);
                Ok(false)
            }
            Outcome::Apart | Outcome::Cut => Ok(false),
        }
    }

    /// Compares the edge with the node by so many nodes of their cones, where a search may learn so many clauses.
    fn compare<R: Refuter>(
        &mut self,
        aig: &Aig,
        node: u64,
        candidate: Edge,
        most: usize,
        refuter: &mut R,
        limit: u64,
    ) -> Result<Outcome, OutOfMemory>
        requires limit { 1 ≤ limit }
        requires within { limit ≤ self.old.limit }
        ensures kept { self.new ≡ self.old }
        ensures equal { IfOk result (λ outcome. IfEqual outcome (AreEqual aig.now (plain node) candidate)) }
        ensures spent { IfOk result (λ outcome. IfTooLong outcome (IsComparisonSpent aig.now (plain node) candidate limit)) }
    {
        self.cone.gather(aig, node, candidate.node(), most)?;
        let mut part = copied(self.alloc, aig, &self.cone)?;
        match can_differ(&self.cone, &mut part, node, candidate, refuter, limit) {
            Ok(answer) => {
                let outcome = self.settled(&part, answer);
                drop(part);
                Ok(outcome)
            }
            Err(error) => {
                drop(part);
                Err(error)
            }
        }
    }

    /// What an answer on two edges of a part tells.
    fn settled(&mut self, part: &Part, answer: Answer) -> Outcome
        ensures kept { self.new ≡ self.old }
        ensures equal { (nodes : List Node) (a b : Edge) → IfNever answer (AreEqual nodes a b) → IfEqual result (AreEqual nodes a b) }
        ensures spent { (nodes : List Node) (a b : Edge) (limit : ℕ)
            → IfSpent answer (IsComparisonSpent nodes a b limit) → IfTooLong result (IsComparisonSpent nodes a b limit) }
    {
        match answer {
            Answer::Never => Outcome::Equal,
            Answer::Sometimes(bits) => self.take_in(part, bits.as_slice()),
            Answer::Spent => Outcome::Spent,
            Answer::Unasked => Outcome::Cut,
        }
    }

    /// Learns the bits of a part's inputs, which tell two edges apart if the part is whole.
    fn take_in(&mut self, part: &Part, bits: &[bool]) -> Outcome
        ensures kept { self.new ≡ self.old }
        ensures apart { (result ≡ Outcome.Apart) ⊎ (result ≡ Outcome.Cut) }
    {
        if part.is_whole {
            self.words.learn(part.sources.as_slice(), bits);
            Outcome::Apart
        } else {
            Outcome::Cut
        }
    }
}
