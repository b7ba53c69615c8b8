//! The forms of nodes, and the edges that stand for nodes.

use crate::atoms::{Form, signed, toggle, toggle_all};
use crate::index::Index;
use crate::pattern::xor_of;
use eco_aig::{Aig, Edge, Images};
use eco_keyed::Keyed;
use eco_meaning::OutOfMemory;
use std::alloc::Global;
use std::marker::Model;

/// A node whose form has more atoms is an atom of its own in the forms of others.
const MOST_ATOMS: usize = 64;

/// Finds edges that stand for the nodes of a graph that grows: two nodes that are parities of the same nodes, or each other's
/// complements, have one edge, in whatever order their exclusive disjunctions were taken. What is known from earlier calls serves
/// the later ones.
///
/// To merge a node by a form of so many atoms counts like a search that learns as many clauses: a form with more atoms than the
/// limit isn't kept, so no node is merged by it.
#[derive(Drop)]
pub struct Forms {
    alloc: Global,
    limit: u64,
    map: Images,
    forms: Vec<Form>,
    index: Index,
}

impl Model for Forms {
    ghost use Rattle.eco_affine.specs.Forms.{Known};

    ghost Value = { Known };

    ghost view = { λ forms. record { map = forms.map; forms = forms.forms.items; limit = forms.limit } };
}

impl Forms {
    ghost use Rattle.std.specs.Prelude.{◌≡◌, ◌≤◌, ◌<◌, ℕ, Bool, List, Some, All, IfOk, IfSome, length};
    ghost use Rattle.std.specs.List.{AllZip};
    ghost use Rattle.eco_aig.specs.declared.node.Node.{Node};
    ghost use Rattle.eco_lists.specs.Bits.{exactly_one};
    ghost use Rattle.eco_aig.specs.Edges.{value_of};
    ghost use Rattle.eco_aig.specs.Graph.{IsEdge, IsValuation, HasValue, Grows, pair_at};
    ghost use Rattle.eco_aig.specs.Swept.{AreImages, StandsFor};
    ghost use Rattle.eco_affine.specs.Forms.{parity, IsParityOf, IsForm, IsFormed};

    /// Nothing is known of any node. `keyed` is keyed by the file that the graph comes from, or is the graph's own hash: it is that
    /// of a table of forms. A form has at most `limit` atoms.
    pub fn new(alloc: Global, keyed: Keyed, limit: u64) -> Forms
        ensures formed { (nodes : List Node) → IsFormed nodes result }
        ensures limit { result.limit ≡ limit }
    {
        Forms {
            alloc,
            limit,
            map: Images::new(alloc),
            forms: Vec::new(alloc),
            index: Index::new(alloc, keyed),
        }
    }

    /// An edge with the value of each of the given ones, in order: nodes that they reach and whose forms are equal have one edge.
    /// Where memory ran out, what was found before is kept.
    pub fn reduce(&mut self, aig: &mut Aig, edges: &[Edge]) -> Result<Vec<Edge>, OutOfMemory>
        requires edges { All (IsEdge aig.old) edges.now }
        requires formed { IsFormed aig.old self.old }
        ensures formed { IsFormed aig.new self.new }
        ensures limit { self.new.limit ≡ self.old.limit }
        ensures grows { Grows aig.old aig.new (length aig.old) }
        ensures stand { IfOk result (λ images. AllZip (StandsFor self.new.map) edges.now images.items) }
        ensures images { IfOk result (λ images. AreImages aig.new edges.now images.items) }
    {
        self.gather(aig, edges)?;
        for place in 0..aig.nodes() {
            match self.index.waiting(place) {
                None => break,
                Some(node) => self.treat(aig, node)?,
            }
        }
        self.map.images_of(edges)
    }

    /// Lets the nodes wait that the edges reach and that weren't treated, rising.
    fn gather(&mut self, aig: &Aig, edges: &[Edge]) -> Result<(), OutOfMemory>
        ensures { self.new ≡ self.old }
    {
        self.index.gather(aig, edges)
    }

    /// Finds the edge for a node whose operands were treated.
    fn treat(&mut self, aig: &mut Aig, node: u64) -> Result<(), OutOfMemory>
        requires formed { IsFormed aig.old self.old }
        ensures formed { IsFormed aig.new self.new }
        ensures limit { self.new.limit ≡ self.old.limit }
        ensures grows { Grows aig.old aig.new 1 }
    {
        match aig.pair(node) {
            None => Ok(()),
            Some((first, second)) => self.treat_conjunction(aig, node, first, second),
        }
    }

    /// The edge for a conjunction is that of the conjunction of its operands' edges.
    fn treat_conjunction(
        &mut self,
        aig: &mut Aig,
        node: u64,
        first: Edge,
        second: Edge,
    ) -> Result<(), OutOfMemory>
        requires pair { pair_at aig.old node ≡ Some (first, second) }
        requires formed { IsFormed aig.old self.old }
        ensures formed { IsFormed aig.new self.new }
        ensures limit { self.new.limit ≡ self.old.limit }
        ensures grows { Grows aig.old aig.new 1 }
    {
        // it is a graph: operands are nodes of it
        let _ = aig.nodes();
        let first = self.image(first);
        let second = self.image(second);
        let edge = aig.and(first, second)?;
        self.represent(aig, edge.node)?;
        if edge.node == node {
            return Ok(());
        }
        let image = self.image(edge);
        self.map_to(aig, node, image)
    }

    /// Finds the edge for a node whose operands stand for themselves.
    fn represent(&mut self, aig: &Aig, node: u64) -> Result<(), OutOfMemory>
        requires within { node < length aig.now }
        requires formed { IsFormed aig.now self.old }
        ensures formed { IsFormed aig.now self.new }
        ensures limit { self.new.limit ≡ self.old.limit }
    {
        if self.note(node)? {
            return Ok(());
        }
        match xor_of(aig, node) {
            None => Ok(()),
            Some((first, second)) => self.represent_parity(aig, node, first, second),
        }
    }

    /// Notes that the node is treated now; tells whether it had been before.
    fn note(&mut self, node: u64) -> Result<bool, OutOfMemory>
        ensures { self.new ≡ self.old }
    {
        self.index.treat(node)
    }

    /// Finds the edge for the parity of two edges.
    fn represent_parity(
        &mut self,
        aig: &Aig,
        node: u64,
        first: Edge,
        second: Edge,
    ) -> Result<(), OutOfMemory>
        requires within { node < length aig.now }
        requires parity { IsParityOf aig.now node first second }
        requires formed { IsFormed aig.now self.old }
        ensures formed { IsFormed aig.now self.new }
        ensures limit { self.new.limit ≡ self.old.limit }
    {
        let mut atoms = Vec::new(self.alloc);
        let first_sign = self.add(first, &mut atoms)?;
        let second_sign = self.add(second, &mut atoms)?;
        let edge = Edge {
            node,
            complemented: first_sign != second_sign,
        };
        self.settle(aig, edge, atoms)
    }

    /// Adds the form of what stands for the edge to the atoms; tells whether the edge is the complement of what was added.
    fn add(&self, edge: Edge, atoms: &mut Vec<u64>) -> Result<bool, OutOfMemory>
        ensures { IfOk result (λ sign. (nodes : List Node) (w : ℕ → Bool) → IsEdge nodes edge → IsFormed nodes self.now → IsValuation nodes w →
            parity w atoms.new.items ≡ exactly_one (exactly_one sign (value_of w edge)) (parity w atoms.old.items)) }
    {
        let image = self.image(edge);
        match self.form_of(image.node) {
            None => {
                toggle(atoms, image.node)?;
                Ok(image.complemented)
            }
            Some(form) => {
                toggle_all(atoms, form.atoms.as_slice())?;
                Ok(image.complemented != form.edge.complemented)
            }
        }
    }

    /// The edge has the parity of the atoms: another edge that has it stands for its node from now on, or the form is kept.
    fn settle(&mut self, aig: &Aig, edge: Edge, atoms: Vec<u64>) -> Result<(), OutOfMemory>
        requires value { HasValue aig.now edge (λ w. parity w atoms.items) }
        requires formed { IsFormed aig.now self.old }
        ensures formed { IsFormed aig.now self.new }
        ensures limit { self.new.limit ≡ self.old.limit }
    {
        match self.known(aig, atoms.as_slice()) {
            Some(known) => {
                let image = signed(known, edge.complemented);
                self.map_to(aig, edge.node, image)
            }
            None => self.keep(edge, atoms),
        }
    }

    /// Keeps a form, unless it has too many atoms.
    fn keep(&mut self, edge: Edge, atoms: Vec<u64>) -> Result<(), OutOfMemory>
        ensures formed { (nodes : List Node) → HasValue nodes edge (λ w. parity w atoms.items) → IsFormed nodes self.old → IsFormed nodes self.new }
        ensures limit { self.new.limit ≡ self.old.limit }
    {
        if atoms.len() > MOST_ATOMS || atoms.len() as u64 > self.limit {
            return Ok(());
        }
        let place = self.forms.len();
        self.index.enter(edge.node, atoms.as_slice(), place)?;
        self.forms.push(Form { edge, atoms })?;
        Ok(())
    }

    /// An edge that has the parity of the atoms; None where none is known.
    fn known(&self, aig: &Aig, atoms: &[u64]) -> Option<Edge>
        requires formed { IsFormed aig.now self.now }
        ensures { IfSome result (λ e. HasValue aig.now e (λ w. parity w atoms.now)) }
    {
        let nodes = aig.nodes();
        match atoms {
            [] => Some(Edge::ZERO),
            [atom] if *atom < nodes => Some(Edge {
                node: *atom,
                complemented: false,
            }),
            _ => self.listed(atoms),
        }
    }

    /// The edge of a form with these atoms.
    fn listed(&self, atoms: &[u64]) -> Option<Edge>
        ensures { IfSome result (λ e. (nodes : List Node) → IsFormed nodes self.now → HasValue nodes e (λ w. parity w atoms.now)) }
    {
        let place = self.index.place_of_atoms(atoms)?;
        let form = self.forms.get(place)?;
        if form.atoms.as_slice() == atoms {
            Some(form.edge)
        } else {
            None
        }
    }

    /// The form of an edge to the node; None where the node is an atom.
    fn form_of(&self, node: u64) -> Option<&Form>
        ensures node { IfSome result (λ form. form.now.edge.node ≡ node) }
        ensures form { IfSome result (λ form. (nodes : List Node) → IsFormed nodes self.now → IsForm nodes form.now) }
    {
        let place = self.index.place_of_node(node)?;
        let form = self.forms.get(place)?;
        if form.edge.node == node {
            Some(form)
        } else {
            None
        }
    }

    /// The edge that stands for an edge.
    fn image(&self, edge: Edge) -> Edge
        ensures { (nodes : List Node) → IsEdge nodes edge → IsFormed nodes self.now → HasValue nodes result (λ w. value_of w edge) }
    {
        self.map.image_of(edge)
    }

    /// The edge stands for the node from now on.
    fn map_to(&mut self, aig: &Aig, node: u64, edge: Edge) -> Result<(), OutOfMemory>
        requires within { node < length aig.now }
        requires value { HasValue aig.now edge (λ w. w node) }
        requires formed { IsFormed aig.now self.old }
        ensures formed { IsFormed aig.now self.new }
        ensures limit { self.new.limit ≡ self.old.limit }
    {
        self.map.put(aig, node, edge)
    }
}
