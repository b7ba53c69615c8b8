//! Functions of one to three nodes that are as it is wanted.

use crate::bounds::{INNER_FIRSTS, OPTIONS, PAIR_FIRSTS, TRIPLE_FIRSTS};
use crate::form::{Form, Gate, Term};
use crate::ranking::firsts;
use crate::simulating::edge_word;
use crate::wanted::Wanted;
use eco_aig::Edge;
use eco_meaning::OutOfMemory;
use eco_simulate::{mask_of, mixed};
use std::alloc::Global;

/// Where functions are looked for: the nodes of a graph with their words, a column for each place.
#[derive(Clone, Copy)]
pub(crate) struct Field<'f> {
    pub(crate) alloc: Global,
    pub(crate) nodes: u64,
    pub(crate) columns: &'f [Vec<u64>],
    /// The edges that are tried first.
    pub(crate) nets: &'f [Edge],
}

/// How much may still be done.
#[derive(Drop)]
pub(crate) struct Work {
    left: u64,
}

impl Work {
    /// So much.
    pub(crate) fn new(left: u64) -> Work {
        Work { left }
    }

    /// Counts so many words of so many nodes. Answers whether as much was left.
    pub(crate) fn spend(&mut self, nodes: u64, words: usize) -> bool {
        let amount = nodes.saturating_mul(words as u64);
        let is_enough = amount <= self.left;
        self.left = self.left.saturating_sub(amount);
        is_enough
    }
}

impl<'f> Field<'f> {
    /// Functions that are as it is wanted: constants and edges, those of nets first; if there is none, of two nodes, and then of
    /// three.
    pub(crate) fn options(
        &self,
        wanted: &Wanted,
        work: &mut Work,
    ) -> Result<Vec<Form>, OutOfMemory> {
        let mut options = Vec::new(self.alloc);
        if !work.spend(self.nodes, 2) {
            return Ok(options);
        }
        self.list(&mut options, wanted, Edge::ZERO)?;
        self.list_nets(&mut options, wanted)?;
        self.list_nodes(&mut options, wanted)?;
        if options.is_empty() {
            self.list_pairs(&mut options, wanted, work)?;
        }
        if options.is_empty() {
            self.list_triples(&mut options, wanted, work)?;
        }
        Ok(options)
    }

    /// Lists the edge with each sign with which it is as it is wanted.
    fn list(
        &self,
        options: &mut Vec<Form>,
        wanted: &Wanted,
        edge: Edge,
    ) -> Result<(), OutOfMemory> {
        if wanted.agrees(self.columns, edge) {
            push(options, Form::literal(edge))?;
        }
        if wanted.agrees(self.columns, edge.not()) {
            push(options, Form::literal(edge.not()))?;
        }
        Ok(())
    }

    /// Lists edges of nets.
    fn list_nets(&self, options: &mut Vec<Form>, wanted: &Wanted) -> Result<(), OutOfMemory> {
        for edge in self.nets {
            if edge.node < self.nodes {
                self.list(options, wanted, *edge)?;
            }
        }
        Ok(())
    }

    /// Lists edges to nodes.
    fn list_nodes(&self, options: &mut Vec<Form>, wanted: &Wanted) -> Result<(), OutOfMemory> {
        for node in 1..self.nodes {
            self.list(options, wanted, edge_to(node))?;
        }
        Ok(())
    }

    /// The first edge that is as it is wanted, those of nets before others.
    fn literal(&self, wanted: &Wanted) -> Option<Edge> {
        for edge in self.nets {
            if edge.node < self.nodes {
                if let Some(sign) = wanted.sign_of(self.columns, *edge) {
                    return Some(signed(*edge, sign));
                }
            }
        }
        self.literal_of_nodes(wanted)
    }

    /// The first edge to a node that is as it is wanted.
    fn literal_of_nodes(&self, wanted: &Wanted) -> Option<Edge> {
        for node in 1..self.nodes {
            if let Some(sign) = wanted.sign_of(self.columns, edge_to(node)) {
                return Some(signed(edge_to(node), sign));
            }
        }
        None
    }

    /// Lists functions of two nodes.
    fn list_pairs(
        &self,
        options: &mut Vec<Form>,
        wanted: &Wanted,
        work: &mut Work,
    ) -> Result<(), OutOfMemory> {
        let firsts = firsts(self, wanted, PAIR_FIRSTS, false)?;
        for term in &firsts {
            if let Some(form) = self.beside(wanted, *term, work)? {
                push(options, form)?;
            }
        }
        if let Some(form) = self.exclusive(wanted, work)? {
            push(options, form)?;
        }
        Ok(())
    }

    /// A function of two nodes, the first of which is given.
    fn beside(
        &self,
        wanted: &Wanted,
        term: Term,
        work: &mut Work,
    ) -> Result<Option<Form>, OutOfMemory> {
        if !work.spend(self.nodes, 2) {
            return Ok(None);
        }
        let rest = wanted.rest(self.alloc, self.columns, term)?;
        match self.literal(&rest) {
            None => Ok(None),
            Some(edge) => Ok(Some(Form::literal(edge).with(term))),
        }
    }

    /// The first function of two nodes that is found, of few first operands.
    fn pair(&self, wanted: &Wanted, work: &mut Work) -> Result<Option<Form>, OutOfMemory> {
        let firsts = firsts(self, wanted, INNER_FIRSTS, false)?;
        for term in &firsts {
            if let Some(form) = self.beside(wanted, *term, work)? {
                return Ok(Some(form));
            }
        }
        self.exclusive(wanted, work)
    }

    /// Lists functions of three nodes.
    fn list_triples(
        &self,
        options: &mut Vec<Form>,
        wanted: &Wanted,
        work: &mut Work,
    ) -> Result<(), OutOfMemory> {
        let firsts = firsts(self, wanted, TRIPLE_FIRSTS, true)?;
        for term in &firsts {
            if options.len() < OPTIONS {
                let rest = wanted.rest(self.alloc, self.columns, *term)?;
                if let Some(form) = self.pair(&rest, work)? {
                    push(options, form.with(*term))?;
                }
            }
        }
        Ok(())
    }

    /// The exclusive disjunction of two nodes, or its complement. Nodes are looked up by a key of their words where something is
    /// wanted, so that this takes n log n.
    fn exclusive(&self, wanted: &Wanted, work: &mut Work) -> Result<Option<Form>, OutOfMemory> {
        if !work.spend(self.nodes, self.columns.len().saturating_mul(2)) {
            return Ok(None);
        }
        let keys = self.keys(wanted)?;
        for node in 1..self.nodes {
            if let Some(form) = self.partner(wanted, keys.as_slice(), node)? {
                return Ok(Some(form));
            }
        }
        Ok(None)
    }

    /// The keys of all nodes with their numbers, in order.
    fn keys(&self, wanted: &Wanted) -> Result<Vec<(u64, u64)>, OutOfMemory> {
        let mut keys = Vec::new(self.alloc);
        for node in 1..self.nodes {
            keys.push((self.key(wanted, node, false), node))?;
        }
        keys.sort_unstable();
        Ok(keys)
    }

    /// A key of the node's word where something is wanted, or of what it would have to be joined with; the same for the
    /// complement.
    fn key(&self, wanted: &Wanted, node: u64, is_partner: bool) -> u64 {
        let mut key = 0;
        let mut flip = None;
        for (place, column) in self.columns.iter().enumerate() {
            let cared = wanted.one(place) | wanted.zero(place);
            let word = edge_word(column.as_slice(), edge_to(node));
            let word = if is_partner {
                word ^ wanted.one(place)
            } else {
                word
            };
            if flip.is_none() && cared != 0 {
                flip = Some(mask_of(word & lowest(cared) != 0));
            }
            key = mixed(key ^ (word ^ flip.unwrap_or(0)) & cared);
        }
        key
    }

    /// The exclusive disjunction of this node and another one.
    fn partner(
        &self,
        wanted: &Wanted,
        keys: &[(u64, u64)],
        node: u64,
    ) -> Result<Option<Form>, OutOfMemory> {
        let key = self.key(wanted, node, true);
        match keys.get(keys.partition_point(|pair| pair.0 < key)) {
            Some((found, other)) if *found == key => self.joined(wanted, node, *other),
            _ => Ok(None),
        }
    }

    /// The exclusive disjunction of the two nodes, if it is as it is wanted with some sign.
    fn joined(&self, wanted: &Wanted, node: u64, other: u64) -> Result<Option<Form>, OutOfMemory> {
        let term = Term {
            gate: Gate::Xor,
            edge: edge_to(node),
        };
        let rest = wanted.rest(self.alloc, self.columns, term)?;
        match rest.sign_of(self.columns, edge_to(other)) {
            None => Ok(None),
            Some(sign) => Ok(Some(Form::literal(signed(edge_to(other), sign)).with(term))),
        }
    }
}

/// Lists the form, if there is room.
fn push(options: &mut Vec<Form>, form: Form) -> Result<(), OutOfMemory> {
    if options.len() < OPTIONS {
        options.push(form)?;
    }
    Ok(())
}

/// The edge to the node that is no complement.
fn edge_to(node: u64) -> Edge {
    Edge {
        node,
        complemented: false,
    }
}

/// The edge, complemented if the sign is set.
fn signed(edge: Edge, sign: bool) -> Edge {
    if sign { edge.not() } else { edge }
}

/// The lowest bit that is set.
fn lowest(word: u64) -> u64 {
    word & (!word).wrapping_add(1)
}
