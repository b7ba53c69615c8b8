//! The search for a smaller function.

use crate::emitting::{Replacement, Written};
use crate::network::Network;
use crate::observing::Observer;
use crate::patterns::Patterns;
use crate::search::Search;
use eco_aig::{Aig, Edge};
use eco_keyed::Keyed;
use eco_meaning::OutOfMemory;
use std::alloc::Global;

/// A function that may stand in place of the given one: an edge of a graph of its own, whose inputs are as many as those
/// of the given graph, in the same order.
#[derive(Drop)]
pub struct Candidate {
    pub aig: Aig,
    pub root: Edge,
}

/// A search for a smaller function: it proposes candidates one by one, and hears of each what came of it. A candidate is right at
/// all inputs that were told so far.
#[derive(Drop)]
pub struct Attempt {
    alloc: Global,
    keyed: Keyed,
    network: Network,
    patterns: Patterns,
    observer: Observer,
    search: Search,
    /// Whether a candidate waits for what comes of it.
    is_asked: bool,
}

impl Attempt {
    /// The last of the roots is to be replaced by a function that needs fewer gates; what the others reach is there anyway.
    /// Errors: out of memory.
    pub fn new(alloc: Global, aig: &Aig, roots: &[Edge]) -> Result<Attempt, OutOfMemory> {
        let mut attempt = Attempt {
            alloc,
            keyed: aig.hasher(),
            network: Network::new(alloc),
            patterns: Patterns::new(alloc),
            observer: Observer::new(alloc),
            search: Search::new(alloc),
            is_asked: false,
        };
        match attempt.begin(aig, roots) {
            Ok(()) => Ok(attempt),
            Err(error) => {
                drop(attempt);
                Err(error)
            }
        }
    }

    /// Reads the functions.
    fn begin(&mut self, aig: &Aig, roots: &[Edge]) -> Result<(), OutOfMemory> {
        self.network.read(self.alloc, aig, roots)?;
        self.patterns.begin(self.network.inputs)?;
        self.observer.simulate(&self.network, &self.patterns)?;
        self.search.begin(&self.network);
        Ok(())
    }

    /// The next function to be asked, or none where the search ends. Errors: out of memory.
    pub fn next(&mut self) -> Result<Option<Candidate>, OutOfMemory> {
        let is_found = self.search.advance(
            self.alloc,
            &self.network,
            &mut self.observer,
            &self.patterns,
        )?;
        self.is_asked = is_found;
        if !is_found {
            return Ok(None);
        }
        match self.candidate() {
            Ok(candidate) => Ok(Some(candidate)),
            Err(error) => Err(error),
        }
    }

    /// The function with what was found in place of the node.
    fn candidate(&self) -> Result<Candidate, OutOfMemory> {
        let mut written = self.begun()?;
        let replacement = &self.search.finding.replacement;
        match written.write(&self.network, replacement, self.network.root()) {
            Ok(root) => Ok(Candidate {
                aig: written.into_graph(),
                root,
            }),
            Err(error) => {
                drop(written);
                Err(error)
            }
        }
    }

    /// A graph that has the inputs alone.
    fn begun(&self) -> Result<Written, OutOfMemory> {
        Written::new(
            self.alloc,
            self.keyed,
            &self.network,
            &self.search.finding.replacement,
        )
    }

    /// The function that was proposed last is one that may stand in place of the given one: the search goes on from it.
    /// Errors: out of memory.
    pub fn taken(&mut self) -> Result<(), OutOfMemory> {
        if !self.is_asked {
            return Ok(());
        }
        self.is_asked = false;
        let mut written = self.begun()?;
        let outcome = self.read_back(&mut written);
        drop(written);
        outcome?;
        self.search.take(&self.network);
        Ok(())
    }

    /// Writes all functions with what was found in place of the node, and reads them.
    fn read_back(&mut self, written: &mut Written) -> Result<(), OutOfMemory> {
        let roots = write_all(
            self.alloc,
            written,
            &self.network,
            &self.search.finding.replacement,
        )?;
        self.network
            .read(self.alloc, &written.aig, roots.as_slice())?;
        self.observer.simulate(&self.network, &self.patterns)
    }

    /// It isn't: at these values of the inputs it has to be `part`. Errors: none now.
    pub fn refused(&mut self, part: bool, bits: &[bool]) -> Result<(), OutOfMemory> {
        let word = self.patterns.add(part, bits);
        self.observer
            .simulate_word(&self.network, &self.patterns, word);
        if self.is_asked {
            self.is_asked = false;
            self.search.refuse(&self.network);
        }
        Ok(())
    }

    /// It isn't known whether it may: the search goes on with another node. Errors: none now.
    pub fn unknown(&mut self) -> Result<(), OutOfMemory> {
        if self.is_asked {
            self.is_asked = false;
            self.search.leave(&self.network);
        }
        Ok(())
    }
}

/// Writes all functions of the network. Answers their edges in the graph.
fn write_all(
    alloc: Global,
    written: &mut Written,
    network: &Network,
    replacement: &Replacement,
) -> Result<Vec<Edge>, OutOfMemory> {
    let mut roots = Vec::new(alloc);
    for root in &network.roots {
        let edge = written.write(network, replacement, *root)?;
        roots.push(edge)?;
    }
    Ok(roots)
}
