//! Which node is to be replaced next, and by how many gates.

use crate::divisors::Cone;
use crate::finding::{Field, Finding};
use crate::network::{MOST_INPUTS, Network};
use crate::observing::{Observer, Wanted};
use crate::patterns::Patterns;
use eco_meaning::OutOfMemory;
use std::alloc::Global;

/// How many functions are proposed for a target.
const QUESTIONS: usize = 1_000;

/// How many are proposed for a node.
const TRIES: usize = 12;

/// How many are proposed at most for the root at first, when few patterns are known.
const FIRST_TRIES: usize = 200;

/// How much work is done for a target: pairs of signatures that are compared.
const WORK: u64 = 400_000_000;

/// How many nodes are visited for a target.
const VISITS: usize = 100_000;

/// The most gates that are tried in place of a node.
const MOST_GATES: usize = 3;

/// The most gates that a function may have.
const MOST_NODES: usize = 6_000;

/// Where the search is. Rounds go over the nodes from the root down; a round tries so many gates in place of a node.
#[derive(Drop)]
pub(crate) struct Search {
    gates: usize,
    /// The node that is visited.
    node: usize,
    /// How many functions may still be proposed for it.
    tries: usize,
    /// Whether it is the first visit to the root.
    is_first: bool,
    /// Whether the round has changed anything.
    has_changed: bool,
    is_over: bool,
    questions: usize,
    visits: usize,
    cone: Cone,
    pub(crate) finding: Finding,
}

impl Search {
    /// A search that is over.
    pub(crate) fn new(alloc: Global) -> Search {
        Search {
            gates: 0,
            node: 0,
            tries: 0,
            is_first: true,
            has_changed: false,
            is_over: true,
            questions: 0,
            visits: 0,
            cone: Cone::new(alloc),
            finding: Finding::new(alloc),
        }
    }

    /// Begins at the root.
    pub(crate) fn begin(&mut self, network: &Network) {
        self.is_over = is_small(network) || is_large(network);
        self.node = network.gates.len().saturating_sub(1);
        let tries = network.inputs_reached().saturating_mul(4).saturating_add(8);
        self.tries = if tries < FIRST_TRIES {
            tries
        } else {
            FIRST_TRIES
        };
    }

    /// Goes on to the next function that is worth a question, which is left in the finding. Answers whether there is one.
    pub(crate) fn advance(
        &mut self,
        alloc: Global,
        network: &Network,
        observer: &mut Observer,
        patterns: &Patterns,
    ) -> Result<bool, OutOfMemory> {
        for _ in 0..VISITS {
            if self.is_spent() {
                break;
            }
            if self.visit(alloc, network, observer, patterns)? {
                self.questions = self.questions.saturating_add(1);
                return Ok(true);
            }
            self.leave(network);
        }
        Ok(false)
    }

    /// Whether nothing more is proposed.
    fn is_spent(&self) -> bool {
        self.is_over
            || self.questions >= QUESTIONS
            || self.visits >= VISITS
            || self.finding.work >= WORK
    }

    /// Looks for what may stand in place of the node. Answers whether there is something.
    fn visit(
        &mut self,
        alloc: Global,
        network: &Network,
        observer: &mut Observer,
        patterns: &Patterns,
    ) -> Result<bool, OutOfMemory> {
        self.visits = self.visits.saturating_add(1);
        self.finding.count(network.gates.len());
        let wanted = observer.observe(network, &patterns.valid, self.node);
        self.cone.find(network, self.node)?;
        if self.try_few(alloc, network, observer, &wanted)? {
            return Ok(true);
        }
        self.try_many(alloc, network, observer, &wanted)
    }

    /// Tries no gate and one.
    fn try_few(
        &mut self,
        alloc: Global,
        network: &Network,
        observer: &Observer,
        wanted: &Wanted,
    ) -> Result<bool, OutOfMemory> {
        self.cone
            .list(network, observer.depends.as_slice(), self.node, 100)?;
        let field = Field {
            alloc,
            network,
            values: observer.values.as_slice(),
            divisors: self.cone.divisors.as_slice(),
            node: self.node,
        };
        let dying = self.cone.dying.len();
        if self.finding.edge(&field, wanted, dying.saturating_sub(1)) {
            return Ok(true);
        }
        if dying < 2 || self.gates < 1 && !self.is_first {
            return Ok(false);
        }
        self.finding
            .one_gate(&field, wanted, dying.saturating_sub(2))
    }

    /// Tries two gates, and then three.
    fn try_many(
        &mut self,
        alloc: Global,
        network: &Network,
        observer: &Observer,
        wanted: &Wanted,
    ) -> Result<bool, OutOfMemory> {
        let dying = self.cone.dying.len();
        if self.gates >= 2 && dying > 2 && self.try_two(alloc, network, observer, wanted)? {
            return Ok(true);
        }
        if self.gates < 3 || dying < 4 {
            return Ok(false);
        }
        self.try_three(alloc, network, observer, wanted)
    }

    /// Tries two gates.
    fn try_two(
        &mut self,
        alloc: Global,
        network: &Network,
        observer: &Observer,
        wanted: &Wanted,
    ) -> Result<bool, OutOfMemory> {
        self.cone
            .list(network, observer.depends.as_slice(), self.node, 32)?;
        let field = Field {
            alloc,
            network,
            values: observer.values.as_slice(),
            divisors: self.cone.divisors.as_slice(),
            node: self.node,
        };
        let spare = self.cone.dying.len().saturating_sub(3);
        self.finding.two_gates(&field, wanted, spare, 16)
    }

    /// Tries three gates.
    fn try_three(
        &mut self,
        alloc: Global,
        network: &Network,
        observer: &Observer,
        wanted: &Wanted,
    ) -> Result<bool, OutOfMemory> {
        self.cone
            .list(network, observer.depends.as_slice(), self.node, 20)?;
        let field = Field {
            alloc,
            network,
            values: observer.values.as_slice(),
            divisors: self.cone.divisors.as_slice(),
            node: self.node,
        };
        let spare = self.cone.dying.len().saturating_sub(4);
        self.finding.three_gates(&field, wanted, spare, 6)
    }

    /// Goes on to the next node, or to the next round.
    pub(crate) fn leave(&mut self, network: &Network) {
        self.tries = TRIES;
        if self.is_first {
            self.is_first = false;
            return;
        }
        if self.node > network.own {
            self.node = self.node.saturating_sub(1);
            return;
        }
        self.node = network.gates.len().saturating_sub(1);
        self.end_round();
    }

    /// A round that changed something is done once more, the last one from none on; else the next one has one gate more.
    fn end_round(&mut self) {
        if !self.has_changed {
            self.gates = self.gates.saturating_add(1);
            self.is_over = self.gates > MOST_GATES;
        } else if self.gates >= MOST_GATES {
            self.gates = 0;
        }
        self.has_changed = false;
    }

    /// What was proposed is refused: there may be another function for the node.
    pub(crate) fn refuse(&mut self, network: &Network) {
        self.tries = self.tries.saturating_sub(1);
        if self.tries == 0 {
            self.leave(network);
        }
    }

    /// What was proposed is taken: the network is another one.
    pub(crate) fn take(&mut self, network: &Network) {
        self.has_changed = true;
        self.is_over = is_small(network);
        self.tries = TRIES;
        let last = network.gates.len().saturating_sub(1);
        if self.node > last || self.node < network.own {
            self.node = last;
        }
    }
}

/// Whether the function has one gate at most.
fn is_small(network: &Network) -> bool {
    network.size() < 2
}

/// Whether the function has too many gates, or reaches too many inputs.
fn is_large(network: &Network) -> bool {
    network.size() > MOST_NODES || network.inputs_reached() > MOST_INPUTS
}
