//! What the search is to refute, one after the other.

use crate::candidates::Candidates;
use crate::network::Network;
use crate::signal::Signal;
use crate::words::Words;
use eco_meaning::OutOfMemory;
use eco_trace::Lit;
use std::alloc::Global;

/// How often pairs of nodes are gone through.
const PAIR_ROUNDS: u32 = 5;

/// How many clauses may be learnt for a pair in the first of these rounds.
const PAIR_LIMIT: u64 = 20;

/// How many times as many in each further one.
const PAIR_GROWTH: u64 = 5;

/// How often the differences are gone through.
const DIFFERENCE_ROUNDS: u32 = 6;

/// How many clauses may be learnt for a difference in the first of these rounds.
const DIFFERENCE_LIMIT: u64 = 1000;

/// How many times as many in each further one.
const DIFFERENCE_GROWTH: u64 = 4;

/// Two literals that hardly are true together.
#[derive(Clone, Copy)]
pub(crate) struct Hint {
    pub(crate) first: Lit,
    pub(crate) second: Lit,
}

impl Hint {
    /// The signals are true together.
    pub(crate) fn of(first: Signal, second: Signal) -> Hint {
        Hint {
            first: first.lit(),
            second: second.lit(),
        }
    }
}

/// What is gone through.
#[derive(Clone, Copy)]
enum Stage {
    /// The nodes that look like earlier ones, in the network's order.
    Pairs,
    /// The literals that tell where outputs differ.
    Differences,
    /// Nothing any more.
    Ended,
}

/// What is asked next. A pair is asked twice: the one without the other, and the other without the one.
#[derive(Drop)]
pub(crate) struct Queue {
    stage: Stage,
    round: u32,
    place: usize,
    is_second: bool,
    /// Whether something is left of this round for another one.
    has_left: bool,
    /// The nodes that are the same as their candidates.
    is_settled: Vec<bool>,
}

impl Queue {
    /// Nothing is asked.
    pub(crate) fn new(alloc: Global) -> Queue {
        Queue {
            stage: Stage::Ended,
            round: 0,
            place: 0,
            is_second: false,
            has_left: false,
            is_settled: Vec::new(alloc),
        }
    }

    /// So many nodes are asked about.
    pub(crate) fn begin(&mut self, nodes: usize) -> Result<(), OutOfMemory> {
        self.is_settled.clear();
        for _ in 0..nodes {
            self.is_settled.push(false)?;
        }
        self.enter(Stage::Pairs);
        Ok(())
    }

    /// Begins with the stage.
    fn enter(&mut self, stage: Stage) {
        self.stage = stage;
        self.round = 0;
        self.rewind();
    }

    /// Begins again with the stage's first hint.
    fn rewind(&mut self) {
        self.place = 0;
        self.is_second = false;
        self.has_left = false;
    }

    /// Whether nothing is asked any more.
    pub(crate) fn is_ended(&self) -> bool {
        matches!(self.stage, Stage::Ended)
    }

    /// How many clauses may be learnt for a hint.
    pub(crate) fn limit(&self) -> u64 {
        match self.stage {
            Stage::Pairs => grown(PAIR_LIMIT, PAIR_GROWTH, self.round),
            Stage::Differences => grown(DIFFERENCE_LIMIT, DIFFERENCE_GROWTH, self.round),
            Stage::Ended => 0,
        }
    }

    /// What to refute next; None where a round ends.
    pub(crate) fn next(
        &mut self,
        network: &Network,
        words: &Words,
        candidates: &Candidates,
    ) -> Option<Hint> {
        match self.stage {
            Stage::Pairs => {
                let hint = self.next_pair(network, words, candidates);
                if hint.is_none() {
                    self.end_pairs();
                }
                hint
            }
            Stage::Differences => {
                let hint = self.next_difference(network);
                if hint.is_none() {
                    self.end_differences();
                }
                hint
            }
            Stage::Ended => None,
        }
    }

    fn next_pair(
        &mut self,
        network: &Network,
        words: &Words,
        candidates: &Candidates,
    ) -> Option<Hint> {
        for place in self.place..network.order.len() {
            if place != self.place {
                self.step();
            }
            if let Some(hint) = self.pair(network, words, candidates) {
                return Some(hint);
            }
        }
        None
    }

    /// The hint of the present node.
    fn pair(&self, network: &Network, words: &Words, candidates: &Candidates) -> Option<Hint> {
        let node = self.node(network)?;
        let is_settled = self.is_settled.get(node).copied().unwrap_or(true);
        if is_settled || !network.is_reached(node) {
            return None;
        }
        let other = candidates.of(node)?;
        let are_turned = words.phase(node) != words.phase(other);
        let first = Signal::plain(node).turned(self.is_second);
        let second = Signal::plain(other).turned(self.is_second == are_turned);
        Some(Hint::of(first, second))
    }

    /// The present node, where pairs are gone through.
    pub(crate) fn node(&self, network: &Network) -> Option<usize> {
        match self.stage {
            Stage::Pairs => network.order.get(self.place).copied(),
            _ => None,
        }
    }

    /// The hint of the next difference that has a gate.
    fn next_difference(&mut self, network: &Network) -> Option<Hint> {
        for place in self.place..network.differences.len() {
            self.place = place;
            if let Some(difference) = network.differences.get(place).copied() {
                if network.gate(difference.node).is_some() {
                    return Some(Hint::of(difference, difference));
                }
            }
        }
        None
    }

    /// Goes on to what comes next.
    fn step(&mut self) {
        self.place = self.place.saturating_add(1);
        self.is_second = false;
    }

    /// A round of pairs ends.
    fn end_pairs(&mut self) {
        self.round = self.round.saturating_add(1);
        if self.has_left && self.round < PAIR_ROUNDS {
            self.rewind();
        } else {
            self.enter(Stage::Differences);
        }
    }

    /// A round of differences ends.
    fn end_differences(&mut self) {
        self.round = self.round.saturating_add(1);
        if self.has_left && self.round < DIFFERENCE_ROUNDS {
            self.rewind();
        } else {
            self.enter(Stage::Ended);
        }
    }

    /// The present hint is refuted.
    pub(crate) fn refuted(&mut self, network: &Network) {
        match self.node(network) {
            None => self.step(),
            Some(node) => self.refuted_pair(node),
        }
    }

    /// The same of a pair: the other way round is asked next, if it wasn't yet.
    fn refuted_pair(&mut self, node: usize) {
        if !self.is_second {
            self.is_second = true;
            return;
        }
        if let Some(is) = self.is_settled.get_mut(node) {
            *is = true;
        }
        self.step();
    }

    /// The present hint is left for another round.
    pub(crate) fn leave(&mut self) {
        self.has_left = true;
        self.step();
    }

    /// The node has another candidate now, which is asked next.
    pub(crate) fn again(&mut self) {
        self.is_second = false;
    }
}

/// The limit of a round, if it grows so many times from each to the next.
fn grown(first: u64, times: u64, round: u32) -> u64 {
    first.saturating_mul(times.saturating_pow(round))
}
