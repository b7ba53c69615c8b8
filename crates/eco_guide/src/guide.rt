//! The guide.

use crate::candidates::Candidates;
use crate::looking::{Looking, support};
use crate::network::Network;
use crate::pattern::Pattern;
use crate::queue::{Hint, Queue};
use crate::signal::{Signal, truth_of};
use crate::words::Words;
use eco_cdcl::{Advice, Guide};
use eco_learn::{Trail, Truth};
use eco_meaning::OutOfMemory;
use eco_trace::{Cnf, Lit};
use std::alloc::Global;

/// How many words are drawn before the search begins.
const DRAWN: usize = 16;

/// Guides a search of equality clauses: node by node, from the inputs on, it has the search refute that a node differs from an
/// earlier one that looks the same, and then that an output differs. What it has the search decide is right or wrong as any
/// decision is.
#[derive(Drop)]
pub struct EqualityGuide {
    network: Network,
    words: Words,
    candidates: Candidates,
    queue: Queue,
    looking: Looking,
    pattern: Pattern,
    /// What is asked.
    hint: Hint,
    /// Whether it is asked now.
    is_asked: bool,
    /// How many clauses were learnt for it.
    learnt: u64,
}

impl EqualityGuide {
    /// A guide that knows nothing yet.
    pub fn new(alloc: Global) -> EqualityGuide {
        EqualityGuide {
            network: Network::new(alloc),
            words: Words::new(alloc),
            candidates: Candidates::new(alloc),
            queue: Queue::new(alloc),
            looking: Looking::new(alloc),
            pattern: Pattern::new(alloc),
            hint: Hint::of(Signal::plain(0), Signal::plain(0)),
            is_asked: false,
            learnt: 0,
        }
    }

    /// Draws the first words, and finds what looks the same.
    fn draw(&mut self) -> Result<(), OutOfMemory> {
        for _ in 0..DRAWN {
            self.words.draw(&self.network);
            if self.pattern.find(&self.network, &self.words)? {
                return Ok(());
            }
        }
        self.candidates.find(&self.network, &self.words);
        Ok(())
    }

    /// What to do next.
    fn advice(&mut self, trail: &Trail) -> Result<Advice, OutOfMemory> {
        if self.pattern.is_found() && !self.is_asked {
            return Ok(self.pattern.advice(trail));
        }
        for _ in 0..self.turns() {
            if let Some(advice) = self.turn(trail)? {
                return Ok(advice);
            }
        }
        Ok(Advice::Nothing)
    }

    /// More hints than this are not gone through at once.
    fn turns(&self) -> usize {
        self.network.len().saturating_mul(4).saturating_add(64)
    }

    /// Goes on with the hint that is asked, or to the next one.
    fn turn(&mut self, trail: &Trail) -> Result<Option<Advice>, OutOfMemory> {
        if self.is_asked {
            return self.ask(trail);
        }
        if self.queue.is_ended() {
            return Ok(Some(Advice::Nothing));
        }
        if trail.level() > 0 {
            return Ok(Some(Advice::Restart));
        }
        if let Some(hint) = self
            .queue
            .next(&self.network, &self.words, &self.candidates)
        {
            self.hint = hint;
            self.is_asked = true;
            self.learnt = 0;
        }
        Ok(None)
    }

    /// Goes on with the hint that is asked.
    fn ask(&mut self, trail: &Trail) -> Result<Option<Advice>, OutOfMemory> {
        if self.is_refuted(trail) {
            self.is_asked = false;
            self.queue.refuted(&self.network);
            return Ok(None);
        }
        if self.learnt > self.queue.limit() {
            self.is_asked = false;
            self.queue.leave();
            return Ok(None);
        }
        match self.wanted(trail) {
            Some(lit) => Ok(Some(Advice::Decide(lit))),
            None => self.differ(trail),
        }
    }

    /// Whether one of the hint's literals is false.
    fn is_refuted(&self, trail: &Trail) -> bool {
        matches!(truth_of(trail, self.hint.first), Truth::False)
            || matches!(truth_of(trail, self.hint.second), Truth::False)
    }

    /// What is to be decided so that the hint's literals are true, and the operands of all gates give them their values.
    fn wanted(&mut self, trail: &Trail) -> Option<Lit> {
        for lit in [self.hint.first, self.hint.second] {
            if matches!(truth_of(trail, lit), Truth::Open) {
                return Some(lit);
            }
        }
        for lit in [self.hint.first, self.hint.second] {
            let wanted = support(&self.network, trail, lit);
            if wanted.is_some() {
                return wanted;
            }
        }
        self.looking.next(&self.network, trail)
    }

    /// The nodes differ at the values of the trail, which are simulated, unless that was done so often that it would take long.
    fn differ(&mut self, trail: &Trail) -> Result<Option<Advice>, OutOfMemory> {
        self.is_asked = false;
        if self.words.is_spent() {
            self.queue.leave();
            return Ok(None);
        }
        let before = self.candidate();
        self.words.follow(&self.network, trail);
        self.candidates.find(&self.network, &self.words);
        if before == self.candidate() {
            self.queue.leave();
        } else {
            self.queue.again();
        }
        let _ = self.pattern.find(&self.network, &self.words)?;
        if trail.level() > 0 {
            Ok(Some(Advice::Restart))
        } else {
            Ok(Some(Advice::Nothing))
        }
    }

    /// What the node that is asked about looks like.
    fn candidate(&self) -> Option<usize> {
        self.candidates.of(self.queue.node(&self.network)?)
    }
}

impl Guide for EqualityGuide {
    fn begin(&mut self, alloc: Global, cnf: &Cnf) -> Result<(), OutOfMemory> {
        self.network.read(alloc, cnf)?;
        let nodes = self.network.len();
        self.words.begin(nodes)?;
        self.candidates.begin(nodes)?;
        self.queue.begin(nodes)?;
        self.looking.begin();
        self.pattern.begin();
        self.is_asked = false;
        self.draw()
    }

    fn advise(&mut self, trail: &Trail) -> Result<Advice, OutOfMemory> {
        self.looking.settle(trail.level())?;
        let advice = self.advice(trail)?;
        if !matches!(advice, Advice::Restart) {
            self.looking.open()?;
        }
        Ok(advice)
    }

    fn learnt(&mut self) {
        self.learnt = self.learnt.saturating_add(1);
        self.pattern.rewind();
    }
}
