//! The search: propagation and decisions up to a conflict, from which a clause is learnt, again and again.

ghost use Rattle.std.specs.Prelude.{◌≡◌, ◌≤◌, ◌+◌, ◌<◌, [], List, Some, IfOk, MatchOption, length, slice_get};
ghost use Rattle.eco_trace.specs.declared.clause.Lit.{Lit as Literal};
ghost use Rattle.eco_trace.specs.Clauses.{AreFormed, Clauses};
ghost use Rattle.eco_trace.specs.Resolution.{Proof, clauses_of};
ghost use Rattle.eco_trace.specs.Verdicts.{IsSpent};
ghost use Rattle.eco_learn.specs.Lessons.{Adds, IsAsserting};
ghost use Rattle.eco_learn.specs.Reasons.{IsWrong};
ghost use Rattle.eco_cdcl.specs.Watching.{IsReady};
ghost use Rattle.eco_cdcl.specs.Steps.{AllHold, IsEnded, IsOn, IsStepped, IsTurned};

use crate::choice::{choose, is_restart, release, reward};
use crate::guide::Guide;
use crate::turn::{Ending, Step, Turn};
use crate::watching::Watching;
use eco_learn::{Assertion, Learner, Lesson, Order};
use eco_meaning::OutOfMemory;
use eco_trace::{Lit, NodeId, Trace};
use std::alloc::Global;

/// How many clauses are learnt before the first restart.
const FIRST_PAUSE: u64 = 128;

/// How often, between one learnt clause and the next, the search begins again because its guide asks for it: so many times, and
/// as many more for each variable.
const MOST_RESTARTS: u64 = 16;

/// A search. After so many learnt clauses it begins again from level 0, and the pause before the next restart is twice
/// as long.
#[derive(Drop)]
pub struct Search {
    pub watching: Watching,
    pub learner: Learner,
    order: Order,
    phases: Vec<bool>,
    pause: u64,
    left: u64,
}

impl Search {
    /// A search over the variables up to `vars`, in which no clause watches yet.
    pub fn new(alloc: Global, vars: u64) -> Result<Search, OutOfMemory>
        ensures ready { (clauses : List (List Literal)) → AreFormed (record { vars = vars; clauses = clauses })
            → IfOk result (λ s. IsReady clauses s.watching.trail s.watching.done s.watching.pairs s.watching.lists) }
        ensures done { IfOk result (λ s. s.watching.done ≡ 0) }
        ensures marks { IfOk result (λ s. s.watching.trail.marks ≡ []) }
        ensures vars { IfOk result (λ s. s.watching.trail.vars ≡ vars) }
        ensures none { IfOk result (λ s. s.watching.pairs ≡ []) }
        ensures room { IfOk result (λ s. s.learner.vars ≡ vars) }
    {
        let phases = no_phases(alloc, vars)?;
        let order = Order::new(alloc, vars)?;
        let learner = Learner::new(alloc, vars)?;
        let watching = Watching::new(alloc, vars)?;
        Ok(Search {
            watching,
            learner,
            order,
            phases,
            pause: FIRST_PAUSE,
            left: FIRST_PAUSE,
        })
    }

    /// What the search comes to: it begins with all clauses of the proof, and learns at most as many as the limit allows.
    pub fn ending<G: Guide>(
        &mut self,
        guide: &mut G,
        trace: &mut Trace,
        limit: u64,
    ) -> Result<Ending, OutOfMemory>
        requires ready { IsReady (clauses_of trace.old) self.old.watching.trail self.old.watching.done self.old.watching.pairs self.old.watching.lists }
        requires done { self.old.watching.done ≡ 0 }
        requires marks { self.old.watching.trail.marks ≡ [] }
        requires none { self.old.watching.pairs ≡ [] }
        requires room { self.old.learner.vars ≡ self.old.watching.trail.vars }
        requires limit { 1 ≤ limit }
        ensures vars { IfOk result (λ _. self.new.watching.trail.vars ≡ self.old.watching.trail.vars) }
        ensures ended { (cnf : Clauses) → IsSpent cnf 0 trace.old → IfOk result (IsEnded cnf limit trace.new self.new.watching.trail) }
    {
        match self.load(trace)? {
            Some(wrong) => {
                self.finish(trace, wrong)?;
                Ok(Ending::Empty)
            }
            None => self.turns(guide, trace, limit),
        }
    }

    /// All clauses of the proof begin to watch; a clause whose literals are all false is answered.
    pub fn load(&mut self, trace: &Trace) -> Result<Option<NodeId>, OutOfMemory>
        requires ready { IsReady (clauses_of trace.now) self.old.watching.trail self.old.watching.done self.old.watching.pairs self.old.watching.lists }
        requires done { self.old.watching.done ≡ 0 }
        requires marks { self.old.watching.trail.marks ≡ [] }
        requires none { self.old.watching.pairs ≡ [] }
        ensures ready { IfOk result (λ _. IsReady (clauses_of trace.now) self.new.watching.trail self.new.watching.done self.new.watching.pairs self.new.watching.lists) }
        ensures marks { IfOk result (λ _. self.new.watching.trail.marks ≡ []) }
        ensures vars { IfOk result (λ _. self.new.watching.trail.vars ≡ self.old.watching.trail.vars) }
        ensures room { IfOk result (λ _. self.new.learner.vars ≡ self.old.learner.vars) }
        ensures loaded { IfOk result (λ found. MatchOption found (length self.new.watching.pairs ≡ length (clauses_of trace.now))
            (IsWrong (clauses_of trace.now) self.new.watching.trail.lits)) }
    {
        for number in 0..trace.len() {
            if !self.watching.add(trace, NodeId(number))? {
                return Ok(Some(NodeId(number)));
            }
        }
        Ok(None)
    }

    /// Learns the empty clause from one that is wrong at level 0.
    pub fn finish(&mut self, trace: &mut Trace, wrong: NodeId) -> Result<(), OutOfMemory>
        requires ready { IsReady (clauses_of trace.old) self.old.watching.trail self.old.watching.done self.old.watching.pairs self.old.watching.lists }
        requires marks { self.old.watching.trail.marks ≡ [] }
        requires room { self.old.learner.vars ≡ self.old.watching.trail.vars }
        requires wrong { IsWrong (clauses_of trace.old) self.old.watching.trail.lits wrong }
        ensures vars { self.new.watching.trail.vars ≡ self.old.watching.trail.vars }
        ensures adds { IfOk result (λ _. Adds trace.old trace.new []) }
    {
        match self.learner.learn(&self.watching.trail, trace, wrong)? {
            Lesson::Refuted => Ok(()),
            Lesson::Asserted(_) => unreachable!(),
        }
    }

    /// Takes turns until a model is found, or the empty clause is learnt, or as many clauses as the limit allows.
    pub fn turns<G: Guide>(
        &mut self,
        guide: &mut G,
        trace: &mut Trace,
        limit: u64,
    ) -> Result<Ending, OutOfMemory>
        requires on { IsOn trace.old self.old.watching.trail self.old.watching.done self.old.watching.pairs self.old.watching.lists self.old.learner.vars }
        ensures vars { IfOk result (λ _. self.new.watching.trail.vars ≡ self.old.watching.trail.vars) }
        ensures ended { (cnf : Clauses) → IsSpent cnf 0 trace.old → IfOk result (IsEnded cnf limit trace.new self.new.watching.trail) }
    {
        for _learnt in 0..limit {
            match self.turn(guide, trace)? {
                Turn::Solved => return Ok(Ending::Model),
                Turn::Refuted => return Ok(Ending::Empty),
                Turn::Learns => {}
            }
        }
        Ok(Ending::Limit)
    }

    /// Goes on to the next conflict, and learns from it.
    fn turn<G: Guide>(&mut self, guide: &mut G, trace: &mut Trace) -> Result<Turn, OutOfMemory>
        requires on { IsOn trace.old self.old.watching.trail self.old.watching.done self.old.watching.pairs self.old.watching.lists self.old.learner.vars }
        ensures vars { IfOk result (λ _. self.new.watching.trail.vars ≡ self.old.watching.trail.vars) }
        ensures turned { IfOk result (IsTurned trace.old trace.new self.new.watching.trail self.new.watching.done self.new.watching.pairs self.new.watching.lists self.new.learner.vars) }
    {
        match self.run(guide, trace)? {
            None => Ok(Turn::Solved),
            Some(wrong) => self.learn(guide, trace, wrong),
        }
    }

    /// Takes steps up to a conflict: a clause whose literals are all false is answered; None where all variables have
    /// values. On the way it begins again as often as the guide asks for it, up to a number of times.
    fn run<G: Guide>(&mut self, guide: &mut G, trace: &Trace) -> Result<Option<NodeId>, OutOfMemory>
        requires on { IsOn trace.now self.old.watching.trail self.old.watching.done self.old.watching.pairs self.old.watching.lists self.old.learner.vars }
        ensures on { IfOk result (λ _. IsOn trace.now self.new.watching.trail self.new.watching.done self.new.watching.pairs self.new.watching.lists self.new.learner.vars) }
        ensures vars { IfOk result (λ _. self.new.watching.trail.vars ≡ self.old.watching.trail.vars) }
        ensures ran { IfOk result (λ found. MatchOption found (AllHold (clauses_of trace.now) self.new.watching.trail.lits)
            (IsWrong (clauses_of trace.now) self.new.watching.trail.lits)) }
    {
        let mut restarts = most_restarts(self.watching.trail.vars());
        'steps: loop {
            match self.step(guide, trace, restarts)? {
                Step::Decided => {}
                Step::Restarted => restarts -= 1,
                Step::Done => return Ok(None),
                Step::Conflict(wrong) => return Ok(Some(wrong)),
            }
        }
    }

    /// Propagates, and decides one more variable or begins again, which it still may this many times.
    fn step<G: Guide>(
        &mut self,
        guide: &mut G,
        trace: &Trace,
        restarts: u64,
    ) -> Result<Step, OutOfMemory>
        requires on { IsOn trace.now self.old.watching.trail self.old.watching.done self.old.watching.pairs self.old.watching.lists self.old.learner.vars }
        ensures on { IfOk result (λ _. IsOn trace.now self.new.watching.trail self.new.watching.done self.new.watching.pairs self.new.watching.lists self.new.learner.vars) }
        ensures vars { IfOk result (λ _. self.new.watching.trail.vars ≡ self.old.watching.trail.vars) }
        ensures stepped { IfOk result (IsStepped (clauses_of trace.now) restarts self.old.watching.trail self.new.watching.trail) }
    {
        match self.watching.propagate(trace)? {
            Some(wrong) => Ok(Step::Conflict(wrong)),
            None => self.branch(guide, restarts),
        }
    }

    /// Decides one more variable or begins again, once all literals were propagated.
    fn branch<G: Guide>(&mut self, guide: &mut G, restarts: u64) -> Result<Step, OutOfMemory>
        requires all { self.old.watching.done ≡ length self.old.watching.trail.lits }
        ensures on { (proof : Proof) → IsOn proof self.old.watching.trail self.old.watching.done self.old.watching.pairs self.old.watching.lists self.old.learner.vars
            → IfOk result (λ _. IsOn proof self.new.watching.trail self.new.watching.done self.new.watching.pairs self.new.watching.lists self.new.learner.vars) }
        ensures vars { IfOk result (λ _. self.new.watching.trail.vars ≡ self.old.watching.trail.vars) }
        ensures stepped { (proof : Proof) → IsOn proof self.old.watching.trail self.old.watching.done self.old.watching.pairs self.old.watching.lists self.old.learner.vars
            → IfOk result (IsStepped (clauses_of proof) restarts self.old.watching.trail self.new.watching.trail) }
    {
        let advice = guide.advise(&self.watching.trail)?;
        if restarts > 0 && is_restart(advice, &self.watching.trail) {
            self.begin_again();
            return Ok(Step::Restarted);
        }
        let phases = self.phases.as_slice();
        match choose(&mut self.order, phases, &self.watching.trail, advice) {
            None => Ok(Step::Done),
            Some(lit) => {
                self.watching.decide(lit)?;
                Ok(Step::Decided)
            }
        }
    }

    /// Learns from a clause whose literals are all false.
    fn learn<G: Guide>(
        &mut self,
        guide: &mut G,
        trace: &mut Trace,
        wrong: NodeId,
    ) -> Result<Turn, OutOfMemory>
        requires on { IsOn trace.old self.old.watching.trail self.old.watching.done self.old.watching.pairs self.old.watching.lists self.old.learner.vars }
        requires wrong { IsWrong (clauses_of trace.old) self.old.watching.trail.lits wrong }
        ensures vars { IfOk result (λ _. self.new.watching.trail.vars ≡ self.old.watching.trail.vars) }
        ensures turned { IfOk result (IsTurned trace.old trace.new self.new.watching.trail self.new.watching.done self.new.watching.pairs self.new.watching.lists self.new.learner.vars) }
    {
        self.watching.trail.is_sound();
        match self.learner.learn(&self.watching.trail, trace, wrong)? {
            Lesson::Refuted => Ok(Turn::Refuted),
            Lesson::Asserted(assertion) => {
                trace.is_sound();
                guide.learnt();
                self.take(trace, assertion)?;
                Ok(Turn::Learns)
            }
        }
    }

    /// Takes in a clause that was learnt.
    fn take(&mut self, trace: &Trace, assertion: Assertion) -> Result<(), OutOfMemory>
        requires ready { IsReady (clauses_of trace.now) self.old.watching.trail self.old.watching.done self.old.watching.pairs self.old.watching.lists }
        requires next { assertion.node.0 ≡ length self.old.watching.pairs }
        requires last { assertion.node.0 + 1 ≡ length (clauses_of trace.now) }
        requires room { self.old.learner.vars ≡ self.old.watching.trail.vars }
        requires asserting { (clause : List Literal) × (slice_get (clauses_of trace.now) assertion.node.0 ≡ Some clause)
            × IsAsserting self.old.watching.trail clause assertion }
        ensures on { IfOk result (λ _. IsOn trace.now self.new.watching.trail self.new.watching.done self.new.watching.pairs self.new.watching.lists self.new.learner.vars) }
        ensures vars { IfOk result (λ _. self.new.watching.trail.vars ≡ self.old.watching.trail.vars) }
    {
        reward(&mut self.order, self.learner.found());
        release(
            &mut self.order,
            self.phases.as_mut_slice(),
            &self.watching.trail,
            assertion.level,
        );
        self.watching.take_in(trace, assertion)?;
        self.restart();
        Ok(())
    }

    /// Begins again, if it is time.
    fn restart(&mut self)
        ensures on { (proof : Proof) → IsOn proof self.old.watching.trail self.old.watching.done self.old.watching.pairs self.old.watching.lists self.old.learner.vars
            → IsOn proof self.new.watching.trail self.new.watching.done self.new.watching.pairs self.new.watching.lists self.new.learner.vars }
        ensures vars { self.new.watching.trail.vars ≡ self.old.watching.trail.vars }
    {
        self.left = self.left.saturating_sub(1);
        if self.left > 0 {
            return;
        }
        self.pause = self.pause.saturating_mul(2);
        self.left = self.pause;
        self.begin_again();
    }

    /// Begins again from level 0.
    fn begin_again(&mut self)
        ensures on { (proof : Proof) → IsOn proof self.old.watching.trail self.old.watching.done self.old.watching.pairs self.old.watching.lists self.old.learner.vars
            → IsOn proof self.new.watching.trail self.new.watching.done self.new.watching.pairs self.new.watching.lists self.new.learner.vars }
        ensures vars { self.new.watching.trail.vars ≡ self.old.watching.trail.vars }
    {
        if self.watching.trail.level() == 0 {
            return;
        }
        release(
            &mut self.order,
            self.phases.as_mut_slice(),
            &self.watching.trail,
            0,
        );
        self.watching.cut(0);
    }
}

/// How often a search over so many variables begins again, between one learnt clause and the next, because its guide asks for it.
fn most_restarts(vars: u64) -> u64 {
    vars.saturating_mul(MOST_RESTARTS)
        .saturating_add(MOST_RESTARTS)
}

/// No variable had a value yet.
fn no_phases(alloc: Global, vars: u64) -> Result<Vec<bool>, OutOfMemory> {
    let mut phases = Vec::new(alloc);
    for _var in 0..vars {
        phases.push(false)?;
    }
    phases.push(false)?;
    Ok(phases)
}
