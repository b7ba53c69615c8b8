//! Learning from a clause that is wrong.

ghost use Rattle.std.specs.Prelude.{◌≡◌, [], Some, IfOk, OnErr};
ghost use Rattle.eco_trace.specs.Resolution.{Gives, clauses_of};
ghost use Rattle.eco_learn.specs.Trails.{Known};
ghost use Rattle.eco_learn.specs.Lessons.{IsTaught};
ghost use Rattle.eco_learn.specs.Marks.{IsWalked};
ghost use Rattle.eco_learn.specs.Chains.{IsChainSoFar};

use crate::asserting::assertion;
use crate::chain::Chain;
use crate::choosing::write_chosen;
use crate::lesson::Lesson;
use crate::trail::Trail;
use eco_meaning::OutOfMemory;
use eco_trace::{Lit, NodeId, Trace};
use std::alloc::Global;
use std::marker;

/// What learning uses again and again: the clause so far, the places of its literals, and the clause that is learnt.
#[derive(Drop)]
pub struct Learner {
    chain: Chain,
    places: Vec<usize>,
    clause: Vec<Lit>,
}

impl marker::Model for Learner {
    ghost use Rattle.std.specs.Prelude.{◌-◌, ◌≤◌, length};
    ghost use Rattle.eco_learn.specs.Lessons.{Learning};

    ghost Value = { Learning };

    ghost view = { λ l. record { vars = length l.chain.marks - 1 } };

    ghost invariant = { λ l. 1 ≤ length l.chain.marks };
}

impl Learner {
    ghost use Rattle.std.specs.Prelude.{◌≡◌, IfOk, OnErr};
    ghost use Rattle.eco_trace.specs.Resolution.{clauses_of};
    ghost use Rattle.eco_learn.specs.Reasons.{IsJustified, IsWrong};
    ghost use Rattle.eco_learn.specs.Lessons.{IsTaught};

    /// A learner for clauses of the variables from 1 to `vars`. There is no memory for more than 2^31 - 1 of them.
    pub fn new(alloc: Global, vars: u64) -> Result<Learner, OutOfMemory>
        ensures { IfOk result (λ learner. learner.vars ≡ vars) }
    {
        let chain = Chain::new(alloc, vars)?;
        Ok(Learner {
            chain,
            places: Vec::new(alloc),
            clause: Vec::new(alloc),
        })
    }

    /// One literal of each variable that learning came to last: those of the clause that was learnt, and those that it
    /// was resolved on.
    pub fn found(&self) -> &[Lit] {
        self.chain.marks.found()
    }

    /// Learns from a clause that is wrong: writes a chain that begins with it, and puts what it gives into the proof. If
    /// all its literals are of level 0, that is the empty clause; otherwise it is the clause of the first unique
    /// implication point of the highest level among them.
    pub fn learn(
        &mut self,
        trail: &Trail,
        trace: &mut Trace,
        wrong: NodeId,
    ) -> Result<Lesson, OutOfMemory>
        requires room { self.old.vars ≡ trail.now.vars }
        requires justified { IsJustified (clauses_of trace.old) trail.now }
        requires wrong { IsWrong (clauses_of trace.old) trail.now.lits wrong }
        ensures room { self.new.vars ≡ self.old.vars }
        ensures taught { IfOk result (IsTaught trace.old trace.new trail.now) }
        ensures err { OnErr result (trace.new ≡ trace.old) }
    {
        match self.chain.walk(trail, trace, wrong)? {
            None => refute(&self.chain, trace),
            Some(place) => {
                self.chain.minimise(&mut self.places, trail, trace, place)?;
                assert_at(&self.chain, &mut self.clause, trail, trace, place)
            }
        }
    }
}

/// Puts the empty clause into the proof, which the chain gives.
fn refute(chain: &Chain, trace: &mut Trace) -> Result<Lesson, OutOfMemory>
    requires empty { Gives (clauses_of trace.old) chain.now.start chain.now.links.items [] }
    ensures taught { (known : Known) → IfOk result (IsTaught trace.old trace.new known) }
    ensures err { OnErr result (trace.new ≡ trace.old) }
{
    let _ = trace.push(chain.start, chain.links.as_slice(), &[])?;
    Ok(Lesson::Refuted)
}

/// Puts the clause that is marked into the proof, which the chain gives, and tells where it forces a literal.
fn assert_at(
    chain: &Chain,
    clause: &mut Vec<Lit>,
    trail: &Trail,
    trace: &mut Trace,
    place: usize,
) -> Result<Lesson, OutOfMemory>
    requires so_far { IsChainSoFar (clauses_of trace.old) trail.now chain.now }
    requires walked { IsWalked trail.now chain.now.marks (Some place) }
    ensures taught { IfOk result (IsTaught trace.old trace.new trail.now) }
    ensures err { OnErr result (trace.new ≡ trace.old) }
{
    write_chosen(&chain.marks, trail, clause)?;
    let learnt = clause.as_slice();
    let links = chain.links.as_slice();
    let node = trace.push(chain.start, links, learnt)?;
    let lit = trail.lit(place).complement();
    Ok(Lesson::Asserted(assertion(trail, learnt, node, lit)))
}
