//! Propagation: the literals of the trail one by one, each with the clauses that watch its complement.

ghost use Rattle.std.specs.Prelude.{◌≡◌, ◌≢◌, ◌⊎◌, ◌↔◌, ◌+◌, ◌*◌, ◌-◌, ◌<◌, ◌≤◌, ℕ, List, [], ◌∷◌, Some, All, Contains, IfOk, IsTrue, MatchBool, MatchOption, length, slice_get, take};
ghost use Rattle.eco_trace.specs.declared.clause.Lit.{Lit as Literal};
ghost use Rattle.eco_trace.specs.Clauses.{complement, AreFormed, IsVarWithin, IsClause};
ghost use Rattle.eco_trace.specs.Freshness.{Lacks};
ghost use Rattle.eco_trace.specs.Resolution.{clauses_of};
ghost use Rattle.eco_learn.specs.Lessons.{IsAsserting};
ghost use Rattle.eco_learn.specs.Trails.{begun, cut_to, end_of};
ghost use Rattle.eco_learn.specs.Reasons.{IsWrong, IsFalseBut};
ghost use Rattle.eco_cdcl.specs.Entries.{Watch, list_of};
ghost use Rattle.eco_cdcl.specs.Watching.{IsReady, IsWalking, Guards};
ghost use Rattle.eco_cdcl.specs.Steps.{AreFalseBetween, IsAt, IsLast, IsLonger, IsNext, IsVisited, MayBegin};

use crate::code::Code;
use crate::entry::Entry;
use crate::lists::Lists;
use crate::pairs::Pairs;
use crate::visit::Visit;
use eco_learn::{Assertion, Trail, Truth};
use eco_meaning::OutOfMemory;
use eco_trace::{Lit, NodeId, Trace};
use std::alloc::Global;

/// A trail whose first `done` literals were propagated, the two literals that each clause watches, and the watch lists.
#[derive(Drop)]
pub struct Watching {
    pub trail: Trail,
    pub done: usize,
    pub pairs: Pairs,
    pub lists: Lists,
}

impl Watching {
    /// Goes on with the literals of the trail until each was propagated, or a clause is wrong: it is answered.
    pub fn propagate(&mut self, trace: &Trace) -> Result<Option<NodeId>, OutOfMemory>
        requires ready { IsReady (clauses_of trace.now) self.old.trail self.old.done self.old.pairs self.old.lists }
        requires full { length self.old.pairs ≡ length (clauses_of trace.now) }
        ensures ready { IfOk result (λ _. IsReady (clauses_of trace.now) self.new.trail self.new.done self.new.pairs self.new.lists) }
        ensures full { IfOk result (λ _. length self.new.pairs ≡ length (clauses_of trace.now)) }
        ensures longer { IfOk result (λ _. IsLonger self.old.trail self.new.trail) }
        ensures came { IfOk result (λ found. MatchOption found (self.new.done ≡ length self.new.trail.lits)
            (IsWrong (clauses_of trace.now) self.new.trail.lits)) }
    {
        while self.done < self.trail.len() {
            self.trail.is_sound();
            let lit = self.trail.lit(self.done).complement();
            match self.walk(trace, lit)? {
                None => {}
                Some(wrong) => return Ok(Some(wrong)),
            }
        }
        Ok(None)
    }

    /// Goes through the clauses that watch the literal, which has become false; a clause that is wrong is answered.
    fn walk(&mut self, trace: &Trace, lit: Lit) -> Result<Option<NodeId>, OutOfMemory>
        requires walking { IsWalking (clauses_of trace.now) self.old.trail self.old.done self.old.pairs self.old.lists lit 0 }
        ensures ready { IfOk result (λ _. IsReady (clauses_of trace.now) self.new.trail self.new.done self.new.pairs self.new.lists) }
        ensures full { IfOk result (λ _. length self.new.pairs ≡ length (clauses_of trace.now)) }
        ensures longer { IfOk result (λ _. IsLonger self.old.trail self.new.trail) }
        ensures came { IfOk result (λ found. MatchOption found (self.new.done ≡ self.old.done + 1)
            (IsWrong (clauses_of trace.now) self.new.trail.lits)) }
    {
        self.trail.is_sound();
        let mut at = 0;
        while at < self.lists.len(lit) {
            match self.visit(trace, lit, at)? {
                Visit::Next(next) => at = next,
                Visit::Wrong(wrong) => return Ok(Some(wrong)),
            }
        }
        self.done += 1;
        Ok(None)
    }

    /// Looks at the clause of an entry.
    fn visit(&mut self, trace: &Trace, lit: Lit, at: usize) -> Result<Visit, OutOfMemory>
        requires walking { IsWalking (clauses_of trace.now) self.old.trail self.old.done self.old.pairs self.old.lists lit at }
        requires place { at < length (list_of self.old.lists lit) }
        requires room { at < usize.MAX }
        ensures ready { IfOk result (λ _. IsReady (clauses_of trace.now) self.new.trail self.new.done self.new.pairs self.new.lists) }
        ensures full { IfOk result (λ _. length self.new.pairs ≡ length (clauses_of trace.now)) }
        ensures longer { IfOk result (λ _. IsLonger self.old.trail self.new.trail) }
        ensures done { IfOk result (λ _. self.new.done ≡ self.old.done) }
        ensures visited { IfOk result (IsVisited (clauses_of trace.now) self.new.trail self.new.done self.new.pairs self.new.lists lit
            (length (list_of self.old.lists lit) - at)) }
    {
        let entry = self.lists.entry(lit, at);
        if is_true(&self.trail, entry.blocker()) {
            return Ok(Visit::Next(at + 1));
        }
        self.look(trace, lit, at, entry.node())
    }

    /// Looks at the literals of the clause of an entry.
    fn look(
        &mut self,
        trace: &Trace,
        lit: Lit,
        at: usize,
        node: NodeId,
    ) -> Result<Visit, OutOfMemory>
        requires walking { IsWalking (clauses_of trace.now) self.old.trail self.old.done self.old.pairs self.old.lists lit at }
        requires room { at < usize.MAX }
        requires node { (w : Watch) × (slice_get (list_of self.old.lists lit) at ≡ Some w) × (w.node ≡ node) }
        ensures ready { IfOk result (λ _. IsReady (clauses_of trace.now) self.new.trail self.new.done self.new.pairs self.new.lists) }
        ensures full { IfOk result (λ _. length self.new.pairs ≡ length (clauses_of trace.now)) }
        ensures longer { IfOk result (λ _. IsLonger self.old.trail self.new.trail) }
        ensures done { IfOk result (λ _. self.new.done ≡ self.old.done) }
        ensures visited { IfOk result (IsVisited (clauses_of trace.now) self.new.trail self.new.done self.new.pairs self.new.lists lit
            (length (list_of self.old.lists lit) - at)) }
    {
        let other = self.pairs.besides(node.0 as usize, lit);
        if is_true(&self.trail, other) {
            return self.refresh(lit, at, node, other);
        }
        let from = self.pairs.from(node.0 as usize);
        let clause = self.copy(node);
        match next_watch(&self.trail, clause, other, from) {
            Some((next, place)) => self.replace(lit, at, node, other, next, place),
            None => self.force(lit, at, node, other),
        }
    }

    /// The copy of a clause.
    fn copy(&self, node: NodeId) -> &[Code]
        requires within { node.0 < length self.now.pairs }
        ensures clause { (clauses : List (List Literal)) → IsReady clauses self.now.trail self.now.done self.now.pairs self.now.lists
            → length self.now.pairs ≡ length clauses → slice_get clauses node.0 ≡ Some result.now }
    {
        self.pairs.clause(node.0 as usize)
    }

    /// The other literal that the clause watches is true, and becomes the blocker of the entry.
    fn refresh(
        &mut self,
        lit: Lit,
        at: usize,
        node: NodeId,
        other: Lit,
    ) -> Result<Visit, OutOfMemory>
        requires other { IsVarWithin self.old.trail.vars other }
        requires room { at < usize.MAX }
        requires at { IsAt self.old.pairs (list_of self.old.lists lit) lit at node other }
        requires holds { Contains self.old.trail.lits other }
        ensures ready { (clauses : List (List Literal)) → IsWalking clauses self.old.trail self.old.done self.old.pairs self.old.lists lit at
            → IfOk result (λ _. IsReady clauses self.new.trail self.new.done self.new.pairs self.new.lists) }
        ensures full { IfOk result (λ _. length self.new.pairs ≡ length self.old.pairs) }
        ensures longer { IfOk result (λ _. IsLonger self.old.trail self.new.trail) }
        ensures done { IfOk result (λ _. self.new.done ≡ self.old.done) }
        ensures visited { (clauses : List (List Literal)) → IsWalking clauses self.old.trail self.old.done self.old.pairs self.old.lists lit at
            → IfOk result (IsVisited clauses self.new.trail self.new.done self.new.pairs self.new.lists lit
            (length (list_of self.old.lists lit) - at)) }
    {
        self.trail.is_sound();
        let entry = Entry::new(node, other)?;
        self.lists.set(lit, at, entry);
        Ok(Visit::Next(at + 1))
    }

    /// The clause watches another literal in place of the false one.
    fn replace(
        &mut self,
        lit: Lit,
        at: usize,
        node: NodeId,
        other: Lit,
        next: Lit,
        place: usize,
    ) -> Result<Visit, OutOfMemory>
        requires wide { length self.old.lists ≡ 2 * self.old.trail.vars + 2 }
        requires other { IsVarWithin self.old.trail.vars other }
        requires next { IsVarWithin self.old.trail.vars next }
        requires at { IsAt self.old.pairs (list_of self.old.lists lit) lit at node other }
        ensures ready { (clauses : List (List Literal)) → IsWalking clauses self.old.trail self.old.done self.old.pairs self.old.lists lit at
            → IsNext clauses self.old.trail.lits node other next → IfOk result (λ _. IsReady clauses self.new.trail self.new.done self.new.pairs self.new.lists) }
        ensures full { IfOk result (λ _. length self.new.pairs ≡ length self.old.pairs) }
        ensures longer { IfOk result (λ _. IsLonger self.old.trail self.new.trail) }
        ensures done { IfOk result (λ _. self.new.done ≡ self.old.done) }
        ensures visited { (clauses : List (List Literal)) → IsWalking clauses self.old.trail self.old.done self.old.pairs self.old.lists lit at
            → IsNext clauses self.old.trail.lits node other next → IfOk result (IsVisited clauses self.new.trail self.new.done self.new.pairs self.new.lists lit
            (length (list_of self.old.lists lit) - at)) }
    {
        self.trail.is_sound();
        let entry = Entry::new(node, other)?;
        self.pairs.set(node.0 as usize, other, next, place);
        self.lists.take_out(lit, at);
        self.lists.push(next, entry)?;
        Ok(Visit::Next(at))
    }

    /// All literals of the clause are false, but perhaps this one: the clause forces it, or is wrong.
    fn force(&mut self, lit: Lit, at: usize, node: NodeId, other: Lit) -> Result<Visit, OutOfMemory>
        requires other { IsVarWithin self.old.trail.vars other }
        requires room { at < usize.MAX }
        requires at { IsAt self.old.pairs (list_of self.old.lists lit) lit at node other }
        ensures ready { (clauses : List (List Literal)) → IsWalking clauses self.old.trail self.old.done self.old.pairs self.old.lists lit at
            → IsLast clauses self.old.trail.lits node other → IfOk result (λ _. IsReady clauses self.new.trail self.new.done self.new.pairs self.new.lists) }
        ensures full { IfOk result (λ _. length self.new.pairs ≡ length self.old.pairs) }
        ensures longer { IfOk result (λ _. IsLonger self.old.trail self.new.trail) }
        ensures done { IfOk result (λ _. self.new.done ≡ self.old.done) }
        ensures visited { (clauses : List (List Literal)) → IsWalking clauses self.old.trail self.old.done self.old.pairs self.old.lists lit at
            → IsLast clauses self.old.trail.lits node other → IfOk result (IsVisited clauses self.new.trail self.new.done self.new.pairs self.new.lists lit
            (length (list_of self.old.lists lit) - at)) }
    {
        self.trail.is_sound();
        match self.trail.truth(other) {
            Truth::True => Ok(Visit::Next(at + 1)),
            Truth::False => Ok(Visit::Wrong(node)),
            Truth::Open => {
                self.trail.imply(other, node);
                Ok(Visit::Next(at + 1))
            }
        }
    }

    /// Nothing is known yet, and no clause watches.
    pub fn new(alloc: Global, vars: u64) -> Result<Watching, OutOfMemory>
        ensures ready { (clauses : List (List Literal)) → AreFormed (record { vars = vars; clauses = clauses })
            → IfOk result (λ w. IsReady clauses w.trail w.done w.pairs w.lists) }
        ensures begun { IfOk result (λ w. w.trail ≡ begun vars) }
        ensures done { IfOk result (λ w. w.done ≡ 0) }
        ensures none { IfOk result (λ w. w.pairs ≡ []) }
    {
        Ok(Watching {
            trail: Trail::new(alloc, vars)?,
            done: 0,
            pairs: Pairs::new(alloc),
            lists: Lists::new(alloc, vars)?,
        })
    }

    /// The next clause begins to watch, before anything was propagated; false where each of its literals is false.
    pub fn add(&mut self, trace: &Trace, node: NodeId) -> Result<bool, OutOfMemory>
        requires ready { IsReady (clauses_of trace.now) self.old.trail self.old.done self.old.pairs self.old.lists }
        requires done { self.old.done ≡ 0 }
        requires marks { self.old.trail.marks ≡ [] }
        requires next { node.0 ≡ length self.old.pairs }
        requires within { node.0 < length (clauses_of trace.now) }
        ensures ready { IfOk result (λ _. IsReady (clauses_of trace.now) self.new.trail self.new.done self.new.pairs self.new.lists) }
        ensures done { IfOk result (λ _. self.new.done ≡ 0) }
        ensures marks { IfOk result (λ _. self.new.trail.marks ≡ []) }
        ensures vars { IfOk result (λ _. self.new.trail.vars ≡ self.old.trail.vars) }
        ensures added { IfOk result (λ added. MatchBool added (length self.new.pairs ≡ node.0 + 1)
            (IsWrong (clauses_of trace.now) self.new.trail.lits node)) }
    {
        let clause = trace.clause(node);
        if clause.len() == 0 {
            return Ok(false);
        }
        if clause.len() == 1 {
            return self.add_unit(trace, node, clause[0]);
        }
        self.attach(trace, node, clause[0], clause[1])?;
        Ok(true)
    }

    /// A clause of one literal begins to watch, and forces it; false where the literal is false.
    fn add_unit(&mut self, trace: &Trace, node: NodeId, lit: Lit) -> Result<bool, OutOfMemory>
        requires ready { IsReady (clauses_of trace.now) self.old.trail self.old.done self.old.pairs self.old.lists }
        requires done { self.old.done ≡ 0 }
        requires marks { self.old.trail.marks ≡ [] }
        requires next { node.0 ≡ length self.old.pairs }
        requires clause { slice_get (clauses_of trace.now) node.0 ≡ Some (lit ∷ []) }
        ensures ready { IfOk result (λ _. IsReady (clauses_of trace.now) self.new.trail self.new.done self.new.pairs self.new.lists) }
        ensures done { IfOk result (λ _. self.new.done ≡ 0) }
        ensures marks { IfOk result (λ _. self.new.trail.marks ≡ []) }
        ensures vars { IfOk result (λ _. self.new.trail.vars ≡ self.old.trail.vars) }
        ensures added { IfOk result (λ added. MatchBool added (length self.new.pairs ≡ node.0 + 1)
            (IsWrong (clauses_of trace.now) self.new.trail.lits node)) }
    {
        self.trail.is_sound();
        match self.trail.truth(lit) {
            Truth::False => Ok(false),
            Truth::True => {
                self.attach(trace, node, lit, lit)?;
                Ok(true)
            }
            Truth::Open => {
                self.trail.imply(lit, node);
                self.attach(trace, node, lit, lit)?;
                Ok(true)
            }
        }
    }

    /// The next clause begins to watch these two literals.
    fn attach(
        &mut self,
        trace: &Trace,
        node: NodeId,
        one: Lit,
        other: Lit,
    ) -> Result<(), OutOfMemory>
        requires ready { IsReady (clauses_of trace.now) self.old.trail self.old.done self.old.pairs self.old.lists }
        requires next { node.0 ≡ length self.old.pairs }
        requires may { MayBegin (clauses_of trace.now) self.old.trail self.old.done node one other }
        ensures ready { IfOk result (λ _. IsReady (clauses_of trace.now) self.new.trail self.new.done self.new.pairs self.new.lists) }
        ensures trail { self.new.trail ≡ self.old.trail }
        ensures done { self.new.done ≡ self.old.done }
        ensures more { IfOk result (λ _. length self.new.pairs ≡ node.0 + 1) }
    {
        self.trail.is_sound();
        let first = Entry::new(node, other)?;
        let second = Entry::new(node, one)?;
        self.pairs.push(trace.clause(node), one, other)?;
        self.lists.push(one, first)?;
        self.lists.push(other, second)?;
        Ok(())
    }

    /// Decides a literal of which nothing is known, once each literal was propagated.
    pub fn decide(&mut self, lit: Lit) -> Result<(), OutOfMemory>
        requires all { self.old.done ≡ length self.old.trail.lits }
        requires within { IsVarWithin self.old.trail.vars lit }
        requires lacking { Lacks self.old.trail.lits lit }
        ensures ready { (clauses : List (List Literal)) → IsReady clauses self.old.trail self.old.done self.old.pairs self.old.lists
            → IfOk result (λ _. IsReady clauses self.new.trail self.new.done self.new.pairs self.new.lists) }
        ensures vars { IfOk result (λ _. self.new.trail.vars ≡ self.old.trail.vars) }
        ensures more { IfOk result (λ _. length self.new.trail.lits ≡ length self.old.trail.lits + 1) }
        ensures few { IfOk result (λ _. length self.new.trail.lits ≤ self.new.trail.vars) }
        ensures pairs { self.new.pairs ≡ self.old.pairs }
    {
        self.trail.is_sound();
        self.trail.decide(lit)?;
        self.trail.is_sound();
        Ok(())
    }

    /// Takes back all literals of the levels above this one.
    pub fn cut(&mut self, level: usize)
        requires level { level < length self.old.trail.marks }
        ensures ready { (clauses : List (List Literal)) → IsReady clauses self.old.trail self.old.done self.old.pairs self.old.lists
            → IsReady clauses self.new.trail self.new.done self.new.pairs self.new.lists }
        ensures cut { self.new.trail ≡ cut_to self.old.trail level }
        ensures done { self.new.done ≡ end_of self.old.trail level }
        ensures pairs { self.new.pairs ≡ self.old.pairs }
    {
        self.trail.is_sound();
        self.done = self.trail.end(level);
        self.trail.cut(level);
    }

    /// Takes a learnt clause in, which is the next one that begins to watch: the trail is cut back to where it forces its
    /// literal.
    pub fn take_in(&mut self, trace: &Trace, assertion: Assertion) -> Result<(), OutOfMemory>
        requires ready { IsReady (clauses_of trace.now) self.old.trail self.old.done self.old.pairs self.old.lists }
        requires next { assertion.node.0 ≡ length self.old.pairs }
        requires asserting { (clause : List Literal) × (slice_get (clauses_of trace.now) assertion.node.0 ≡ Some clause)
            × IsAsserting self.old.trail clause assertion }
        ensures ready { IfOk result (λ _. IsReady (clauses_of trace.now) self.new.trail self.new.done self.new.pairs self.new.lists) }
        ensures vars { IfOk result (λ _. self.new.trail.vars ≡ self.old.trail.vars) }
        ensures more { IfOk result (λ _. length self.new.pairs ≡ assertion.node.0 + 1) }
    {
        self.trail.is_sound();
        self.cut(assertion.level);
        self.trail.is_sound();
        self.trail.imply(assertion.lit, assertion.node);
        self.attach(trace, assertion.node, assertion.lit, assertion.other)
    }
}

/// Whether the literal is known to be true.
fn is_true(trail: &Trail, lit: Lit) -> bool
    requires { IsVarWithin trail.now.vars lit }
    ensures { IsTrue result → Contains trail.now.lits lit }
{
    match trail.truth(lit) {
        Truth::True => true,
        Truth::False => false,
        Truth::Open => false,
    }
}

/// Whether the literal is known to be false.
fn is_false(trail: &Trail, lit: Lit) -> bool
    requires { IsVarWithin trail.now.vars lit }
    ensures { IsTrue result ↔ Contains trail.now.lits (complement lit) }
{
    trail.is_sound();
    match trail.truth(lit) {
        Truth::True => false,
        Truth::False => true,
        Truth::Open => false,
    }
}

/// Whether the literal is another one than this, and not known to be false.
fn may_watch(trail: &Trail, lit: Lit, other: Lit) -> bool
    requires { IsVarWithin trail.now.vars lit }
    ensures { MatchBool result ((lit ≢ other) × (Contains trail.now.lits (complement lit) → ⊥))
        (lit ≢ other → Contains trail.now.lits (complement lit)) }
{
    if lit == other {
        return false;
    }
    !is_false(trail, lit)
}

/// A literal of the clause that isn't false, and isn't this one, with its place: the first there is from a place on, or
/// else from the beginning.
fn next_watch(trail: &Trail, clause: &[Code], other: Lit, from: usize) -> Option<(Lit, usize)>
    requires { All (IsVarWithin trail.now.vars) clause.now }
    ensures { MatchOption result (IsFalseBut trail.now.lits clause.now other)
        (λ next. Contains clause.now next.0 × (next.0 ≢ other) × (Contains trail.now.lits (complement next.0) → ⊥)) }
{
    let end = clause.len();
    let start = from.min(end);
    if let Some(found) = next_between(trail, clause, other, start, end) {
        return Some(found);
    }
    match next_between(trail, clause, other, 0, start) {
        Some(found) => Some(found),
        None => None,
    }
}

/// The first literal between two places of the clause that isn't false, and isn't this one, with its place.
fn next_between(
    trail: &Trail,
    clause: &[Code],
    other: Lit,
    start: usize,
    end: usize,
) -> Option<(Lit, usize)>
    requires within { All (IsVarWithin trail.now.vars) clause.now }
    requires end { end ≤ length clause.now }
    ensures { MatchOption result (AreFalseBetween trail.now.lits clause.now other start end)
        (λ next. Contains clause.now next.0 × (next.0 ≢ other) × (Contains trail.now.lits (complement next.0) → ⊥)) }
{
    for place in start..end {
        let lit = clause[place].lit();
        if may_watch(trail, lit, other) {
            return Some((lit, place));
        }
    }
    None
}
