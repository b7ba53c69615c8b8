//! One part of clauses, of which functions are asked.

use crate::part::{part_of, reach_all};
use crate::posing::pose;
use crate::search::search;
use eco_aig::{Aig, Edge};
use eco_meaning::OutOfMemory;
use eco_trace::{Cnf, Refuter, Trace, Var};
use std::alloc::Global;
use std::marker;

/// The number of variables that no memory has room for.
const MOST: u64 = 1_152_921_504_606_846_976;

/// What is found of a function.
#[derive(Drop)]
pub enum Judgement {
    /// It has the mark of the part in each of its models.
    Accepted,
    /// There is a model in which it hasn't; the values of the shared variables there, in order.
    Refused(Vec<bool>),
    /// The search spent its limit.
    Unknown,
}

/// The clauses of one part, of which many functions can be asked.
#[derive(Drop)]
pub struct Judge {
    alloc: Global,
    cnf: Cnf,
    shared: Vec<Var>,
    part: bool,
}

impl marker::Model for Judge {
    ghost use Rattle.eco_accept.specs.Judging.{JudgeValue, IsJudge};

    ghost Value = { JudgeValue };

    ghost view = { λ judge. record { clauses = judge.cnf; shared = judge.shared.items; part = judge.part } };

    ghost invariant = { λ judge. IsJudge (record { clauses = judge.cnf; shared = judge.shared.items; part = judge.part }) };
}

impl Judge {
    ghost use Rattle.std.specs.Prelude.{◌≡◌, ◌≤◌, IfOk, length};
    ghost use Rattle.eco_trace.specs.Split.{Split};
    ghost use Rattle.eco_aig.specs.Graph.{IsEdge, inputs_of};
    ghost use Rattle.eco_accept.specs.Judging.{IsOfPart, IsJudged};

    /// The judge of one part of the clauses that a proof begins with. It takes time linear in these clauses. Memory is wanting
    /// too where a variable's number is 0 or at least 2^60: no search has a value for each variable then.
    pub fn new<'t>(
        alloc: Global,
        trace: &Trace<'t>,
        side: &[bool],
        part: bool,
        shared: &[Var],
    ) -> Result<Judge, OutOfMemory>
        requires marked { length side.now ≡ length trace.now.originals }
        ensures part { IfOk result (IsOfPart (record { clauses = trace.now.originals; marks = side.now }) part shared.now) }
    {
        let shared_vars = Vec::from_slice(alloc, shared)?;
        let mut cnf = part_of(alloc, trace, side, part)?;
        let reached = reach_all(&mut cnf, shared);
        // they are clauses
        let _ = cnf.clauses();
        if reached && cnf.vars() < MOST {
            Ok(Judge {
                alloc,
                cnf,
                shared: shared_vars,
                part,
            })
        } else {
            drop(cnf);
            Err(OutOfMemory)
        }
    }

    /// The part.
    pub fn part(&self) -> bool
        ensures { result ≡ self.now.part }
    {
        self.part
    }

    /// Whether the edge has the part's mark in each model of the part, where the graph's inputs have the bits of the shared variables,
    /// in order. The search learns at most `limit` clauses. It takes time linear in the graph, beside the search. The judge stays as
    /// it is, also where memory is wanting.
    pub fn judge<R: Refuter>(
        &mut self,
        aig: &Aig,
        root: Edge,
        refuter: &mut R,
        limit: u64,
    ) -> Result<Judgement, OutOfMemory>
        requires inputs { length (inputs_of aig.now) ≡ length self.old.shared }
        requires edge { IsEdge aig.now root }
        requires limit { 1 ≤ limit }
        ensures judged { IfOk result (IsJudged self.old aig.now root limit) }
        ensures stays { self.new ≡ self.old }
    {
        // it is a graph
        let _ = aig.nodes();
        let vars = self.cnf.vars();
        let count = self.cnf.clauses().len();
        let shared = self.shared.as_slice();
        match pose(self.alloc, &mut self.cnf, shared, self.part, aig, root) {
            Ok(()) => {
                let found = search(self.alloc, &self.cnf, shared, refuter, limit);
                self.cnf.cut(vars, count);
                found
            }
            Err(error) => {
                self.cnf.cut(vars, count);
                Err(error)
            }
        }
    }
}
