//! The search with watched literals, on clauses in DIMACS form.

ghost use Rattle.std.specs.Prelude.{◌≤◌};

use bumpalo::Bump;
use eco_cdcl::Watched;
use eco_prooftext::read_cnf;
use eco_trace::{Cnf, NodeId, Refuter, Trace, Verdict};
use std::alloc::Global;

/// How large a proof is.
#[derive(Clone, Copy)]
pub struct Size {
    pub learnt: u64,
    /// The literals of the learnt clauses.
    pub literals: u64,
    pub links: u64,
}

/// An answer of the search, and how large its proof is: of a model 0.
#[derive(Clone, Copy)]
pub struct Answer {
    pub word: &'static str,
    pub size: Size,
}

fn size_of_proof(trace: &Trace<'_>) -> Size {
    let mut size = Size {
        learnt: 0,
        literals: 0,
        links: 0,
    };
    for number in trace.originals()..trace.len() {
        let node = NodeId(number);
        size.learnt = size.learnt.wrapping_add(1);
        size.literals = size.literals.wrapping_add(trace.clause(node).len() as u64);
        if let Some((_, links)) = trace.chain(node) {
            size.links = size.links.wrapping_add(links.len() as u64);
        }
    }
    size
}

fn answer_of(verdict: &Verdict<'_>) -> Answer {
    match verdict {
        Verdict::Sat(_) => Answer {
            word: "sat",
            size: Size {
                learnt: 0,
                literals: 0,
                links: 0,
            },
        },
        Verdict::Unsat(trace) => Answer {
            word: "unsat",
            size: size_of_proof(trace),
        },
        Verdict::Spent(trace) => Answer {
            word: "spent",
            size: size_of_proof(trace),
        },
    }
}

fn asked(alloc: Global, cnf: &Cnf, limit: u64) -> Option<Answer>
    requires { 1 ≤ limit }
{
    let arena = Bump::new(alloc);
    let answer = match Watched::new().refute(alloc, cnf, limit, &arena) {
        Ok(verdict) => {
            let answer = answer_of(&verdict);
            drop(verdict);
            Some(answer)
        }
        Err(_) => None,
    };
    drop(arena);
    answer
}

/// What the search answers of the clauses when it may learn so many, at least one; nothing if the text is none or memory runs out.
pub fn searched(alloc: Global, text: &[u8], limit: u64) -> Option<Answer> {
    if limit == 0 {
        return None;
    }
    match read_cnf(alloc, text) {
        Ok(cnf) => {
            let answer = asked(alloc, &cnf, limit);
            drop(cnf);
            answer
        }
        Err(error) => {
            drop(error);
            None
        }
    }
}
