//! Functions of few edges.

use crate::simulating::edge_word;
use eco_aig::Edge;

/// How two edges are joined.
#[derive(Clone, Copy)]
pub(crate) enum Gate {
    And,
    Or,
    Xor,
}

/// A gate with its first operand.
#[derive(Clone, Copy)]
pub(crate) struct Term {
    pub(crate) gate: Gate,
    pub(crate) edge: Edge,
}

/// An edge, which up to two gates join with others: the inner one first.
#[derive(Clone, Copy)]
pub(crate) struct Form {
    pub(crate) outer: Option<Term>,
    pub(crate) inner: Option<Term>,
    pub(crate) last: Edge,
}

impl Gate {
    /// The word of the gate whose operands have these.
    pub(crate) fn word(self, first: u64, second: u64) -> u64 {
        match self {
            Gate::And => first & second,
            Gate::Or => first | second,
            Gate::Xor => first ^ second,
        }
    }
}

impl Form {
    /// The edge by itself.
    pub(crate) fn literal(edge: Edge) -> Form {
        Form {
            outer: None,
            inner: None,
            last: edge,
        }
    }

    /// The form joined with one edge more.
    pub(crate) fn with(self, term: Term) -> Form {
        match self.inner {
            None => Form {
                outer: None,
                inner: Some(term),
                last: self.last,
            },
            Some(inner) => Form {
                outer: Some(term),
                inner: Some(inner),
                last: self.last,
            },
        }
    }

    /// The word of the form, where nodes have these.
    pub(crate) fn word(&self, words: &[u64]) -> u64 {
        let last = edge_word(words, self.last);
        let inner = joined(words, self.inner, last);
        joined(words, self.outer, inner)
    }
}

/// The word joined with that of a further edge, where there is one.
fn joined(words: &[u64], term: Option<Term>, word: u64) -> u64 {
    match term {
        None => word,
        Some(term) => term.gate.word(edge_word(words, term.edge), word),
    }
}
