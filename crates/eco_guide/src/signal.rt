//! Nodes and their complements.

use eco_learn::{Trail, Truth};
use eco_trace::{Lit, Var};

/// A node, or its complement. The nodes are numbered as the variables are.
#[derive(Clone, Copy)]
pub(crate) struct Signal {
    pub(crate) node: usize,
    pub(crate) complemented: bool,
}

impl Signal {
    /// What the literal stands for.
    pub(crate) fn of(lit: Lit) -> Signal {
        Signal {
            node: lit.var.0 as usize,
            complemented: !lit.positive,
        }
    }

    /// The node itself.
    pub(crate) fn plain(node: usize) -> Signal {
        Signal {
            node,
            complemented: false,
        }
    }

    /// The literal that stands for this.
    pub(crate) fn lit(self) -> Lit {
        Lit {
            var: Var(self.node as u64),
            positive: !self.complemented,
        }
    }

    /// The complement if `is`, otherwise the same.
    pub(crate) fn turned(self, is: bool) -> Signal {
        Signal {
            node: self.node,
            complemented: self.complemented != is,
        }
    }
}

/// What is known of the literal. One whose variable is none of the search's counts as false.
pub(crate) fn truth_of(trail: &Trail, lit: Lit) -> Truth {
    if lit.var.0 == 0 || lit.var.0 > trail.vars() {
        return Truth::False;
    }
    trail.truth(lit)
}

/// What is known of the signal.
pub(crate) fn truth_at(trail: &Trail, signal: Signal) -> Truth {
    truth_of(trail, signal.lit())
}
