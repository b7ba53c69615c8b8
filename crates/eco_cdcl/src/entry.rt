//! Literals by numbers, and the entries of the watch lists.

ghost use Rattle.std.specs.Prelude.{◌≡◌, ◌+◌, ◌*◌, ◌<◌, ◌^◌, IfOk};
ghost use Rattle.eco_cdcl.specs.Entries.{code_of, lit_of};

use eco_meaning::OutOfMemory;
use eco_trace::{Lit, NodeId, Var};
use std::marker;

/// The number of the literal among all literals: those of one variable stand together.
pub fn code(lit: Lit) -> usize
    requires { code_of lit < 2 ^ 64 }
    ensures { result ≡ code_of lit }
{
    (2 * lit.var.0 + lit.positive as u64) as usize
}

/// The literal of a number.
pub fn lit_of(code: u32) -> Lit
    ensures { result ≡ lit_of code }
{
    Lit {
        var: Var(u64::from(code / 2)),
        positive: code % 2 == 1,
    }
}

/// A clause that watches a literal, with another of its literals: where that one, the blocker, is true, the clause
/// needn't be read. Both are kept in 32 bits.
#[derive(Clone, Copy)]
pub struct Entry {
    node: u32,
    blocker: u32,
}

impl marker::Model for Entry {
    ghost use Rattle.eco_cdcl.specs.Entries.{Watch, watch_of, code_of};
    ghost use Rattle.eco_cdcl.specs.Codes.{code_lit, ap};

    ghost Value = { Watch };

    ghost view = { λ e. watch_of e.node e.blocker };

    ghost inverse = { λ w. record { node = w.node.0; blocker = code_of w.blocker } };

    ghost inverse_ok = { λ e _. ap (λ b. record e { blocker = b }) (code_lit e.blocker) };
}

impl Entry {
    ghost use Rattle.std.specs.Prelude.{◌≡◌, ◌<◌, ◌^◌, IfOk};
    ghost use Rattle.eco_cdcl.specs.Entries.{code_of};

    /// The entry of a clause with this blocker. A clause's number from 2^32 on counts as wanting memory.
    pub fn new(node: NodeId, blocker: Lit) -> Result<Entry, OutOfMemory>
        requires { code_of blocker < 2 ^ 32 }
        ensures { IfOk result (λ e. e ≡ record { node = node; blocker = blocker }) }
    {
        if node.0 < 1 << 32 {
            Ok(Entry {
                node: node.0 as u32,
                blocker: code(blocker) as u32,
            })
        } else {
            Err(OutOfMemory)
        }
    }

    /// The clause.
    pub fn node(self) -> NodeId
        ensures { result ≡ self.node }
    {
        NodeId(u64::from(self.node))
    }

    /// The blocker.
    pub fn blocker(self) -> Lit
        ensures { result ≡ self.blocker }
    {
        lit_of(self.blocker)
    }
}
