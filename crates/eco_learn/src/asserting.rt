//! Where a learnt clause forces a literal.

ghost use Rattle.std.specs.Prelude.{◌≡◌, ◌≤◌, ◌∷◌, [], ◌++◌, List, Contains, Option, Some};
ghost use Rattle.eco_trace.specs.declared.clause.Lit.{Lit as Literal};
ghost use Rattle.eco_trace.specs.Clauses.{complement, IsClause};
ghost use Rattle.eco_learn.specs.Lessons.{IsAsserting};
ghost use Rattle.eco_learn.specs.Marks.{IsLastOf, IsAbove};

use crate::lesson::Assertion;
use crate::trail::Trail;
use eco_trace::{Lit, NodeId};

/// The lowest level at which the clause forces the literal, which became false last, and the literal of the clause that
/// became false before it.
pub(crate) fn assertion(trail: &Trail, clause: &[Lit], node: NodeId, lit: Lit) -> Assertion
    requires clause { IsClause clause.now }
    requires wrong { (x : Literal) → Contains clause.now x → Contains trail.now.lits (complement x) }
    requires above { IsAbove trail.now clause.now lit }
    ensures node { result.node ≡ node }
    ensures asserting { IsAsserting trail.now clause.now result }
{
    trail.is_sound();
    match last_other(trail, clause, lit) {
        None => Assertion {
            node,
            lit,
            other: lit,
            level: 0,
        },
        Some(place) => Assertion {
            node,
            lit,
            other: trail.lit(place).complement(),
            level: trail.level_at(place),
        },
    }
}

/// The place at which the clause's last literal but this one became false.
fn last_other(trail: &Trail, clause: &[Lit], lit: Lit) -> Option<usize>
    requires wrong { (x : Literal) → Contains clause.now x → Contains trail.now.lits (complement x) }
    ensures { IsLastOf trail.now.lits clause.now lit result }
{
    let mut last = None;
    for other in clause {
        last = later(trail, *other, lit, last);
    }
    last
}

/// The later of the places where another literal became false and one that is known.
fn later(trail: &Trail, other: Lit, lit: Lit, last: Option<usize>) -> Option<usize>
    requires wrong { Contains trail.now.lits (complement other) }
    ensures { (done : List Literal) → IsLastOf trail.now.lits done lit last → IsLastOf trail.now.lits (done ++ other ∷ []) lit result }
{
    if other == lit {
        return last;
    }
    let place = trail.place(other.complement());
    match last {
        None => Some(place),
        Some(known) => Some(known.max(place)),
    }
}
