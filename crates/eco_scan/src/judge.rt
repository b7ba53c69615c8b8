//! What unit propagation gets from a clause.

ghost use Rattle.std.specs.Prelude.{◌≡◌, ◌∷◌, [], ◌++◌, List, All};
ghost use Rattle.eco_trace.specs.declared.clause.Lit.{Lit as Literal};
ghost use Rattle.eco_trace.specs.Clauses.{IsClause, IsVarWithin};
ghost use Rattle.eco_scan.specs.Scanning.{IsJudged, first_of, second_of};

use eco_learn::{Trail, Truth};
use eco_trace::Lit;

/// What unit propagation gets from a clause.
#[derive(Clone, Copy)]
pub(crate) enum Judgement {
    /// All its literals are false.
    Wrong,
    /// All but this one are false, of which nothing is known.
    Forces(Lit),
    /// Nothing.
    Unforced,
}

/// Judges the clause by what the trail knows.
pub(crate) fn judge(trail: &Trail, clause: &[Lit]) -> Judgement
    requires clause { IsClause clause.now }
    requires within { All (IsVarWithin trail.now.vars) clause.now }
    ensures { IsJudged trail.now.lits clause.now result }
{
    let mut judgement = Judgement::Wrong;
    for lit in clause {
        judgement = with_lit(trail, judgement, *lit);
    }
    judgement
}

/// The judgement of a clause with one literal more.
fn with_lit(trail: &Trail, so_far: Judgement, lit: Lit) -> Judgement
    requires { IsVarWithin trail.now.vars lit }
    ensures { (done : List Literal) → IsClause (done ++ lit ∷ []) → IsJudged trail.now.lits done so_far
        → IsJudged trail.now.lits (done ++ lit ∷ []) result }
{
    match so_far {
        Judgement::Unforced => Judgement::Unforced,
        Judgement::Wrong => first_open(trail.truth(lit), lit),
        Judgement::Forces(forced) => second_open(trail.truth(lit), forced),
    }
}

/// The same where the literals so far are all false.
fn first_open(truth: Truth, lit: Lit) -> Judgement
    ensures { result ≡ first_of lit truth }
{
    match truth {
        Truth::True => Judgement::Unforced,
        Truth::False => Judgement::Wrong,
        Truth::Open => Judgement::Forces(lit),
    }
}

/// The same where they are, but for one of which nothing is known.
fn second_open(truth: Truth, forced: Lit) -> Judgement
    ensures { result ≡ second_of forced truth }
{
    match truth {
        Truth::False => Judgement::Forces(forced),
        Truth::True | Truth::Open => Judgement::Unforced,
    }
}
