//! Clauses in two parts, with a proof from them.

use eco_trace::{Trace, Var};

/// Clauses in two parts, with a proof from them and the variables that both parts have.
#[derive(Clone, Copy)]
pub struct TwoParts<'p, 't> {
    /// The proof; the clauses are those that it begins with.
    pub trace: &'p Trace<'t>,
    /// For each clause the mark of its part.
    pub side: &'p [bool],
    /// The variables that occur in both parts, one for each input of a function that stands between the two.
    pub shared: &'p [Var],
}
