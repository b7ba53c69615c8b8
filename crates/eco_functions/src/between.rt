//! What stands between two parts of clauses, as a function of a graph's inputs.

ghost use Rattle.std.specs.Prelude.{◌≡◌, ◌≢◌, ◌+◌, AllPairs, IfOk, length};
ghost use Rattle.eco_trace.specs.Resolution.{EndsEmpty};
ghost use Rattle.eco_tseitin.specs.Sides.{IsApart};
ghost use Rattle.eco_aig.specs.Graph.{Grows, IsEdge, inputs_of};
ghost use Rattle.eco_functions.specs.Functions.{IsInterpolant};
ghost use Rattle.eco_functions.specs.Parts.{split_of, most_of};

use crate::inputs::input_pairs;
use crate::two_parts::TwoParts;
use eco_aig::{Aig, Edge};
use eco_itp::interpolate;
use eco_meaning::OutOfMemory;
use std::alloc::Global;

/// The interpolant of a refutation of clauses in two parts, in which one variable for each input of the graph occurs in
/// both.
pub(crate) fn interpolant(
    alloc: Global,
    two: &TwoParts<'_, '_>,
    aig: &mut Aig,
) -> Result<Edge, OutOfMemory>
    requires refutation { EndsEmpty two.now.trace.now }
    requires marked { length two.now.side.now ≡ length two.now.trace.now.originals }
    requires apart { IsApart (split_of two.now) two.now.shared.now }
    requires distinct { AllPairs (λ x y. x ≢ y) two.now.shared.now }
    requires count { length two.now.shared.now ≡ length (inputs_of aig.old) }
    ensures edge { IfOk result (IsEdge aig.new) }
    ensures between { IfOk result (IsInterpolant (split_of two.now) two.now.shared.now aig.new) }
    ensures grows { Grows aig.old aig.new (most_of two.now) }
{
    // it is a graph
    let _ = aig.nodes();
    let pairs = input_pairs(alloc, two.shared, aig)?;
    let root = interpolate(alloc, two.trace, two.side, pairs.as_slice(), aig)?;
    Ok(root)
}
