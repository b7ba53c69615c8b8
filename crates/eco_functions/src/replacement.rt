//! A smaller function in place of the last one.

ghost use Rattle.std.specs.Prelude.{◌≡◌, ◌≤◌, OnOk, IfOk, IfSome, length};
ghost use Rattle.eco_aig.specs.Graph.{IsEdge, inputs_of};
ghost use Rattle.eco_functions.specs.Functions.{AreFunctions, LastIsInterpolant};
ghost use Rattle.eco_functions.specs.Improving.{IsAccepted, IsImproved, IsReplaced, LastReadsAll, StandsAsBoth};
ghost use Rattle.eco_functions.specs.Merged.{AreMerged};
ghost use Rattle.eco_functions.specs.Parts.{functions_of, split_of};

use crate::choosing::chosen;
use crate::grafting::graft;
use crate::improving::improved;
use crate::parts::Parts;
use crate::sizes::sizes_of;
use crate::two_parts::TwoParts;
use eco_meaning::OutOfMemory;
use eco_merge::sweep;
use eco_resub::Candidate;
use eco_trace::Refuter;

// How many clauses there may be where a smaller function is searched for: each question reads all of its part.
const MOST_CLAUSES: usize = 400_000;

// How many and-nodes the functions may reach where a smaller one is searched for: each question reads a whole candidate.
const MOST_GATES: u64 = 1_500;

/// Puts a smaller function in place of the last one, where one is found that stands between the two parts of the clauses too;
/// then all roots are merged anew. Where memory runs out, the parts may be out of step.
pub(crate) fn improve<R: Refuter>(
    parts: &mut Parts,
    two: &TwoParts<'_, '_>,
    refuter: &mut R,
    limit: u64,
) -> Result<(), OutOfMemory>
    requires functions { AreFunctions (functions_of parts.old) }
    requires last { LastReadsAll (functions_of parts.old) }
    requires between { LastIsInterpolant (split_of two.now) two.now.shared.now (functions_of parts.old) }
    requires unlike { AreMerged limit (functions_of parts.old) }
    requires marked { length two.now.side.now ≡ length two.now.trace.now.originals }
    requires count { length two.now.shared.now ≡ length parts.old.base.items }
    requires limit { 1 ≤ limit }
    ensures functions { OnOk result (AreFunctions (functions_of parts.new)) }
    ensures between { OnOk result (LastIsInterpolant (split_of two.now) two.now.shared.now (functions_of parts.new)) }
    ensures unlike { OnOk result (AreMerged limit (functions_of parts.new)) }
    ensures improved { OnOk result (IsImproved (functions_of parts.old) (functions_of parts.new)) }
{
    match smaller(parts, two, refuter, limit)? {
        None => Ok(()),
        Some(candidate) => {
            match replace(parts, &candidate, refuter, limit) {
                Ok(()) => {
                    drop(candidate);
                    Ok(())
                }
                Err(error) => {
                    drop(candidate);
                    Err(error)
                }
            }
        }
    }
}

// A function that may stand in place of the last one, if one is found. It is searched for only where the clauses and the
// functions are of moderate size.
fn smaller<R: Refuter>(
    parts: &Parts,
    two: &TwoParts<'_, '_>,
    refuter: &mut R,
    limit: u64,
) -> Result<Option<Candidate>, OutOfMemory>
    requires functions { AreFunctions (functions_of parts.now) }
    requires marked { length two.now.side.now ≡ length two.now.trace.now.originals }
    requires limit { 1 ≤ limit }
    ensures accepted { IfOk result (λ found. IfSome found (λ candidate.
        IsAccepted (split_of two.now) two.now.shared.now candidate.aig candidate.root)) }
{
    if two.side.len() > MOST_CLAUSES {
        return Ok(None);
    }
    let sizes = sizes_of(parts.alloc, &parts.aig, parts.roots.as_slice())?;
    if sizes.gates > MOST_GATES {
        return Ok(None);
    }
    improved(parts, two, refuter, limit)
}

// Puts the candidate in place of the last function, where that is smaller, and merges all roots.
fn replace<R: Refuter>(
    parts: &mut Parts,
    candidate: &Candidate,
    refuter: &mut R,
    limit: u64,
) -> Result<(), OutOfMemory>
    requires functions { AreFunctions (functions_of parts.old) }
    requires last { LastReadsAll (functions_of parts.old) }
    requires edge { IsEdge candidate.now.aig candidate.now.root }
    requires inputs { length (inputs_of candidate.now.aig) ≡ length parts.old.base.items }
    requires limit { 1 ≤ limit }
    ensures functions { OnOk result (AreFunctions (functions_of parts.new)) }
    ensures between { OnOk result (StandsAsBoth (functions_of parts.old) candidate.now.aig candidate.now.root (functions_of parts.new)) }
    ensures unlike { OnOk result (AreMerged limit (functions_of parts.new)) }
    ensures replaced { OnOk result (IsReplaced (functions_of parts.old) (functions_of parts.new)) }
{
    // it is a graph
    let _ = candidate.aig.nodes();
    let edge = graft(parts.alloc, &mut parts.aig, &candidate.aig, candidate.root)?;
    let roots = chosen(parts.alloc, &parts.aig, parts.roots.as_slice(), edge)?;
    let merged = sweep(
        parts.alloc,
        &mut parts.aig,
        roots.as_slice(),
        refuter,
        limit,
    )?;
    parts.roots = merged.roots;
    // it stays a graph
    let _ = parts.aig.nodes();
    Ok(())
}
