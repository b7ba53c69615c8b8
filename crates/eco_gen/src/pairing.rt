//! The drawn problem.

ghost use Rattle.std.specs.Prelude.{◌≡◌, IfOk};
ghost use Rattle.eco_meaning.specs.Meaning.{IsRectifiable};
ghost use Rattle.eco_gen.specs.Instance.{CanDraw, IsDrawnProblem};

use crate::cutting::kept_gates;
use crate::draws::Draws;
use crate::nets::{implementation, specification};
use crate::weighing::{read_back, weight_text};
use eco_meaning::OutOfMemory;
use eco_query::{PairError, Problem, pair};
use std::alloc::Global;

/// The problem that is drawn for a seed, a number of gates and a number of targets. It can be solved: the gates that were
/// cut loose rectify the implementation at every input.
pub fn problem(alloc: Global, seed: u64, size: u64, targets: u64) -> Result<Problem, OutOfMemory>
    requires numbers { CanDraw size targets }
    ensures drawn { IfOk result (IsDrawnProblem seed size targets) }
    ensures rectifiable { IfOk result (λ problem. IsRectifiable problem.implementation problem.goal) }
{
    let kept = kept_gates(alloc, size, targets)?;
    let kept = kept.as_slice();
    let draws = Draws::new(alloc, seed, size, kept.len() as u64)?;
    let text = weight_text(alloc, &draws, kept)?;
    let weights = read_back(alloc, text.as_slice())?;
    let implementation = implementation(alloc, &draws, targets)?;
    let specification = specification(alloc, &draws)?;
    match pair(implementation, specification, None, weights, 1) {
        Ok(problem) => Ok(problem),
        Err(error) => Err(want_of_memory(error)),
    }
}

/// The error for want of memory, which alone may keep drawn netlists from being a problem.
fn want_of_memory(error: PairError) -> OutOfMemory
    requires { error ≡ PairError.OutOfMemory }
{
    match error {
        PairError::OutOfMemory => OutOfMemory,
        _ => unreachable!(),
    }
}
