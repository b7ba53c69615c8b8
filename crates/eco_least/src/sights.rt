//! Values of signals at known inputs.

ghost use Rattle.std.specs.Prelude.{◌≡◌, IfOk, IfSome, IsTrue, All, length, map};
ghost use Rattle.eco_least.specs.Telling.{TellsApart};
ghost use Rattle.eco_least.specs.Rows.{AreSights};
ghost use Rattle.eco_least.specs.Weighed.{AreWeighed};

use crate::weighed::Weighed;
use eco_base::Target;
use eco_floor::Row;
use eco_meaning::{Bits, OutOfMemory};
use eco_trace::Refuter;
use std::alloc::Global;

/// The values of the paid signals and of the turns at an input.
#[derive(Drop)]
pub(crate) struct Sight {
    pub(crate) paid: Bits,
    pub(crate) turns: Bits,
}

/// The values at these inputs.
pub(crate) fn see<R: Refuter>(
    weighed: &Weighed,
    target: &Target<'_, R>,
    inputs: &[Bits],
) -> Result<Vec<Sight>, OutOfMemory>
    requires weighed { AreWeighed target.now weighed.now }
    requires inputs { All (λ x. length x ≡ length target.now.problem.implementation.inputs) inputs.now }
    ensures { IfOk result (λ sights. AreSights target.now weighed.now inputs.now sights.items) }
{
    let paid = target.rows(target.paid(), inputs)?;
    let turns = target.rows(weighed.turns.as_slice(), inputs)?;
    let sights = join(weighed.alloc, paid.as_slice(), turns.as_slice())?;
    Ok(sights)
}

/// The values of the paid signals with those of the turns, input by input.
fn join(alloc: Global, paid: &[Bits], turns: &[Bits]) -> Result<Vec<Sight>, OutOfMemory>
    requires { length paid.now ≡ length turns.now }
    ensures paid { IfOk result (λ sights. map (λ sight. sight.paid) sights.items ≡ paid.now) }
    ensures turns { IfOk result (λ sights. map (λ sight. sight.turns) sights.items ≡ turns.now) }
{
    let mut sights = Vec::with_capacity(alloc, paid.len())?;
    for k in 0..paid.len() {
        sights.push(sight_of(&paid[k], &turns[k])?)?;
    }
    Ok(sights)
}

/// The values of the paid signals with those of the turns, at one input.
fn sight_of(paid: &Bits, turns: &Bits) -> Result<Sight, OutOfMemory>
    ensures { IfOk result (λ sight. sight ≡ record { paid = paid.now; turns = turns.now }) }
{
    let paid = paid.copy()?;
    let turns = turns.copy()?;
    Ok(Sight { paid, turns })
}

/// The row of the turns on which two inputs differ; `None` where they differ on a paid signal.
pub(crate) fn tell_apart(
    alloc: Global,
    one: &Sight,
    zero: &Sight,
) -> Result<Option<Row>, OutOfMemory>
    ensures { IfOk result (λ row. IfSome row (TellsApart one.now zero.now)) }
{
    if !are_same(one.paid.as_slice(), zero.paid.as_slice()) {
        return Ok(None);
    }
    let (ones, zeros) = (one.turns.as_slice(), zero.turns.as_slice());
    if ones.len() != zeros.len() {
        return Ok(None);
    }
    Ok(Some(Row::between(alloc, ones, zeros)?))
}

/// Whether the lists of bits are one.
fn are_same(first: &[bool], second: &[bool]) -> bool
    ensures { IsTrue result → first.now ≡ second.now }
{
    first == second
}
