//! The candidates that pay for parts.

ghost use Rattle.std.specs.Prelude.{◌≡◌, ◌++◌, ◌∷◌, [], IfOk, List, false, map, filter};
ghost use Rattle.std.specs.List.{slice_index_or};
ghost use Rattle.eco_bound.specs.Payers.{tells_apart, lowered_by, IsLeastLeft, is_spent, net_of};

use eco_gates::NetId;
use eco_meaning::OutOfMemory;
use std::alloc::Global;

/// A candidate, and how much of its weight it doesn't carry yet.
#[derive(Clone, Copy)]
pub(crate) struct Payer {
    pub(crate) net: NetId,
    pub(crate) left: u32,
}

/// The values of all nets at two inputs.
#[derive(Drop)]
pub(crate) struct Sight {
    pub(crate) ones: Vec<bool>,
    pub(crate) zeros: Vec<bool>,
}

/// Whether the net has another value at the first input than at the second.
fn tells_apart(sight: &Sight, net: NetId) -> bool
    ensures { result ≡ tells_apart sight.now net }
{
    bit_at(sight.ones.as_slice(), net) != bit_at(sight.zeros.as_slice(), net)
}

/// The bit at a net.
fn bit_at(values: &[bool], net: NetId) -> bool
    ensures { result ≡ slice_index_or values.now net.0 false }
{
    values.get(net.0 as usize).copied().unwrap_or(false)
}

/// The least that is left to a candidate that tells the inputs apart, where there is one.
pub(crate) fn least_left(payers: &[Payer], sight: &Sight) -> Option<u32>
    ensures { IsLeastLeft sight.now payers.now result }
{
    let mut least = None;
    for payer in payers {
        least = lesser(sight, least, *payer);
    }
    least
}

/// The lesser of what is left to others and to one more candidate, if it tells the inputs apart.
fn lesser(sight: &Sight, least: Option<u32>, payer: Payer) -> Option<u32>
    ensures { (others : List Payer) → IsLeastLeft sight.now others least → IsLeastLeft sight.now (others ++ payer ∷ []) result }
{
    if !tells_apart(sight, payer.net) {
        return least;
    }
    match least {
        Some(other) => Some(other.min(payer.left)),
        None => Some(payer.left),
    }
}

/// The candidates after each that tells the inputs apart has paid the amount.
pub(crate) fn lowered(
    alloc: Global,
    payers: &[Payer],
    sight: &Sight,
    amount: u32,
) -> Result<Vec<Payer>, OutOfMemory>
    ensures { IfOk result (λ lowered. lowered.items ≡ map (lowered_by sight.now amount) payers.now) }
{
    Ok(
        payers
            .iter()
            .map(|payer| lower(*payer, sight, amount))
            .collect(alloc)?,
    )
}

/// The candidate after it has paid the amount, if it tells the inputs apart.
fn lower(payer: Payer, sight: &Sight, amount: u32) -> Payer
    ensures { result ≡ lowered_by sight.now amount payer }
{
    if tells_apart(sight, payer.net) {
        Payer {
            net: payer.net,
            left: payer.left.saturating_sub(amount),
        }
    } else {
        payer
    }
}

/// The candidates that have nothing left.
pub(crate) fn spent(alloc: Global, payers: &[Payer]) -> Result<Vec<NetId>, OutOfMemory>
    ensures { IfOk result (λ nets. nets.items ≡ map net_of (filter is_spent payers.now)) }
{
    Ok(
        payers
            .iter()
            .filter(|payer| payer.left == 0)
            .map(|payer| payer.net)
            .collect(alloc)?,
    )
}
