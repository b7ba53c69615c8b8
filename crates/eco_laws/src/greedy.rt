//! The greedy choice of signals is one.

ghost use Rattle.eco_laws.specs.Bases.{HasOneGreedyBase};

/// A law of greedy bases: the problem, the patch of the earlier targets, the target and the paid signals determine it.
pub fn greedy_base_is_one()
    ensures { HasOneGreedyBase }
{}
