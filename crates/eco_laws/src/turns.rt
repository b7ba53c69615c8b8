//! Targets get their functions one after the other.

ghost use Rattle.eco_laws.specs.Kept.{KeptIsRectifiable, ForcedBitsKeep, KeptIsEquivalent, PatchesShowRectifiable, ForcedBitsAreAll};

/// A law of patches: an implementation that can be rectified stays so while targets get functions that have the bit that
/// inputs force; and once each target has its function, the splice has the outputs that are asked for.
pub fn forced_bits_rectify()
    ensures first { KeptIsRectifiable }
    ensures next { ForcedBitsKeep }
    ensures last { KeptIsEquivalent }
{}

/// A law of patches: an implementation that some patch makes do what is asked has no wrong input.
pub fn patches_show_rectifiable()
    ensures { PatchesShowRectifiable }
{}

/// A law of patches: a patch of all targets makes an implementation do what is asked exactly where that can be rectified and
/// the patch's function for each target has the bit that an input forces, those of the earlier targets being given.
pub fn forced_bits_are_all()
    ensures { ForcedBitsAreAll }
{}
