//! Laws of functions whose equal nodes are merged. The statements are in `specs/`.
ghost use Rattle.eco_functions.specs.Smaller.{MergingAddsNoGate};

/// The patch has no more gates than it would have had with its roots unmerged.
pub fn no_more_gates()
    ensures { MergingAddsNoGate }
{}
