//! What patches leave of an implementation.

ghost use Rattle.eco_laws.specs.Reached.{ReachedMapsAgree, MapsAreReached, ReachedMapsAreTheSplices};
ghost use Rattle.eco_laws.specs.Parts.{PartsLeaveTheSame, PartsOfParts, ChoicesCarryOver};
ghost use Rattle.eco_laws.specs.Functions.{SameFunctionsAreParts};

/// A law of patches: an input and the functions of the earlier targets determine these targets and all nets that lie behind
/// no others, and leave a map for any bits of the other targets.
pub fn patches_determine()
    ensures agree { ReachedMapsAgree }
    ensures reached { MapsAreReached }
{}

/// A law of patches: what a patch leaves are the maps that are consistent with the splice.
pub fn patches_leave_the_splice()
    ensures { ReachedMapsAreTheSplices }
{}

/// A law of patches: a patch of more targets leaves what its part for the earlier targets leaves, so what is forced, needed,
/// chosen or kept with one of them is so with the other. It is a part where both give these targets the same functions.
pub fn parts_stand_for_patches()
    ensures same { PartsLeaveTheSame }
    ensures parts { PartsOfParts }
    ensures functions { SameFunctionsAreParts }
    ensures stands { ChoicesCarryOver }
{}
