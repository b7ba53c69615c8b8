//! Laws of references, and of patches that follow them.

ghost use Rattle.eco_references.specs.References.{KeptByForced};
ghost use Rattle.eco_references.specs.Together.{FollowersAreRight, LaterStayReferences, ReferencesGoOn, ReferencesKeep, ReferencesRectify};

/// A law of references: a function keeps the implementation rectifiable exactly if it has the bits that are forced, and the
/// references of all open targets show that it is kept, and that it can be rectified.
pub fn references_show_kept()
    ensures forced { KeptByForced }
    ensures keep { ReferencesKeep }
    ensures rectify { ReferencesRectify }
{}

/// A law of patches that follow references: a target that gets its reference leaves references of the others, and so does one that
/// gets a function with the bits that are left beside the functions of the later ones; a patch all of whose functions are the
/// references makes the implementation do what is asked.
pub fn references_are_followed()
    ensures go_on { ReferencesGoOn }
    ensures stay { LaterStayReferences }
    ensures right { FollowersAreRight }
{}
