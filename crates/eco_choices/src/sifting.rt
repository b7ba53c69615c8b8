//! Laws of sifting nets.

ghost use Rattle.eco_choices.specs.Located.{SiftingBegins, SiftingByInput, SiftingByChoice, SiftingEnds};

/// A law of sifting: it begins with all nets, goes on by wrong inputs and by choices, and its end tells of every net.
pub fn nets_are_sifted()
    ensures begins { SiftingBegins }
    ensures input { SiftingByInput }
    ensures choice { SiftingByChoice }
    ensures ends { SiftingEnds }
{}
