//! Laws of signals that suffice, with no question about two inputs.

ghost use Rattle.eco_references.specs.Bases.{DeterminedSuffices, KeptSuffices, PrefixesKeep};

/// A law of bases: the signals that a function reads with which the implementation is kept rectifiable suffice, and so do signals
/// that determine a reference; with a patch that does what is asked each of its functions is such a one.
pub fn bases_suffice()
    ensures kept { KeptSuffices }
    ensures determined { DeterminedSuffices }
    ensures prefixes { PrefixesKeep }
{}
