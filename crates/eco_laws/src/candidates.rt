//! Functions of candidates.

ghost use Rattle.eco_laws.specs.Functions.{CandidatesHaveValues, AgreeByValues, FunctionsShowThatSignalsSuffice, FunctionsKeep};

/// A law of candidates: they have values at each input, and two inputs are told apart by them exactly where these differ.
pub fn candidates_have_values()
    ensures values { CandidatesHaveValues }
    ensures agree { AgreeByValues }
{}

/// A law of candidates: signals suffice for a target where some function of them has the bit that each input forces, and the
/// patch that goes on with such a function keeps the implementation rectifiable.
pub fn functions_rectify()
    ensures suffices { FunctionsShowThatSignalsSuffice }
    ensures kept { FunctionsKeep }
{}
