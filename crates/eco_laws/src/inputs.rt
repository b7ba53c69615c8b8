//! Laws of inputs as signals that a target's function may read.

ghost use Rattle.eco_laws.specs.Inputs.{InputsAreCandidates, InputsSuffice, CandidatesSuffice};

/// Each input is a candidate of each target, and where no input is lost they suffice; so do all candidates.
pub fn inputs_are_enough()
    ensures candidates { InputsAreCandidates }
    ensures inputs { InputsSuffice }
    ensures all { CandidatesSuffice }
{}
