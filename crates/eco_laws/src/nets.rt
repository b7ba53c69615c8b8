//! What the value of a net depends on.

ghost use Rattle.eco_laws.specs.Sources.{DependsOnSources, DependsOnTargets, CanBeFilled};
ghost use Rattle.eco_laws.specs.Kept.{SoundTakesAnyInputs, NoGatesTakeAnyInputs};

/// A law of netlists: the value of a net depends on the undriven nets behind which it lies, and on nothing else; so on the
/// inputs and on the targets behind which it lies.
pub fn nets_depend_on_what_lies_before()
    ensures sources { DependsOnSources }
    ensures targets { DependsOnTargets }
{}

/// A law of netlists: any bits of the nets that no gate drives go on to a consistent map; so do any bits of the inputs, also
/// where there is no gate.
pub fn netlists_can_be_filled()
    ensures free { CanBeFilled }
    ensures inputs { SoundTakesAnyInputs }
    ensures no_gates { NoGatesTakeAnyInputs }
{}
