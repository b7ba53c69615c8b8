//! A law of the texts of netlists.

ghost use Rattle.std.specs.Prelude.{◌≡◌, ℕ, List};
ghost use Rattle.eco_meaning.specs.Circuit.{Circuit};
ghost use Rattle.eco_netlist.specs.declared.draft.TargetRule.{TargetRule};
ghost use Rattle.eco_vread.specs.Texts.{IsNetlistText};

/// A law of the format: under one rule a text is that of at most one netlist. So what `read` gives is the only one.
pub fn reads_once()
    ensures { (rule : TargetRule) (bytes : List ℕ) (netlist other : Circuit)
        → IsNetlistText rule bytes netlist → IsNetlistText rule bytes other → netlist ≡ other }
{}
