//! A law of the nets that are judged.

ghost use Rattle.eco_locate.specs.Laws.{JudgedIsLocated};

/// A law of judged nets: by their names, each net that a gate drives is a listed choice, or left over, or excluded by an input.
pub fn judged_nets_are_located()
    ensures { JudgedIsLocated }
{}
