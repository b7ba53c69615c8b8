//! Netlists without targets that do what is asked.

ghost use Rattle.eco_pose.specs.Equivalent.{NoneWrongIsEquivalent, EquivalentHasNoneWrong};

/// A law of netlists without targets: one has the outputs that are asked for exactly where no input is wrong.
pub fn equivalent_where_nothing_is_wrong()
    ensures equivalent { NoneWrongIsEquivalent }
    ensures none_wrong { EquivalentHasNoneWrong }
{}
