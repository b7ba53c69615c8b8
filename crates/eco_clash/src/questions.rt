//! Questions of tuples.

ghost use Rattle.eco_clash.specs.Questions.{UnfixedClashes, ClashesAreUnfixed, FixedRowIsNew};

/// A law of tuples: one is a clash exactly where no bits of the targets are right at all of its inputs.
pub fn unfixed_tuples_clash()
    ensures clash { UnfixedClashes }
    ensures unfixed { ClashesAreUnfixed }
{}

/// A law of tuples: where one has for each listed row an input at which that isn't right, bits that are right at all of its
/// inputs aren't listed; so each makes the list longer, which ends.
pub fn fixed_rows_are_new()
    ensures { FixedRowIsNew }
{}
