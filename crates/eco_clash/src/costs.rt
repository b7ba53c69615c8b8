//! What patches cost at least.

ghost use Rattle.eco_clash.specs.Costs.{PatchesTellClashes, RowsBoundPatches, AnswersCostAtLeast};

/// A law of patches: where a tuple of inputs clashes, a patch of all targets that does what is asked reads a signal that has
/// two values over the tuple with the same bits of the targets.
pub fn patches_tell_clashes()
    ensures { PatchesTellClashes }
{}

/// A law of patches: where each row has the signals that aren't steady over a tuple which clashes, and each set of signals with
/// one of each row weighs so much, no patch of such signals costs less.
pub fn rows_bound_patches()
    ensures { RowsBoundPatches }
{}

/// A law of patches: what each patch costs at least whose signals lie behind no target but those before the last one, each
/// answer to the problem costs at least.
pub fn answers_cost_at_least()
    ensures { AnswersCostAtLeast }
{}
