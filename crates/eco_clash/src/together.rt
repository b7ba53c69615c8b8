//! Signals that serve all targets at once.

ghost use Rattle.eco_clash.specs.Together.{NoneTogether, TogetherSufficesForFirst};

/// A law of tuples: where none over which the signals are steady misses all of some listed rows, whichever these are, the
/// signals suffice for all targets together.
pub fn none_together_is_enough()
    ensures { NoneTogether }
{}

/// A law of signals: those that suffice for all targets together suffice for the first one.
pub fn together_suffices_for_first()
    ensures { TogetherSufficesForFirst }
{}
