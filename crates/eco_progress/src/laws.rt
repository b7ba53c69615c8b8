//! Laws of patches whose targets get their functions one after the other, each from an interpolant. The statements are in
//! `specs/`.
ghost use Rattle.eco_progress.specs.Steps.{EarlierStand, InterpolantsKeep, NeededAreRead};

/// The interpolant of a target's refuted question keeps the implementation rectifiable, and what was said of the targets before
/// it stands.
pub fn targets_go_on()
    ensures kept { InterpolantsKeep }
    ensures stand { EarlierStand }
{}

/// A needed signal is read by a gate.
pub fn needed_signals_are_read()
    ensures { NeededAreRead }
{}
