//! Laws of the greedy choice: what shows that a base is it.

ghost use Rattle.eco_laws.specs.Witnesses.{ShownBaseIsGreedy, WitnessesShowNeed};
ghost use Rattle.eco_laws.specs.ByTurns.{KeptByTurnsIsGreedy};
ghost use Rattle.eco_laws.specs.Front.{WorkingIsListed, FrontBegins, FrontSkips, FrontKeeps, FrontEnds, TurnsAreDistinct};

/// A base whose signals are all shown to be kept at their turns, and that suffices, is the greedy choice, however it was
/// found; and the inputs that show this show that each signal is needed in the base.
pub fn shown_base_is_greedy()
    ensures greedy { ShownBaseIsGreedy }
    ensures needed { WitnessesShowNeed }
{}

/// A front goes from no turn to the last by steps that skip or keep, and is then a base that is shown; each signal has one
/// turn, and what is asked of at a step is a list.
pub fn front_goes_on()
    ensures begins { FrontBegins }
    ensures skips { FrontSkips }
    ensures keeps { FrontKeeps }
    ensures ends { FrontEnds }
    ensures distinct { TurnsAreDistinct }
    ensures listed { WorkingIsListed }
{}

/// What is kept by turns, each signal where those before and behind it don't suffice without it, is the greedy choice.
pub fn kept_by_turns_is_greedy()
    ensures { KeptByTurnsIsGreedy }
{}
