//! Laws of questions that speak of listed rows of bits: what follows where none is left, and what an answer adds.

ghost use Rattle.eco_laws.specs.Asked.{NoneMissed, NoneSeparated, MissedIsWrong, EarlierHaveValues, AmongIsForced, SeparatedIsConflict, MissedRowIsNew, FixedBitsFit, FixedRestIsNew, FixedRestFits};

/// Where a question has no answer among the rows, there is none at all.
pub fn no_answer_is_enough()
    ensures missed { NoneMissed }
    ensures separated { NoneSeparated }
{}

/// An answer among the rows stands where no further bits help: a missed input is wrong, and one that forces a bit among
/// the rests forces it, so that two separated ones are a conflict.
pub fn unfixed_answer_stands()
    ensures wrong { MissedIsWrong }
    ensures values { EarlierHaveValues }
    ensures forced { AmongIsForced }
    ensures conflict { SeparatedIsConflict }
{}

/// Bits that help aren't listed; so each makes the list longer, which ends.
pub fn fixing_bits_are_new()
    ensures row { MissedRowIsNew }
    ensures row_fits { FixedBitsFit }
    ensures rest { FixedRestIsNew }
    ensures rest_fits { FixedRestFits }
{}
