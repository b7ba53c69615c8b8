//! What a text of a report tells.

use crate::report::Report;
use eco_meaning::Bits;

/// Which kind of question was given up: whether the targets can be made right at each input (`rect`), whether signals
/// suffice for a target (`sep`), whether an input can be made right (`fix`), whether two netlists are equal (`eq`).
#[derive(Clone, Copy, PartialEq, Eq)]
pub enum Word {
    Rect,
    Sep,
    Fix,
    Eq,
}

/// What a report's text tells: a patch, an input at which no values of the targets help, or a question on which so
/// many learnt clauses were spent in vain.
#[derive(Drop)]
pub enum ReportFile {
    Patched(Report),
    Unrectifiable(Bits),
    Budget { word: Word, limit: u32 },
}
