//! Why a text is no report.

ghost use Rattle.std.specs.Prelude.{◌≡◌};
ghost use Rattle.eco_report.specs.declared.error.ReportError.TheVariants.{OutOfMemory as NoMemory};

use eco_meaning::OutOfMemory;
use std::fmt::{self, Debug, Display, Formatter};
use thiserror::Error;

/// Why a text gives no report.
#[derive(Clone, Copy, Error)]
pub enum ReportError {
    /// The line of this number, counted from 1, is the first that can't stand there. Where each line may stand and the
    /// text ends too early, or its last line has no line feed, it is the number of the lines and one.
    #[error("line {0} is not as a report has it")]
    Line(u64),
    /// Memory could not be had.
    #[error("out of memory")]
    OutOfMemory,
}

/// As it is displayed.
impl Debug for ReportError {
    fn fmt<W: fmt::Write>(&self, f: &mut Formatter<W>) -> fmt::Result {
        Display::fmt(self, f)
    }
}

impl From<OutOfMemory> for ReportError {
    ghost from_gives = { λ _ e. e ≡ NoMemory };

    fn from(_error: OutOfMemory) -> ReportError {
        ReportError::OutOfMemory
    }
}
