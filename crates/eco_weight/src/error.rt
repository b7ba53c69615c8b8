//! Why a text is no weight file.

ghost use Rattle.std.specs.Prelude.{◌≡◌};
ghost use Rattle.eco_weight.specs.declared.error.WeightError.TheVariants.{OutOfMemory as NoMemory};

use eco_meaning::{Name, OutOfMemory};
use std::fmt::{self, Debug, Display, Formatter};
use thiserror::Error;

/// Why a text gives no weights.
#[derive(Drop, Error)]
pub enum WeightError {
    /// The line of this number, counted from 1, is the first that is neither blank nor a name and its weight.
    #[error("line {0} is no name with a weight")]
    Line(u64),
    /// Every line is sound, and this is the smallest of the names that stand on two lines.
    #[error("a name stands on two lines")]
    Twice(Name),
    /// Memory could not be had.
    #[error("out of memory")]
    OutOfMemory,
}

/// As it is displayed.
impl Debug for WeightError {
    fn fmt<W: fmt::Write>(&self, f: &mut Formatter<W>) -> fmt::Result {
        Display::fmt(self, f)
    }
}

impl From<OutOfMemory> for WeightError {
    ghost from_gives = { λ _ e. e ≡ NoMemory };

    fn from(_error: OutOfMemory) -> WeightError {
        WeightError::OutOfMemory
    }
}
