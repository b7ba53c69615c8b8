//! Why nets can't be cut.

ghost use Rattle.std.specs.Prelude.{◌≡◌};
ghost use Rattle.eco_cutting.specs.declared.error.CutError.TheVariants.{OutOfMemory as NoMemory};

use eco_meaning::OutOfMemory;
use std::fmt::{self, Debug, Display, Formatter};
use thiserror::Error;

/// Why nets can't be cut.
#[derive(Clone, Copy, Error)]
pub enum CutError {
    /// There are more nets than names of targets that no net has.
    #[error("there are too few names for targets")]
    Names,
    /// Memory could not be had.
    #[error("out of memory")]
    OutOfMemory,
}

/// As it is displayed.
impl Debug for CutError {
    fn fmt<W: fmt::Write>(&self, f: &mut Formatter<W>) -> fmt::Result {
        Display::fmt(self, f)
    }
}

impl From<OutOfMemory> for CutError {
    ghost from_gives = { λ _ e. e ≡ NoMemory };

    fn from(_error: OutOfMemory) -> CutError {
        CutError::OutOfMemory
    }
}
