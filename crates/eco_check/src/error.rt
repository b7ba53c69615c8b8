//! Why steps are no proof.

ghost use Rattle.std.specs.Prelude.{◌≡◌};
ghost use Rattle.eco_check.specs.declared.error.CheckError.TheVariants.{OutOfMemory as NoMemory};

use eco_meaning::OutOfMemory;
use std::fmt::{self, Debug, Display, Formatter};
use thiserror::Error;

/// Why steps don't prove that clauses have no model.
#[derive(Clone, Copy, Error)]
pub enum CheckError {
    /// The step with this number, from 1 on, is the first that isn't legal.
    #[error("step {0} isn't legal")]
    BadStep(u64),
    /// All steps are legal, and the last clause isn't empty, or there is none.
    #[error("the last clause isn't empty")]
    NoEmptyClause,
    /// Memory could not be had.
    #[error("out of memory")]
    OutOfMemory,
}

/// As it is displayed.
impl Debug for CheckError {
    fn fmt<W: fmt::Write>(&self, f: &mut Formatter<W>) -> fmt::Result {
        Display::fmt(self, f)
    }
}

impl From<OutOfMemory> for CheckError {
    ghost from_gives = { λ _ e. e ≡ NoMemory };

    fn from(_error: OutOfMemory) -> CheckError {
        CheckError::OutOfMemory
    }
}
