//! Why a text gives no proof, or no clauses.

ghost use Rattle.std.specs.Prelude.{◌≡◌};
ghost use Rattle.eco_prooftext.specs.declared.error.TraceError.TheVariants.{OutOfMemory as NoMemory};
ghost use Rattle.eco_prooftext.specs.declared.error.CnfError.TheVariants.{OutOfMemory as CnfNoMemory};

use eco_meaning::OutOfMemory;
use std::fmt::{self, Debug, Display, Formatter};
use thiserror::Error;

/// Why a text gives no steps of a proof.
#[derive(Clone, Copy, Error)]
pub enum TraceError {
    /// The line of this number, counted from 1, is the first that is neither blank nor the line of a step.
    #[error("line {0} is no step of a proof")]
    TraceSyntax(u64),
    /// Memory could not be had.
    #[error("out of memory")]
    OutOfMemory,
}

/// As it is displayed.
impl Debug for TraceError {
    fn fmt<W: fmt::Write>(&self, f: &mut Formatter<W>) -> fmt::Result {
        Display::fmt(self, f)
    }
}

impl From<OutOfMemory> for TraceError {
    ghost from_gives = { λ _ e. e ≡ NoMemory };

    fn from(_error: OutOfMemory) -> TraceError {
        TraceError::OutOfMemory
    }
}

/// Why a text gives no clauses.
#[derive(Clone, Copy, Error)]
pub enum CnfError {
    /// The text isn't DIMACS CNF; the first error was found at the line of this number, counted from 1.
    #[error("line {0} is not as DIMACS CNF has it")]
    CnfSyntax(u64),
    /// Memory could not be had.
    #[error("out of memory")]
    OutOfMemory,
}

/// As it is displayed.
impl Debug for CnfError {
    fn fmt<W: fmt::Write>(&self, f: &mut Formatter<W>) -> fmt::Result {
        Display::fmt(self, f)
    }
}

impl From<OutOfMemory> for CnfError {
    ghost from_gives = { λ _ e. e ≡ CnfNoMemory };

    fn from(_error: OutOfMemory) -> CnfError {
        CnfError::OutOfMemory
    }
}
