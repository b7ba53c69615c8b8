//! Why a text is no netlist.

ghost use Rattle.std.specs.Prelude.{◌≡◌};
ghost use Rattle.eco_vread.specs.declared.error.ParseError.TheVariants.{OutOfMemory as ParseOutOfMemory};
ghost use Rattle.eco_vread.specs.declared.error.ReadError.TheVariants.{OutOfMemory as ReadOutOfMemory};

use eco_netlist::{OutOfMemory, Refusal};
use std::alloc::{AllocError, AllocFailed};
use std::fmt::{self, Debug, Display, Formatter};
use thiserror::Error;

/// Why a text gives no netlist.
#[derive(Drop, Error)]
pub enum ReadError {
    /// The text is not in the grammar. At `at` stands the first token that can't stand where it does, or the first
    /// byte that begins no token; it is the length of the text where the text ends too early.
    #[error("syntax error at byte {at}")]
    Syntax {
        /// How many bytes of the text stand before that place.
        at: u64,
    },
    /// What the text declares is no netlist.
    #[error("what the text declares is no netlist")]
    Refused(Refusal),
    /// Memory could not be had.
    #[error("out of memory")]
    OutOfMemory,
}

/// As it is displayed.
impl Debug for ReadError {
    fn fmt<W: fmt::Write>(&self, f: &mut Formatter<W>) -> fmt::Result {
        Display::fmt(self, f)
    }
}

impl From<OutOfMemory> for ReadError {
    ghost from_gives = { λ _ e. e ≡ ReadOutOfMemory };

    fn from(_error: OutOfMemory) -> ReadError {
        ReadError::OutOfMemory
    }
}

/// Why tokens are no syntax tree.
#[derive(Clone, Copy, Drop)]
pub(crate) enum ParseError {
    /// At `at` stands the first token that can't stand there.
    Syntax {
        /// How many bytes of the text stand before it.
        at: u64,
    },
    /// Memory could not be had.
    OutOfMemory,
}

impl From<AllocError> for ParseError {
    ghost from_gives = { λ _ e. e ≡ ParseOutOfMemory };

    fn from(_error: AllocError) -> ParseError {
        ParseError::OutOfMemory
    }
}

impl<T: Drop> From<AllocFailed<T>> for ParseError {
    ghost from_gives = { λ _ e. e ≡ ParseOutOfMemory };

    fn from(_error: AllocFailed<T>) -> ParseError {
        ParseError::OutOfMemory
    }
}
