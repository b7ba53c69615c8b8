//! Why a text is no netlist.

ghost use Rattle.std.specs.Prelude.{◌≡◌};
ghost use Rattle.eco_aiger.specs.declared.error.AigerError.TheVariants.{OutOfMemory as NoMemory};
ghost use Rattle.eco_aiger.specs.declared.error.Unread.TheVariants.{OutOfMemory as UnreadMemory};

use eco_netlist::{OutOfMemory, Refusal};
use std::alloc::{AllocError, AllocFailed};
use std::fmt::{self, Debug, Display, Formatter};
use thiserror::Error;

/// Why a text gives no netlist: of several causes the first in this order.
#[derive(Drop, Error)]
pub enum AigerError {
    /// The text is not of the form. This line, counted from 1, is the first that can't stand where it does; where the
    /// text ends too early it is the one that would be next.
    #[error("line {0} can't stand there")]
    Line(u64),
    /// This is the least variable that stands twice among the inputs and the left sides.
    #[error("variable {0} is defined twice")]
    DefinedTwice(u64),
    /// This is the least variable that an output or a right side uses, and that is neither an input nor a left side.
    #[error("variable {0} is not defined")]
    Undefined(u64),
    /// What the text declares is no netlist.
    #[error("what the text declares is no netlist")]
    Refused(Refusal),
    /// Memory could not be had.
    #[error("out of memory")]
    OutOfMemory,
}

/// As it is displayed.
impl Debug for AigerError {
    fn fmt<W: fmt::Write>(&self, f: &mut Formatter<W>) -> fmt::Result {
        Display::fmt(self, f)
    }
}

impl From<OutOfMemory> for AigerError {
    ghost from_gives = { λ _ e. e ≡ NoMemory };

    fn from(_error: OutOfMemory) -> AigerError {
        AigerError::OutOfMemory
    }
}

/// Why lines are no syntax tree.
#[derive(Clone, Copy, Drop)]
pub(crate) enum Unread {
    /// The line of this number, counted from 1, can't stand there.
    Line(u64),
    /// Memory could not be had.
    OutOfMemory,
}

impl From<OutOfMemory> for Unread {
    ghost from_gives = { λ _ e. e ≡ UnreadMemory };

    fn from(_error: OutOfMemory) -> Unread {
        Unread::OutOfMemory
    }
}

impl From<AllocError> for Unread {
    ghost from_gives = { λ _ e. e ≡ UnreadMemory };

    fn from(_error: AllocError) -> Unread {
        Unread::OutOfMemory
    }
}

impl<T: Drop> From<AllocFailed<T>> for Unread {
    ghost from_gives = { λ _ e. e ≡ UnreadMemory };

    fn from(_error: AllocFailed<T>) -> Unread {
        Unread::OutOfMemory
    }
}
