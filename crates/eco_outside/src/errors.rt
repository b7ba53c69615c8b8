// Why a store or a sink gives up.
ghost use Rattle.std.specs.Prelude.{◌≡◌};
ghost use Rattle.eco_outside.specs.declared.errors.StoreError.TheVariants.{OutOfMemory as StoreOutOfMemory};
ghost use Rattle.eco_outside.specs.declared.errors.SinkError.TheVariants.{OutOfMemory as SinkOutOfMemory};

use std::alloc::{AllocError, AllocFailed};
use std::fmt::{self, Debug, Display, Formatter};
use thiserror::Error;

/// Why a store did not read or write a file.
#[derive(Clone, Copy, PartialEq, Eq, Error)]
pub enum StoreError {
    /// The file could not be opened, read or written.
    #[error("the file could not be read or written")]
    Failed,
    /// The file has more bytes than the caller allows.
    #[error("the file is too long")]
    TooLong,
    /// There was no memory for the call.
    #[error("out of memory")]
    OutOfMemory,
}

/// As it is displayed.
impl Debug for StoreError {
    fn fmt<W: fmt::Write>(&self, f: &mut Formatter<W>) -> fmt::Result {
        Display::fmt(self, f)
    }
}

impl From<AllocError> for StoreError {
    ghost from_gives = { λ _ e. e ≡ StoreOutOfMemory };

    fn from(_: AllocError) -> Self {
        StoreError::OutOfMemory
    }
}

impl<T: Drop> From<AllocFailed<T>> for StoreError {
    ghost from_gives = { λ _ e. e ≡ StoreOutOfMemory };

    fn from(_: AllocFailed<T>) -> Self {
        StoreError::OutOfMemory
    }
}

/// Why a sink did not take a piece.
#[derive(Clone, Copy, PartialEq, Eq, Error)]
pub enum SinkError {
    /// The piece was not taken whole.
    #[error("the output could not be written")]
    Failed,
    /// There was no memory for the call.
    #[error("out of memory")]
    OutOfMemory,
}

/// As it is displayed.
impl Debug for SinkError {
    fn fmt<W: fmt::Write>(&self, f: &mut Formatter<W>) -> fmt::Result {
        Display::fmt(self, f)
    }
}

impl From<AllocError> for SinkError {
    ghost from_gives = { λ _ e. e ≡ SinkOutOfMemory };

    fn from(_: AllocError) -> Self {
        SinkError::OutOfMemory
    }
}

impl<T: Drop> From<AllocFailed<T>> for SinkError {
    ghost from_gives = { λ _ e. e ≡ SinkOutOfMemory };

    fn from(_: AllocFailed<T>) -> Self {
        SinkError::OutOfMemory
    }
}
