//! What a file of the store gives, whatever is read from it.

ghost use Rattle.std.specs.Prelude.{◌≡◌, IfOk, IfErr};
ghost use Rattle.eco_outside.specs.Store.{ReadKeeps};
ghost use Rattle.eco_inputs.specs.Reading.{Halts, IsHaltAt, IsLack, IsPassed, Kind, file_row, joined, oversize_of};

use crate::halt::{FileError, Halt};
use eco_outside::{Store, StoreError};
use std::alloc::Global;

/// Why bytes of a kind of file give nothing.
#[derive(Drop)]
pub enum Lack<F> {
    /// They have this error.
    Error(F),
    /// Memory could not be had.
    OutOfMemory,
}

/// A kind of file.
pub trait Readable {
    /// What the bytes of such a file give.
    type Value;

    /// Why they give nothing.
    type Error;

    /// Which bytes give which value, and which have which error.
    ghost kind: { Self → Kind Self.Error Self.Value };

    /// What these bytes give.
    fn parse(&self, alloc: Global, bytes: &[u8]) -> Result<Self::Value, Lack<Self::Error>>
        ensures ok { IfOk result ((kind self.now).gives bytes.now) }
        ensures err { IfErr result (IsLack (kind self.now) bytes.now) };
}

/// Reads the file at this path, of which at most `most` bytes are taken.
pub fn read_file<'a, K: Readable, S: Store>(
    alloc: Global,
    store: &mut S,
    kind: &K,
    path: &'a str,
    most: u64,
) -> Result<K::Value, Halt<'a, FileError<K::Error>>>
    ensures keeps { ReadKeeps (S.view store.old) (S.view store.new) }
    ensures ok { IfOk result (IsPassed (file_row (K.kind kind.now) path.entry.now most) (S.view store.old) (S.view store.new)) }
    ensures err { IfErr result (Halts (oversize_of path.entry.now most) (file_row (K.kind kind.now) path.entry.now most) (S.view store.old) (S.view store.new)) }
{
    match store.read(path, most) {
        Ok(bytes) => parsed(alloc, kind, bytes.as_slice()),
        Err(StoreError::Failed) => Err(Halt::Unread(path)),
        Err(StoreError::TooLong) => Err(Halt::For(FileError::TooLong)),
        Err(StoreError::OutOfMemory) => Err(Halt::OutOfMemory),
    }
}

/// What the bytes of the file give.
fn parsed<'a, K: Readable>(
    alloc: Global,
    kind: &K,
    bytes: &[u8],
) -> Result<K::Value, Halt<'a, FileError<K::Error>>>
    ensures ok { IfOk result ((K.kind kind.now).gives bytes.now) }
    ensures err { IfErr result (IsHaltAt (K.kind kind.now) bytes.now) }
{
    match kind.parse(alloc, bytes) {
        Ok(value) => Ok(value),
        Err(Lack::Error(error)) => Err(Halt::For(FileError::Within(error))),
        Err(Lack::OutOfMemory) => Err(Halt::OutOfMemory),
    }
}

/// What was read so far and what was read last, as one value. If the last could not be read, what was read so far is let go.
pub fn joined<A: Drop, B, E>(so_far: A, last: Result<B, E>) -> Result<(A, B), E>
    ensures { result ≡ joined so_far last }
{
    match last {
        Ok(last) => Ok((so_far, last)),
        Err(error) => {
            drop(so_far);
            Err(error)
        }
    }
}
