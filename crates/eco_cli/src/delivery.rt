//! Writing and printing what a command comes to.

ghost use Rattle.std.specs.Prelude.{◌≡◌, ◌≢◌, map, IfErr, OnOk};
ghost use Rattle.eco_outside.specs.Store.{WriteFails, WriteKeeps, WriteLacksMemory, WritePuts};
ghost use Rattle.eco_cli.specs.Answers.{AreWritten, IsDelivered, IsFrontWritten, IsPut, IsWriteStopped, code_of, write_of, writes_of};

use crate::answer::{Answer, Status, Written};
use eco_outside::{Sink, SinkError, Store, StoreError};

/// Writes the files of an answer, in order, then prints its text.
pub fn deliver<S: Store, K: Sink>(store: &mut S, sink: &mut K, answer: &Answer<'_>) -> Status
    ensures { IsDelivered (writes_of answer.now) answer.now.text.items (code_of answer.now.status)
        (S.view store.old) (S.view store.new) (K.view sink.old) (K.view sink.new) (code_of result) }
{
    match write_all(store, answer.writes.as_slice()) {
        Ok(()) => print(sink, answer.text.as_slice(), answer.status),
        Err(WriteStop::Failed) => Status::WriteFault,
        Err(WriteStop::OutOfMemory) => Status::OutOfMemory,
    }
}

/// Prints a text, where the run is to end with this status.
pub fn print<K: Sink>(sink: &mut K, text: &[u8], status: Status) -> Status
    ensures { IsPut (K.view sink.old) (K.view sink.new) text.now (code_of status) (code_of result) }
{
    match sink.put(text) {
        Ok(()) => status,
        Err(SinkError::Failed) => Status::WriteFault,
        Err(SinkError::OutOfMemory) => Status::OutOfMemory,
    }
}

/// Why the files of a command are not all written.
#[derive(Clone, Copy)]
enum WriteStop {
    /// The store could not write a file.
    Failed,
    /// Memory could not be had.
    OutOfMemory,
}

/// Writes the files, in order.
fn write_all<S: Store>(store: &mut S, writes: &[Written<'_>]) -> Result<(), WriteStop>
    ensures ok { OnOk result (AreWritten (S.view store.old) (S.view store.new) (map write_of writes.now)) }
    ensures failed { IfErr result (λ why. why ≢ WriteStop.OutOfMemory →
        IsWriteStopped (S.view store.old) (S.view store.new) (map write_of writes.now)) }
    ensures cut { IfErr result (λ why. why ≡ WriteStop.OutOfMemory →
        IsFrontWritten (S.view store.old) (S.view store.new) (map write_of writes.now)) }
{
    for file in writes {
        match write_file(store, file.path, file.bytes.as_slice()) {
            Ok(()) => {}
            Err(stop) => return Err(stop),
        }
    }
    Ok(())
}

fn write_file<S: Store>(store: &mut S, path: &str, bytes: &[u8]) -> Result<(), WriteStop>
    ensures keeps { WriteKeeps (S.view store.old) (S.view store.new) }
    ensures ok { OnOk result (WritePuts (S.view store.old) (S.view store.new) path.now bytes.now) }
    ensures failed { IfErr result (λ why. why ≢ WriteStop.OutOfMemory →
        WriteFails (S.view store.old) (S.view store.new) path.now bytes.now) }
    ensures cut { IfErr result (λ why. why ≡ WriteStop.OutOfMemory →
        WriteLacksMemory (S.view store.old) (S.view store.new)) }
{
    match store.write(path, bytes) {
        Ok(()) => Ok(()),
        Err(StoreError::Failed) => Err(WriteStop::Failed),
        Err(StoreError::OutOfMemory) => Err(WriteStop::OutOfMemory),
        Err(StoreError::TooLong) => unreachable!(),
    }
}
