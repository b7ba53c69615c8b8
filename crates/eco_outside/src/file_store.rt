// The system's files. What they hold is not known to any clause.
ghost use Rattle.std.specs.Prelude.{◌≡◌, ◌≢◌, ◌<◌, ◌≤◌, length, None, Err, IfOk, OnOk, IsErr, IsErrOf};
ghost use Rattle.std.specs.Bool.{OnTrue};
ghost use Rattle.std.specs.Io.KnownBytes.{Consumes, Appends, IsAtEnd};
ghost use Rattle.eco_outside.specs.Store.{WhereKnown, content, fresh_store, ReadKeeps, ReadGives, ReadFails, ReadExceeds, ReadLacksMemory, WriteKeeps, WritePuts, WriteFails, WriteLacksMemory};
ghost use Rattle.eco_outside.specs.Edge.{file_view};

use crate::fault_log::FaultLog;
use crate::{Store, StoreError};
use std::alloc::Global;
use std::fs::File;
use std::io::{Read, Write};
use std::rt::Files;

/// How many bytes one read asks for.
const CHUNK: usize = 16384;

/// The files of the system, by their paths. Each error of the system, whatever its kind, is a fault, and
/// so is a write that takes nothing of what is left. It tells no bytes.
#[derive(Drop)]
pub struct FileStore<R> {
    alloc: Global,
    runtime: R,
    faults: FaultLog,
}

impl<R: Files> FileStore<R> {
    /// The files that the runtime reaches.
    pub fn new(alloc: Global, runtime: R) -> Self
        ensures { file_view result ≡ fresh_store None }
    {
        FileStore {
            alloc,
            runtime,
            faults: FaultLog::new(),
        }
    }
}

/// Reads to the end, or until more than `most` bytes are read.
fn read_up_to<F: Read>(alloc: Global, file: &mut F, most: u64) -> Result<Vec<u8>, StoreError>
    ensures taken { IfOk result (λ bytes. Consumes (F.remaining file.old) (F.remaining file.new) bytes.items) }
    ensures whole { IfOk result (λ bytes. length bytes.items ≤ most → IsAtEnd (F.remaining file.new)) }
{
    let mut bytes = Vec::new(alloc);
    let mut chunk = [0u8; CHUNK];
    'reads: while bytes.len() as u64 <= most {
        match file.read(&mut chunk) {
            Ok(0) => return Ok(bytes),
            Ok(count) => bytes.extend_from_slice(&chunk[..count])?,
            Err(_) => return Err(StoreError::Failed),
        }
    }
    Ok(bytes)
}

/// Writes all the bytes, and is true where that is done.
fn write_whole<F: Write>(file: &mut F, bytes: &[u8]) -> bool
    ensures { OnTrue result (Appends (F.contents file.old) (F.contents file.new) bytes.now) }
{
    let mut rest = bytes;
    'writes: while !rest.is_empty() {
        match file.write(rest) {
            Ok(0) | Err(_) => return false,
            Ok(count) => rest = &rest[count..],
        }
    }
    true
}

/// Opens a file and reads it as `read_up_to` does.
fn read_file<R: Files>(
    alloc: Global,
    runtime: &R,
    name: &str,
    most: u64,
) -> Result<Vec<u8>, StoreError> {
    match File::open(runtime, name) {
        Ok(mut file) => read_up_to(alloc, &mut file, most),
        Err(_) => Err(StoreError::Failed),
    }
}

/// Makes a file of these bytes, and is true where that is done.
fn write_file<R: Files>(runtime: &R, name: &str, bytes: &[u8]) -> bool {
    match File::create(runtime, name) {
        Ok(mut file) => write_whole(&mut file, bytes),
        Err(_) => false,
    }
}

impl<R: Files> Store for FileStore<R> {
    ghost view = { file_view };

    fn read(&mut self, name: &str, most: u64) -> Result<Vec<u8>, StoreError> {
        let blamed = String::from_str(self.alloc, name)?;
        match read_file(self.alloc, &self.runtime, name, most) {
            Ok(bytes) => {
                let taken = bytes.len() as u64;
                if taken > most {
                    self.faults.exceed(blamed, taken);
                    return Err(StoreError::TooLong);
                }
                Ok(bytes)
            }
            Err(StoreError::OutOfMemory) => Err(StoreError::OutOfMemory),
            Err(_) => {
                self.faults.fail_read(blamed);
                Err(StoreError::Failed)
            }
        }
    }

    fn write(&mut self, name: &str, bytes: &[u8]) -> Result<(), StoreError> {
        let blamed = String::from_str(self.alloc, name)?;
        if write_file(&self.runtime, name, bytes) {
            return Ok(());
        }
        self.faults.fail_write(blamed);
        Err(StoreError::Failed)
    }
}
