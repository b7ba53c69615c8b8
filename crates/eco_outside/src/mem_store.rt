// A store in memory, for tests: it fails at the calls that it is told.
ghost use Rattle.std.specs.Prelude.{◌≡◌, ◌≢◌, ◌<◌, ◌⊎◌, length, take, true, Some, None, Err, IfOk, OnOk, IsErr, IsErrOf, IsTrue};
ghost use Rattle.std.specs.Option.{option_copied};
ghost use Rattle.std.specs.FinMap as finite;
ghost use Rattle.eco_outside.specs.Store.{WhereKnown, content, fresh_store, put_file, ReadKeeps, ReadGives, ReadFails, ReadExceeds, ReadLacksMemory, WriteKeeps, WritePuts, WriteFails, WriteLacksMemory};
ghost use Rattle.eco_outside.specs.Kept.{files_of, fails_next, behind_call, have_own_names};
ghost use Rattle.eco_outside.specs.MemStore.{mem_view, plan_of};

use crate::fault_log::FaultLog;
use crate::file_list::{find_file, put_bytes};
use crate::{Store, StoreError};
use std::alloc::Global;

/// Files in memory, and a plan of calls that fail. Reads and writes are numbered together from 0, and
/// each takes its number whatever it answers.
#[derive(Drop)]
pub struct MemStore {
    alloc: Global,
    files: Vec<(String, Vec<u8>)>,
    failing: Vec<u64>,
    keep: u64,
    next_call: u64,
    faults: FaultLog,
}

impl MemStore {
    /// A store of these files, whose calls with a number in `failing` answer `Failed`. A write that
    /// fails leaves the first `keep` bytes of what it was given, all of them where there are fewer.
    pub fn new(alloc: Global, files: Vec<(String, Vec<u8>)>, failing: Vec<u64>, keep: u64) -> Self
        requires { IsTrue (have_own_names files.items) }
        ensures view { mem_view result ≡ fresh_store (Some (files_of files.items)) }
        ensures plan { plan_of result ≡ record { next = 0; failing = failing.items; keep = keep } }
    {
        MemStore {
            alloc,
            files,
            failing,
            keep,
            next_call: 0,
            faults: FaultLog::new(),
        }
    }

    /// The bytes of the file of that name.
    pub fn get(&self, name: &str) -> Option<&[u8]>
        ensures { WhereKnown (mem_view self.now).files (λ files. option_copied result ≡ finite.get files name.now) }
    {
        find_file(&self.files, name)
    }

    /// Takes the number of a call, and says whether that call is to fail.
    fn take_number(&mut self) -> bool
        ensures answer { result ≡ fails_next (plan_of self.old) }
        ensures plan { plan_of self.new ≡ behind_call (plan_of self.old) }
        ensures view { mem_view self.new ≡ mem_view self.old }
    {
        let fails = self.failing.contains(&self.next_call);
        self.next_call = self.next_call.saturating_add(1);
        fails
    }
}

impl Store for MemStore {
    ghost view = { mem_view };

    fn read(&mut self, name: &str, most: u64) -> Result<Vec<u8>, StoreError>
        ensures keeps { ReadKeeps (mem_view self.old) (mem_view self.new) }
        ensures ok { IfOk result (λ bytes. ReadGives (mem_view self.old) (mem_view self.new) name.now most bytes.items) }
        ensures failed { IsErrOf result StoreError.Failed → ReadFails (mem_view self.old) (mem_view self.new) name.now }
        ensures too_long { IsErrOf result StoreError.TooLong → ReadExceeds (mem_view self.old) (mem_view self.new) name.now most }
        ensures longer { WhereKnown (mem_view self.old).files (λ files. most < length (content files name.now) → IsErr result) }
        ensures out_of_memory { IsErrOf result StoreError.OutOfMemory → ReadLacksMemory (mem_view self.old) (mem_view self.new) }
        // A file that is too long is seen whole.
        ensures whole_taken { WhereKnown (mem_view self.old).files (λ files. IsErrOf result StoreError.TooLong → (mem_view self.new).taken ≡ length (content files name.now)) }
        ensures plan { plan_of self.new ≡ behind_call (plan_of self.old) }
        // A call that is to fail answers so, unless memory is out; so does a read of a missing file.
        ensures planned { fails_next (plan_of self.old) ≡ true → (result ≡ Err StoreError.Failed) ⊎ (result ≡ Err StoreError.OutOfMemory) }
        ensures missing { WhereKnown (mem_view self.old).files (λ files. finite.get files name.now ≡ None → (result ≡ Err StoreError.Failed) ⊎ (result ≡ Err StoreError.OutOfMemory)) }
        ensures only_then { WhereKnown (mem_view self.old).files (λ files. IsErrOf result StoreError.Failed → (fails_next (plan_of self.old) ≡ true) ⊎ (finite.get files name.now ≡ None)) }
    {
        let is_to_fail = self.take_number();
        let blamed = String::from_str(self.alloc, name)?;
        if is_to_fail {
            self.faults.fail_read(blamed);
            return Err(StoreError::Failed);
        }
        match find_file(&self.files, name) {
            None => {
                self.faults.fail_read(blamed);
                Err(StoreError::Failed)
            }
            Some(bytes) => {
                if bytes.len() as u64 > most {
                    self.faults.exceed(blamed, bytes.len() as u64);
                    return Err(StoreError::TooLong);
                }
                Ok(Vec::from_slice(self.alloc, bytes)?)
            }
        }
    }

    fn write(&mut self, name: &str, bytes: &[u8]) -> Result<(), StoreError>
        ensures keeps { WriteKeeps (mem_view self.old) (mem_view self.new) }
        ensures ok { OnOk result (WritePuts (mem_view self.old) (mem_view self.new) name.now bytes.now) }
        ensures failed { IsErrOf result StoreError.Failed → WriteFails (mem_view self.old) (mem_view self.new) name.now bytes.now }
        ensures never_too_long { result ≢ Err StoreError.TooLong }
        ensures out_of_memory { IsErrOf result StoreError.OutOfMemory → WriteLacksMemory (mem_view self.old) (mem_view self.new) }
        ensures plan { plan_of self.new ≡ behind_call (plan_of self.old) }
        ensures planned { fails_next (plan_of self.old) ≡ true → (result ≡ Err StoreError.Failed) ⊎ (result ≡ Err StoreError.OutOfMemory) }
        ensures only_then { IsErrOf result StoreError.Failed → fails_next (plan_of self.old) ≡ true }
        // A write that fails takes the front part of the bytes.
        ensures front { IsErrOf result StoreError.Failed → (mem_view self.new).files ≡ put_file (mem_view self.old).files name.now (take (plan_of self.old).keep bytes.now) }
    {
        let is_to_fail = self.take_number();
        let blamed = String::from_str(self.alloc, name)?;
        if is_to_fail {
            let count = bytes.len().min(self.keep as usize);
            put_bytes(&mut self.files, self.alloc, name, &bytes[..count])?;
            self.faults.fail_write(blamed);
            return Err(StoreError::Failed);
        }
        put_bytes(&mut self.files, self.alloc, name, bytes)?;
        Ok(())
    }
}
