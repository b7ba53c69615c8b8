// A store in memory that never fails.
ghost use Rattle.std.specs.Prelude.{◌≡◌, ◌≢◌, ◌<◌, length, Some, Err, IfOk, OnOk, IsErr, IsErrOf, IsTrue};
ghost use Rattle.std.specs.Option.{option_copied};
ghost use Rattle.std.specs.FinMap as finite;
ghost use Rattle.eco_outside.specs.Store.{WhereKnown, content, fresh_store, ReadKeeps, ReadGives, ReadFails, ReadExceeds, ReadLacksMemory, WriteKeeps, WritePuts, WriteFails, WriteLacksMemory};
ghost use Rattle.eco_outside.specs.Kept.{files_of, have_own_names};
ghost use Rattle.eco_outside.specs.SureStore.{sure_view};

use crate::file_list::{find_file, put_bytes};
use crate::{Store, StoreError};
use std::alloc::Global;

/// Files in memory. No call fails, and a name without a file is read as no bytes.
#[derive(Drop)]
pub struct SureStore {
    alloc: Global,
    files: Vec<(String, Vec<u8>)>,
    too_long: Option<String>,
    taken: u64,
}

impl SureStore {
    /// A store of these files.
    pub fn new(alloc: Global, files: Vec<(String, Vec<u8>)>) -> Self
        requires { IsTrue (have_own_names files.items) }
        ensures { sure_view result ≡ fresh_store (Some (files_of files.items)) }
    {
        SureStore {
            alloc,
            files,
            too_long: None,
            taken: 0,
        }
    }

    /// The bytes of the file of that name.
    pub fn get(&self, name: &str) -> Option<&[u8]>
        ensures { WhereKnown (sure_view self.now).files (λ files. option_copied result ≡ finite.get files name.now) }
    {
        find_file(&self.files, name)
    }
}

impl Store for SureStore {
    ghost view = { sure_view };

    fn read(&mut self, name: &str, most: u64) -> Result<Vec<u8>, StoreError>
        ensures keeps { ReadKeeps (sure_view self.old) (sure_view self.new) }
        ensures ok { IfOk result (λ bytes. ReadGives (sure_view self.old) (sure_view self.new) name.now most bytes.items) }
        ensures failed { IsErrOf result StoreError.Failed → ReadFails (sure_view self.old) (sure_view self.new) name.now }
        ensures too_long { IsErrOf result StoreError.TooLong → ReadExceeds (sure_view self.old) (sure_view self.new) name.now most }
        ensures longer { WhereKnown (sure_view self.old).files (λ files. most < length (content files name.now) → IsErr result) }
        ensures out_of_memory { IsErrOf result StoreError.OutOfMemory → ReadLacksMemory (sure_view self.old) (sure_view self.new) }
        // A file that is too long is seen whole.
        ensures whole_taken { WhereKnown (sure_view self.old).files (λ files. IsErrOf result StoreError.TooLong → (sure_view self.new).taken ≡ length (content files name.now)) }
        ensures never_failed { result ≢ Err StoreError.Failed }
    {
        let blamed = String::from_str(self.alloc, name)?;
        let bytes = find_file(&self.files, name).unwrap_or(&[]);
        if bytes.len() as u64 > most {
            self.taken = bytes.len() as u64;
            self.too_long = Some(blamed);
            return Err(StoreError::TooLong);
        }
        Ok(Vec::from_slice(self.alloc, bytes)?)
    }

    fn write(&mut self, name: &str, bytes: &[u8]) -> Result<(), StoreError>
        ensures keeps { WriteKeeps (sure_view self.old) (sure_view self.new) }
        ensures ok { OnOk result (WritePuts (sure_view self.old) (sure_view self.new) name.now bytes.now) }
        ensures failed { IsErrOf result StoreError.Failed → WriteFails (sure_view self.old) (sure_view self.new) name.now bytes.now }
        ensures never_too_long { result ≢ Err StoreError.TooLong }
        ensures out_of_memory { IsErrOf result StoreError.OutOfMemory → WriteLacksMemory (sure_view self.old) (sure_view self.new) }
        ensures never_failed { result ≢ Err StoreError.Failed }
    {
        put_bytes(&mut self.files, self.alloc, name, bytes)?;
        Ok(())
    }
}
