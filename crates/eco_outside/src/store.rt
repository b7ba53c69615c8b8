// Files by their names: what a caller may rely on, whatever keeps them.
ghost use Rattle.std.specs.Prelude.{◌≡◌, ◌≢◌, ◌<◌, length, IfOk, OnOk, IsErr, IsErrOf, Err};
ghost use Rattle.eco_outside.specs.Store.{StoreView, WhereKnown, content, ReadKeeps, ReadGives, ReadFails, ReadExceeds, ReadLacksMemory, WriteKeeps, WritePuts, WriteFails, WriteLacksMemory};

use crate::StoreError;

/// A store of files, each with a name and bytes.
pub trait Store {
    /// What callers know of the store. A store may keep its files untold; its counts of faults,
    /// and the call that it blames, it always tells.
    ghost view: { Self → StoreView };

    /// The bytes of a file, which may be at most `most`. A store may answer no bytes or `Failed`
    /// for a name that it has no file of.
    fn read(&mut self, name: &str, most: u64) -> Result<Vec<u8>, StoreError>
        ensures keeps { ReadKeeps (view self.old) (view self.new) }
        ensures ok { IfOk result (λ bytes. ReadGives (view self.old) (view self.new) name.now most bytes.items) }
        ensures failed { IsErrOf result StoreError.Failed → ReadFails (view self.old) (view self.new) name.now }
        ensures too_long { IsErrOf result StoreError.TooLong → ReadExceeds (view self.old) (view self.new) name.now most }
        ensures longer { WhereKnown (view self.old).files (λ files. most < length (content files name.now) → IsErr result) }
        ensures out_of_memory { IsErrOf result StoreError.OutOfMemory → ReadLacksMemory (view self.old) (view self.new) };

    /// Puts these bytes in place of the file, or makes it.
    fn write(&mut self, name: &str, bytes: &[u8]) -> Result<(), StoreError>
        ensures keeps { WriteKeeps (view self.old) (view self.new) }
        ensures ok { OnOk result (WritePuts (view self.old) (view self.new) name.now bytes.now) }
        ensures failed { IsErrOf result StoreError.Failed → WriteFails (view self.old) (view self.new) name.now bytes.now }
        ensures never_too_long { result ≢ Err StoreError.TooLong }
        ensures out_of_memory { IsErrOf result StoreError.OutOfMemory → WriteLacksMemory (view self.old) (view self.new) };
}
