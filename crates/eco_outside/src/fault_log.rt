// What a store remembers of its calls that did not succeed.
ghost use Rattle.std.specs.Prelude.{◌≡◌, ◌≤◌, ◌+◌, ◌-◌, ◌^◌, min, Some, None};

use crate::Blame;

/// The counts of faults, the last call that answered `Failed` or `TooLong`, with the name that it was
/// given, and how many bytes the last `TooLong` read took.
#[derive(Drop)]
pub(crate) struct FaultLog {
    pub(crate) read_faults: u64,
    pub(crate) write_faults: u64,
    pub(crate) blamed: Option<(Blame, String)>,
    pub(crate) taken: u64,
}

impl FaultLog {
    /// No call has failed.
    pub(crate) fn new() -> Self
        ensures { result ≡ record { read_faults = 0; write_faults = 0; blamed = None; taken = 0 } }
    {
        FaultLog {
            read_faults: 0,
            write_faults: 0,
            blamed: None,
            taken: 0,
        }
    }

    /// A read of that name failed.
    pub(crate) fn fail_read(&mut self, name: String)
        ensures never_less { self.old.read_faults ≤ self.new.read_faults }
        ensures counted { self.new ≡ record self.old { read_faults = min (self.old.read_faults + 1) (2 ^ 64 - 1); blamed = Some (Blame.ReadFailed, name) } }
    {
        self.read_faults = self.read_faults.saturating_add(1);
        self.blamed = Some((Blame::ReadFailed, name));
    }

    /// A read of that name took so many bytes, which were too many.
    pub(crate) fn exceed(&mut self, name: String, taken: u64)
        ensures { self.new ≡ record self.old { blamed = Some (Blame.ReadTooLong, name); taken = taken } }
    {
        self.blamed = Some((Blame::ReadTooLong, name));
        self.taken = taken;
    }

    /// A write of that name failed.
    pub(crate) fn fail_write(&mut self, name: String)
        ensures never_less { self.old.write_faults ≤ self.new.write_faults }
        ensures counted { self.new ≡ record self.old { write_faults = min (self.old.write_faults + 1) (2 ^ 64 - 1); blamed = Some (Blame.WriteFailed, name) } }
    {
        self.write_faults = self.write_faults.saturating_add(1);
        self.blamed = Some((Blame::WriteFailed, name));
    }
}
