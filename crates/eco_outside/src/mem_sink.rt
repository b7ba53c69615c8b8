// A sink in memory, for tests: it fails at the puts that it is told.
ghost use Rattle.std.specs.Prelude.{◌≡◌, ◌≤◌, ◌⊎◌, [], take, true, Some, Err, OnOk, IsErrOf};
ghost use Rattle.eco_outside.specs.Sink.{append_piece, fresh_sink, PutFails};
ghost use Rattle.eco_outside.specs.Kept.{fails_next, behind_call};
ghost use Rattle.eco_outside.specs.MemSink.{mem_sink_view, put_plan_of};

use crate::{Sink, SinkError};
use std::alloc::Global;

/// Printed bytes in memory, and a plan of puts that fail. Puts are numbered from 0, and each takes its
/// number whatever it answers.
#[derive(Drop)]
pub struct MemSink {
    written: Vec<u8>,
    failing: Vec<u64>,
    keep: u64,
    next_call: u64,
    faults: u64,
}

impl MemSink {
    /// A sink that has taken nothing. The puts with a number in `failing` answer `Failed`, and take the
    /// first `keep` bytes of their piece, all of them where there are fewer.
    pub fn new(alloc: Global, failing: Vec<u64>, keep: u64) -> Self
        ensures view { mem_sink_view result ≡ fresh_sink (Some []) }
        ensures plan { put_plan_of result ≡ record { next = 0; failing = failing.items; keep = keep } }
    {
        MemSink {
            written: Vec::new(alloc),
            failing,
            keep,
            next_call: 0,
            faults: 0,
        }
    }

    /// What was taken.
    pub fn written(&self) -> &[u8]
        ensures { (mem_sink_view self.now).written ≡ Some result.now }
    {
        &self.written
    }
}

impl Sink for MemSink {
    ghost view = { mem_sink_view };

    fn put(&mut self, piece: &[u8]) -> Result<(), SinkError>
        ensures keeps { (mem_sink_view self.old).faults ≤ (mem_sink_view self.new).faults }
        ensures ok { OnOk result ((mem_sink_view self.new).written ≡ append_piece (mem_sink_view self.old).written piece.now) }
        ensures failed { IsErrOf result SinkError.Failed → PutFails (mem_sink_view self.old) (mem_sink_view self.new) piece.now }
        ensures out_of_memory { IsErrOf result SinkError.OutOfMemory → (mem_sink_view self.new).written ≡ (mem_sink_view self.old).written }
        ensures plan { put_plan_of self.new ≡ behind_call (put_plan_of self.old) }
        // A put that is to fail answers so, unless memory is out, and no other does.
        ensures planned { fails_next (put_plan_of self.old) ≡ true → (result ≡ Err SinkError.Failed) ⊎ (result ≡ Err SinkError.OutOfMemory) }
        ensures only_then { IsErrOf result SinkError.Failed → fails_next (put_plan_of self.old) ≡ true }
        ensures front { IsErrOf result SinkError.Failed → (mem_sink_view self.new).written ≡ append_piece (mem_sink_view self.old).written (take (put_plan_of self.old).keep piece.now) }
    {
        let is_to_fail = self.failing.contains(&self.next_call);
        self.next_call = self.next_call.saturating_add(1);
        if is_to_fail {
            let count = piece.len().min(self.keep as usize);
            self.written.extend_from_slice(&piece[..count])?;
            self.faults = self.faults.saturating_add(1);
            return Err(SinkError::Failed);
        }
        self.written.extend_from_slice(piece)?;
        Ok(())
    }
}
