// A sink in memory that never fails.
ghost use Rattle.std.specs.Prelude.{◌≡◌, ◌≢◌, ◌≤◌, [], Some, Err, OnOk, IsErrOf};
ghost use Rattle.eco_outside.specs.Sink.{append_piece, fresh_sink, PutFails};
ghost use Rattle.eco_outside.specs.MemSink.{sure_sink_view};

use crate::{Sink, SinkError};
use std::alloc::Global;

/// Printed bytes in memory. No put fails.
#[derive(Drop)]
pub struct SureSink {
    written: Vec<u8>,
}

impl SureSink {
    /// A sink that has taken nothing.
    pub fn new(alloc: Global) -> Self
        ensures { sure_sink_view result ≡ fresh_sink (Some []) }
    {
        SureSink {
            written: Vec::new(alloc),
        }
    }

    /// What was taken.
    pub fn written(&self) -> &[u8]
        ensures { (sure_sink_view self.now).written ≡ Some result.now }
    {
        &self.written
    }
}

impl Sink for SureSink {
    ghost view = { sure_sink_view };

    fn put(&mut self, piece: &[u8]) -> Result<(), SinkError>
        ensures keeps { (sure_sink_view self.old).faults ≤ (sure_sink_view self.new).faults }
        ensures ok { OnOk result ((sure_sink_view self.new).written ≡ append_piece (sure_sink_view self.old).written piece.now) }
        ensures failed { IsErrOf result SinkError.Failed → PutFails (sure_sink_view self.old) (sure_sink_view self.new) piece.now }
        ensures out_of_memory { IsErrOf result SinkError.OutOfMemory → (sure_sink_view self.new).written ≡ (sure_sink_view self.old).written }
        ensures never_failed { result ≢ Err SinkError.Failed }
    {
        self.written.extend_from_slice(piece)?;
        Ok(())
    }
}
