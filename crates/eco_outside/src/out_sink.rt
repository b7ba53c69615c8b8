// Standard output. What it holds is not known to any clause.
ghost use Rattle.std.specs.Prelude.{◌≡◌, ◌≤◌, None, OnOk, IsErrOf};
ghost use Rattle.eco_outside.specs.Sink.{append_piece, fresh_sink, PutFails};
ghost use Rattle.eco_outside.specs.Edge.{out_view};

use crate::{Sink, SinkError};

/// What the runtime prints to. Each error of the system, whatever its kind, is a fault, and so is a
/// write that takes nothing of what is left. It tells no bytes.
#[derive(Drop)]
pub struct OutSink<R> {
    runtime: R,
    faults: u64,
}

impl<R: Print> OutSink<R> {
    /// A sink over the runtime's standard output.
    pub fn new(runtime: R) -> Self
        ensures { out_view result ≡ fresh_sink None }
    {
        OutSink { runtime, faults: 0 }
    }
}

/// Prints all the bytes, and is true where that is done.
fn print_whole<R: Print>(runtime: &R, bytes: &[u8]) -> bool {
    let mut rest = bytes;
    'writes: while !rest.is_empty() {
        match runtime.write_some(rest) {
            Ok(0) | Err(_) => return false,
            Ok(count) => rest = &rest[count..],
        }
    }
    true
}

impl<R: Print> Sink for OutSink<R> {
    ghost view = { out_view };

    fn put(&mut self, piece: &[u8]) -> Result<(), SinkError> {
        if print_whole(&self.runtime, piece) {
            return Ok(());
        }
        self.faults = self.faults.saturating_add(1);
        Err(SinkError::Failed)
    }
}
