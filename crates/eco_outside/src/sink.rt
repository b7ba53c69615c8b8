// Printed bytes: what a caller may rely on, wherever they go.
ghost use Rattle.std.specs.Prelude.{◌≡◌, ◌≤◌, OnOk, IsErrOf};
ghost use Rattle.eco_outside.specs.Sink.{SinkView, append_piece, PutFails};

use crate::SinkError;

/// A sink of printed bytes.
pub trait Sink {
    /// What callers know of the sink. It may keep what was written untold, and always tells its
    /// count of faults.
    ghost view: { Self → SinkView };

    /// Takes a piece, behind what it has taken before.
    fn put(&mut self, piece: &[u8]) -> Result<(), SinkError>
        ensures keeps { (view self.old).faults ≤ (view self.new).faults }
        ensures ok { OnOk result ((view self.new).written ≡ append_piece (view self.old).written piece.now) }
        ensures failed { IsErrOf result SinkError.Failed → PutFails (view self.old) (view self.new) piece.now }
        ensures out_of_memory { IsErrOf result SinkError.OutOfMemory → (view self.new).written ≡ (view self.old).written };
}
