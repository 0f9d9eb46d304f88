//! Where output goes.

ghost use Rattle.std.specs.Prelude.{◌≡◌, ◌≤◌, length, IfOk, is_err};
ghost use Rattle.std.specs.Io.KnownBytes.{WriteAppends};
ghost use Rattle.gn_io.specs.Counts.{counted, took_none};
ghost use Rattle.gn_io.specs.Streams.{SinkState};

use crate::fault::IoFault;

/// Bytes that are written a piece at a time. Memory and the standard streams are ones through `WriterSink`.
pub trait Sink {
    /// The bytes written, where they are known, and two counts, which stay at the last u64.
    ghost state: { Self → SinkState };

    /// Writes a prefix of the piece, and gives its length. An `Err` is a write that failed: it took nothing.
    fn write(&mut self, piece: &[u8]) -> Result<usize, IoFault>
        ensures bound { IfOk result (λ n. n ≤ length piece.now) }
        ensures bytes { WriteAppends (state self.old).written (state self.new).written result piece.now }
        ensures failures { (state self.new).failures ≡ counted (is_err result) (state self.old).failures }
        ensures stalls { (state self.new).stalls ≡ counted (took_none result piece.now) (state self.old).stalls };
}
