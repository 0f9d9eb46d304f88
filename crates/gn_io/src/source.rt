//! Where input comes from.

ghost use Rattle.std.specs.Prelude.{◌≡◌, ◌≤◌, Some, length, IfOk, is_err};
ghost use Rattle.std.specs.Io.KnownBytes.{ReadConsumes, WriteAppends};
ghost use Rattle.gn_io.specs.Counts.{counted, count_given};
ghost use Rattle.gn_io.specs.Streams.{SourceState};

use crate::fault::IoFault;

/// Bytes that are read a piece at a time. Memory and the standard streams are ones through `ReaderSource`.
pub trait Source {
    /// The bytes that it will still give, where they are known; those that it gave; and two counts, which stay at the last u64.
    ghost state: { Self → SourceState };

    /// Reads bytes to the head of the room, and gives their number. Into a room that isn't empty it gives none only at
    /// the end. An `Err` is a read that failed: it gave nothing.
    fn read(&mut self, room: &mut [u8]) -> Result<usize, IoFault>
        ensures bound { IfOk result (λ n. n ≤ length room.new) }
        ensures bytes { ReadConsumes (state self.old).rest (state self.new).rest result room.new }
        ensures told { WriteAppends (Some (state self.old).told) (Some (state self.new).told) result room.new }
        ensures failures { (state self.new).failures ≡ counted (is_err result) (state self.old).failures }
        ensures given { (state self.new).given ≡ count_given result (state self.old).given };
}
