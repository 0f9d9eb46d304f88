//! Bytes that are written as far as may be.

ghost use Rattle.std.specs.Prelude.{◌≡◌, ◌≤◌, Ok, true, is_err, length, take};
ghost use Rattle.std.specs.Io.KnownBytes.{Appends};
ghost use Rattle.gn_io.specs.Counts.{counted};
ghost use Rattle.gn_comments.specs.Sinks.{has_stalled};

use gn_io::{IoFault, Sink};

/// Writes the bytes, and counts those that were taken. Whether all were; if not, a write took none. An `Err` is a write that failed.
pub(crate) fn put<S: Sink>(sink: &mut S, bytes: &[u8], count: &mut usize) -> Result<bool, IoFault>
    ensures within { count.new ≤ length bytes.now }
    ensures all { result ≡ Ok true → count.new ≡ length bytes.now }
    ensures written { Appends (S.state sink.old).written (S.state sink.new).written (take count.new bytes.now) }
    ensures failures { (S.state sink.new).failures ≡ counted (is_err result) (S.state sink.old).failures }
    ensures stalls { (S.state sink.new).stalls ≡ counted (has_stalled result) (S.state sink.old).stalls }
{
    *count = 0;
    while *count < bytes.len() {
        let taken = sink.write(&bytes[*count..])?;
        if taken == 0 {
            return Ok(false);
        }
        *count += taken;
    }
    Ok(true)
}
