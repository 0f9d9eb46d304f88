//! How a stream is written.

ghost use Rattle.std.specs.Prelude.{◌≡◌, ◌≤◌, ◌++◌, length, IfOk, Some};
ghost use Rattle.std.specs.Io.{WritesAtMost};
ghost use Rattle.std.specs.Io.KnownBytes.{WriteAppends};
ghost use Rattle.gn_links.specs.Halves.{written_by};

use gn_links::LinkFault;
use gn_trail::{Told, write_told};
use std::io::{ErrorKind, Write};
use std::sync::Wait;

/// Writes once, and tells the bytes that the stream took: the first ones of the piece.
fn write_once<T: Write>(stream: &mut T, told: &mut Told, piece: &[u8]) -> Result<usize, ErrorKind>
    ensures bound { WritesAtMost result piece.now }
    ensures bytes { WriteAppends (T.contents stream.old) (T.contents stream.new) result piece.now }
    ensures told { WriteAppends (Some told.old) (Some told.new) result piece.now }
{
    match write_told(stream, told, piece) {
        Ok(n) => Ok(n),
        Err(why) => Err(why.kind()),
    }
}

/// Waits until the stream takes bytes, again where a signal cut the call short, and tells those that it took: the first ones of
/// the piece.
pub(crate) fn write_some<T: Write, R: Wait>(
    rt: &R,
    stream: &mut T,
    told: &mut Told,
    piece: &[u8],
) -> Result<usize, LinkFault>
    ensures within { IfOk result (λ n. n ≤ length piece.now) }
    ensures written { WriteAppends (T.contents stream.old) (T.contents stream.new) result piece.now }
    ensures told { told.new ≡ told.old ++ written_by result piece.now }
{
    for _ in rt.forever() {
        match write_once(stream, told, piece) {
            Ok(n) => return Ok(n),
            Err(ErrorKind::Interrupted) => {}
            Err(_) => return Err(LinkFault),
        }
    }
    Err(LinkFault)
}
