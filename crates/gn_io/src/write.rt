//! Output written whole.

ghost use Rattle.std.specs.Prelude.{OnOk, OnErr};
ghost use Rattle.std.specs.Io.KnownBytes.{Appends};
ghost use Rattle.gn_io.specs.Parts.{AppendsPart};
ghost use Rattle.gn_io.specs.Streams.{HasWriteFailed, NoWriteFailed};

use crate::fault::IoFault;
use crate::sink::Sink;

/// Writes all of the bytes. An `Err` is a write that failed, or one that took none: a prefix of the bytes was written.
pub fn write_all<S: Sink>(sink: &mut S, bytes: &[u8]) -> Result<(), IoFault>
    ensures ok { OnOk result (Appends (S.state sink.old).written (S.state sink.new).written bytes.now) }
    ensures err { OnErr result (AppendsPart (S.state sink.old).written (S.state sink.new).written bytes.now) }
    ensures cause { OnErr result (HasWriteFailed (S.state sink.old) (S.state sink.new)) }
    ensures unfailed { OnOk result (NoWriteFailed (S.state sink.old) (S.state sink.new)) }
{
    let mut done = 0;
    while done < bytes.len() {
        match sink.write(&bytes[done..]) {
            Err(_) => return Err(IoFault),
            Ok(0) => return Err(IoFault),
            Ok(n) => done += n,
        }
    }
    Ok(())
}
