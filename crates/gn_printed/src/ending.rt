//! How the text of a history ends.

ghost use Rattle.std.specs.Prelude.{◌≡◌, ◌++◌, codes, IfErr, OnErr, OnOk};
ghost use Rattle.std.specs.Io.KnownBytes.{Appends};
ghost use Rattle.gn_io.specs.Parts.{AppendsPart};
ghost use Rattle.gn_io.specs.Streams.{NoWriteFailed};
ghost use Rattle.gn_printed.specs.Finished.{HasFinished};
ghost use Rattle.gn_printed.specs.Printed.{IsPrintFault};

use crate::printed::PrintFault;
use gn_io::{Block, Sink};
use gn_room::Room;
use std::alloc::{Allocator, Global};
use std::sync::Wait;

/// What waits to be written of a history.
#[derive(Drop)]
pub struct Waiting<A: Allocator = Global> {
    pub block: Block<A>,
    /// Whether the history has a step.
    pub is_begun: bool,
}

/// Writes what waits, and the line `end` behind it. An `Err` leaves a prefix of that.
pub fn write_end<A: Allocator, W: Sink>(
    block: &mut Block<A>,
    sink: &mut W,
) -> Result<(), PrintFault>
    ensures ok { OnOk result (Appends (W.state sink.old).written (W.state sink.new).written
        (block.old ++ codes "end\n")) }
    ensures err { OnErr result (AppendsPart (W.state sink.old).written (W.state sink.new).written
        (block.old ++ codes "end\n")) }
    ensures cause { IfErr result (λ fault. IsPrintFault fault (W.state sink.old) (W.state sink.new)) }
    ensures unfailed { OnOk result (NoWriteFailed (W.state sink.old) (W.state sink.new)) }
{
    block.add(b"end\n")?;
    block.write_rest(sink)?;
    Ok(())
}

/// Writes what waits of a history, and the line `end`; nothing, where its text couldn't be written before.
pub fn finish_history<A: Allocator, W: Sink>(
    waiting: Result<Waiting<A>, PrintFault>,
    sink: &mut W,
) -> Result<(), PrintFault>
    ensures { HasFinished (W.state sink.old) (W.state sink.new) waiting result }
{
    match waiting {
        Ok(Waiting { mut block, .. }) => write_end(&mut block, sink),
        Err(first) => Err(first),
    }
}

/// Shuts the room where a text couldn't be written, as no more steps are taken then. What it was told of the text.
pub fn shut_at_fault<R: Wait>(
    written: Result<(), PrintFault>,
    rt: &R,
    room: &Room,
) -> Result<(), PrintFault>
    ensures { result ≡ written }
{
    if written.is_err() {
        room.shut(rt);
    }
    written
}
