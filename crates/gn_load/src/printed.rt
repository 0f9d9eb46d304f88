//! A history, written in blocks.

ghost use Rattle.std.specs.Prelude.{IfErr, OnErr, OnOk};
ghost use Rattle.std.specs.Io.KnownBytes.{Appends};
ghost use Rattle.gn_capture.specs.Histories.{history_text};
ghost use Rattle.gn_io.specs.Parts.{AppendsPart};
ghost use Rattle.gn_io.specs.Streams.{NoWriteFailed};
ghost use Rattle.gn_printed.specs.Printed.{IsPrintFault};

use gn_io::Sink;
use gn_printed::PrintFault;
use gn_replay::history_heading;
use gn_rules::{Config, Step};
use gn_scribe::print_end;
use std::alloc::Allocator;

/// Writes the text of a history, as `write_history` of gn_capture has it, in blocks of at least 32,768 bytes, the last one
/// shorter: no more than a block and a line of it are in memory. An `Err` leaves a prefix of the text.
pub fn print_history<A: Allocator, B: Allocator + Copy, W: Sink>(
    alloc: B,
    config: &Config,
    steps: &[Step<A>],
    sink: &mut W,
) -> Result<(), PrintFault>
    ensures ok { OnOk result (Appends (W.state sink.old).written (W.state sink.new).written
        (history_text config.now steps.now)) }
    ensures err { OnErr result (AppendsPart (W.state sink.old).written (W.state sink.new).written
        (history_text config.now steps.now)) }
    ensures cause { IfErr result (λ fault. IsPrintFault fault (W.state sink.old) (W.state sink.new)) }
    ensures unfailed { OnOk result (NoWriteFailed (W.state sink.old) (W.state sink.new)) }
{
    let block = history_heading(alloc, config)?;
    print_end(block, steps, sink)
}
