//! A history's steps, all written at once.

ghost use Rattle.std.specs.Prelude.{◌<◌, ◌++◌, codes, length, IfErr, OnErr, OnOk};
ghost use Rattle.std.specs.Io.KnownBytes.{Appends};
ghost use Rattle.gn_capture.specs.Histories.{steps_text};
ghost use Rattle.gn_io.specs.Parts.{AppendsPart, LeavesToWrite, block_size};
ghost use Rattle.gn_io.specs.Streams.{NoWriteFailed};
ghost use Rattle.gn_printed.specs.Printed.{IsPrintFault};

use gn_io::{Block, Sink};
use gn_printed::{PrintFault, print_step, write_end};
use gn_rules::Step;
use std::alloc::Allocator;

/// Adds a line for each step to what waits, and writes in blocks.
fn print_steps<A: Allocator, B: Allocator, W: Sink>(
    steps: &[Step<A>],
    block: &mut Block<B>,
    sink: &mut W,
) -> Result<(), PrintFault>
    ensures ok { OnOk result (LeavesToWrite (W.state sink.old).written (W.state sink.new).written block.new
        (block.old ++ steps_text steps.now)) }
    ensures small { OnOk result (length block.old < block_size → length block.new < block_size) }
    ensures err { OnErr result (AppendsPart (W.state sink.old).written (W.state sink.new).written
        (block.old ++ steps_text steps.now)) }
    ensures cause { IfErr result (λ fault. IsPrintFault fault (W.state sink.old) (W.state sink.new)) }
    ensures writes { OnOk result (NoWriteFailed (W.state sink.old) (W.state sink.new)) }
{
    for step in steps {
        print_step(step, block, sink)?;
    }
    Ok(())
}

/// Writes what waits, the lines of these steps behind it, and the line `end`, in blocks of at least 32,768 bytes, the last one shorter.
/// An `Err` leaves a prefix of all that.
pub fn print_end<A: Allocator, B: Allocator + Copy, W: Sink>(
    waiting: Block<B>,
    steps: &[Step<A>],
    sink: &mut W,
) -> Result<(), PrintFault>
    ensures ok { OnOk result (Appends (W.state sink.old).written (W.state sink.new).written
        (waiting ++ steps_text steps.now ++ codes "end\n")) }
    ensures err { OnErr result (AppendsPart (W.state sink.old).written (W.state sink.new).written
        (waiting ++ steps_text steps.now ++ codes "end\n")) }
    ensures cause { IfErr result (λ fault. IsPrintFault fault (W.state sink.old) (W.state sink.new)) }
    ensures unfailed { OnOk result (NoWriteFailed (W.state sink.old) (W.state sink.new)) }
{
    let mut block = waiting;
    print_steps(steps, &mut block, sink)?;
    write_end(&mut block, sink)
}
