//! Lines of steps, written in blocks.

ghost use Rattle.std.specs.Prelude.{◌≡◌, ◌<◌, ◌++◌, length, IfErr, OnErr, OnOk};
ghost use Rattle.gn_io.specs.Parts.{AppendsPart, LeavesToWrite, block_size};
ghost use Rattle.gn_io.specs.Streams.{NoWriteFailed};
ghost use Rattle.gn_printed.specs.Printed.{IsPrintFault};
ghost use Rattle.gn_text.specs.Steps.{step_text};

use gn_io::{Block, IoFault, Sink};
use gn_rules::Step;
use gn_text::push_step;
use std::alloc::{AllocError, Allocator};

/// Why a text wasn't written whole.
#[derive(Clone, Copy, Debug, PartialEq, Eq)]
pub enum PrintFault {
    /// A write failed, or took nothing.
    Write,
    /// Out of memory.
    NoMemory,
}

impl From<IoFault> for PrintFault {
    ghost use Rattle.gn_printed.specs.declared.printed.PrintFault.TheVariants.{Write};

    ghost from_gives = { λ _ e. e ≡ Write };

    fn from(_fault: IoFault) -> PrintFault {
        PrintFault::Write
    }
}

impl From<AllocError> for PrintFault {
    ghost use Rattle.gn_printed.specs.declared.printed.PrintFault.TheVariants.{NoMemory};

    ghost from_gives = { λ _ e. e ≡ NoMemory };

    fn from(_e: AllocError) -> PrintFault {
        PrintFault::NoMemory
    }
}

/// Adds a step's line to what waits. An `Err` is out of memory, and changes nothing.
fn add_step<A: Allocator, B: Allocator>(
    block: &mut Block<B>,
    step: &Step<A>,
) -> Result<(), AllocError>
    ensures ok { OnOk result (block.new ≡ block.old ++ step_text step.now) }
    ensures err { OnErr result (block.new ≡ block.old) }
{
    push_step(block.bytes(), step)
}

/// Adds a step's line to what waits, which is written once it is a block, of at least 32,768 bytes. An `Err` leaves a prefix of all
/// that.
pub fn print_step<A: Allocator, B: Allocator, W: Sink>(
    step: &Step<A>,
    block: &mut Block<B>,
    sink: &mut W,
) -> Result<(), PrintFault>
    ensures ok { OnOk result (LeavesToWrite (W.state sink.old).written (W.state sink.new).written block.new
        (block.old ++ step_text step.now)) }
    ensures small { OnOk result (length block.new < block_size) }
    ensures err { OnErr result (AppendsPart (W.state sink.old).written (W.state sink.new).written
        (block.old ++ step_text step.now)) }
    ensures cause { IfErr result (λ fault. IsPrintFault fault (W.state sink.old) (W.state sink.new)) }
    ensures writes { OnOk result (NoWriteFailed (W.state sink.old) (W.state sink.new)) }
{
    add_step(block, step)?;
    block.write_full(sink)?;
    Ok(())
}
