//! A history as it is written.
#![tactic(auto, using(gn_text::proofs::KeptLemmas::kept))]

ghost use Rattle.std.specs.Prelude.{◌≡◌, ◌++◌, length, take, OnOk, OnErr};
ghost use Rattle.gn_capture.specs.Histories.{history_text, steps_text};
ghost use Rattle.gn_capture.specs.RoundTrip.{IsReadBack};

use crate::laws::written_is_read;
use gn_rules::{Config, Step};
use gn_text::{Text, push_header, push_step};
use gn_wire::whole_or_none;
use std::alloc::{AllocError, Allocator};

/// Appends a line for each step. An `Err` is out of memory, and leaves what stood there before as it was.
fn write_steps<A: Allocator, B: Allocator>(
    out: &mut Vec<u8, B>,
    steps: &[Step<A>],
) -> Result<(), AllocError>
    ensures ok { OnOk result (out.new.items ≡ out.old.items ++ steps_text steps.now) }
    ensures err { OnErr result (take (length out.old.items) out.new.items ≡ out.old.items) }
{
    for step in steps {
        push_step(out, step)?;
    }
    Ok(())
}

/// Appends the text of a history. An `Err` is out of memory, and leaves what stood there before as it was.
fn write_text<A: Allocator, B: Allocator>(
    config: &Config,
    steps: &[Step<A>],
    out: &mut Vec<u8, B>,
) -> Result<(), AllocError>
    ensures ok { OnOk result (out.new.items ≡ out.old.items ++ history_text config.now steps.now) }
    ensures err { OnErr result (take (length out.old.items) out.new.items ≡ out.old.items) }
{
    push_header(out, Text::History, config)?;
    write_steps(out, steps)?;
    out.extend_from_slice(b"end\n")
}

/// Appends the text of a history: the title of the least version that can say its configuration, the `config` and `own`
/// lines, a line for each step, and the line `end`. The text is read back as that configuration and those steps. An `Err` is out of memory, and changes
/// nothing.
pub fn write_history<A: Allocator, B: Allocator>(
    config: &Config,
    steps: &[Step<A>],
    out: &mut Vec<u8, B>,
) -> Result<(), AllocError>
    ensures ok { OnOk result (out.new.items ≡ out.old.items ++ history_text config.now steps.now) }
    ensures read { IsReadBack config.now steps.now }
    ensures err { OnErr result (out.new.items ≡ out.old.items) }
{
    written_is_read(config, steps);
    let start = out.len();
    let written = write_text(config, steps, out);
    whole_or_none(out, start, written)
}
