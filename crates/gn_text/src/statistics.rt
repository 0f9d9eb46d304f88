//! The line of the counters.
#![tactic(auto, using(crate::proofs::KeptLemmas::kept))]

ghost use Rattle.std.specs.Prelude.{◌≡◌, ◌++◌, length, take, OnOk, OnErr};
ghost use Rattle.gn_text.specs.Statistics.{counts_text, stats_text};

use crate::push::{write_field, write_number};
use gn_numbers::counter_name;
use gn_rules::{Counter, Stats};
use gn_wire::whole_or_none;
use std::alloc::{AllocError, Allocator};

/// Appends the names and the numbers of these counters, in order. An `Err` is out of memory, and may leave a part of it.
fn write_counts<B: Allocator>(
    out: &mut Vec<u8, B>,
    stats: &Stats,
    counters: &[Counter],
) -> Result<(), AllocError>
    ensures ok { OnOk result (out.new.items ≡ out.old.items ++ counts_text stats.now counters.now) }
    ensures err { OnErr result (take (length out.old.items) out.new.items ≡ out.old.items) }
{
    for counter in counters {
        write_field(out, counter_name(*counter).as_bytes())?;
        write_number(out, stats.get(*counter))?;
    }
    Ok(())
}

/// Appends the line `stats`. An `Err` is out of memory, and may leave a part of it.
fn write_stats<B: Allocator>(out: &mut Vec<u8, B>, stats: &Stats) -> Result<(), AllocError>
    ensures ok { OnOk result (out.new.items ≡ out.old.items ++ stats_text stats.now) }
    ensures err { OnErr result (take (length out.old.items) out.new.items ≡ out.old.items) }
{
    out.extend_from_slice(b"stats")?;
    write_counts(out, stats, &Counter::ALL)?;
    out.extend_from_slice(b"\n")
}

/// Appends the line of the counters: `stats`, then each counter's name and number. An `Err` is out of memory, and
/// changes nothing.
pub fn push_stats<B: Allocator>(out: &mut Vec<u8, B>, stats: &Stats) -> Result<(), AllocError>
    ensures ok { OnOk result (out.new.items ≡ out.old.items ++ stats_text stats.now) }
    ensures err { OnErr result (out.new.items ≡ out.old.items) }
{
    let start = out.len();
    let written = write_stats(out, stats);
    whole_or_none(out, start, written)
}
