//! The page of the counts, as Prometheus reads it.

ghost use Rattle.std.specs.Prelude.{◌≡◌, ◌++◌, codes, decimal, OnOk};
ghost use Rattle.gn_metrics.specs.Page.{counter_kind, counts_text, gauge_kind, gauges_text, number_text, page_text, pieces_text, row_text, rows_text, totals_text};

use crate::look::Look;
use gn_numbers::counter_name;
use gn_rules::Counter;
use itoa::Buffer;
use std::alloc::{AllocError, Allocator};

/// A number of the page: its name, in two parts, its kind as its line ends, and what it says.
#[derive(Clone, Copy)]
pub(crate) struct Row<'a> {
    pub name: &'a [u8],
    pub ending: &'a [u8],
    pub kind: &'a [u8],
    pub help: &'a [u8],
    pub value: u64,
}

/// The end of the line of a number that only rises.
const COUNTER: &[u8] = b" counter\n";

/// The end of the line of a number that rises and falls.
const GAUGE: &[u8] = b" gauge\n";

/// What each counter of steps says.
const STEPS_HELP: &[u8] =
    b"Steps of the history with this reply or reason to drop, as gn show --stats counts them.";

/// Appends a number in decimal digits. An `Err` is out of memory.
fn push_decimal<A: Allocator>(out: &mut Vec<u8, A>, number: u64) -> Result<(), AllocError>
    ensures { OnOk result (out.new.items ≡ out.old.items ++ decimal number) }
{
    let mut buffer = Buffer::new();
    out.extend_from_slice(buffer.format(number).as_bytes())
}

/// Appends some pieces of text, in order. An `Err` is out of memory.
fn push_pieces<A: Allocator>(out: &mut Vec<u8, A>, pieces: &[&[u8]]) -> Result<(), AllocError>
    ensures { OnOk result (out.new.items ≡ out.old.items ++ pieces_text pieces.now) }
{
    for piece in pieces {
        out.extend_from_slice(piece)?;
    }
    Ok(())
}

/// Appends the three lines of a row: what it says, its kind and its value. An `Err` is out of memory.
fn push_row<A: Allocator>(out: &mut Vec<u8, A>, row: &Row) -> Result<(), AllocError>
    ensures { OnOk result (out.new.items ≡ out.old.items ++ row_text row.now) }
{
    push_pieces(
        out,
        &[
            b"# HELP tineflax_",
            row.name,
            row.ending,
            b" ",
            row.help,
            b"\n# TYPE tineflax_",
            row.name,
            row.ending,
            row.kind,
            b"tineflax_",
            row.name,
            row.ending,
            b" ",
        ],
    )?;
    push_decimal(out, row.value)?;
    out.extend_from_slice(b"\n")
}

/// Appends some rows, in order. An `Err` is out of memory.
fn push_rows<A: Allocator>(out: &mut Vec<u8, A>, rows: &[Row]) -> Result<(), AllocError>
    ensures { OnOk result (out.new.items ≡ out.old.items ++ rows_text rows.now) }
{
    for row in rows {
        push_row(out, row)?;
    }
    Ok(())
}

/// A row of a number that only rises.
fn total(name: &'static [u8], value: u64, help: &'static [u8]) -> Row<'static>
    ensures { row_text result ≡ number_text (name.now ++ codes "_total") counter_kind help.now value }
{
    Row {
        name,
        ending: b"_total",
        kind: COUNTER,
        help,
        value,
    }
}

/// A row of a number as it stands.
fn gauge(name: &'static [u8], value: u64, help: &'static [u8]) -> Row<'static>
    ensures { row_text result ≡ number_text name.now gauge_kind help.now value }
{
    Row {
        name,
        ending: b"",
        kind: GAUGE,
        help,
        value,
    }
}

/// The rows of what was written, made and met.
fn totals(look: &Look, steps: u64) -> [Row<'static>; 4]
    ensures { rows_text result ≡ totals_text look.now steps }
{
    [
        total(b"steps", steps, b"Steps of the history that were written."),
        total(
            b"steps_made",
            look.made,
            b"Steps that the threads of links and workers have made, written or not.",
        ),
        total(
            b"history_bytes",
            look.bytes,
            b"Bytes of the history that were written, with its comments.",
        ),
        total(
            b"links",
            look.links,
            b"Links whose peer has come, called or accepted.",
        ),
    ]
}

/// The rows of how the run stands.
fn gauges(look: &Look, connections: u64, in_flight: u64) -> [Row<'static>; 4]
    ensures { rows_text result ≡ gauges_text look.now connections in_flight }
{
    [
        gauge(
            b"connections",
            connections,
            b"Live connections, by the history written so far.",
        ),
        gauge(
            b"in_flight",
            in_flight,
            b"Descriptors admitted and not routed yet, by the history written so far.",
        ),
        gauge(
            b"steps_limit",
            u64::from(look.most),
            b"The most steps that the history may have.",
        ),
        gauge(
            b"start_time_seconds",
            look.since,
            b"When the run began, in seconds since 1970.",
        ),
    ]
}

/// Appends the rows of some counters of steps, in order. An `Err` is out of memory.
fn push_counts<A: Allocator>(
    out: &mut Vec<u8, A>,
    look: &Look,
    which: &[Counter],
) -> Result<(), AllocError>
    ensures { OnOk result (out.new.items ≡ out.old.items ++ counts_text look.now which.now) }
{
    for counter in which {
        let name = counter_name(*counter).as_bytes();
        let row = total(name, u64::from(look.count(*counter)), STEPS_HELP);
        push_row(out, &row)?;
    }
    Ok(())
}

/// Appends the page of what was counted at a look. An `Err` is out of memory, and may leave a part of it.
pub fn push_page<A: Allocator>(out: &mut Vec<u8, A>, look: &Look) -> Result<(), AllocError>
    ensures { OnOk result (out.new.items ≡ out.old.items ++ page_text look.now) }
{
    push_counts(out, look, &Counter::ALL)?;
    push_rows(out, &totals(look, look.steps()))?;
    push_rows(out, &gauges(look, look.connections(), look.in_flight()))
}
