//! Runs over memory links that fail, are cut, come slowly or never end, row by row.

use super::endless::EndlessLink;
use super::slow::SlowLink;
use super::{Found, run_over};
use crate::threads::runs::{plain_links, run_of};
use gn_bodies::{ReaderEnd, WriterEnd};
use gn_fixtures::{OWN_PONG, PING, usual};
use gn_links::{MemoryLink, NoGate};
use gn_rules::Config;
use gn_run_fixtures::{READER, WRITER};
use gn_shake::{Role, consent, request};
use gn_threads::RunFault;
use std::alloc::{AllocError, Global};
use std::process::Abort;
use std::sync::Wait;
use std::test::Fail;
use std::thread::Threads;

/// A Query's encoding, with TTL 5, Hops 0 and a tail.
const QUERY: &[u8] =
    b"\xb1\xb1\xb1\xb1\xb1\xb1\xb1\xb1\xb1\xb1\xb1\xb1\xb1\xb1\xb1\xb1\x80\x05\x00\x07\x00\x00\x00\x00\x00abc\x00\x1c";

/// What of a link goes wrong at k.
#[derive(Clone, Copy)]
enum Fault {
    /// The k-th read fails.
    Read,
    /// The k-th write fails.
    Write,
    /// The first write takes nothing.
    Stall,
    /// The link gives the first k bytes after its greeting alone.
    Cut,
}

/// How much is written of what a link without faults writes.
#[derive(Clone, Copy)]
enum Written {
    All,
    AllOrNone,
    None,
    /// The bytes before the k-th.
    BeforeFault,
}

/// What must be found of links with one fault, at each k from the first to the last.
#[derive(Clone, Copy)]
struct Row {
    role: Role,
    /// What the link gives after its greeting.
    bytes: &'static [u8],
    fault: Fault,
    ks: (u32, u32),
    /// How the reader ends.
    reader: ReaderEnd,
    /// The number of Admit events.
    admits: usize,
    /// Whether the reader may find its connection closed instead, before it has admitted anything.
    is_closed_first: bool,
    writer: WriterEnd,
    /// Who makes the only Close event.
    closer: u32,
    written: Written,
}

/// One row for each kind of failure.
const ROWS: [Row; 8] = [
    Row {
        role: Role::Plain,
        bytes: PING,
        fault: Fault::Read,
        ks: (1, 23),
        reader: ReaderEnd::ReadFailed,
        admits: 0,
        is_closed_first: false,
        writer: WriterEnd::Closed,
        closer: READER,
        written: Written::None,
    },
    Row {
        role: Role::Plain,
        bytes: PING,
        fault: Fault::Read,
        ks: (24, 24),
        reader: ReaderEnd::ReadFailed,
        admits: 1,
        is_closed_first: false,
        writer: WriterEnd::Closed,
        closer: READER,
        written: Written::AllOrNone,
    },
    // the 24th read finds the end: the 25th is never made
    Row {
        role: Role::Plain,
        bytes: PING,
        fault: Fault::Read,
        ks: (25, 25),
        reader: ReaderEnd::Bytes,
        admits: 1,
        is_closed_first: false,
        writer: WriterEnd::Drained,
        closer: WRITER,
        written: Written::All,
    },
    // within the consent, whose 13 bytes are written before anything is routed
    Row {
        role: Role::Accepting,
        bytes: PING,
        fault: Fault::Write,
        ks: (1, 13),
        reader: ReaderEnd::Bytes,
        admits: 1,
        is_closed_first: true,
        writer: WriterEnd::WriteFailed,
        closer: WRITER,
        written: Written::BeforeFault,
    },
    Row {
        role: Role::Accepting,
        bytes: PING,
        fault: Fault::Write,
        ks: (14, 50),
        reader: ReaderEnd::Bytes,
        admits: 1,
        is_closed_first: false,
        writer: WriterEnd::WriteFailed,
        closer: WRITER,
        written: Written::BeforeFault,
    },
    // the 51st write is never made
    Row {
        role: Role::Accepting,
        bytes: PING,
        fault: Fault::Write,
        ks: (51, 51),
        reader: ReaderEnd::Bytes,
        admits: 1,
        is_closed_first: false,
        writer: WriterEnd::Drained,
        closer: WRITER,
        written: Written::All,
    },
    Row {
        role: Role::Plain,
        bytes: PING,
        fault: Fault::Stall,
        ks: (1, 1),
        reader: ReaderEnd::Bytes,
        admits: 1,
        is_closed_first: false,
        writer: WriterEnd::WriteFailed,
        closer: WRITER,
        written: Written::None,
    },
    Row {
        role: Role::Plain,
        bytes: QUERY,
        fault: Fault::Cut,
        ks: (1, 29),
        reader: ReaderEnd::Bytes,
        admits: 0,
        is_closed_first: false,
        writer: WriterEnd::Drained,
        closer: WRITER,
        written: Written::None,
    },
];

/// The greeting that a link of this role gives or is given, and these bytes after it. None before a plain one.
fn greeted(
    alloc: Global,
    greeting: &[u8],
    role: Role,
    bytes: &[u8],
) -> Result<Vec<u8>, AllocError> {
    let first: &[u8] = if let Role::Accepting = role {
        greeting
    } else {
        b""
    };
    [first, bytes].concat(alloc)
}

/// The link of a row at k, read and written a byte at a time.
fn link_of(alloc: Global, row: &Row, k: u32) -> Result<SlowLink, AllocError> {
    let (read, write, stalls) = match row.fault {
        Fault::Read => (Some(k), None, false),
        Fault::Write => (None, Some(k), false),
        Fault::Stall => (None, None, true),
        Fault::Cut => (None, None, false),
    };
    let given = match row.fault {
        Fault::Cut => &row.bytes[..row.bytes.len().min(k as usize)],
        _ => row.bytes,
    };
    let bytes = greeted(alloc, request(), row.role, given)?;
    let link = MemoryLink::new(row.role, bytes, 1).failing(read, write);
    Ok(SlowLink { link, stalls })
}

/// Whether so many of the first bytes of a text of this length were written.
fn is_written(written: Option<usize>, length: usize, wanted: Written, k: u32) -> bool {
    match wanted {
        Written::All => written == Some(length),
        Written::AllOrNone => written == Some(length) || written == Some(0),
        Written::None => written == Some(0),
        Written::BeforeFault => written == Some((k as usize).saturating_sub(1)),
    }
}

/// Whether the run of a row at k left what it must, where a text of this length was to be written.
fn is_found(found: &Found, row: &Row, length: usize, k: u32) -> bool {
    let (reader, writer) = found.ends;
    let is_read = reader == row.reader && found.admits == row.admits;
    let is_late = row.is_closed_first && reader == ReaderEnd::NotLive && found.admits == 0;
    (is_read || is_late)
        && writer == row.writer
        && found.closer == Some(row.closer)
        && is_written(found.written, length, row.written, k)
        && found.is_all_closed
}

/// The first k at which the run of a row leaves something else than it must.
fn first_wrong<R: Threads + Wait + Sync>(
    rt: &R,
    alloc: Global,
    config: &Config,
    row: &Row,
) -> Result<Option<u32>, Fail> {
    let text = greeted(alloc, consent(), row.role, OWN_PONG)?;
    for k in row.ks.0..=row.ks.1 {
        let found = run_over(rt, alloc, config, link_of(alloc, row, k)?, text.as_slice())?;
        if !is_found(&found, row, text.len(), k) {
            return Ok(Some(k));
        }
    }
    Ok(None)
}

/// Fails at the first row that leaves something else than it must.
fn run_rows<R: Threads + Wait + Sync + Abort>(rt: &R, alloc: Global) -> Result<(), Fail> {
    let config = usual(100)?;
    for (number, row) in ROWS.iter().enumerate() {
        let wrong = first_wrong(rt, alloc, &config, row)?;
        assert_eq!(rt; wrong, None, "row {number}");
    }
    Ok(())
}

#[test]
fn each_row_leaves_what_it_must(rt: HostRuntime) -> Result<(), Fail> {
    run_rows(&rt, rt.alloc())
}

/// A million zero bytes are 43,478 Pings with TTL 0 and one ID, and six bytes more. The first is answered, if its Pong is
/// taken before the reader closes.
const ENDLESS: Row = Row {
    role: Role::Plain,
    bytes: b"",
    fault: Fault::Cut,
    ks: (0, 0),
    reader: ReaderEnd::Turns,
    admits: 43_478,
    is_closed_first: false,
    writer: WriterEnd::Closed,
    closer: READER,
    written: Written::AllOrNone,
};

/// Fails unless the run of a link without end leaves what it must.
fn run_without_end<R: Threads + Wait + Sync + Abort>(rt: &R, alloc: Global) -> Result<(), Fail> {
    let config = usual(1_000_000)?;
    let link = EndlessLink {
        link: MemoryLink::new(Role::Plain, Vec::new(alloc), 1),
    };
    let mut pong = [0u8; 37];
    pong[16..].copy_from_slice(&OWN_PONG[16..]);
    let found = run_over(rt, alloc, &config, link, &pong)?;
    assert!(rt; is_found(&found, &ENDLESS, pong.len(), 0));
    Ok(())
}

#[test]
fn a_link_without_end_is_closed(rt: HostRuntime) -> Result<(), Fail> {
    run_without_end(&rt, rt.alloc())
}

/// The fault of a run of two plain links of so many Pings, of three steps at most.
fn fault_of<R: Threads + Wait + Sync>(
    rt: &R,
    alloc: Global,
    pings: u8,
) -> Result<Option<RunFault>, Fail> {
    let config = usual(3)?;
    let links = plain_links(alloc, 2, pings)?;
    Ok(run_of(rt, alloc, &config, links, 1, &NoGate).err())
}

/// Fails unless such a run finds its history full, without Pings and with one.
fn fill_both<R: Threads + Wait + Sync + Abort>(rt: &R, alloc: Global) -> Result<(), Fail> {
    for pings in 0..2 {
        let fault = fault_of(rt, alloc, pings)?;
        assert_eq!(rt; fault, Some(RunFault::HistoryFull), "{pings} Pings");
    }
    Ok(())
}

#[test]
fn two_links_need_more_than_three_steps(rt: HostRuntime) -> Result<(), Fail> {
    fill_both(&rt, rt.alloc())
}
