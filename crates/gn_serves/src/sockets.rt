//! Runs over sockets whose peers reset, shut a half, send a byte at a time or never read, row by row.

use crate::loopback::peers::Peer;
use crate::loopback::{Run, Seen, seen_of};
use gn_bodies::{ReaderEnd, WriterEnd};
use gn_run_fixtures::{READER, WRITER};
use std::alloc::Global;
use std::net::{Net, TcpListener, TcpStream};
use std::process::Abort;
use std::sync::Wait;
use std::test::Fail;
use std::thread::Threads;
use std::time::Clock;

/// What must be found of a run over one such peer.
#[derive(Clone, Copy)]
struct Row {
    peer: Peer,
    /// The peer's own and the flooder's.
    clients: u32,
    /// How many milliseconds a read or a write waits at most.
    idle: Option<u64>,
    /// How the peer's reader ends, unless time decides it.
    reader: Option<ReaderEnd>,
    writer: WriterEnd,
    /// The number of Admit events, unless time decides it.
    admits: Option<usize>,
    /// Who makes each Close event, in order.
    closers: [Option<u32>; 4],
}

/// One row for each kind of peer.
const ROWS: [Row; 5] = [
    Row {
        peer: Peer::Dawdles,
        clients: 1,
        idle: Some(1_000),
        reader: Some(ReaderEnd::ReadFailed),
        writer: WriterEnd::NeverOpened,
        admits: Some(0),
        closers: [None; 4],
    },
    Row {
        peer: Peer::Resets,
        clients: 1,
        idle: None,
        reader: Some(ReaderEnd::ReadFailed),
        writer: WriterEnd::Closed,
        admits: Some(0),
        closers: [Some(READER), None, None, None],
    },
    Row {
        peer: Peer::ShutsReading,
        clients: 1,
        idle: None,
        reader: Some(ReaderEnd::Bytes),
        writer: WriterEnd::Drained,
        admits: Some(1),
        closers: [Some(WRITER), None, None, None],
    },
    Row {
        peer: Peer::Drips,
        clients: 1,
        idle: None,
        reader: Some(ReaderEnd::Bytes),
        writer: WriterEnd::Drained,
        admits: Some(1),
        closers: [Some(WRITER), None, None, None],
    },
    // Of two links the actors 2 and 3 are the writers. The first of them lets the peer go while that is sending.
    Row {
        peer: Peer::NeverReads,
        clients: 2,
        idle: Some(2_000),
        reader: None,
        writer: WriterEnd::WriteFailed,
        admits: None,
        closers: [Some(2), Some(3), None, None],
    },
];

/// The run of a row.
fn run_of(row: &Row) -> Run {
    Run {
        peer: row.peer,
        accept: row.clients,
        steps: 100_000,
        idle: row.idle,
        ..Run::USUAL
    }
}

/// Whether the first link of the run of a row ended as it must.
fn has_ended(seen: &Seen, row: &Row) -> bool {
    match seen.ends[0] {
        Some((reader, writer)) => { row.reader.unwrap_or(reader) == reader && writer == row.writer }
        None => false,
    }
}

/// Whether the run of a row left what it must: no connection is live at its end, for a legal history closes each once at most.
fn is_found(seen: &Seen, row: &Row) -> bool {
    let events = &seen.events;
    has_ended(seen, row)
        && row.admits.unwrap_or(events.admits) == events.admits
        && events.closers == row.closers
        && events.closes == events.connects
}

/// Makes the run of each row, and ends the test where one leaves something else.
fn all_leave_it<
    R: Threads
        + Wait
        + Net<Listener = TcpListener, Stream = TcpStream>
        + Sync
        + Abort
        + Clock
        + AllocGlobal,
>(rt: &R, alloc: Global) -> Result<(), Fail> {
    for (number, row) in ROWS.iter().enumerate() {
        let seen = seen_of(rt, alloc, &run_of(row))?;
        assert!(rt; is_found(&seen, row), "row {number}");
    }
    Ok(())
}

#[test]
fn each_peer_leaves_what_it_must(rt: HostRuntime) -> Result<(), Fail> {
    all_leave_it(&rt, rt.alloc())
}
