//! What a gate is told of a connection that a link's two threads would close.

use crate::threads::runs::table_run;
use gn_bodies::{ReaderEnd, WriterEnd};
use gn_links::{Gate, Made, MemoryLink, Place};
use gn_report::Report;
use gn_rules::Counter;
use gn_run_fixtures::a_report;
use gn_shake::{Role, request};
use gn_wire::{FrameFault, Kind};
use std::alloc::{AllocError, Global};
use std::sync::Wait;
use std::sync::atomic::{AtomicU32, Ordering};
use std::test::Fail;
use std::thread;
use std::thread::Threads;

/// How often a reader looks whether its connection is closed at most.
const MOST_LOOKS: u32 = 100_000_000;

/// Holds a reader that has connected until somebody has closed a connection. It counts how often it is told so.
#[derive(Drop)]
struct Holder {
    closed: AtomicU32,
}

impl Gate for Holder {
    fn enter<R: Wait>(&self, _rt: &R, _worker: u32, _ticket: u32) {}

    fn made(&self, _place: Place, step: Made) {
        match step {
            Made::Closed => {
                self.closed.fetch_add(1, Ordering::SeqCst);
            }
            Made::Connected => {
                for _ in 0..MOST_LOOKS {
                    if self.closed.load(Ordering::SeqCst) > 0 {
                        return;
                    }
                    thread::yield_now();
                }
            }
            _ => {}
        }
    }
}

/// A Ping whose header says that a byte follows.
const LONG_PING: &[u8] =
    b"\xa1\xa1\xa1\xa1\xa1\xa1\xa1\xa1\xa1\xa1\xa1\xa1\xa1\xa1\xa1\xa1\x00\x07\x00\x01\x00\x00\x00";

/// A greeted link that gives a Ping of length 1, and to which no byte can be written.
fn broken_link(alloc: Global) -> Result<MemoryLink, AllocError> {
    let mut bytes = request().to_vec(alloc)?;
    bytes.extend_from_slice(LONG_PING)?;
    Ok(MemoryLink::new(Role::Accepting, bytes, 4096).failing(None, Some(1)))
}

/// Whether the last link of a run ended so that its writer couldn't write and its reader found a fault, and one connection
/// was closed.
fn ended_so<Rd: Drop, W: Drop>(report: Report<Rd, W>) -> bool {
    let fault = FrameFault::FixedLength(Kind::Ping, 1);
    let ended = match report.links.last() {
        Some(link) => {
            link.reader_end == ReaderEnd::Fault(fault) && link.writer_end == WriterEnd::WriteFailed
        }
        None => false,
    };
    ended && report.stats.get(Counter::Closed) == 1
}

/// Whether the broken link ends so, and the gate is told of one close.
fn is_told_once<R: Threads + Wait + Sync>(rt: &R, alloc: Global) -> Result<bool, Fail> {
    let gate = Holder {
        closed: AtomicU32::new(0),
    };
    let links = vec![in alloc; broken_link(alloc)?]?;
    let ended_so = ended_so(a_report(table_run(rt, alloc, links, 1, &gate))?);
    Ok(ended_so && gate.closed.load(Ordering::SeqCst) == 1)
}

/// The writer closes, as its consent can't be written, and the reader, which finds a fault, finds the connection closed.
#[test]
fn a_close_is_told_once(rt: HostRuntime) -> Result<(), Fail> {
    assert!(rt; is_told_once(&rt, rt.alloc())?);
    Ok(())
}
