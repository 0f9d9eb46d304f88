//! Runs of two links of one Ping each by one worker.

use crate::threads::runs::run_of;
use gn_bodies::{ReaderEnd, WriterEnd};
use gn_fixtures::{Heap, OWN, PING, Refused, Turn, has_answered, refused_at};
use gn_links::{MemoryLink, NoGate};
use gn_report::Report;
use gn_rules::{BadConfig, Config};
use gn_shake::Role;
use gn_stage::StageFault;
use gn_threads::RunFault;
use std::alloc::{AllocError, Allocator};
use std::process::Abort;
use std::sync::Wait;
use std::test::Fail;
use std::thread::Threads;

/// The configuration of six links of a hundred Pings.
fn ample() -> Result<Config, BadConfig> {
    Config::new(8, 1024, 64, 1024, 1024, 100_000, 0, 0, OWN)
}

/// So many plain links of one Ping each, in a list over an allocator of its own.
fn links_of_pings<A: Allocator + Copy, B: Allocator>(
    alloc: A,
    list: B,
    count: u8,
) -> Result<Vec<MemoryLink<A>, B>, AllocError> {
    let mut links = Vec::new(list);
    for number in 0..count {
        let mut bytes = Vec::from_slice(alloc, PING)?;
        if let Some(first) = bytes.first_mut() {
            *first = number;
        }
        links.push(MemoryLink::new(Role::Plain, bytes, 4_096))?;
    }
    Ok(links)
}

/// How a run went that stopped so, or gave a report.
fn turn_of(fault: Option<RunFault>, has_refused: bool) -> Turn {
    match fault {
        None if !has_refused => Turn::Answered,
        None => Turn::Refused,
        Some(RunFault::NoMemory | RunFault::Stage(StageFault::NoMemory)) if has_refused => {
            Turn::Refused
        }
        Some(_) => Turn::Wrong,
    }
}

/// Runs both links, where these growths are refused: out of memory, or a report. That its history is legal is proved.
fn run_refused<A: Allocator + Copy + Send + Sync, R: Threads + Wait + Sync>(
    rt: &R,
    heap: &Heap,
    alloc: A,
    refused: Refused,
) -> Result<Turn, Fail> {
    heap.refuse_none();
    let config = ample()?;
    let links = links_of_pings(alloc, alloc, 2)?;
    refused.begin(heap);
    let fault = run_of(rt, alloc, &config, links, 1, &NoGate).err();
    let has_refused = heap.has_refused();
    heap.refuse_none();
    Ok(turn_of(fault, has_refused))
}

/// How many growths of a run are refused, each alone or with all later ones, until a run meets none.
fn growths_of_runs<A: Allocator + Copy + Send + Sync, R: Threads + Wait + Sync>(
    rt: &R,
    heap: &Heap,
    alloc: A,
    with_later: bool,
) -> Result<u64, Fail> {
    for number in 0..10_000 {
        let refused = refused_at(number, with_later);
        let turn = run_refused(rt, heap, alloc, refused)?;
        if has_answered(refused, turn)? {
            return Ok(number);
        }
    }
    Err("a run with no end of growths".into())
}

/// How many readers of a run ended by their bytes, and how many writers failed.
fn ends_of<Rd: Drop, W: Drop, A: Allocator>(report: Report<Rd, W, A>) -> (usize, usize) {
    let (mut read, mut failed) = (0usize, 0usize);
    for link in &report.links {
        read = read.wrapping_add((link.reader_end == ReaderEnd::Bytes) as usize);
        failed = failed.wrapping_add((link.writer_end == WriterEnd::WriteFailed) as usize);
    }
    (read, failed)
}

/// Runs so many links over a memory that refuses everything, and all else over another: how many bytes' ends and failed
/// writers the report has.
fn run_over_two<
    A: Allocator + Copy + Send + Sync,
    B: Allocator + Copy + Send + Sync,
    R: Threads + Wait + Sync,
>(rt: &R, heap: &Heap, poor: A, rich: B, count: u8) -> Result<(usize, usize), Fail> {
    heap.refuse_none();
    let config = ample()?;
    let links = links_of_pings(poor, rich, count)?;
    heap.refuse_from(0);
    match run_of(rt, rich, &config, links, 1, &NoGate) {
        Ok(report) => Ok(ends_of(report)),
        Err(_) => Err("a report".into()),
    }
}

/// Fails unless each link's writer fails in a run over one link and in one over two, and the one reader ends by its bytes,
/// or at least one of both.
fn fail_all<
    A: Allocator + Copy + Send + Sync,
    B: Allocator + Copy + Send + Sync,
    R: Threads + Wait + Sync + Abort,
>(rt: &R, heap: &Heap, poor: A, rich: B) -> Result<(), Fail> {
    let one = run_over_two(rt, heap, poor, rich, 1)?;
    let two = run_over_two(rt, heap, poor, rich, 2)?;
    assert!(rt;
        one == (1, 1) && (two == (1, 2) || two == (2, 2)),
        "{one:?} and {two:?}"
    );
    Ok(())
}

/// A writer that fails closes its connection: where that comes before the same link's reader has offered its Ping, that reader
/// ends by it and not by its bytes. It can't be both of two links, since no writer has anything to write before the first Ping.
#[test]
fn writers_without_memory(rt: HostRuntime) -> Result<(), Fail> {
    let heap = Heap::new(rt.alloc());
    fail_all(&rt, &heap, &heap, rt.alloc())
}

/// Fails unless a run meets many growths, alone and with all later ones.
fn meet_many<A: Allocator + Copy + Send + Sync, R: Threads + Wait + Sync + Abort>(
    rt: &R,
    heap: &Heap,
    alloc: A,
) -> Result<(), Fail> {
    let alone = growths_of_runs(rt, heap, alloc, false)?;
    let with_later = growths_of_runs(rt, heap, alloc, true)?;
    assert!(rt; alone > 60 && with_later > 60, "{alone} and {with_later}");
    Ok(())
}

#[test]
fn runs_of_two_links(rt: HostRuntime) -> Result<(), Fail> {
    let heap = Heap::new(rt.alloc());
    meet_many(&rt, &heap, &heap)
}
