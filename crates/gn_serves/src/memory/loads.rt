//! Loads of two links of one Ping each by one worker.

use crate::loads::load_with_tables;
use gn_fixtures::{Heap, Refused, Turn, has_answered, refused_at};
use gn_io::{ReaderSource, WriterSink};
use gn_load::LoadFault;
use gn_replay::ReplayFault;
use gn_stage::StageFault;
use gn_threads::RunFault;
use std::alloc::Allocator;
use std::sync::Wait;
use std::test::Fail;
use std::thread::Threads;

/// A capture of both links.
const CAPTURE: &str = "gnutella-capture 1\n\
config 8 1024 64 1024 1024 100000\n\
own eeeeeeeeeeeeeeeeeeeeeeeeeeeeeeee 127.0.0.1 6346 5 40\n\
join\n\
join\n\
data 1 a1a1a1a1a1a1a1a1a1a1a1a1a1a1a1a100070000000000\n\
data 2 a2a2a2a2a2a2a2a2a2a2a2a2a2a2a2a200070000000000\n";

/// How a load went that answered so and wrote this: out of memory and nothing written, or a history to its end.
fn turn_of(loaded: Result<(), LoadFault>, has_refused: bool, written: &[u8]) -> Turn {
    match loaded {
        Ok(()) if !written.ends_with(b"\nend\n") => Turn::Wrong,
        Ok(()) if has_refused => Turn::Refused,
        Ok(()) => Turn::Answered,
        Err(
            LoadFault::Text(ReplayFault::NoMemory)
            | LoadFault::Run(RunFault::NoMemory)
            | LoadFault::Run(RunFault::Stage(StageFault::NoMemory)),
        ) if has_refused && written.is_empty() => Turn::Refused,
        Err(_) => Turn::Wrong,
    }
}

/// Loads the capture, where these growths are refused, and writes to a memory of its own.
fn load_refused<A: Allocator + Copy + Send + Sync, B: Allocator + Copy, R: Threads + Wait + Sync>(
    rt: &R,
    heap: &Heap,
    alloc: A,
    rich: B,
    refused: Refused,
) -> Turn {
    let mut source = ReaderSource::new(CAPTURE.as_bytes());
    let mut sink = WriterSink::new(Vec::new(rich));
    refused.begin(heap);
    let loaded = load_with_tables(rt, alloc, 1, &mut source, &mut sink);
    let has_refused = heap.has_refused();
    heap.refuse_none();
    let written = sink.into_inner();
    turn_of(loaded, has_refused, written.as_slice())
}

/// How many growths of a load are refused, each alone or with all later ones, until a load meets none.
fn growths_of_loads<
    A: Allocator + Copy + Send + Sync,
    B: Allocator + Copy,
    R: Threads + Wait + Sync,
>(rt: &R, heap: &Heap, alloc: A, rich: B, with_later: bool) -> Result<u64, Fail> {
    for number in 0..10_000 {
        let refused = refused_at(number, with_later);
        let turn = load_refused(rt, heap, alloc, rich, refused);
        if has_answered(refused, turn)? {
            return Ok(number);
        }
    }
    Err("a load with no end of growths".into())
}

/// The growths of loads, alone and with all later ones.
fn both_growths<A: Allocator + Copy + Send + Sync, B: Allocator + Copy, R: Threads + Wait + Sync>(
    rt: &R,
    heap: &Heap,
    alloc: A,
    rich: B,
) -> Result<[u64; 2], Fail> {
    Ok([
        growths_of_loads(rt, heap, alloc, rich, false)?,
        growths_of_loads(rt, heap, alloc, rich, true)?,
    ])
}

#[test]
fn loads_of_two_links(rt: HostRuntime) -> Result<(), Fail> {
    let heap = Heap::new(rt.alloc());
    let [alone, with_later] = both_growths(&rt, &heap, &heap, rt.alloc())?;
    assert!(rt; alone > 80 && with_later > 80, "{alone} and {with_later}");
    Ok(())
}
