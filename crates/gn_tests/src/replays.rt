//! What a replay counts, and what it has written where it runs out of memory.

use crate::encoding::encoded;
use crate::run::{USUAL, capture_text};
use gn_fixtures::Heap;
use gn_io::{ReaderSource, Sink, Source, WriterSink};
use gn_replay::{Exit, ReplayFault, replay, replay_text_is_one};
use gn_table_router::TableRouter;
use std::alloc::{Allocator, Global};
use std::test::Fail;

/// A replay at the router with tables, over any allocator: one over Global is dear to prove.
fn replay_with_tables<A: Allocator + Copy, S: Source, W: Sink>(
    alloc: A,
    source: &mut S,
    sink: &mut W,
) -> Result<Exit, ReplayFault> {
    replay::<A, TableRouter<A>, S, W>(alloc, source, sink)
}

/// What a replay of a capture comes to, where it prints this.
pub(crate) fn exit_of(alloc: Global, capture: &[u8], wanted: &[u8]) -> Option<Exit> {
    let mut source = ReaderSource::new(capture);
    let mut sink = WriterSink::new(Vec::new(alloc));
    let exit = replay_with_tables(alloc, &mut source, &mut sink);
    let found = sink.into_inner();
    let is_printed = found.as_slice() == wanted;
    drop(found);
    match exit {
        Ok(exit) if is_printed => Some(exit),
        _ => None,
    }
}

/// What is printed of a refused greeting, and of two refused events.
const PRINTED: &[u8] = b"greeting 1 refused\nended 1\nrefused NoTicket\nrefused NotLive\n";

/// What a replay of them comes to.
const TWO_REFUSALS: Exit = Exit {
    steps: 0,
    refusals: 2,
};

#[test]
fn refusals_are_counted(rt: HostRuntime) -> Result<(), Fail> {
    let lines = "open; data 1 00; data 1 00; route 7; take 1";
    let text = capture_text(rt.alloc(), USUAL, lines)?;
    let exit = exit_of(rt.alloc(), text.as_bytes(), PRINTED);
    replay_text_is_one::<Global>();
    drop(text);
    assert_eq!(rt; exit, Some(TWO_REFUSALS));
    Ok(())
}

/// Whether a replay on this heap is out of memory where this growth is refused, and what it has written.
fn written_without(alloc: Global, heap: &Heap, capture: &str, growth: u64) -> (bool, Vec<u8>) {
    let mut source = ReaderSource::new(capture.as_bytes());
    let mut sink = WriterSink::new(Vec::new(alloc));
    heap.refuse_only(growth);
    let exit = replay_with_tables(heap, &mut source, &mut sink);
    let is_refused = matches!(exit, Err(ReplayFault::NoMemory));
    (is_refused, sink.into_inner())
}

/// How many lines are whole, where the text begins so and ends with one of its lines.
fn whole_lines(text: &[u8], written: &[u8]) -> Option<usize> {
    if !text.starts_with(written) || !(written.is_empty() || written.ends_with(b"\n")) {
        return None;
    }
    let mut lines = 0usize;
    for byte in written {
        if *byte == b'\n' {
            lines = lines.saturating_add(1);
        }
    }
    Some(lines)
}

/// Whether a replay on this heap is out of memory where this growth is refused, and how many lines of the text it has written,
/// which are whole.
fn lines_without(
    alloc: Global,
    heap: &Heap,
    capture: &str,
    text: &[u8],
    growth: u64,
) -> Result<(bool, usize), Fail> {
    let (is_refused, written) = written_without(alloc, heap, capture, growth);
    let lines = whole_lines(text, &written);
    drop(written);
    Ok((is_refused, lines.ok_or("whole lines")?))
}

/// How many lines a replay has written at most where one of its growths is refused, and how many it writes where none is.
fn most_and_all(
    alloc: Global,
    heap: &Heap,
    capture: &str,
    text: &[u8],
) -> Result<(usize, usize), Fail> {
    let mut most = 0;
    for growth in 0..1_000 {
        let (is_refused, lines) = lines_without(alloc, heap, capture, text, growth)?;
        if !is_refused {
            return Ok((most, lines));
        }
        most = most.max(lines);
    }
    Err("a replay with no end of growths".into())
}

/// A capture of the first Ping.
const FIRST_PING: &str = "join; join; data 1 <PING a1 07 00>; route 0";

/// What is printed of it.
const FIRST_PRINTED: &str = "0 connect = connected 1; 0 connect = connected 2; \
    0 admit 1 <PING a1 07 00> = admitted 0; \
    0 route 0 = routed local 1+<OWN a1 01> 2+<PING a1 06 01>";

/// The same of the first Ping's capture.
fn most_and_all_of_a_ping(alloc: Global) -> Result<(usize, usize), Fail> {
    let capture = capture_text(alloc, USUAL, FIRST_PING)?;
    let text = encoded(alloc, FIRST_PRINTED)?;
    let heap = Heap::new(alloc);
    most_and_all(alloc, &heap, &capture, text.as_bytes())
}

/// The last growth is refused within the last line.
#[test]
fn what_was_played_is_written_without_memory(rt: HostRuntime) -> Result<(), Fail> {
    if most_and_all_of_a_ping(rt.alloc())? == (3, 4) {
        Ok(())
    } else {
        Err(Fail::from("three lines, and all four"))
    }
}
