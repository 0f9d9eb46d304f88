//! A load of six links.

ghost use Rattle.std.specs.Prelude.{◌<◌};

use crate::batch::usual_loading;
use gn_capture::{CaptureRefusal, read_history};
use gn_io::{ReaderSource, Sink, Source, WriterSink};
use gn_links::NoGate;
use gn_load::{LoadFault, load, load_journalled};
use gn_replay::{ReplayFault, audit};
use gn_rules::{Event, Legality, Reply, Step};
use gn_table_router::TableRouter;
use std::alloc::{AllocError, Allocator, Global};
use std::sync::Wait;
use std::test::Fail;
use std::thread::Threads;

/// Appends the line of the Ping of this number, counted from 0.
fn push_ping(text: &mut String, ping: u32) -> Result<(), AllocError>
    requires { ping < 600 }
{
    writeln!(
        text,
        "data {} {}a1a1a1a1a1a1a1a1a1a1a1a1a1a100070000000000",
        ping / 100 + 1,
        ping + 1000
    )
}

/// Six links of a hundred Pings each, of TTL 7 and Hops 0, whose IDs differ, under a title and a line of numbers.
fn six_links(alloc: Global, head: &str) -> Result<String, AllocError> {
    let mut text = format!(in alloc;
        "{head}\
own eeeeeeeeeeeeeeeeeeeeeeeeeeeeeeee 127.0.0.1 6346 5 40
join
join
join
join
join
join
"
    )?;
    for ping in 0..600 {
        push_ping(&mut text, ping)?;
    }
    Ok(text)
}

/// How many of these steps are of each kind.
#[derive(Clone, Copy)]
struct Kinds {
    connected: u32,
    admitted: u32,
    crowded: u32,
    routed_local: u32,
    closed_empty: u32,
    taken: u32,
    others: u32,
}

/// Counts a step.
fn count(kinds: &mut Kinds, step: &Step) {
    let kind = match (&step.event, &step.reply) {
        (Event::Connect, Reply::Connected(_)) => &mut kinds.connected,
        (Event::Admit(..), Reply::Admitted(_)) => &mut kinds.admitted,
        (Event::Admit(..), Reply::Crowded) => &mut kinds.crowded,
        (Event::Route(_), Reply::Routed { local: true, .. }) => &mut kinds.routed_local,
        (Event::Close(_), Reply::Closed(0)) => &mut kinds.closed_empty,
        (Event::Take(_), Reply::Taken(_)) => &mut kinds.taken,
        _ => &mut kinds.others,
    };
    *kind = kind.saturating_add(1);
}

/// Whether six links connected and closed, with nothing left, each of their 600 Pings was admitted or crowded, and each that
/// was admitted was routed; and no step is of another kind.
fn are_all_of_six(kinds: &Kinds) -> bool {
    kinds.connected == 6
        && kinds.closed_empty == 6
        && kinds.admitted.saturating_add(kinds.crowded) == 600
        && kinds.routed_local == kinds.admitted
        && kinds.others == 0
}

/// A load at the router with tables. That router is named for any allocator, since one over Global is dear to prove.
pub(crate) fn load_with_tables<
    A: Allocator + Copy + Send + Sync,
    R: Threads + Wait + Sync,
    S: Source,
    W: Sink,
>(rt: &R, alloc: A, workers: u32, source: &mut S, sink: &mut W) -> Result<(), LoadFault> {
    load::<A, TableRouter<A>, R, S, W>(rt, alloc, workers, source, sink)
}

/// An audit at that router.
fn audit_with_tables<A: Allocator + Copy, S: Source, W: Sink>(
    alloc: A,
    source: &mut S,
    sink: &mut W,
) -> Result<Legality, ReplayFault> {
    audit::<A, TableRouter<A>, S, W>(alloc, source, sink)
}

/// A load of this capture, whose history is written while it runs, or then.
fn load_so<R: Threads + Wait + Sync, W: Sink + Send>(
    rt: &R,
    alloc: Global,
    text: &[u8],
    workers: u32,
    is_journalled: bool,
    sink: &mut W,
) -> Result<(), LoadFault> {
    let mut source = ReaderSource::new(text);
    let loaded = if is_journalled {
        let loading = usual_loading(workers, &NoGate);
        load_journalled(rt, alloc, &loading, &mut source, sink)
    } else {
        load_with_tables(rt, alloc, workers, &mut source, sink)
    };
    drop(source);
    loaded
}

/// Whether an audit finds a history legal, and writes this.
fn is_judged(alloc: Global, history: &[u8], judged: &[u8]) -> bool {
    let mut source = ReaderSource::new(history);
    let mut sink = WriterSink::new(Vec::new(alloc));
    let legality = audit_with_tables(alloc, &mut source, &mut sink);
    drop(source);
    let written = sink.into_inner();
    let is_judged = written.as_slice() == judged;
    drop(written);
    matches!(legality, Ok(Legality::Legal)) && is_judged
}

/// Whether an audit finds a history legal, and writes that it has so many steps.
pub(crate) fn is_legal(alloc: Global, history: &[u8], steps: usize) -> Result<bool, Fail> {
    let judged = format!(in alloc; "legal {steps}\n")?;
    let is_legal = is_judged(alloc, history, judged.as_bytes());
    drop(judged);
    Ok(is_legal)
}

/// How many of these steps are of each kind.
fn kinds_of(steps: &[Step]) -> Kinds {
    let mut kinds = Kinds {
        connected: 0,
        admitted: 0,
        crowded: 0,
        routed_local: 0,
        closed_empty: 0,
        taken: 0,
        others: 0,
    };
    for step in steps {
        count(&mut kinds, step);
    }
    kinds
}

/// The kinds of the steps of a history, and how many these are.
fn kinds_of_history(alloc: Global, history: &[u8]) -> Result<(Kinds, usize), CaptureRefusal> {
    let (_, steps) = read_history(alloc, history)?;
    Ok((kinds_of(steps.as_slice()), steps.len()))
}

/// The kinds of the steps of a history, which is legal.
fn kinds_of_legal(alloc: Global, history: &[u8]) -> Result<Kinds, Fail> {
    let (kinds, steps) = kinds_of_history(alloc, history)?;
    if is_legal(alloc, history, steps)? {
        Ok(kinds)
    } else {
        Err("a legal history".into())
    }
}

/// The history that a load of this capture by so many workers writes.
fn history_of<R: Threads + Wait + Sync>(
    rt: &R,
    alloc: Global,
    text: &[u8],
    workers: u32,
    is_journalled: bool,
) -> Result<Vec<u8>, LoadFault> {
    let mut sink = WriterSink::new(Vec::new(alloc));
    load_so(rt, alloc, text, workers, is_journalled, &mut sink)?;
    Ok(sink.into_inner())
}

/// The kinds of the steps of a load of six links by so many workers, whose history is legal.
fn kinds_of_load<R: Threads + Wait + Sync>(
    rt: &R,
    alloc: Global,
    head: &str,
    workers: u32,
    is_journalled: bool,
) -> Result<Kinds, Fail> {
    let text = six_links(alloc, head)?;
    let history = history_of(rt, alloc, text.as_bytes(), workers, is_journalled);
    drop(text);
    kinds_of_legal(alloc, history?.as_slice())
}

#[test]
fn six_links_of_a_hundred_pings(rt: HostRuntime) -> Result<(), Fail> {
    let head = "gnutella-capture 1\nconfig 8 1024 64 1024 1024 100000\n";
    for (workers, is_journalled) in [(4, false), (4, true), (64, false), (64, true)] {
        let kinds = kinds_of_load(&rt, rt.alloc(), head, workers, is_journalled)?;
        assert!(rt; are_all_of_six(&kinds) && kinds.crowded == 0);
        assert!(rt; kinds.taken >= 600 && kinds.taken <= 3600);
    }
    Ok(())
}

/// Of each link a Ping is admitted at least.
#[test]
fn six_links_of_which_none_crowds(rt: HostRuntime) -> Result<(), Fail> {
    let head = "gnutella-capture 3\nconfig 8 1024 64 1024 1024 100000 0 1\n";
    let kinds = kinds_of_load(&rt, rt.alloc(), head, 64, true)?;
    assert!(rt; are_all_of_six(&kinds) && kinds.admitted >= 6);
    Ok(())
}
