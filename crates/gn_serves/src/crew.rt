//! Two workers of a serve that begin each route together, while its history is written.

use crate::batch::usual_batch;
use crate::loads::is_legal;
use crate::loopback::peers::all_sent;
use crate::wanted::a_listener;
use gn_capture::read_history;
use gn_fixtures::OWN;
use gn_io::{Sink, WriterSink};
use gn_load::{ServeHalted, serve_journalled};
use gn_report::Account;
use gn_rules::{Config, Counter, Stats, Step};
use gn_run_fixtures::{Meeting, have_met, pings};
use gn_service::{Ran, Serve, Serving};
use gn_tcp::{TcpReader, TcpWriter};
use std::alloc::Global;
use std::net::{Net, SocketAddr, TcpListener, TcpStream};
use std::sync::Wait;
use std::test::Fail;
use std::thread::Threads;
use std::time::Clock;

/// A caller that has sent a hundred Pings and its end.
fn a_caller<N: Net<Listener = TcpListener, Stream = TcpStream>>(
    net: &N,
    alloc: Global,
    at: SocketAddr,
    number: u8,
) -> Result<TcpStream, Fail> {
    let bytes = pings(alloc, number, 100)?;
    Ok(all_sent(net, at, bytes.as_slice())?)
}

/// Six of them come.
fn six_come<N: Net<Listener = TcpListener, Stream = TcpStream>>(
    net: &N,
    alloc: Global,
    at: SocketAddr,
    callers: &mut Vec<TcpStream>,
) -> Result<(), Fail> {
    for number in 0..6 {
        callers.push(a_caller(net, alloc, at, number)?)?;
    }
    Ok(())
}

/// How many steps these counters count.
fn steps_of(stats: &Stats) -> usize {
    let mut steps = 0usize;
    for counter in Counter::ALL {
        steps = steps.saturating_add(stats.get(counter) as usize);
    }
    steps
}

/// What a serve of them with two workers answers.
fn serve_six<
    R: Threads
        + Wait
        + Net<Listener = TcpListener, Stream = TcpStream>
        + Clock
        + AllocGlobal
        + Sync,
    W: Sink + Send,
>(
    rt: &R,
    alloc: Global,
    listener: &TcpListener,
    config: &Config,
    meeting: &Meeting,
    sink: &mut W,
) -> Result<(Account<TcpReader<'static>, TcpWriter>, Ran), ServeHalted> {
    let serve = Serve {
        listener,
        config,
        peers: &[],
        accept: 6,
        workers: 2,
        limits: Serving::UNLIMITED,
        watch: meeting,
        batch: usual_batch(),
    };
    serve_journalled::<R, Meeting, W>(rt, alloc, &serve, sink)
}

/// How many steps such a serve took, where it ended well.
fn steps_of_served(
    served: Result<(Account<TcpReader<'_>, TcpWriter>, Ran), ServeHalted>,
) -> Option<usize> {
    match &served {
        Ok(both) => Some(steps_of(&both.0.stats)),
        Err(_) => None,
    }
}

/// How many of these steps an actor made.
fn made_by(steps: &[Step], actor: u32) -> usize {
    let mut made = 0usize;
    for step in steps {
        if step.actor == actor {
            made = made.wrapping_add(1);
        }
    }
    made
}

/// Whether each of the two workers of six links made 300 steps of a history.
fn are_even(alloc: Global, history: &[u8]) -> Result<bool, Fail> {
    let read = read_history(alloc, history)?;
    let steps = read.1.as_slice();
    Ok(made_by(steps, 12) == 300 && made_by(steps, 13) == 300)
}

/// Whether a history is legal, has so many steps, and its workers share them evenly.
fn is_right(alloc: Global, history: &[u8], steps: usize) -> Result<bool, Fail> {
    Ok(is_legal(alloc, history, steps)? && are_even(alloc, history)?)
}

/// Whether what such a serve at this listener writes is so, whose callers have come.
fn is_written_right<
    R: Threads
        + Wait
        + Net<Listener = TcpListener, Stream = TcpStream>
        + Clock
        + AllocGlobal
        + Sync,
>(rt: &R, alloc: Global, listener: &TcpListener, meeting: &Meeting) -> Result<bool, Fail> {
    let config = Config::new(8, 1024, 64, 1024, 1024, 100_000, 0, 0, OWN)?;
    let mut sink = WriterSink::new(Vec::new(alloc));
    let served = serve_six(rt, alloc, listener, &config, meeting, &mut sink);
    let steps = steps_of_served(served);
    let written = sink.into_inner();
    match steps {
        Some(steps) => is_right(alloc, written.as_slice(), steps),
        None => Err("a serve".into()),
    }
}

/// The same with callers of its own.
fn is_shared_at<
    R: Threads
        + Wait
        + Net<Listener = TcpListener, Stream = TcpStream>
        + Clock
        + AllocGlobal
        + Sync,
>(rt: &R, alloc: Global, listener: &TcpListener, meeting: &Meeting) -> Result<bool, Fail> {
    let at = listener.local_addr()?;
    let mut callers = Vec::new(alloc);
    six_come(rt, alloc, at, &mut callers)?;
    is_written_right(rt, alloc, listener, meeting)
}

/// The same at a listener of its own.
fn is_shared<
    R: Threads
        + Wait
        + Net<Listener = TcpListener, Stream = TcpStream>
        + Clock
        + AllocGlobal
        + Sync,
>(rt: &R, alloc: Global, meeting: &Meeting) -> Result<bool, Fail> {
    let listener = a_listener(rt)?;
    is_shared_at(rt, alloc, &listener, meeting)
}

#[test]
fn two_workers_meet_beside_a_scribe(rt: HostRuntime) -> Result<(), Fail> {
    let meeting = Meeting::new();
    let is_shared = is_shared(&rt, rt.alloc(), &meeting)?;
    assert!(rt; is_shared && have_met(&meeting, 300));
    Ok(())
}
