//! Runs over the loopback, with both ends in one process: the run in one thread, and what its peers do in another.

pub(crate) mod peers;
mod rows;
mod run;
mod seen;

use crate::in_time::watch;
use crate::wanted::a_listener;
use gn_fixtures::usual;
use gn_io::{Sink, WriterSink};
use gn_links::{NoGate, Watch};
use gn_load::{ServeFault, serve_history};
use gn_report::Report;
use gn_rules::Config;
use gn_service::{Batch, Serve, Serving, serve_on};
use gn_table_router::TableRouter;
use gn_tcp::{TcpReader, TcpWriter};
use gn_threads::RunFault;
use peers::{LATE, Peer, play};
pub(crate) use rows::{Row, all_are_found};
pub(crate) use run::{Run, StopBy};
pub(crate) use seen::{DRAINED, Ends, Seen};
use std::alloc::{Allocator, Global};
use std::net::{Ipv4Addr, Net, SocketAddr, TcpListener, TcpStream};
use std::process::Abort;
use std::sync::Wait;
use std::sync::atomic::{AtomicBool, Ordering};
use std::test::Fail;
use std::thread;
use std::thread::Threads;
use std::time::Clock;

/// What such a run returns, over a memory without limit.
type TcpReport<'s> = Report<TcpReader<'s>, TcpWriter>;

/// A run of at most so many steps over the table router with one worker, within these limits.
pub(crate) fn serve<
    's,
    A: Allocator + Copy + Send + Sync,
    R: Threads
        + Wait
        + Net<Listener = TcpListener, Stream = TcpStream>
        + Clock
        + AllocGlobal
        + Sync,
>(
    rt: &R,
    alloc: A,
    listener: &TcpListener,
    steps: u32,
    accept: u32,
    called: &[SocketAddr],
    serving: &Serving<'s>,
) -> Result<Report<TcpReader<'s>, TcpWriter, A>, RunFault> {
    let Ok(config) = usual(steps) else {
        return Err(RunFault::BadWorkers);
    };
    if accept > 128 || called.len() > 64 {
        return Err(RunFault::BadWorkers);
    }
    serve_on::<TableRouter<A>, NoGate, A, R>(
        rt, alloc, listener, &config, accept, called, serving, 1, &NoGate,
    )
}

/// What a serve of at most so many steps and so many callers at the table router answers, within these limits, and the history
/// that it writes.
pub(crate) fn serve_written<
    A: Allocator + Copy + Send + Sync,
    R: Threads
        + Wait
        + Net<Listener = TcpListener, Stream = TcpStream>
        + Clock
        + AllocGlobal
        + Sync,
    G: Watch + Sync,
>(
    rt: &R,
    alloc: A,
    listener: &TcpListener,
    steps: u32,
    accept: u32,
    serving: &Serving<'_>,
    watch: &G,
) -> (Result<(), ServeFault>, Vec<u8, A>) {
    let mut sink = WriterSink::new(Vec::new(alloc));
    let served = match usual(steps) {
        Ok(config) => serve_to(
            rt, alloc, listener, &config, accept, serving, watch, &mut sink,
        ),
        Err(_) => Err(ServeFault::Write),
    };
    (served, sink.into_inner())
}

/// What such a serve answers, which writes its history there.
fn serve_to<
    A: Allocator + Copy + Send + Sync,
    R: Threads
        + Wait
        + Net<Listener = TcpListener, Stream = TcpStream>
        + Clock
        + AllocGlobal
        + Sync,
    G: Watch + Sync,
    W: Sink,
>(
    rt: &R,
    alloc: A,
    listener: &TcpListener,
    config: &Config,
    accept: u32,
    serving: &Serving<'_>,
    watch: &G,
    sink: &mut W,
) -> Result<(), ServeFault> {
    let serve = Serve {
        listener,
        config,
        peers: &[],
        accept: accept.min(128),
        workers: 1,
        limits: *serving,
        watch,
        batch: Batch::one(),
    };
    let served = serve_history::<TableRouter<A>, A, R, G, W>(rt, alloc, &serve, sink);
    match served {
        Ok(report) => {
            drop(report);
            Ok(())
        }
        Err(fault) => Err(fault),
    }
}

/// What is seen of such a run.
pub(crate) fn seen_at<
    R: Threads
        + Wait
        + Net<Listener = TcpListener, Stream = TcpStream>
        + Clock
        + AllocGlobal
        + Sync,
>(
    rt: &R,
    alloc: Global,
    listener: &TcpListener,
    steps: u32,
    accept: u32,
    called: &[SocketAddr],
    serving: &Serving<'_>,
) -> Result<Seen, RunFault> {
    match serve(rt, alloc, listener, steps, accept, called, serving) {
        Ok(report) => Ok(Seen::of(&report)),
        Err(fault) => Err(fault),
    }
}

/// The fault of such a run without other limits, where it has one.
pub(crate) fn fault_of<
    R: Threads
        + Wait
        + Net<Listener = TcpListener, Stream = TcpStream>
        + Clock
        + AllocGlobal
        + Sync,
>(
    rt: &R,
    alloc: Global,
    listener: &TcpListener,
    steps: u32,
    accept: u32,
    called: &[SocketAddr],
) -> Option<RunFault> {
    seen_at(
        rt,
        alloc,
        listener,
        steps,
        accept,
        called,
        &Serving::UNLIMITED,
    )
    .err()
}

/// Ends the test where a run has another fault than this.
pub(crate) fn must_fail<R: Abort>(rt: &R, fault: Option<RunFault>, wanted: RunFault) {
    assert_eq!(rt; fault, Some(wanted));
}

/// Two mistakes after which a client waits for ever, for its consent or for its Pong.
const UNSERVED: &str =
    "a run that isn't over within 20 seconds: a writer waits at the door of another's link, or an intake \
     tells no outlet of its job";

/// Whether the peers of such a run heard what they had to, and what is seen of it. The test ends where a run that is brief isn't
/// over within 20 seconds of its peers.
fn beside<
    R: Threads
        + Wait
        + Net<Listener = TcpListener, Stream = TcpStream>
        + Sync
        + Abort
        + Clock
        + AllocGlobal,
>(
    rt: &R,
    alloc: Global,
    run: &Run,
    listeners: &Listeners,
    at: SocketAddr,
    called: &[SocketAddr],
    serving: &Serving<'_>,
) -> (bool, Result<Seen, RunFault>) {
    let is_over = AtomicBool::new(false);
    let is_over = &is_over;
    thread::join(
        rt,
        move || {
            let played = play(rt, at, &listeners.theirs, run.peer, serving);
            if run.peer.is_brief() {
                watch(rt, is_over, UNSERVED);
            }
            played
        },
        move || {
            let seen = seen_at(
                rt,
                alloc,
                &listeners.own,
                run.steps,
                run.accept,
                called,
                serving,
            );
            is_over.store(true, Ordering::SeqCst);
            seen
        },
    )
}

/// A run's listener, and the one where its peer is called.
#[derive(Drop)]
pub(crate) struct Listeners {
    pub(crate) own: TcpListener,
    pub(crate) theirs: TcpListener,
}

/// Two listeners on this machine.
pub(crate) fn two_listeners<N: Net<Listener = TcpListener, Stream = TcpStream>>(
    net: &N,
) -> Result<Listeners, Fail> {
    let own = a_listener(net)?;
    match a_listener(net) {
        Ok(theirs) => Ok(Listeners { own, theirs }),
        Err(fail) => Err(fail),
    }
}

/// An address where nobody listens.
pub(crate) fn nobody<N: Net<Listener = TcpListener, Stream = TcpStream>>(
    net: &N,
) -> Result<SocketAddr, Fail> {
    let listener = a_listener(net)?;
    let at = listener.local_addr();
    drop(listener);
    Ok(at?)
}

/// Whom the run calls, where its peer is called: one that waits there, or one that comes late.
fn called_at(peer: Peer, theirs: &TcpListener) -> Result<SocketAddr, Fail> {
    match peer {
        Peer::CalledLate => Ok(SocketAddr::from((Ipv4Addr::LOCALHOST, LATE))),
        _ => Ok(theirs.local_addr()?),
    }
}

/// Its peer, and another that a run calls after it, or only one of the two, or nobody.
fn called_of<'a>(run: &Run, both: &'a [SocketAddr; 2]) -> &'a [SocketAddr] {
    match (run.peer.is_called(), run.calls_nobody) {
        (true, true) => both.as_slice(),
        (true, false) => &both[..1],
        (false, true) => &both[1..],
        (false, false) => &both[..0],
    }
}

/// The addresses of a run's peer and of that other, where there is one.
fn both_of<N: Net<Listener = TcpListener, Stream = TcpStream>>(
    net: &N,
    run: &Run,
    theirs: &TcpListener,
) -> Result<[SocketAddr; 2], Fail> {
    let peer = called_at(run.peer, theirs)?;
    let other = if run.calls_nobody { nobody(net)? } else { peer };
    Ok([peer, other])
}

/// What is seen of a run, where its peers heard what they had to.
fn where_heard(have_heard: bool, seen: Result<Seen, RunFault>) -> Result<Seen, Fail> {
    match seen {
        _ if !have_heard => Err("what a peer has to hear".into()),
        Ok(seen) => Ok(seen),
        Err(_) => Err("a report".into()),
    }
}

/// What is seen of a run at these listeners, whose peers have heard what they had to.
fn seen_between<
    R: Threads
        + Wait
        + Net<Listener = TcpListener, Stream = TcpStream>
        + Sync
        + Abort
        + Clock
        + AllocGlobal,
>(rt: &R, alloc: Global, run: &Run, listeners: &Listeners) -> Result<Seen, Fail> {
    let at = listeners.own.local_addr()?;
    let both = both_of(rt, run, &listeners.theirs)?;
    let called = called_of(run, &both);
    let stop = run.stop();
    let serving = run.serving(&stop);
    let (have_heard, seen) = beside(rt, alloc, run, listeners, at, called, &serving);
    where_heard(have_heard, seen)
}

/// What is seen of a run whose peers have heard what they had to.
pub(crate) fn seen_of<
    R: Threads
        + Wait
        + Net<Listener = TcpListener, Stream = TcpStream>
        + Sync
        + Abort
        + Clock
        + AllocGlobal,
>(rt: &R, alloc: Global, run: &Run) -> Result<Seen, Fail> {
    let listeners = two_listeners(rt)?;
    seen_between(rt, alloc, run, &listeners)
}
