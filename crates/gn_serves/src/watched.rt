//! What who watches a run learns of it as a whole.

use crate::batch::usual_loading;
use crate::loopback::serve_written;
use crate::wanted::{a_called_listener, a_caller, a_listener};
use gn_fixtures::PING;
use gn_io::{Nowhere, ReaderSource, Sink, Source};
use gn_links::{Gate, Watch};
use gn_load::{LoadFault, ServeFault, load_journalled, load_watched};
use gn_service::{Serving, Stop};
use gn_table_router::TableRouter;
use std::alloc::{Allocator, Global};
use std::net::{Net, SocketAddr, TcpListener, TcpStream};
use std::sync::Wait;
use std::sync::atomic::{AtomicU32, Ordering};
use std::test::Fail;
use std::thread::Threads;
use std::time::{Clock, Duration};

/// Keeps what it learned: a digit for each call in order, 1 for `begin`, 2 for `open`, 3 for `came`, 4 for `end` and 5 for `leave`;
/// how many links or steps it was told, and the ports of the peers of two links. It counts apart how often it is told that a serve
/// goes on, each time for the next 10 milliseconds.
#[derive(Drop)]
struct Recorder {
    calls: AtomicU32,
    size: AtomicU32,
    first: AtomicU32,
    second: AtomicU32,
    ticks: AtomicU32,
}

impl Recorder {
    /// It has learned nothing.
    fn new() -> Self {
        Recorder {
            calls: AtomicU32::new(0),
            size: AtomicU32::new(0),
            first: AtomicU32::new(0),
            second: AtomicU32::new(0),
            ticks: AtomicU32::new(0),
        }
    }

    /// Only one thread calls at a time.
    fn learn(&self, digit: u32) {
        let calls = self.calls.load(Ordering::SeqCst);
        let more = calls.wrapping_mul(10).wrapping_add(digit);
        self.calls.store(more, Ordering::SeqCst);
    }

    /// All that it has learned.
    fn learned(&self) -> [u32; 4] {
        [
            self.calls.load(Ordering::SeqCst),
            self.size.load(Ordering::SeqCst),
            self.first.load(Ordering::SeqCst),
            self.second.load(Ordering::SeqCst),
        ]
    }
}

impl Gate for Recorder {
    fn enter<R: Wait>(&self, _rt: &R, _worker: u32, _ticket: u32) {}
}

impl Watch for Recorder {
    fn begin(&self, links: usize) {
        self.learn(1);
        let links = u32::try_from(links).unwrap_or(u32::MAX);
        self.size.store(links, Ordering::SeqCst);
    }

    fn open(&self, steps: u32) {
        self.learn(2);
        self.size.store(steps, Ordering::SeqCst);
    }

    fn came<R: Wait>(&self, _rt: &R, link: u32, peer: SocketAddr) {
        self.learn(3);
        let port = if link == 0 { &self.first } else { &self.second };
        port.store(u32::from(peer.port()), Ordering::SeqCst);
    }

    fn tick(&self) -> Option<Duration> {
        self.ticks.fetch_add(1, Ordering::SeqCst);
        Some(Duration::from_millis(10))
    }

    fn end(&self) {
        self.learn(4);
    }

    fn leave<T: Drop>(&self, rest: T) {
        self.learn(5);
        drop(rest);
    }
}

/// A load at the router with tables.
fn load_for<A: Allocator + Copy + Send + Sync, R: Threads + Wait + Sync, S: Source, W: Sink>(
    rt: &R,
    alloc: A,
    watch: &Recorder,
    source: &mut S,
    sink: &mut W,
) -> Result<(), LoadFault> {
    load_watched::<A, TableRouter<A>, R, Recorder, S, W>(rt, alloc, 1, watch, source, sink)
}

/// A capture of two links that give nothing.
const TWO_LINKS: &str = "\
gnutella-capture 1
config 4 8 4 8 8 100
own eeeeeeeeeeeeeeeeeeeeeeeeeeeeeeee 127.0.0.1 6346 5 40
join
join
";

/// A load of both, whose history is written while it runs, or then. Nobody wants it.
fn load_both<R: Threads + Wait + Sync>(
    rt: &R,
    alloc: Global,
    recorder: &Recorder,
    is_journalled: bool,
) -> Result<(), LoadFault> {
    let mut source = ReaderSource::new(TWO_LINKS.as_bytes());
    let loaded = if is_journalled {
        let loading = usual_loading(1, recorder);
        load_journalled(rt, alloc, &loading, &mut source, &mut Nowhere)
    } else {
        load_for(rt, alloc, recorder, &mut source, &mut Nowhere)
    };
    drop(source);
    loaded
}

/// What a recorder learns of such a load.
fn learned_of_a_load<R: Threads + Wait + Sync>(
    rt: &R,
    alloc: Global,
    is_journalled: bool,
) -> Result<[u32; 4], LoadFault> {
    let recorder = Recorder::new();
    let loaded = load_both(rt, alloc, &recorder, is_journalled);
    let learned = recorder.learned();
    drop(recorder);
    match loaded {
        Ok(()) => Ok(learned),
        Err(fault) => Err(fault),
    }
}

#[test]
fn who_watches_learns_of_a_load(rt: HostRuntime) -> Result<(), Fail> {
    for is_journalled in [false, true] {
        assert_eq!(rt;
            learned_of_a_load(&rt, rt.alloc(), is_journalled),
            Ok([145, 2, 0, 0]),
            "{is_journalled}"
        );
    }
    Ok(())
}

/// A serve of callers that have come, which a recorder watches.
fn serve_watched<
    R: Threads
        + Wait
        + Net<Listener = TcpListener, Stream = TcpStream>
        + Clock
        + AllocGlobal
        + Sync,
>(
    rt: &R,
    alloc: Global,
    listener: &TcpListener,
    accept: u32,
    serving: &Serving<'_>,
    recorder: &Recorder,
) -> Result<(), ServeFault> {
    let (served, written) = serve_written(rt, alloc, listener, 100, accept, serving, recorder);
    drop(written);
    served
}

/// What a recorder learns of a serve of two callers that have come.
fn learned_of_a_serve<
    R: Threads
        + Wait
        + Net<Listener = TcpListener, Stream = TcpStream>
        + Clock
        + AllocGlobal
        + Sync,
>(rt: &R, alloc: Global, listener: &TcpListener) -> Result<[u32; 4], ServeFault> {
    let recorder = Recorder::new();
    let served = serve_watched(rt, alloc, listener, 2, &Serving::UNLIMITED, &recorder);
    let learned = recorder.learned();
    drop(recorder);
    match served {
        Ok(()) => Ok(learned),
        Err(fault) => Err(fault),
    }
}

/// The port of a caller; 0, where it has none.
fn port_of(caller: &TcpStream) -> u32 {
    match caller.local_addr() {
        Ok(at) => u32::from(at.port()),
        Err(_) => 0,
    }
}

/// What a recorder learns of a serve of two callers that have sent a Ping and their end, one after the other, and what it has to.
fn learned_of_two<
    R: Threads
        + Wait
        + Net<Listener = TcpListener, Stream = TcpStream>
        + Clock
        + AllocGlobal
        + Sync,
>(rt: &R, alloc: Global) -> Result<(Result<[u32; 4], ServeFault>, [u32; 4]), Fail> {
    let called = a_called_listener(rt, PING, true)?;
    let second = a_caller(rt, &called.listener, PING, true)?;
    let right = [2334, 100, port_of(&called.caller), port_of(&second)];
    let learned = learned_of_a_serve(rt, alloc, &called.listener);
    drop(second);
    drop(called);
    Ok((learned, right))
}

#[test]
fn who_watches_learns_of_a_serve(rt: HostRuntime) -> Result<(), Fail> {
    let (learned, right) = learned_of_two(&rt, rt.alloc())?;
    assert_eq!(rt; learned, Ok(right));
    Ok(())
}

/// How long a serve goes on that this stops.
fn stopped_by(stop: &Stop) -> Serving<'_> {
    Serving {
        stop: Some(stop),
        ..Serving::UNLIMITED
    }
}

/// How often one is told that a serve goes on, which nobody calls and half a second stops.
fn ticks_at<
    R: Threads
        + Wait
        + Net<Listener = TcpListener, Stream = TcpStream>
        + Clock
        + AllocGlobal
        + Sync,
>(rt: &R, alloc: Global, listener: &TcpListener) -> Result<u32, ServeFault> {
    let stop = Stop::new(Some(Duration::from_millis(500)), false);
    let recorder = Recorder::new();
    let served = serve_watched(rt, alloc, listener, 1, &stopped_by(&stop), &recorder);
    let ticks = recorder.ticks.load(Ordering::SeqCst);
    drop(recorder);
    drop(stop);
    match served {
        Ok(()) => Ok(ticks),
        Err(fault) => Err(fault),
    }
}

/// The same of a new listener.
fn ticks_of_a_serve<
    R: Threads
        + Wait
        + Net<Listener = TcpListener, Stream = TcpStream>
        + Clock
        + AllocGlobal
        + Sync,
>(rt: &R, alloc: Global) -> Result<u32, Fail> {
    let listener = a_listener(rt)?;
    Ok(ticks_at(rt, alloc, &listener)?)
}

/// Also while nothing is done: nobody calls this serve.
#[test]
fn who_watches_learns_that_a_serve_goes_on(rt: HostRuntime) -> Result<(), Fail> {
    assert!(rt; ticks_of_a_serve(&rt, rt.alloc())? > 4);
    Ok(())
}
