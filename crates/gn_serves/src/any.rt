//! Serves that any number of callers may call.

mod clients;

use crate::batch::usual_batch;
use crate::loads::is_legal;
use crate::loopback::{Listeners, two_listeners};
pub(crate) use clients::Clients;
use clients::{CLIENTS, FIRST, play};
use gn_fixtures::usual;
use gn_io::{Sink, WriterSink};
use gn_links::NoGate;
use gn_load::serve_any_journalled;
use gn_report::LinkAccount;
use gn_rules::Config;
use gn_service::{Any, Parting, Pings, Serve, Serving, Stop};
use gn_tcp::{TcpReader, TcpWriter};
use gn_wire::Guid;
use std::alloc::Global;
use std::net::{Net, SocketAddr, TcpListener, TcpStream};
use std::process::Abort;
use std::sync::Wait;
use std::sync::atomic::{AtomicU32, AtomicU64, Ordering};
use std::test::Fail;
use std::thread;
use std::thread::Threads;
use std::time::{Clock, Duration};

/// The numbers of the clients' links, each as often as its client sends a Ping: 0 + 2 * 1 + 2 + 2 * 3 + .. + 2 * 299.
const OFFERS: u64 = 67_350;

/// Counts the links that end, and adds up their numbers, each as often as its link offered a descriptor.
#[derive(Drop)]
struct Counter {
    ended: AtomicU32,
    offers: AtomicU64,
}

impl Counter {
    /// None has ended.
    fn new() -> Self {
        Counter {
            ended: AtomicU32::new(0),
            offers: AtomicU64::new(0),
        }
    }
}

impl Parting<Global> for Counter {
    fn left(&self, link: u32, account: &LinkAccount<TcpReader<'_>, TcpWriter>) {
        let offers = u64::from(link).wrapping_mul(account.read.offered);
        self.ended.fetch_add(1, Ordering::SeqCst);
        self.offers.fetch_add(offers, Ordering::SeqCst);
    }
}

/// What is found of such a serve.
#[derive(Clone, Copy)]
pub(crate) struct Found {
    /// How many steps say that the own servent sent something.
    pub(crate) sent: usize,
    /// How many links ended.
    ended: u32,
    /// The sum of their numbers, each as often as its link offered a descriptor.
    offers: u64,
}

/// Any number of callers, whose links' ends this counts. The own servent sends its neighbours Pings where they go without a word.
fn accepted<'a>(clients: Clients, counter: &'a Counter) -> Any<'a, Counter> {
    let pings = match clients {
        Clients::Go => Some(Pings {
            every: Duration::from_millis(20),
            first: Guid(FIRST),
        }),
        _ => None,
    };
    Any {
        leaving: counter,
        again: pings.is_none(),
        pings,
        callers_a_minute: None,
    }
}

/// Such a serve at this listener, which calls these peers.
fn serve_of<'a>(
    listener: &'a TcpListener,
    config: &'a Config,
    clients: Clients,
    peers: &'a [SocketAddr],
    stop: &'a Stop,
    counter: &'a Counter,
) -> Serve<'a, 'a, NoGate, Any<'a, Counter>> {
    Serve {
        listener,
        config,
        peers,
        accept: accepted(clients, counter),
        workers: 2,
        limits: Serving {
            stop: Some(stop),
            ..Serving::UNLIMITED
        },
        watch: &NoGate,
        batch: usual_batch(),
    }
}

/// Whether such a serve ends well, which writes its history there.
fn is_served<
    R: Threads
        + Wait
        + Net<Listener = TcpListener, Stream = TcpStream>
        + Clock
        + AllocGlobal
        + Sync,
    W: Sink + Send,
>(rt: &R, alloc: Global, serve: &Serve<'_, '_, NoGate, Any<'_, Counter>>, sink: &mut W) -> bool {
    serve_any_journalled(rt, alloc, serve, sink).is_ok()
}

/// What such a serve writes, where it ends well.
fn written<
    R: Threads
        + Wait
        + Net<Listener = TcpListener, Stream = TcpStream>
        + Clock
        + AllocGlobal
        + Sync,
>(
    rt: &R,
    alloc: Global,
    clients: Clients,
    listener: &TcpListener,
    peers: &[SocketAddr],
    stop: &Stop,
    counter: &Counter,
) -> Option<Vec<u8>> {
    let Ok(config) = usual(10_000) else {
        return None;
    };
    let serve = serve_of(listener, &config, clients, peers, stop, counter);
    let mut sink = WriterSink::new(Vec::new(alloc));
    let is_served = is_served(rt, alloc, &serve, &mut sink);
    is_served.then_some(sink.into_inner())
}

/// How many steps stand in this history.
fn steps_in(history: &[u8]) -> usize {
    let mut lines = 0usize;
    for byte in history {
        if *byte == b'\n' {
            lines = lines.wrapping_add(1);
        }
    }
    lines.saturating_sub(4)
}

/// How many lines of it say that the own servent sent something.
fn sent_in(history: &[u8]) -> usize {
    let mut sent = 0usize;
    for text in history.windows(13) {
        if text == b"\n0 originate ".as_slice() {
            sent = sent.wrapping_add(1);
        }
    }
    sent
}

/// Whether a history is written and legal, and how many of its steps say that the own servent sent something.
fn judged(alloc: Global, written: Option<Vec<u8>>) -> Result<(bool, usize), Fail> {
    let Some(history) = written else {
        return Ok((false, 0));
    };
    let history = history.as_slice();
    let is_legal = is_legal(alloc, history, steps_in(history))?;
    Ok((is_legal, sent_in(history)))
}

/// Whom the serve calls of these: its peer, where that is called.
fn called_of(clients: Clients, there: &[SocketAddr]) -> &[SocketAddr] {
    match clients {
        Clients::AreCalled => there,
        _ => &there[..0],
    }
}

/// What is found of a serve of these clients at this address, which this stops, and whose links' ends this counts. The test ends where not
/// all went well, or the history isn't legal.
fn found_at<
    R: Threads
        + Wait
        + Net<Listener = TcpListener, Stream = TcpStream>
        + Sync
        + Abort
        + Clock
        + AllocGlobal,
>(
    rt: &R,
    alloc: Global,
    clients: Clients,
    at: SocketAddr,
    listeners: &Listeners,
    peers: &[SocketAddr],
    stop: &Stop,
    counter: &Counter,
) -> Result<Found, Fail> {
    let (is_good, written) = thread::join(
        rt,
        move || play(rt, clients, at, listeners, counter, stop),
        move || written(rt, alloc, clients, &listeners.own, peers, stop, counter),
    );
    let (is_legal, sent) = judged(alloc, written)?;
    assert!(rt; is_good && is_legal);
    Ok(Found {
        sent,
        ended: counter.ended.load(Ordering::SeqCst),
        offers: counter.offers.load(Ordering::SeqCst),
    })
}

/// What is found of a serve of these clients at these listeners.
fn found_between<
    R: Threads
        + Wait
        + Net<Listener = TcpListener, Stream = TcpStream>
        + Sync
        + Abort
        + Clock
        + AllocGlobal,
>(rt: &R, alloc: Global, clients: Clients, listeners: &Listeners) -> Result<Found, Fail> {
    let at = listeners.own.local_addr()?;
    let there = [listeners.theirs.local_addr()?];
    let peers = called_of(clients, &there);
    let stop = Stop::new(None, false);
    let counter = Counter::new();
    found_at(rt, alloc, clients, at, listeners, peers, &stop, &counter)
}

/// What is found of a serve of these clients, at listeners of its own.
pub(crate) fn found_of<
    R: Threads
        + Wait
        + Net<Listener = TcpListener, Stream = TcpStream>
        + Sync
        + Abort
        + Clock
        + AllocGlobal,
>(rt: &R, alloc: Global, clients: Clients) -> Result<Found, Fail> {
    let listeners = two_listeners(rt)?;
    found_between(rt, alloc, clients, &listeners)
}

/// More clients than there are places come one after another, and the end of each link is told with its number.
#[test]
fn any_number_is_served(rt: HostRuntime) -> Result<(), Fail> {
    let found = found_of(&rt, rt.alloc(), Clients::Come)?;
    assert_eq!(rt; (found.ended, found.offers), (CLIENTS, OFFERS));
    Ok(())
}

/// A peer that has gone is called again over another link.
#[test]
fn a_peer_is_called_again(rt: HostRuntime) -> Result<(), Fail> {
    let found = found_of(&rt, rt.alloc(), Clients::AreCalled)?;
    // the peer sends one Ping over each link, and a third call may have begun by the stop
    assert!(rt; (found.ended == 2 || found.ended == 3) && found.offers == 1);
    Ok(())
}
