//! The neighbour of a router that serves, as a case says it.

use std::io::{self, Read, Write};
use std::net::{Ipv4Addr, Net, Shutdown, SocketAddr, TcpListener, TcpStream};
use std::sync::Wait;
use std::thread;
use std::time::{Clock, Duration};

/// How often a router is called until it listens, and how often one that is asked in turn is at most.
const TIMES: u32 = 500;

/// Milliseconds between two calls of a router.
const PAUSE: u64 = 10;

/// Milliseconds before a neighbour that listens does so.
const LATE: u64 = 300;

/// Milliseconds between two bytes of a neighbour that holds on.
const TURN: u64 = 30;

/// The bytes of a greeting's request.
const REQUEST: usize = 22;

/// The bytes of a greeting's consent.
const CONSENT: usize = 13;

/// The bytes of a Ping's answer: a header of 23 and a payload of 14.
const PONG: usize = 37;

/// What a router's one neighbour does. It has the bytes of the case's file, the first 22 of them its greeting.
#[derive(Clone, Copy)]
pub(crate) enum Neighbour<'a> {
    /// Calls, sends the bytes and its end, and reads to the router's end.
    Sends(&'a [u8]),
    /// Calls, sends the bytes, and reads to the router's end.
    Stays(&'a [u8]),
    /// The same, and then sends a byte now and then, until the router has let it go.
    Holds(&'a [u8]),
    /// Calls, greets, and sends the Ping that follows, with another ID each time, as soon as the one before is answered.
    Asks(&'a [u8]),
    /// Listens after a while, and gives its consent, which the file has, and its end.
    Listens(&'a [u8]),
}

impl<'a> Neighbour<'a> {
    /// The neighbour of this word, with these bytes.
    pub(crate) fn of(word: &str, bytes: &'a [u8]) -> Option<Self> {
        match word {
            "sends" => Some(Neighbour::Sends(bytes)),
            "stays" => Some(Neighbour::Stays(bytes)),
            "holds" => Some(Neighbour::Holds(bytes)),
            "asks" => Some(Neighbour::Asks(bytes)),
            "listens" => Some(Neighbour::Listens(bytes)),
            _ => None,
        }
    }

    /// Does what it does beside a router at this port, to its end. That it fails shows in what the router prints.
    pub(crate) fn act<R: Wait + Clock + Net<Listener = TcpListener, Stream = TcpStream>>(
        self,
        rt: &R,
        port: u16,
    ) -> io::Result<()> {
        let there = SocketAddr::from((Ipv4Addr::LOCALHOST, port));
        match self {
            Neighbour::Sends(bytes) => send(&mut call(rt, there)?, bytes, true),
            Neighbour::Stays(bytes) => send(&mut call(rt, there)?, bytes, false),
            Neighbour::Holds(bytes) => hold(rt, &mut call(rt, there)?, bytes),
            Neighbour::Asks(bytes) => ask(&mut call(rt, there)?, bytes),
            Neighbour::Listens(bytes) => listen(rt, there, bytes),
        }
    }
}

/// Calls a router until it listens.
fn call<R: Wait + Clock + Net<Listener = TcpListener, Stream = TcpStream>>(
    rt: &R,
    there: SocketAddr,
) -> io::Result<TcpStream> {
    for _ in 0..TIMES {
        if let Ok(found) = TcpStream::connect(rt, there) {
            return Ok(found);
        }
        thread::sleep(rt, Duration::from_millis(PAUSE));
    }
    TcpStream::connect(rt, there)
}

/// Reads to the end of what comes.
fn read_out(peer: &mut TcpStream) -> io::Result<()> {
    let mut room = [0u8; 4096];
    for _ in 0..u64::MAX {
        if peer.read(&mut room)? == 0 {
            break;
        }
    }
    Ok(())
}

/// Writes the bytes, and its end where it ends, and reads to the router's end.
fn send(router: &mut TcpStream, bytes: &[u8], ends: bool) -> io::Result<()> {
    router.write_all(bytes)?;
    if ends {
        router.shutdown(Shutdown::Write)?;
    }
    read_out(router)
}

/// Sends the bytes, reads to the router's end, and then writes a byte each turn, until a write fails.
fn hold<R: Clock>(rt: &R, router: &mut TcpStream, bytes: &[u8]) -> io::Result<()> {
    send(router, bytes, false)?;
    for _ in 0..TIMES {
        thread::sleep(rt, Duration::from_millis(TURN));
        router.write_all(b"\0")?;
    }
    Ok(())
}

/// Greets, and sends the Ping with one ID after another, each once the one before was answered.
fn ask(router: &mut TcpStream, bytes: &[u8]) -> io::Result<()> {
    let mut room = [0u8; PONG];
    let Some((request, ping)) = bytes.split_at_checked(REQUEST) else {
        return Ok(());
    };
    router.write_all(request)?;
    router.read_exact(&mut room[..CONSENT])?;
    let Some((_, rest)) = ping.split_first() else {
        return Ok(());
    };
    for time in 0..TIMES {
        router.write_all(&[(time % 251) as u8])?;
        router.write_all(rest)?;
        router.read_exact(&mut room)?;
    }
    read_out(router)
}

/// Listens at this address after a while, and lets one caller in.
fn listen<R: Wait + Clock + Net<Listener = TcpListener, Stream = TcpStream>>(
    rt: &R,
    here: SocketAddr,
    consent: &[u8],
) -> io::Result<()> {
    thread::sleep(rt, Duration::from_millis(LATE));
    let listener = rt.bind(here)?;
    let (mut router, _) = listener.accept()?;
    drop(listener);
    let mut request = [0u8; REQUEST];
    router.read_exact(&mut request)?;
    send(&mut router, consent, true)
}
