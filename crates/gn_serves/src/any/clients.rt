//! What callers and peers of a serve do that any number may call.

use super::Counter;
use crate::loopback::Listeners;
use crate::loopback::peers::{hears, sends, sent, takes};
use gn_fixtures::PING;
use gn_service::Stop;
use gn_shake::{consent, request};
use std::io::Read;
use std::net::{Net, SocketAddr, TcpListener, TcpStream};
use std::sync::atomic::Ordering;
use std::thread;
use std::time::{Clock, Duration};

/// Who comes to a serve.
#[derive(Clone, Copy)]
pub(crate) enum Clients {
    /// Clients that come one after another and are answered.
    Come,
    /// A peer that is called, goes, and is called again.
    AreCalled,
    /// A neighbour that goes without a word, and is found by a Ping.
    Go,
}

/// How many clients come, one after another.
pub(super) const CLIENTS: u32 = 300;

/// Sends the Ping whose ID repeats this byte.
fn pings(client: &mut TcpStream, byte: u8) -> bool {
    sends(client, &[byte; 16]) && sends(client, &PING[16..])
}

/// Waits for what comes next, which isn't read. Whether something does.
fn has_more(client: &mut TcpStream) -> bool {
    matches!(client.peek(&mut [0u8; 1]), Ok(1))
}

/// Whether the client of this number, which has greeted, is let in, and its Ping is answered, or both its Pings where that is odd. Its last
/// Pong is there then, and not read.
fn is_answered(client: &mut TcpStream, number: u32) -> bool {
    let (byte, is_odd) = ((number % 256) as u8, number % 2 == 1);
    pings(client, byte)
        && takes(client, 13)
        && (!is_odd || pings(client, byte ^ 0x80) && takes(client, 37))
        && has_more(client)
}

/// Whether that client comes and is answered. It goes with that unread, which resets its connection.
fn comes_and_goes<N: Net<Listener = TcpListener, Stream = TcpStream>>(
    net: &N,
    at: SocketAddr,
    number: u32,
) -> bool {
    match sent(net, at, b"") {
        Ok(mut client) => is_answered(&mut client, number),
        Err(_) => false,
    }
}

/// Whether each of the clients does so. The run is stopped then.
fn all_come<N: Net<Listener = TcpListener, Stream = TcpStream>>(
    net: &N,
    at: SocketAddr,
    stop: &Stop,
) -> bool {
    let mut are_answered = true;
    for number in 0..CLIENTS {
        are_answered &= comes_and_goes(net, at, number);
    }
    stop.set();
    are_answered
}

/// How often a peer is called.
const TURNS: u8 = 2;

/// Lets the run in that has called, sends the Ping whose ID repeats this byte, and waits for what comes. Whether something does.
fn is_pinged(peer: &mut TcpStream, byte: u8) -> bool {
    hears(peer, request()) && sends(peer, consent()) && pings(peer, byte) && has_more(peer)
}

/// Whether a peer at this listener is called, and gets the Pong of that Ping. It goes with that unread, which resets its connection.
fn is_called(listener: &TcpListener, byte: u8) -> bool {
    match listener.accept() {
        Ok((mut peer, _)) => is_pinged(&mut peer, byte),
        Err(_) => false,
    }
}

/// Whether a peer is called again each time that it has gone. The run is stopped then.
fn is_called_again(listener: &TcpListener, stop: &Stop) -> bool {
    let mut is_called_each_time = true;
    for turn in 0..TURNS {
        is_called_each_time &= is_called(listener, turn);
    }
    stop.set();
    is_called_each_time
}

/// The ID of the first Ping that a serve sends.
pub(super) const FIRST: [u8; 16] = [7; 16];

/// Whether a neighbour hears the consent, and a Ping with TTL 1, no hops and no payload. Its ID is the first one but for its number, which
/// has two bytes at most.
fn is_ping(heard: &[u8; 36]) -> bool {
    heard.starts_with(consent())
        && heard[13..].starts_with(&FIRST[..14])
        && heard.ends_with(&[0, 1, 0, 0, 0, 0, 0])
}

/// Whether a neighbour hears those next.
fn hears_ping(client: &mut TcpStream) -> bool {
    let mut heard = [0u8; 36];
    client.read_exact(&mut heard).is_ok() && is_ping(&heard)
}

/// A neighbour is let in, hears a Ping, and goes: it closes its socket, of which it has read all. Whether all was as it should be.
fn hears_and_goes<N: Net<Listener = TcpListener, Stream = TcpStream>>(
    net: &N,
    at: SocketAddr,
) -> bool {
    match sent(net, at, &[]) {
        Ok(mut client) => hears_ping(&mut client),
        Err(_) => false,
    }
}

/// Whether a link has ended within some seconds.
fn is_found<C: Clock>(clock: &C, counter: &Counter) -> bool {
    for _ in 0..1_000 {
        if counter.ended.load(Ordering::SeqCst) > 0 {
            return true;
        }
        thread::sleep(clock, Duration::from_millis(10));
    }
    false
}

/// Whether a neighbour that has gone is found while the run goes on, which is stopped then.
fn is_found_by_then<N: Net<Listener = TcpListener, Stream = TcpStream> + Clock>(
    net: &N,
    at: SocketAddr,
    counter: &Counter,
    stop: &Stop,
) -> bool {
    let has_come = hears_and_goes(net, at);
    let is_found = is_found(net, counter);
    stop.set();
    has_come && is_found
}

/// Whether all goes as it should for these, after which the run is stopped.
pub(super) fn play<N: Net<Listener = TcpListener, Stream = TcpStream> + Clock>(
    net: &N,
    clients: Clients,
    at: SocketAddr,
    listeners: &Listeners,
    counter: &Counter,
    stop: &Stop,
) -> bool {
    match clients {
        Clients::Come => all_come(net, at, stop),
        Clients::AreCalled => is_called_again(&listeners.theirs, stop),
        Clients::Go => is_found_by_then(net, at, counter, stop),
    }
}
