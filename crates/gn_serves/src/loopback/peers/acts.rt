//! What a peer does, act by act: tables, and one loop that plays them.

use gn_fixtures::{OWN_PONG, PING};
use gn_shake::{consent, request};
use std::io::{Read, Write};
use std::net::{Shutdown, TcpStream};

/// What is said over a link.
#[derive(Clone, Copy)]
pub(super) enum Text {
    Request,
    Consent,
    Ping,
    /// The first ten bytes of the Ping.
    Cut,
    /// The Ping forwarded: TTL 6 and Hops 1.
    Forwarded,
    Pong,
}

/// Its bytes.
fn bytes_of(text: Text) -> &'static [u8] {
    match text {
        Text::Request => request(),
        Text::Consent => consent(),
        Text::Ping => PING,
        Text::Cut => b"\xa1\xa1\xa1\xa1\xa1\xa1\xa1\xa1\xa1\xa1",
        Text::Forwarded => {
            b"\xa1\xa1\xa1\xa1\xa1\xa1\xa1\xa1\xa1\xa1\xa1\xa1\xa1\xa1\xa1\xa1\x00\x06\x01\x00\x00\x00\x00"
        }
        Text::Pong => OWN_PONG,
    }
}

/// What a peer does next.
#[derive(Clone, Copy)]
pub(super) enum Act {
    /// It sends this.
    Send(Text),
    /// It sends this, a byte at a time.
    Drip(Text),
    /// It hears exactly this.
    Hear(Text),
    /// It hears that no more bytes come.
    HearTheEnd,
    /// It sends no more.
    Finish,
    /// It reads no more.
    Deafen,
}

/// Is let in, sends a Ping and hears the Pong.
pub(super) const ANSWERED: &[Act] = &[
    Act::Hear(Text::Consent),
    Act::Send(Text::Ping),
    Act::Hear(Text::Pong),
];

/// Is called, and consents: it sends a Ping, hears the Pong and sends no more, and then hears the end.
pub(super) const CALLED: &[Act] = &[
    Act::Hear(Text::Request),
    Act::Send(Text::Consent),
    Act::Send(Text::Ping),
    Act::Finish,
    Act::Hear(Text::Pong),
    Act::HearTheEnd,
];

/// Sends a Ping a byte at a time, and hears its answer and the end.
pub(super) const DRIPS: &[Act] = &[
    Act::Drip(Text::Ping),
    Act::Finish,
    Act::Hear(Text::Consent),
    Act::Hear(Text::Pong),
    Act::HearTheEnd,
];

/// Hears the Ping of another, sends it too and no more.
pub(super) const ECHOES: &[Act] = &[
    Act::Hear(Text::Forwarded),
    Act::Send(Text::Ping),
    Act::Finish,
];

/// Sends no more, and hears the end.
pub(super) const ENDS: &[Act] = &[Act::Finish, Act::HearTheEnd];

/// Is let in, and leaves.
pub(super) const LEAVES: &[Act] = &[Act::Hear(Text::Consent), Act::Finish, Act::HearTheEnd];

/// Is let in.
pub(super) const LET_IN: &[Act] = &[Act::Hear(Text::Consent)];

/// Sends a part of a Ping.
pub(super) const RESETS: &[Act] = &[Act::Send(Text::Cut)];

/// Is let in, shuts its reading half, and sends a Ping and its end.
pub(super) const SHUTS_READING: &[Act] = &[
    Act::Hear(Text::Consent),
    Act::Deafen,
    Act::Send(Text::Ping),
    Act::Finish,
];

/// Whether the system takes these bytes.
pub(crate) fn sends(peer: &mut TcpStream, bytes: &[u8]) -> bool {
    peer.write_all(bytes).is_ok()
}

/// Whether the system takes these bytes, one at a time.
fn drips(peer: &mut TcpStream, bytes: &[u8]) -> bool {
    for byte in bytes {
        if !sends(peer, &[*byte]) {
            return false;
        }
    }
    true
}

/// Whether exactly these bytes come next, at most 64.
pub(crate) fn hears(peer: &mut TcpStream, bytes: &[u8]) -> bool {
    let mut heard = [0u8; 64];
    let n = bytes.len().min(64);
    peer.read_exact(&mut heard[..n]).is_ok() && &heard[..n] == bytes
}

/// Whether no more bytes come.
pub(super) fn hears_the_end(peer: &mut TcpStream) -> bool {
    matches!(peer.read(&mut [0u8; 1]), Ok(0))
}

/// Whether a peer does this.
fn does(peer: &mut TcpStream, act: Act) -> bool {
    match act {
        Act::Send(text) => sends(peer, bytes_of(text)),
        Act::Drip(text) => drips(peer, bytes_of(text)),
        Act::Hear(text) => hears(peer, bytes_of(text)),
        Act::HearTheEnd => hears_the_end(peer),
        Act::Finish => peer.shutdown(Shutdown::Write).is_ok(),
        Act::Deafen => peer.shutdown(Shutdown::Read).is_ok(),
    }
}

/// Whether a peer does all of these, one after the other.
pub(super) fn plays(peer: &mut TcpStream, acts: &[Act]) -> bool {
    for act in acts {
        if !does(peer, *act) {
            return false;
        }
    }
    true
}
