//! The peers that `--peer` names.

ghost use Rattle.std.specs.Prelude.{◌≡◌, ◌==◌, ◌||◌, ◌≤◌, [], length, map, IfOk, option_and_then};
ghost use Rattle.std.specs.List.{slice_split};
ghost use Rattle.clap.specs.Words.{found_of, rows_of};
ghost use Rattle.gn_words.specs.ConfigTexts.{peer_text};
ghost use Rattle.gn_words.specs.Options.{IsReadAs, is_near, peer_at, peer_of, peer_of_parts, peers_after, peers_in, peers_of};

use crate::site::is_near;
use crate::unread::Unread;
use crate::value::Value;
use clap::ArgMatches;
use gn_text::{ip, number_u16, push_ip, push_number};
use std::alloc::{AllocError, Global};

/// A peer that is called.
#[derive(Clone, Copy)]
pub struct Peer {
    /// The first byte is the first that is written between dots. It is 127, unless the router calls peers on other machines.
    pub ip: [u8; 4],
    pub port: u16,
}

impl Value for Peer {
    ghost text = { peer_text };

    fn push(&self, out: &mut Vec<u8>) -> Result<(), AllocError> {
        push_ip(out, self.ip)?;
        out.push(b':')?;
        push_number(out, u32::from(self.port))
    }
}

/// The most peers that are called.
const MOST_PEERS: usize = 64;

/// What `--peer` takes, where no other machine is called.
const NEAR: &str =
    "--peer takes IP:PORT, an address of this machine, 127.0.0.1 or another that begins with 127, and \
     a port of 1 to 65535";

/// What it takes otherwise.
const FAR: &str = "--peer takes IP:PORT, an IPv4 address and a port of 1 to 65535";

/// Whether a peer at this address may be called: where no other machine is, one of this machine.
fn may_be_called(far: bool, ip: [u8; 4]) -> bool
    ensures { result ≡ (far || is_near ip) }
{
    far || is_near(ip)
}

/// The peer at an address, where that may be called, and the text says its port.
fn peer_at(far: bool, ip: Option<[u8; 4]>, port: &[u8]) -> Option<Peer>
    ensures { result ≡ option_and_then (peer_at far port.now) ip }
{
    let ip = ip?;
    let port = number_u16(port)?;
    if may_be_called(far, ip) && port >= 1 {
        Some(Peer { ip, port })
    } else {
        None
    }
}

/// The texts between the colons of a text.
fn parts(alloc: Global, text: &[u8]) -> Result<Vec<&[u8]>, AllocError>
    ensures { IfOk result (λ v. map (λ x. x.now) v.items ≡ slice_split (λ b. b == 58) text.now) }
{
    text.split(|b| *b == b':').collect(alloc)
}

/// The peer that two texts say, its address and its port.
fn peer_of_parts(alloc: Global, far: bool, parts: &[&[u8]]) -> Result<Option<Peer>, AllocError>
    ensures { IfOk result (λ found. found ≡ peer_of_parts far (map (λ x. x.now) parts.now)) }
{
    match parts {
        [address, port] => Ok(peer_at(far, ip(alloc, address)?, port)),
        _ => Ok(None),
    }
}

/// The peer that a text says, its address and its port with a colon between them.
fn peer_of(alloc: Global, far: bool, text: &str) -> Result<Option<Peer>, AllocError>
    ensures { IfOk result (λ found. found ≡ peer_of far text.now) }
{
    peer_of_parts(alloc, far, &parts(alloc, text.as_bytes())?)
}

/// What is said of a text that says no peer that may be called.
fn mistake(far: bool) -> &'static str {
    if far { FAR } else { NEAR }
}

/// The peers that texts say.
fn each_peer(alloc: Global, far: bool, texts: &[&str]) -> Result<Vec<Peer>, Unread>
    ensures read { IsReadAs (λ v. v.items) (peers_after far [] (map (λ s. s.now) texts.now)) result }
    ensures many { IfOk result (λ peers. length peers.items ≡ length texts.now) }
{
    let mut peers = Vec::new(alloc);
    for text in texts {
        let Some(peer) = peer_of(alloc, far, text)? else {
            return Err(Unread::Mistake(mistake(far)));
        };
        peers.push(peer)?;
    }
    Ok(peers)
}

/// The peers that texts say, which are at most 64.
fn peers_in(alloc: Global, far: bool, texts: &[&str]) -> Result<Vec<Peer>, Unread>
    ensures read { IsReadAs (λ v. v.items) (peers_in far (map (λ s. s.now) texts.now)) result }
    ensures few { IfOk result (λ peers. length peers.items ≤ 64) }
{
    if texts.len() > MOST_PEERS {
        return Err(Unread::Mistake("--peer is taken at most 64 times"));
    }
    each_peer(alloc, far, texts)
}

/// The peers that `--peer` asks for, at most 64; on other machines, where these may be called.
pub fn peers_of(alloc: Global, far: bool, options: &ArgMatches<'_>) -> Result<Vec<Peer>, Unread>
    ensures read { IsReadAs (λ v. v.items) (peers_of far (rows_of (found_of options.now))) result }
    ensures few { IfOk result (λ peers. length peers.items ≤ 64) }
{
    match options.get_raw("peer") {
        Some(texts) => peers_in(alloc, far, texts),
        None => Ok(Vec::new(alloc)),
    }
}
