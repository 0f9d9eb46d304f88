//! The own Pong to a Ping, and what the local servent may send.

ghost use Rattle.std.specs.Prelude.{◌≡◌, IfOk};
ghost use Rattle.gn_rules.specs.Answer as answer;
ghost use Rattle.gn_rules.specs.Sending as sending;

use crate::config::Own;
use crate::routing::Routing;
use bytes::Bytes;
use gn_payload::{Pong, Verdict, encode_pong, verdict_on};
use gn_wire::{Descriptor, Kind};
use std::alloc::{AllocError, Allocator};

/// The router's own Pong to a Ping: its ID, TTL one more than its Hops and at most 255, Hops 0, and the own servent's place and files
/// (Gnutella v0.4, "Pong"). An `Err` is out of memory.
pub fn own_pong<A: Allocator + Copy>(
    alloc: A,
    own: &Own,
    ping: &Descriptor<A>,
) -> Result<Descriptor<A>, AllocError>
    ensures { IfOk result (λ d. d ≡ sending.own_pong own.now ping.now) }
{
    let pong = Pong {
        port: own.port,
        ip: own.ip,
        files: own.files,
        kbytes: own.kbytes,
    };
    let ttl = ping.hops().saturating_add(1);
    match Descriptor::new(
        ping.id(),
        Kind::Pong,
        ttl,
        0,
        Bytes::copy_from_slice(alloc, &encode_pong(&pong))?,
    ) {
        Ok(pong) => Ok(pong),
        Err(_) => unreachable!(),
    }
}

/// Whether the local servent may send a descriptor: a sound Ping or Query with some TTL, which the limit on its life doesn't
/// cut, and no Hops. A limit of 0 is none.
pub fn may_originate<A: Allocator>(life: u8, packet: &Descriptor<A>) -> bool
    ensures { result ≡ answer.may_originate life packet.now }
{
    matches!(Routing::of(packet.kind()), Routing::Floods)
        && packet.ttl() != 0
        && packet.hops() == 0
        && packet.life_left(life) == packet.ttl()
        && matches!(verdict_on(packet), Verdict::Sound)
}
