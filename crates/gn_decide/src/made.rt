//! The packets that a router makes of a descriptor: made, or only compared.

ghost use Rattle.std.specs.Prelude.{◌≡◌, IfOk};
ghost use Rattle.gn_wire.specs.Keys.{is_same_packet};
ghost use Rattle.gn_rules.specs.Sending as sending;

use gn_payload::{Pong, encode_pong};
use gn_rules::{Own, own_pong};
use gn_wire::{Descriptor, Header, Key, Kind};
use std::alloc::{AllocError, Allocator};
use std::marker::Model;

/// A descriptor that isn't expired, with the header under which it is forwarded.
#[derive(Drop)]
pub struct Forwarded<'a, A: Allocator> {
    packet: &'a Descriptor<A>,
    header: Header,
}

impl<'a, A: Allocator> Model for Forwarded<'a, A> {
    ghost use Rattle.std.specs.Prelude.{◌≡◌};
    ghost use Rattle.gn_wire.specs.Packet.{Packet};
    ghost use Rattle.gn_wire.specs.Encoding.{header_of};

    ghost Value = { Packet };

    ghost view = { λ f. record f.packet.now { ttl = f.header.ttl; hops = f.header.hops } };

    ghost invariant = { λ f. f.header ≡ header_of (record f.packet.now { ttl = f.header.ttl; hops = f.header.hops }) };
}

impl<'a, A: Allocator> Forwarded<'a, A> {
    ghost use Rattle.std.specs.Prelude.{MatchOption, false, true};
    ghost use Rattle.gn_wire.specs.Packet as wire;

    /// The forward of a descriptor whose life has this limit. `None` where it is expired.
    pub fn of(life: u8, packet: &'a Descriptor<A>) -> Option<Self>
        ensures { MatchOption result (wire.is_expired life packet.now ≡ true)
            (λ f. (wire.is_expired life packet.now ≡ false) × (f ≡ wire.forward_of life packet.now)) }
    {
        let header = packet.forwarded(life)?;
        Some(Forwarded { packet, header })
    }

    /// Whether the packet is the other.
    #[tactic(auto, using(gn_wire::proofs::KeyLemmas::same_key))]
    fn is(&self, other: &Descriptor<A>) -> bool
        ensures { result ≡ is_same_packet self.now other.now }
    {
        self.packet.key() == other.key()
            && self.header.ttl == other.ttl()
            && self.header.hops == other.hops()
            && self.packet.payload().as_slice() == other.payload().as_slice()
    }

    /// The packet. An `Err` is out of memory.
    fn make(&self) -> Result<Descriptor<A>, AllocError>
        ensures { IfOk result (λ packet. packet ≡ self.now) }
    {
        Ok(Descriptor::whole(self.header, self.packet.payload().clone()?))
    }
}

/// A packet that a router makes of a descriptor.
#[derive(Drop)]
pub enum Made<'a, A: Allocator> {
    /// The descriptor itself.
    Itself(&'a Descriptor<A>),
    /// Its forward.
    Forward(Forwarded<'a, A>),
    /// The own servent's Pong to it.
    OwnPong(&'a Own, &'a Descriptor<A>),
}

/// Whether the other is the own servent's Pong to the Ping.
#[tactic(auto, using(gn_wire::proofs::KeyLemmas::same_key))]
fn is_own_pong<A: Allocator>(own: &Own, ping: &Descriptor<A>, other: &Descriptor<A>) -> bool
    ensures { result ≡ is_same_packet (sending.own_pong own.now ping.now) other.now }
{
    let key = Key {
        kind: Kind::Pong,
        id: ping.id(),
    };
    let pong = Pong {
        port: own.port,
        ip: own.ip,
        files: own.files,
        kbytes: own.kbytes,
    };
    key == other.key()
        && ping.hops().saturating_add(1) == other.ttl()
        && other.hops() == 0
        && encode_pong(&pong).as_slice() == other.payload().as_slice()
}

impl<'a, A: Allocator> Made<'a, A> {
    ghost use Rattle.gn_decide.specs.Made.{made_packet};

    /// Whether the packet is the other. Takes no memory.
    pub fn is(&self, other: &Descriptor<A>) -> bool
        ensures { result ≡ is_same_packet (made_packet self.now) other.now }
    {
        match self {
            Made::Itself(packet) => packet.is_same(other),
            Made::Forward(forward) => forward.is(other),
            Made::OwnPong(own, ping) => is_own_pong(own, ping, other),
        }
    }
}

impl<'a, A: Allocator + Copy> Made<'a, A> {
    ghost use Rattle.gn_decide.specs.Made.{made_packet};

    /// The packet. An `Err` is out of memory.
    pub fn make(&self, alloc: A) -> Result<Descriptor<A>, AllocError>
        ensures { IfOk result (λ packet. packet ≡ made_packet self.now) }
    {
        match self {
            Made::Itself(packet) => packet.copy(),
            Made::Forward(forward) => forward.make(),
            Made::OwnPong(own, ping) => own_pong(alloc, own, ping),
        }
    }
}
