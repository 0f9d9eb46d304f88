//! What tests ask of a router, as rows can say it.

use bytes::Bytes;
use gn_fixtures::ping;
use gn_rules::{ConnId, Event, RouterCore, Ticket};
use gn_wire::{Descriptor, Guid, Kind};
use std::alloc::Allocator;
use std::test::Fail;

/// A descriptor whose ID repeats one byte.
pub(crate) struct Packet {
    pub kind: Kind,
    pub byte: u8,
    pub ttl: u8,
    pub hops: u8,
    pub payload: &'static [u8],
}

/// An event.
pub(crate) enum Ask {
    Connect,
    /// Admits a Ping of this byte, TTL and Hops.
    Ping(ConnId, u8, u8, u8),
    Admit(ConnId, Packet),
    Close(ConnId),
    Take(ConnId),
    Route(Ticket),
}

/// The descriptor that a row says.
pub(crate) fn descriptor<A: Allocator + Copy>(
    alloc: A,
    packet: &Packet,
) -> Result<Descriptor<A>, Fail> {
    let id = Guid([packet.byte; 16]);
    let payload = Bytes::copy_from_slice(alloc, packet.payload)?;
    match Descriptor::new(id, packet.kind, packet.ttl, packet.hops, payload) {
        Ok(descriptor) => Ok(descriptor),
        Err(_) => Err(Fail::from("a descriptor")),
    }
}

/// The event that a row says.
pub(crate) fn event<A: Allocator + Copy>(alloc: A, ask: &Ask) -> Result<Event<A>, Fail> {
    match ask {
        Ask::Connect => Ok(Event::Connect),
        Ask::Ping(c, byte, ttl, hops) => Ok(Event::Admit(*c, ping(*byte, *ttl, *hops)?)),
        Ask::Admit(c, packet) => Ok(Event::Admit(*c, descriptor(alloc, packet)?)),
        Ask::Close(c) => Ok(Event::Close(*c)),
        Ask::Take(c) => Ok(Event::Take(*c)),
        Ask::Route(ticket) => Ok(Event::Route(*ticket)),
    }
}

/// Whether the router answers what is asked with a step.
pub(crate) fn is_met<A: Allocator + Copy, C: RouterCore<A>>(
    alloc: A,
    core: &mut C,
    ask: &Ask,
) -> Result<bool, Fail> {
    let event = event(alloc, ask)?;
    let refusal = core.apply(0, &event).err();
    Ok(refusal.is_none())
}

/// Whether it does so with each of these.
pub(crate) fn are_met<A: Allocator + Copy, C: RouterCore<A>>(
    alloc: A,
    core: &mut C,
    asks: &[Ask],
) -> Result<bool, Fail> {
    let mut are_met = true;
    for ask in asks {
        are_met = is_met(alloc, core, ask)? && are_met;
    }
    Ok(are_met)
}
