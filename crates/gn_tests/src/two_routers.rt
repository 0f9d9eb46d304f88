//! Two routers that a link joins, the first one's connection 2 with the second one's 1: a Query goes over it, its Query Hit comes
//! back, and a Push follows the Query. What the laws of paths suppose is found of their histories.

use crate::asks::{Ask, Packet, are_met, descriptor};
use gn_fixtures::OWN;
use gn_rules::{
    BadConfig, Config, ConnId, Event, FreshRouter, Historian, Reply, RouterCore, Step, Ticket,
};
use gn_search::PlainRouter;
use gn_table_router::TableRouter;
use gn_wire::{Descriptor, Guid, Key, Kind};
use gn_witness::{came_over, ends, routed_kind, sent_again, was_queued};
use std::alloc::Allocator;
use std::test::Fail;

/// A search for "x".
const QUERY: Packet = Packet {
    kind: Kind::Query,
    byte: 0xb1,
    ttl: 7,
    hops: 0,
    payload: b"\x00\x00x\x00",
};

/// No result, of servent f1.
const QUERY_HIT: Packet = Packet {
    kind: Kind::QueryHit,
    byte: 0xb1,
    ttl: 3,
    hops: 0,
    payload: b"\x00\xca\x18\x7f\x00\x00\x02\x1c\x00\x00\x00\xf1\xf1\xf1\xf1\xf1\xf1\xf1\xf1\xf1\xf1\xf1\xf1\xf1\xf1\xf1\xf1",
};

/// Servent f1 is asked to send file 0 to 127.0.0.1, port 6346.
const PUSH: Packet = Packet {
    kind: Kind::Push,
    byte: 0xb1,
    ttl: 3,
    hops: 0,
    payload: b"\xf1\xf1\xf1\xf1\xf1\xf1\xf1\xf1\xf1\xf1\xf1\xf1\xf1\xf1\xf1\xf1\x00\x00\x00\x00\x7f\x00\x00\x01\xca\x18",
};

/// How a router passes a descriptor on: the connection that brings it, its ticket, and the connection from which it is
/// taken.
type Way = (ConnId, Ticket, ConnId);

/// Whether an event is answered with a step.
fn is_made<A: Allocator + Copy, C: RouterCore<A>>(router: &mut C, event: Event<A>) -> bool {
    let refusal = router.apply(0, &event).err();
    refusal.is_none()
}

/// The reply to a take from the connection.
fn take<A: Allocator + Copy, C: RouterCore<A>>(
    router: &mut C,
    c: ConnId,
) -> Result<Reply<A>, Fail> {
    match router.apply(0, &Event::Take(c)) {
        Ok(receipt) => Ok(receipt.reply),
        Err(_) => Err(Fail::from("a step")),
    }
}

/// What a router passes on of a descriptor that is brought to it.
fn passed<A: Allocator + Copy, C: RouterCore<A>>(
    router: &mut C,
    way: Way,
    packet: Descriptor<A>,
) -> Result<Descriptor<A>, Fail> {
    let (from, ticket, to) = way;
    let is_admitted = is_made(router, Event::Admit(from, packet));
    if !is_made(router, Event::Route(ticket)) || !is_admitted {
        return Err(Fail::from("a descriptor that is passed on"));
    }
    match take(router, to)? {
        Reply::Taken(packet) => Ok(packet),
        _ => Err(Fail::from("a packet")),
    }
}

/// The Hops with which a descriptor leaves the second of two routers that pass it on.
fn hops_over<A: Allocator + Copy, C: RouterCore<A>, D: RouterCore<A>>(
    alloc: A,
    routers: (&mut C, &mut D),
    way: Way,
    packet: &Packet,
) -> Result<u8, Fail> {
    let between = passed(routers.0, way, descriptor(alloc, packet)?)?;
    let last = passed(routers.1, way, between)?;
    Ok(last.hops())
}

/// A neighbour of the first router asks, one of the second answers, and whoever asked sends a Push: the Hops of the answer and of
/// the Push where they arrive.
fn cross<A: Allocator + Copy, C: RouterCore<A>, D: RouterCore<A>>(
    alloc: A,
    first: &mut C,
    second: &mut D,
) -> Result<(u8, u8), Fail> {
    hops_over(alloc, (first, second), (1, 0, 2), &QUERY)?;
    let answer = hops_over(alloc, (second, first), (2, 1, 1), &QUERY_HIT)?;
    let push = hops_over(alloc, (first, second), (1, 2, 2), &PUSH)?;
    Ok((answer, push))
}

/// A router of this configuration, with two connections.
fn connected<A: Allocator + Copy, C: FreshRouter<A> + Drop>(
    alloc: A,
    config: &Config,
) -> Result<C, Fail> {
    let mut router = C::make(alloc, config)?;
    let is_first_made = is_made(&mut router, Event::Connect);
    if is_made(&mut router, Event::Connect) && is_first_made {
        Ok(router)
    } else {
        drop(router);
        Err(Fail::from("two connections"))
    }
}

/// What the fourth, the seventh and the tenth step route.
fn routes<A: Allocator>(config: &Config, steps: &[Step<A>]) -> [Option<Kind>; 3] {
    if steps.len() < 10 {
        return [None; 3];
    }
    [
        routed_kind(config, &steps[..3], &steps[3]),
        routed_kind(config, &steps[..6], &steps[6]),
        routed_kind(config, &steps[..9], &steps[9]),
    ]
}

/// Whether the last step took a packet from connection 2 that had been queued to it.
fn has_waited<A: Allocator>(config: &Config, steps: &[Step<A>]) -> bool {
    match steps.last() {
        Some(step) => match &step.reply {
            Reply::Taken(packet) => was_queued(config, steps, 2, packet),
            _ => false,
        },
        None => false,
    }
}

/// What is found of two histories, by its name, where it isn't as the laws of paths suppose.
fn first_wrong<A: Allocator>(
    config: &Config,
    first: &[Step<A>],
    second: &[Step<A>],
) -> Option<&'static str> {
    let kinds = [Some(Kind::Query), Some(Kind::QueryHit), Some(Kind::Push)];
    if !came_over(config, first, 2, second, 1) {
        return Some("the link, over which the Query Hit came back");
    }
    if came_over(config, first, 1, second, 1) {
        return Some("two connections that none joins");
    }
    if !ends(config, first, 2, second, 1) {
        return Some("the flood of the Query");
    }
    if routes(config, first) != kinds {
        return Some("the first router's routes");
    }
    if routes(config, second) != kinds {
        return Some("the second router's routes");
    }
    if !has_waited(config, first) {
        return Some("the Push that was taken from the link");
    }
    None
}

/// A configuration of a router that remembers so many descriptors.
fn remembering(seen: u32) -> Result<Config, BadConfig> {
    Config::new(4, seen, 4, 8, 8, 100, 0, 0, OWN)
}

/// The same of the histories of a router with tables and one that searches its history. The Hops of the answer and of
/// the Push.
fn crossed<A: Allocator + Copy>(
    alloc: A,
    config: &Config,
) -> Result<((u8, u8), Option<&'static str>), Fail> {
    let mut first = connected::<A, TableRouter<A>>(alloc, config)?;
    let mut second = connected::<A, PlainRouter<A>>(alloc, config)?;
    let hops = cross(alloc, &mut first, &mut second);
    let first = first.into_history();
    let second = second.into_history();
    let wrong = first_wrong(config, first.as_slice(), second.as_slice());
    drop(first);
    drop(second);
    Ok((hops?, wrong))
}

/// Fails where the Hops are others, or something isn't as the laws of paths suppose.
fn answer_crosses<A: Allocator + Copy>(alloc: A) -> Result<(), Fail> {
    let (hops, wrong) = crossed(alloc, &remembering(16)?)?;
    match wrong {
        Some(name) => Err(Fail::from(name)),
        None if hops == (2, 2) => Ok(()),
        None => Err(Fail::from("the Hops")),
    }
}

#[test]
fn an_answer_crosses_a_link_back(rt: HostRuntime) -> Result<(), Fail> {
    answer_crosses(rt.alloc())
}

/// Three Pings, the first of which comes again.
static ASKS: [Ask; 8] = [
    Ask::Connect,
    Ask::Connect,
    Ask::Ping(1, 0xa1, 7, 0),
    Ask::Route(0),
    Ask::Ping(1, 0xa2, 7, 0),
    Ask::Route(1),
    Ask::Ping(1, 0xa1, 7, 0),
    Ask::Route(2),
];

/// The key of a Ping of this byte.
fn key(byte: u8) -> Key {
    Key {
        kind: Kind::Ping,
        id: Guid([byte; 16]),
    }
}

/// Whether the first Ping's key and the second's are sent again by the eighth step.
fn are_sent_again<A: Allocator>(config: &Config, steps: &[Step<A>]) -> Option<(bool, bool)> {
    if steps.len() < 8 {
        return None;
    }
    let first = sent_again(config, &steps[..7], &steps[7], &key(0xa1));
    let second = sent_again(config, &steps[..7], &steps[7], &key(0xa2));
    Some((first, second))
}

/// Fails where the first Ping alone isn't sent again by a router that remembers one descriptor.
fn first_is_sent_again<A: Allocator + Copy>(alloc: A) -> Result<(), Fail> {
    let config = remembering(1)?;
    let mut router = PlainRouter::<A>::make(alloc, &config)?;
    let are_met = are_met(alloc, &mut router, &ASKS);
    let steps = router.into_history();
    let again = are_sent_again(&config, steps.as_slice());
    drop(steps);
    if are_met? && again == Some((true, false)) {
        Ok(())
    } else {
        Err(Fail::from("the first Ping alone"))
    }
}

#[test]
fn a_ping_is_sent_again(rt: HostRuntime) -> Result<(), Fail> {
    first_is_sent_again(rt.alloc())
}
