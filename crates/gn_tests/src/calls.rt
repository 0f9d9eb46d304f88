//! What only calls can ask of a router.

use crate::asks::{Ask, Packet, are_met, descriptor, is_met};
use gn_fixtures::{OWN, ping, usual};
use gn_payload::Checked;
use gn_rules::{Config, Counter, Event, FreshRouter, Historian, Refusal, RouterCore};
use gn_search::PlainRouter;
use gn_table_router::TableRouter;
use gn_wire::{Descriptor, Kind};
use std::alloc::Allocator;
use std::test::Fail;

/// A Pong to a request that no test sends.
const PONG: Packet = Packet {
    kind: Kind::Pong,
    byte: 0xd1,
    ttl: 5,
    hops: 0,
    payload: &[1; 14],
};

/// Whether the first ticket isn't routed with this Ping, as it is another than was admitted.
fn is_strange<A: Allocator + Copy, C: RouterCore<A>>(core: &mut C, packet: Descriptor<A>) -> bool {
    let checked = Checked::new(packet);
    core.route(0, 0, &checked).err() == Some(Refusal::Strange)
}

/// Whether this packet isn't originated.
fn is_bad_origin<A: Allocator + Copy, C: RouterCore<A>>(
    core: &mut C,
    packet: Descriptor<A>,
) -> bool {
    let event = Event::Originate(packet);
    core.apply(0, &event).err() == Some(Refusal::BadOrigin)
}

/// Whether after an admitted Ping a router routes no other under its ticket, be the ID another or the TTL, and
/// originates neither a Pong nor a Ping that has made a hop.
fn are_refused<A: Allocator + Copy, C: RouterCore<A>>(
    alloc: A,
    core: &mut C,
) -> Result<bool, Fail> {
    let are_met = are_met(alloc, core, &[Ask::Connect, Ask::Ping(1, 0xa1, 7, 0)])?;
    let other_id = is_strange(core, ping(0xa2, 7, 0)?);
    let other_ttl = is_strange(core, ping(0xa1, 6, 0)?);
    let pong = is_bad_origin(core, descriptor(alloc, &PONG)?);
    let late = is_bad_origin(core, ping(0xd1, 5, 1)?);
    Ok(are_met && other_id && other_ttl && pong && late)
}

/// Fails with its name where a router doesn't refuse those after its first two steps, or where they leave any.
fn refuses<A: Allocator + Copy, C: Historian<A> + Drop>(
    alloc: A,
    name: &'static str,
) -> Result<(), Fail> {
    let mut core = C::make(alloc, &usual(100)?)?;
    let are_refused = are_refused(alloc, &mut core);
    let steps = core.history().len();
    drop(core);
    if are_refused? && steps == 2 {
        Ok(())
    } else {
        Err(Fail::from(name))
    }
}

/// The same of the router with tables, and of the one that searches its history. They are named for any allocator,
/// since one over Global is dear to prove.
fn both_refuse<A: Allocator + Copy>(alloc: A) -> Result<(), Fail> {
    refuses::<A, TableRouter<A>>(alloc, "tables")?;
    refuses::<A, PlainRouter<A>>(alloc, "history")
}

#[test]
fn refusals_by_call(rt: HostRuntime) -> Result<(), Fail> {
    both_refuse(rt.alloc())
}

/// Events, and what is in flight of the first connection and of the second after each.
static ASKS: [(Ask, (u32, u32)); 10] = [
    (Ask::Connect, (0, 0)),
    (Ask::Connect, (0, 0)),
    (Ask::Ping(1, 0xa1, 7, 0), (1, 0)),
    (Ask::Ping(2, 0xa2, 7, 0), (1, 1)),
    (Ask::Ping(1, 0xa3, 7, 0), (2, 1)),
    (Ask::Ping(1, 0xa4, 7, 0), (2, 1)),
    (Ask::Close(1), (2, 1)),
    (Ask::Route(0), (1, 1)),
    (Ask::Route(1), (1, 0)),
    (Ask::Route(2), (0, 0)),
];

/// Whether the router makes each of those events, and has so much in flight then.
fn are_counted<A: Allocator + Copy, C: RouterCore<A>>(
    alloc: A,
    core: &mut C,
) -> Result<bool, Fail> {
    let mut are_counted = true;
    for (ask, counts) in &ASKS {
        let is_met = is_met(alloc, core, ask)?;
        let found = (core.flights_of(1), core.flights_of(2));
        are_counted = are_counted && is_met && found == *counts;
    }
    Ok(are_counted)
}

/// Fails with its name where a router doesn't count what is in flight of a connection after it closes too, or counts
/// another's.
fn counts_flights<A: Allocator + Copy, C: FreshRouter<A> + Drop>(
    alloc: A,
    name: &'static str,
) -> Result<(), Fail> {
    let config = Config::new(4, 8, 4, 8, 8, 100, 0, 2, OWN)?;
    let mut core = C::make(alloc, &config)?;
    let are_counted = are_counted(alloc, &mut core);
    let (crowded, others) = (core.stats().get(Counter::Crowded), core.flights_of(9));
    drop(core);
    if are_counted? && crowded == 1 && others == 0 {
        Ok(())
    } else {
        Err(Fail::from(name))
    }
}

/// The same of each router.
fn both_count<A: Allocator + Copy>(alloc: A) -> Result<(), Fail> {
    counts_flights::<A, TableRouter<A>>(alloc, "tables")?;
    counts_flights::<A, PlainRouter<A>>(alloc, "history")
}

#[test]
fn flights_of_each_connection(rt: HostRuntime) -> Result<(), Fail> {
    both_count(rt.alloc())
}
