//! Calls that take no memory, where every growth is refused.

use crate::histories::PONGS_GO_BACK;
use crate::steps::{after, before, read};
use crate::tables::none_in_flight;
use bytes::Bytes;
use gn_fixtures::{Heap, ping};
use gn_payload::{Checked, Verdict};
use gn_rules::{Counter, Historian, Legality, Reply, Sending, Sends, Step, is_same_reply};
use gn_search::PlainRouter;
use gn_table_router::TableRouter;
use gn_tables::{Flights, Neighbours};
use gn_wire::{Descriptor, Guid, Kind};
use gn_witness::legal;
use std::alloc::{AllocError, Allocator};
use std::test::Fail;

/// A router that made the steps of a run but the last, and all of them.
fn all_but_last<A: Allocator + Copy, C: Historian<A> + Drop>(
    alloc: A,
) -> Result<(C, Vec<Step<A>, A>), Fail> {
    let (config, steps) = read(alloc, PONGS_GO_BACK)?;
    match after(alloc, &config, before(steps.as_slice(), 9)) {
        Ok(core) => Ok((core, steps)),
        Err(fail) => {
            drop(steps);
            Err(fail)
        }
    }
}

/// Whether a router says all that it did in the run before its last step.
fn says_all<A: Allocator + Copy, C: Historian<A>>(core: &C, steps: &[Step<A>]) -> bool {
    let Some(last) = steps.last() else {
        return false;
    };
    core.is_answered(last)
        && core.config().numbers.neighbours == 4
        && core.stats().get(Counter::Routed) == 3
        && (core.flights(), core.waiting(1), core.is_live(2)) == (0, 2, true)
        && legal(core.config(), core.history()) == Legality::Legal
}

/// A router after a run.
fn of_a_router<A: Allocator + Copy, C: Historian<A> + Drop>(
    heap: &Heap,
    alloc: A,
) -> Result<bool, Fail> {
    heap.refuse_none();
    let (core, steps) = all_but_last::<A, C>(alloc)?;
    heap.refuse_from(0);
    let is_said = says_all(&core, steps.as_slice());
    let history = core.into_history();
    let count = history.len();
    drop(history);
    drop(steps);
    Ok(is_said && count == 9 && heap.asked() == 0)
}

/// Whether the neighbour's output queue has room for a packet, which is put there.
fn is_queued<A: Allocator + Copy>(neighbours: &mut Neighbours<A>, packet: Descriptor<A>) -> bool {
    let answer = neighbours.push(1, packet);
    let is_queued = answer.is_ok();
    drop(answer);
    is_queued
}

/// Whether a packet waits for the neighbour, which takes it.
fn is_taken<A: Allocator + Copy>(neighbours: &mut Neighbours<A>) -> bool {
    let has_first = neighbours.first(1).is_some();
    let packet = neighbours.pop(1);
    let is_taken = packet.is_some();
    drop(packet);
    has_first && is_taken
}

/// Whether a neighbour whose output queue has room for one packet takes one and no second, and gives it.
fn queues_one<A: Allocator + Copy>(
    neighbours: &mut Neighbours<A>,
    first: Descriptor<A>,
    second: Descriptor<A>,
) -> bool {
    let is_found = neighbours.len() == 1 && neighbours.number(0) == Some(1);
    let are_queued = [is_queued(neighbours, first), is_queued(neighbours, second)];
    let is_taken = is_taken(neighbours);
    let is_left = neighbours.waiting(1) == Some(0) && neighbours.remove(1) == Some(0);
    is_found && are_queued == [true, false] && is_taken && is_left
}

/// A neighbour whose output queue has room for one packet.
fn a_neighbour<A: Allocator + Copy>(alloc: A) -> Result<Neighbours<A>, AllocError> {
    let mut neighbours = Neighbours::new(alloc, 4, 1)?;
    neighbours.add(1)?;
    Ok(neighbours)
}

/// A neighbour's output queue.
fn of_neighbours<A: Allocator + Copy>(heap: &Heap, alloc: A) -> Result<bool, Fail> {
    heap.refuse_none();
    let mut neighbours = a_neighbour(alloc)?;
    let first = ping(0xa1, 6, 1)?;
    heap.refuse_from(0);
    let second = first.copy()?;
    let queues_one = queues_one(&mut neighbours, first, second);
    drop(neighbours);
    Ok(queues_one && heap.asked() == 0)
}

/// One flight.
fn a_flight<A: Allocator + Copy>(alloc: A) -> Result<Flights<A>, Fail> {
    let first = ping(0xa1, 7, 0)?;
    let mut flights = none_in_flight(alloc);
    flights.add(0, 1, first)?;
    Ok(flights)
}

/// Whether the one flight ends.
fn is_ended<A: Allocator + Copy>(flights: &mut Flights<A>) -> bool {
    let is_there = flights.get(0).is_some();
    let flight = flights.finish(0);
    let is_ended = flight.is_some();
    drop(flight);
    is_there && is_ended && flights.len() == 0
}

/// A flight that ends.
fn of_flights<A: Allocator + Copy>(heap: &Heap, alloc: A) -> Result<bool, Fail> {
    heap.refuse_none();
    let mut flights = a_flight(alloc)?;
    heap.refuse_from(0);
    let is_ended = is_ended(&mut flights);
    drop(flights);
    Ok(is_ended && heap.asked() == 0)
}

/// Whether a Query can be looked at and copied, and is sound.
fn is_sound<A: Allocator + Copy>(query: Descriptor<A>) -> bool {
    let is_read = query.is_same(&query) && query.forwarded(0).is_some();
    let copied = query.copy();
    let is_copied = matches!(&copied, Ok(copied) if copied.is_same(&query));
    drop(copied);
    let checked = Checked::new(query);
    let is_sound = checked.verdict() == Verdict::Sound;
    drop(checked);
    is_sound && is_read && is_copied
}

/// A descriptor that is made, looked at, copied and checked.
fn of_a_descriptor<A: Allocator + Copy>(heap: &Heap, alloc: A) -> Result<bool, Fail> {
    heap.refuse_none();
    let payload = Bytes::copy_from_slice(alloc, b"\0\0x\0")?;
    heap.refuse_from(0);
    let is_right = match Descriptor::new(Guid([0xb1; 16]), Kind::Query, 5, 0, payload) {
        Ok(query) => is_sound(query),
        Err(_) => false,
    };
    Ok(is_right && heap.asked() == 0)
}

/// A reply that sends a Ping.
fn one_sent<A: Allocator + Copy>(alloc: A) -> Result<Reply<A>, Fail> {
    let (to, queued, packet) = (2, true, ping(0xa1, 6, 1)?);
    let mut sends = Sends::new(alloc);
    sends.push(Sending { to, queued, packet })?;
    Ok(Reply::Sent(sends))
}

/// A reply that sends nothing beside one that sends a Ping: neither is the other.
fn of_replies<A: Allocator + Copy>(heap: &Heap, alloc: A) -> Result<bool, Fail> {
    heap.refuse_none();
    let one = one_sent(alloc)?;
    let none = Reply::Sent(Sends::new(alloc));
    heap.refuse_from(0);
    let are_same = is_same_reply(&none, &one) || is_same_reply(&one, &none);
    let is_itself = is_same_reply(&one, &one);
    drop(none);
    drop(one);
    Ok(is_itself && !are_same && heap.asked() == 0)
}

/// Whether each of them does as it is to, and asks for nothing.
fn of_each<A: Allocator + Copy>(heap: &Heap, alloc: A) -> Result<[bool; 6], Fail> {
    Ok([
        of_a_router::<A, TableRouter<A>>(heap, alloc)?,
        of_a_router::<A, PlainRouter<A>>(heap, alloc)?,
        of_neighbours(heap, alloc)?,
        of_flights(heap, alloc)?,
        of_a_descriptor(heap, alloc)?,
        of_replies(heap, alloc)?,
    ])
}

#[test]
fn nothing_is_asked_for(rt: HostRuntime) -> Result<(), Fail> {
    let heap = Heap::new(rt.alloc());
    assert_eq!(rt; of_each(&heap, &heap)?, [true; 6]);
    Ok(())
}
