//! Runs whose links come one after another, at the plain router: who takes a slot, and when such a run closes.
//!
//! Each helper is generic in the router and in the allocator, as those of the lent hub.

ghost use Rattle.std.specs.Prelude.{◌≡◌, [], IfSome};

use crate::threads::hub::is_answer;
use gn_actors::{Named, Unopened};
use gn_fixtures::usual;
use gn_hub::{Actor, Door, Hub, Role, Service};
use gn_room::Room;
use gn_rules::{Historian, RouterCore};
use gn_search::PlainRouter;
use std::alloc::Allocator;
use std::marker::Brand;
use std::sync::Wait;
use std::sync::ledger::Ledger;
use std::test::Fail;

/// A router of at most a hundred steps.
pub(super) fn core_of<A: Allocator + Copy, C: Historian<A> + Drop>(alloc: A) -> Option<C>
    ensures { IfSome result (λ core. C.steps core ≡ []) }
{
    match usual(100) {
        Ok(config) => C::make(alloc, &config).ok(),
        Err(_) => None,
    }
}

/// The service of a run of two slots, and an actor whose number is none of theirs.
pub(super) fn open_of<A: Allocator + Copy, C: Historian<A> + Drop, L: Ledger + Named>(
    alloc: A,
    unopened: Unopened<A>,
) -> Option<(Service<C, L, A>, Actor<L, A>)>
    requires name { (unopened.blank.name ≡ L.name) × (unopened.steps.name ≡ L.growing) }
    requires parts { (unopened.blank.parts ≡ L.parts) × (unopened.blank.parts ≡ 1) }
{
    let core = core_of::<A, C>(alloc)?;
    match Service::open(alloc, unopened, core, Room::endless(), 2) {
        Ok((service, share, seen)) => Some((service, Actor::new(7, seen, share))),
        Err(_) => None,
    }
}

/// Whether the link at the first slot connects and is met.
fn is_met<A: Allocator + Copy, C: Historian<A> + Drop, L: Ledger + Named, R: Wait>(
    rt: &R,
    service: &Service<C, L, A>,
    reader: &mut Actor<L, A>,
) -> bool {
    is_answer(service.connect(rt, reader, 0)) && service.meet(rt, 0) == Some(1)
}

/// Whether links come to the lock as they may: to a slot that is free, another to it once the reader of the first is done, and none
/// once no more come.
fn come_in_turn<A: Allocator + Copy, C: Historian<A> + Drop, L: Ledger + Named, R: Wait>(
    rt: &R,
    service: &Service<C, L, A>,
    reader: &mut Actor<L, A>,
) -> bool {
    let came = service.take_slot(rt, 0, Role::Plain) && is_met(rt, service, reader);
    let came_beside = service.take_slot(rt, 0, Role::Plain);
    let came_beyond = service.take_slot(rt, 2, Role::Plain);
    service.reader_done(rt, 0);
    let came_next = service.take_slot(rt, 0, Role::Plain);
    service.no_more(rt);
    let came_late = service.take_slot(rt, 1, Role::Plain);
    came & came_next & !came_beside & !came_beyond & !came_late
}

/// Whether a run closes, to which no more links come, once the reader at the first slot is done. Its link hasn't connected, though the
/// one before it had.
fn closes_in_time<A: Allocator + Copy, C: RouterCore<A>, L: Ledger + Named>(
    hub: &mut Hub<C, L, A>,
) -> bool {
    let is_unmet = hub.door(0) == Door::Unmet;
    let is_early = hub.closing();
    hub.reader_done(0);
    hub.closing() & is_unmet & !is_early
}

/// Whether a run to which nobody has come waits for a caller, and closes once no more come and the caller's reader is done.
fn waits_for_a_caller<A: Allocator + Copy, C: RouterCore<A>, L: Ledger + Named>(
    hub: &mut Hub<C, L, A>,
) -> bool {
    let is_early = hub.closing();
    if !hub.may_take(1) {
        return false;
    }
    hub.take_slot(1, Role::Calling);
    let is_beside = hub.may_take(0) & !hub.may_take(1);
    hub.no_more();
    let is_over = hub.closing() | hub.may_take(0);
    hub.reader_done(1);
    hub.closing() & is_beside & !is_early & !is_over
}

/// Whether links come in turn to the lock of a run, and it closes in time.
fn takes_turns<A: Allocator + Copy, C: Historian<A> + Drop, L: Ledger + Named, R: Wait>(
    rt: &R,
    alloc: A,
    unopened: Unopened<A>,
) -> bool
    requires name { (unopened.blank.name ≡ L.name) × (unopened.steps.name ≡ L.growing) }
    requires parts { (unopened.blank.parts ≡ L.parts) × (unopened.blank.parts ≡ 1) }
{
    let Some((service, mut reader)) = open_of::<A, C, L>(alloc, unopened) else {
        return false;
    };
    let come_in_turn = come_in_turn(rt, &service, &mut reader);
    let mut hub = service.into_hub();
    closes_in_time(&mut hub) && come_in_turn
}

/// That run at the plain router.
fn takes_turns_plain<A: Allocator + Copy, R: Wait>(rt: &R, alloc: A) -> bool {
    takes_turns::<A, PlainRouter<A>, Brand, R>(rt, alloc, Unopened::new(1))
}

#[test]
fn links_take_a_slot_in_turn(rt: HostRuntime) -> Result<(), Fail> {
    assert!(rt; takes_turns_plain(&rt, rt.alloc()));
    Ok(())
}

/// Whether a run waits for a caller, on what lies under its lock.
fn waits<A: Allocator + Copy, C: Historian<A> + Drop, L: Ledger + Named>(
    alloc: A,
    unopened: Unopened<A>,
) -> bool
    requires name { (unopened.blank.name ≡ L.name) × (unopened.steps.name ≡ L.growing) }
    requires parts { (unopened.blank.parts ≡ L.parts) × (unopened.blank.parts ≡ 1) }
{
    match open_of::<A, C, L>(alloc, unopened) {
        Some((service, _)) => waits_for_a_caller(&mut service.into_hub()),
        None => false,
    }
}

/// That run at the plain router.
fn waits_plain<A: Allocator + Copy>(alloc: A) -> bool {
    waits::<A, PlainRouter<A>, Brand>(alloc, Unopened::new(1))
}

#[test]
fn a_run_waits_for_a_caller(rt: HostRuntime) -> Result<(), Fail> {
    assert!(rt; waits_plain(rt.alloc()));
    Ok(())
}
