//! The lock under two threads, at the plain router, and what wakes who waits.

ghost use Rattle.std.specs.Prelude.{◌≡◌, ◌+◌};

use crate::threads::hub::{Caller, callers_of, connects, have_receipts, make, service_of};
use crate::threads::place::{Locked, Made, Place, next};
use crate::threads::slots::open_of;
use gn_actors::{Named, Unopened};
use gn_fixtures::{ping, usual};
use gn_hub::{Outgoing, Role, Service};
use gn_payload::Checked;
use gn_rules::{Event, Historian, Legality, Step};
use gn_search::PlainRouter;
use gn_witness::legal;
use std::alloc::Allocator;
use std::marker::Brand;
use std::sync::Wait;
use std::sync::ledger::Ledger;
use std::test::Fail;
use std::thread;
use std::thread::Threads;

/// Makes 50 Connect calls.
fn connect_often<A: Allocator + Copy, C: Historian<A> + Drop, L: Ledger + Named, R: Wait>(
    rt: &R,
    service: &Service<C, L, A>,
    caller: &mut Caller<L, A>,
) {
    let connect = Event::Connect;
    for _ in 0..50 {
        let answer = service.call(rt, &mut caller.me, &connect);
        let _ = caller.keep(answer);
    }
    drop(connect);
}

/// Two threads connect 50 times each through one service.
fn both_connect<
    A: Allocator + Copy + Send + Sync,
    C: Historian<A> + Drop + Send,
    L: Ledger + Named + Send + Sync,
    R: Threads + Wait + Sync,
>(rt: &R, service: &Service<C, L, A>, callers: &mut [Caller<L, A>]) {
    let connect = |_: usize, caller: &mut Caller<L, A>| connect_often(rt, service, caller);
    thread::for_each_mut(rt, callers, 2, &connect);
}

/// Whether nobody meets a link that was shut, one that the run doesn't have, and one of a run that has failed.
fn nobody_meets<A: Allocator + Copy, C: Historian<A> + Drop, L: Ledger + Named, R: Wait>(
    rt: &R,
    service: &Service<C, L, A>,
) -> bool {
    service.shut(rt, 0);
    let shut = service.meet(rt, 0).is_none() && service.meet(rt, 2).is_none();
    service.fail(rt);
    shut && service.meet(rt, 1).is_none()
}

/// Whether the history of two threads that made 50 Connect calls each is legal, and has a step for each of the 50 receipts
/// of both.
fn is_of_hundred<A: Allocator, L: Ledger + Named>(
    callers: &[Caller<L, A>],
    history: &[Step<A>],
) -> bool {
    let Ok(config) = usual(100) else {
        return false;
    };
    have_receipts(callers, &[50, 50], history)
        && history.len() == 100
        && legal(&config, history) == Legality::Legal
}

/// Whether two threads that make 50 Connect calls each leave such a history. Nobody connected either link, and nobody meets it
/// once it is shut or the run has failed.
fn hundred<
    A: Allocator + Copy + Send + Sync,
    C: Historian<A> + Drop + Send,
    L: Ledger + Named + Send + Sync,
    R: Threads + Wait + Sync,
>(rt: &R, alloc: A, unopened: Unopened<A>) -> bool
    requires name { (unopened.blank.name ≡ L.name) × (unopened.steps.name ≡ L.growing) }
    requires parts { (unopened.blank.parts ≡ L.parts) × (unopened.blank.parts ≡ 6) }
{
    let roles = [Role::Plain, Role::Plain];
    let Ok((service, actors)) = service_of::<A, C, L>(alloc, unopened, 100, &roles) else {
        return false;
    };
    let Ok(mut callers) = callers_of(alloc, actors) else {
        return false;
    };
    callers.truncate(2);
    both_connect(rt, &service, callers.as_mut_slice());
    let nobody_meets = nobody_meets(rt, &service);
    let hub = service.into_hub();
    nobody_meets && is_of_hundred(callers.as_slice(), hub.router().history())
}

/// That run at the plain router.
fn hundred_plain<A: Allocator + Copy + Send + Sync, R: Threads + Wait + Sync>(
    rt: &R,
    alloc: A,
) -> bool {
    hundred::<A, PlainRouter<A>, Brand, R>(rt, alloc, Unopened::new(6))
}

#[test]
fn two_threads_connect(rt: HostRuntime) -> Result<(), Fail> {
    assert!(rt; hundred_plain(&rt, rt.alloc()));
    Ok(())
}

/// A writer's part: waits for its door, then takes packets until the connection is over. How many receipts it got of them.
fn takes<A: Allocator + Copy, C: Historian<A> + Drop, L: Ledger + Named, R: Wait>(
    rt: &R,
    service: &Service<C, L, A>,
    writer: &mut Caller<L, A>,
) -> Option<usize> {
    let c = service.meet(rt, 0)?;
    let mut taken = 0usize;
    for _ in rt.forever() {
        match next(rt, service, &mut writer.me, c, &mut writer.receipts) {
            Ok(Outgoing::Packet) => taken = taken.saturating_add(writer.receipts.len()),
            Ok(_) => break,
            Err(_) => return None,
        }
    }
    Some(taken)
}

/// Connects, and admits and routes so many Pings: whether each call is answered.
fn send<A: Allocator + Copy, L: Ledger + Named, P: Place<L, A>>(
    place: &mut P,
    reader: &mut Caller<L, A>,
    worker: &mut Caller<L, A>,
    count: u8,
) -> bool {
    if !connects(place, reader, 0) {
        return false;
    }
    for number in 0..count {
        let ticket = u32::from(number);
        if make(place, reader, Made::Admits, number).is_err()
            || make(place, worker, Made::Routes(ticket), number).is_err()
        {
            return false;
        }
    }
    true
}

/// A reader's part and a worker's: connects, and admits and routes eight Pings; then the reader is done.
fn pings<A: Allocator + Copy, C: Historian<A> + Drop, L: Ledger + Named, R: Wait>(
    rt: &R,
    service: &Service<C, L, A>,
    reader: &mut Caller<L, A>,
    worker: &mut Caller<L, A>,
) -> bool {
    let sent = send(&mut Locked { rt, service }, reader, worker, 8);
    service.reader_done(rt, 0);
    sent
}

/// Eight Pings by a reader and a worker in one thread, and a writer that waits in another: how many packets the writer took.
fn ping_and_take<
    A: Allocator + Copy + Send + Sync,
    C: Historian<A> + Drop + Send,
    L: Ledger + Named + Send + Sync,
    R: Threads + Wait + Sync,
>(rt: &R, service: &Service<C, L, A>, callers: &mut [Caller<L, A>]) -> Option<usize> {
    let mut each = callers.iter_mut();
    let reader = each.next()?;
    let writer = each.next()?;
    let worker = each.next()?;
    let (sent, taken) = thread::join(
        rt,
        move || pings(rt, service, reader, worker),
        move || takes(rt, service, writer),
    );
    if sent { taken } else { None }
}

/// Eight Pings by a link's reader and its writer, each in a thread of its own: how many packets the writer took.
fn wake<
    A: Allocator + Copy + Send + Sync,
    C: Historian<A> + Drop + Send,
    L: Ledger + Named + Send + Sync,
    R: Threads + Wait + Sync,
>(rt: &R, alloc: A, unopened: Unopened<A>) -> Option<usize>
    requires name { (unopened.blank.name ≡ L.name) × (unopened.steps.name ≡ L.growing) }
    requires parts { (unopened.blank.parts ≡ L.parts) × (unopened.blank.parts ≡ 4) }
{
    let Ok((service, actors)) = service_of::<A, C, L>(alloc, unopened, 100, &[Role::Plain]) else {
        return None;
    };
    let mut callers = callers_of(alloc, actors).ok()?;
    ping_and_take(rt, &service, callers.as_mut_slice())
}

/// That run at the plain router.
fn wake_plain<A: Allocator + Copy + Send + Sync, R: Threads + Wait + Sync>(
    rt: &R,
    alloc: A,
) -> Option<usize> {
    wake::<A, PlainRouter<A>, Brand, R>(rt, alloc, Unopened::new(4))
}

#[test]
fn a_waiting_writer_wakes(rt: HostRuntime) -> Result<(), Fail> {
    for _ in 0..20 {
        assert_eq!(rt; wake_plain(&rt, rt.alloc()), Some(8));
    }
    Ok(())
}

/// Connects by the call that may make several steps: how many receipts it gives.
fn connect_at_once<A: Allocator + Copy, C: Historian<A> + Drop, L: Ledger + Named, R: Wait>(
    rt: &R,
    service: &Service<C, L, A>,
    caller: &mut Caller<L, A>,
) -> usize {
    let Caller { me, receipts } = caller;
    let _ = service.call_all(rt, me, &[Event::Connect], receipts);
    receipts.len()
}

/// Routes the first Ping by the call that may make several steps: where the actor knows its last step to stand.
fn route_at_once<A: Allocator + Copy, C: Historian<A> + Drop, L: Ledger + Named, R: Wait>(
    rt: &R,
    service: &Service<C, L, A>,
    caller: &mut Caller<L, A>,
) -> u64 {
    if let Ok(ping) = ping(0, 7, 0) {
        let _ = service.route_all(rt, &mut caller.me, &[(0, Checked::new(ping))]);
    }
    caller.me.last()
}

/// Whether the first step of a run gives its receipt, too, and who made the third, as it connects and admits and routes a
/// Ping, knows where that stands.
fn are_at_once<A: Allocator + Copy, C: Historian<A> + Drop, L: Ledger + Named, R: Wait>(
    rt: &R,
    service: &Service<C, L, A>,
    caller: &mut Caller<L, A>,
) -> bool {
    let given = connect_at_once(rt, service, caller);
    let _ = make(&mut Locked { rt, service }, caller, Made::Admits, 0);
    given == 1 && route_at_once(rt, service, caller) == 3
}

/// Whether the first actor of a run finds that.
fn at_once<A: Allocator + Copy, C: Historian<A> + Drop, L: Ledger + Named, R: Wait>(
    rt: &R,
    alloc: A,
    unopened: Unopened<A>,
) -> bool
    requires name { (unopened.blank.name ≡ L.name) × (unopened.steps.name ≡ L.growing) }
    requires parts { (unopened.blank.parts ≡ L.parts) × (unopened.blank.parts ≡ 1) }
{
    let Some((service, me)) = open_of::<A, C, L>(alloc, unopened) else {
        return false;
    };
    let receipts = Vec::new(alloc);
    are_at_once(rt, &service, &mut Caller { me, receipts })
}

/// That run at the plain router.
fn at_once_plain<A: Allocator + Copy, R: Wait>(rt: &R, alloc: A) -> bool {
    at_once::<A, PlainRouter<A>, Brand, R>(rt, alloc, Unopened::new(1))
}

#[test]
fn steps_at_once(rt: HostRuntime) -> Result<(), Fail> {
    assert!(rt; at_once_plain(&rt, rt.alloc()));
    Ok(())
}
