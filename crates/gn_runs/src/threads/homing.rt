//! Runs whose actors go out as links come, and come home as they end, at the plain router.
//!
//! Each helper is generic in the router and in the allocator, as those of the lent hub.

ghost use Rattle.std.specs.Prelude.{◌≡◌, ◌≤◌, ◌^◌, [], IfSome, IsTrue};
ghost use Rattle.gn_actors.specs.Registry.{registry_state};

use crate::threads::hub::is_answer;
use crate::threads::slots::core_of;
use gn_actors::{Named, Registry, Unopened};
use gn_hub::{Actor, Batch, Hub, Outgoing, Retiring, Role, Service};
use gn_room::Room;
use gn_rules::{ConnId, Historian, RouterCore};
use gn_search::PlainRouter;
use std::alloc::Allocator;
use std::marker::Brand;
use std::sync::Wait;
use std::sync::ledger::Ledger;
use std::test::Fail;

/// How many parts the ledger of such a run has.
const PARTS: u64 = 1 << 33;

/// What a link left: whether its connection is gone, after how many steps nothing was in flight, if its writer had that, and how many
/// steps the run made.
type Left = (bool, Option<u64>, u64);

/// What links leave whose writer drained the connection, and what those whose bodies did no more than connect.
const ROWS: [(bool, Left); 2] = [(true, (true, Some(1), 2)), (false, (false, None, 1))];

/// The service of a run of one slot, and its registry.
fn run_of<A: Allocator + Copy, C: Historian<A> + Drop, L: Ledger + Named>(
    alloc: A,
    unopened: Unopened<A>,
) -> Option<(Service<C, L, A>, Registry<L, A>)>
    requires name { (unopened.blank.name ≡ L.name) × (unopened.steps.name ≡ L.growing) }
    requires parts { (unopened.blank.parts ≡ L.parts) × (2 ^ 33 ≤ unopened.blank.parts) }
    ensures { IfSome result (λ run. run.1 ≡ registry_state [] 0 []) }
{
    let core = core_of::<A, C>(alloc)?;
    match Service::open(alloc, unopened, core, Room::endless(), 1) {
        Ok((service, share, seen)) => Some((service, Registry::of(share, seen))),
        Err(_) => None,
    }
}

/// The connection that the link's reader makes.
fn met<A: Allocator + Copy, C: Historian<A> + Drop, L: Ledger + Named, R: Wait>(
    rt: &R,
    service: &Service<C, L, A>,
    reader: &mut Actor<L, A>,
) -> Option<ConnId> {
    let has_come = service.take_slot(rt, 0, Role::Plain)
        && is_answer(service.connect(rt, reader, 0));
    if has_come { service.meet(rt, 0) } else { None }
}

/// The link's writer drains the connection, which says that nothing was in flight: no more links come, and its reader is
/// done.
fn drain<A: Allocator + Copy, C: Historian<A> + Drop, L: Ledger + Named, R: Wait>(
    rt: &R,
    alloc: A,
    service: &Service<C, L, A>,
    link: &mut Retiring<L, A>,
    c: ConnId,
) {
    service.no_more(rt);
    service.reader_done(rt, 0);
    let Retiring { writer, idle, .. } = link;
    let mut kept = Vec::new(alloc);
    let answer = service.next_batch(rt, writer, c, Batch::one(), &mut kept, idle);
    match answer {
        Ok(Outgoing::Drained) => {}
        _ => *idle = None,
    }
}

/// The link ends once its reader has connected and its writer, where it does that, has drained the connection.
fn end<A: Allocator + Copy, C: Historian<A> + Drop, L: Ledger + Named, R: Wait>(
    rt: &R,
    alloc: A,
    service: &Service<C, L, A>,
    link: &mut Retiring<L, A>,
    drains: bool,
) {
    link.conn = met(rt, service, &mut link.reader);
    match link.conn {
        Some(c) if drains => drain(rt, alloc, service, link, c),
        _ => {}
    }
}

/// Whether the connection is gone of a link whose two actors go out and come home, and after how many steps nothing was in
/// flight. None where other actors went out.
fn retired<A: Allocator + Copy, C: Historian<A> + Drop, L: Ledger + Named, R: Wait>(
    rt: &R,
    alloc: A,
    service: &Service<C, L, A>,
    registry: &mut Registry<L, A>,
    drains: bool,
) -> Option<(bool, Option<u64>)>
    requires { registry.old ≡ registry_state [] 0 [] }
    ensures { IfSome result (λ _. registry.new.out ≡ 0) }
{
    registry.grow(2);
    let mut link = Retiring {
        reader: registry.send(0),
        writer: registry.send(1),
        conn: None,
        idle: None,
    };
    end(rt, alloc, service, &mut link, drains);
    if link.reader.number() != 0 || link.writer.number() != 1 || registry.out() != 2 {
        return None;
    }
    let left = service.retire(rt, registry, link);
    Some((left.is_gone, left.idle))
}

/// What a link leaves whose two actors are the only ones of a run.
fn left_by<A: Allocator + Copy, C: Historian<A> + Drop, L: Ledger + Named, R: Wait>(
    rt: &R,
    alloc: A,
    unopened: Unopened<A>,
    drains: bool,
) -> Option<Left>
    requires name { (unopened.blank.name ≡ L.name) × (unopened.steps.name ≡ L.growing) }
    requires parts { (unopened.blank.parts ≡ L.parts) × (2 ^ 33 ≤ unopened.blank.parts) }
{
    let (service, mut registry) = run_of::<A, C, L>(alloc, unopened)?;
    let (is_gone, idle) = retired(rt, alloc, &service, &mut registry, drains)?;
    let mut hub = service.into_hub();
    let _ = hub.close(registry);
    Some((is_gone, idle, hub.book()))
}

/// That run at the plain router.
fn left_plain<A: Allocator + Copy, R: Wait>(rt: &R, alloc: A, drains: bool) -> Option<Left> {
    left_by::<A, PlainRouter<A>, Brand, R>(rt, alloc, Unopened::new(PARTS), drains)
}

/// The first row of which a link leaves anything else.
fn wrong_row<A: Allocator + Copy, R: Wait>(rt: &R, alloc: A) -> Option<usize> {
    for (i, (drains, wanted)) in ROWS.iter().enumerate() {
        if left_plain(rt, alloc, *drains) != Some(*wanted) {
            return Some(i);
        }
    }
    None
}

#[test]
fn a_link_ends_and_its_actors_come_home(rt: HostRuntime) -> Result<(), Fail> {
    assert_eq!(rt; wrong_row(&rt, rt.alloc()), None);
    Ok(())
}

/// Whether an actor that goes out and connects comes home, as the only one.
fn connects_and_returns<A: Allocator + Copy, C: RouterCore<A>, L: Ledger + Named>(
    hub: &mut Hub<C, L, A>,
    registry: &mut Registry<L, A>,
) -> bool
    requires { registry.old ≡ registry_state [] 0 [] }
    ensures { IsTrue result → registry.new.out ≡ 0 }
{
    registry.grow(1);
    let mut me = registry.send(0);
    let has_connected = is_answer(hub.connect(&mut me, 0));
    if me.number() != 0 {
        return false;
    }
    let _ = hub.take_home(registry, me);
    has_connected && registry.many() == 1 && registry.out() == 0
}

/// Whether an actor comes home that has connected, with what lies under the lock.
fn comes_home<A: Allocator + Copy, C: RouterCore<A>, L: Ledger + Named>(
    hub: &mut Hub<C, L, A>,
    mut registry: Registry<L, A>,
) -> bool
    requires { registry ≡ registry_state [] 0 [] }
{
    if !connects_and_returns(hub, &mut registry) {
        return false;
    }
    let _ = hub.close(registry);
    hub.book() == 1
}

/// Whether the only actor of a run comes home.
fn one_comes_home<A: Allocator + Copy, C: Historian<A> + Drop, L: Ledger + Named>(
    alloc: A,
    unopened: Unopened<A>,
) -> bool
    requires name { (unopened.blank.name ≡ L.name) × (unopened.steps.name ≡ L.growing) }
    requires parts { (unopened.blank.parts ≡ L.parts) × (2 ^ 33 ≤ unopened.blank.parts) }
{
    match run_of::<A, C, L>(alloc, unopened) {
        Some((service, registry)) => comes_home(&mut service.into_hub(), registry),
        None => false,
    }
}

/// That run at the plain router.
fn one_comes_home_plain<A: Allocator + Copy>(alloc: A) -> bool {
    one_comes_home::<A, PlainRouter<A>, Brand>(alloc, Unopened::new(PARTS))
}

#[test]
fn an_actor_comes_home(rt: HostRuntime) -> Result<(), Fail> {
    assert!(rt; one_comes_home_plain(rt.alloc()));
    Ok(())
}
