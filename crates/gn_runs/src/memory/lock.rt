//! The calls that make steps under the lock: of what lies under it, and of the lock itself.

ghost use Rattle.std.specs.Prelude.{◌≡◌};

use crate::threads::hub::service_of;
use crate::threads::place::{Locked, Made, Place, passed_on};
use gn_actors::{Named, Unopened};
use gn_capture::read_history;
use gn_fixtures::{Heap, Refused, Turn, Turns, are_same, growths};
use gn_hub::{Actor, Hub, Role, Service, ServiceFault};
use gn_rules::{Historian, Receipt, Refusal};
use gn_search::PlainRouter;
use gn_table_router::TableRouter;
use std::alloc::{Allocator, Global};
use std::marker::{Brand, PhantomData};
use std::sync::Wait;
use std::sync::ledger::Ledger;
use std::test::Fail;

/// A call of the run.
#[derive(Clone, Copy)]
enum Call {
    Makes(Made),
    Takes,
}

/// How many calls the run has.
const CALL_COUNT: usize = 5;

/// The calls of the run, each with the actor who makes it: two links connect, the first sends a Ping, a worker routes it, and
/// the writer of the second takes it.
const CALLS: [(usize, Call); CALL_COUNT] = [
    (0, Call::Makes(Made::Connects(0))),
    (1, Call::Makes(Made::Connects(1))),
    (0, Call::Makes(Made::Admits)),
    (4, Call::Makes(Made::Routes(0))),
    (3, Call::Takes),
];

/// Their history.
const HISTORY: &str = "gnutella-history 1\n\
config 4 8 4 8 8 100\n\
own eeeeeeeeeeeeeeeeeeeeeeeeeeeeeeee 127.0.0.1 6346 5 40\n\
0 connect = connected 1\n\
1 connect = connected 2\n\
0 admit 1 a1a1a1a1a1a1a1a1a1a1a1a1a1a1a1a100070000000000 = admitted 0\n\
4 route 0 = routed local 1+a1a1a1a1a1a1a1a1a1a1a1a1a1a1a1a10101000e000000ca187f0000010500000028000000 2+a1a1a1a1a1a1a1a1a1a1a1a1a1a1a1a100060100000000\n\
3 take 2 = taken a1a1a1a1a1a1a1a1a1a1a1a1a1a1a1a100060100000000\n\
end\n";

/// Takes a packet: its receipt. `NothingWaiting` where there is none.
fn take<A: Allocator + Copy, L: Ledger + Named, P: Place<L, A>>(
    place: &mut P,
    alloc: A,
    me: &mut Actor<L, A>,
) -> Result<Receipt<A>, Refusal> {
    let mut kept = Vec::new(alloc);
    match place.take(me, &mut kept) {
        Some(refusal) => Err(refusal),
        None => kept.pop().ok_or(Refusal::NothingWaiting),
    }
}

/// Makes the call of this number: its receipt. `NotLive` where there is no such actor.
fn receipt_of<A: Allocator + Copy, L: Ledger + Named, P: Place<L, A>>(
    place: &mut P,
    alloc: A,
    actors: &mut [Actor<L, A>],
    number: usize,
) -> Result<Receipt<A>, Refusal> {
    let (who, call) = CALLS[number.min(4)];
    let me = actors.get_mut(who).ok_or(Refusal::NotLive)?;
    let Call::Makes(made) = call else {
        return take(place, alloc, me);
    };
    let passed = passed_on(0xa1).ok_or(Refusal::NotLive)?;
    place.make(me, made, &passed)
}

/// Makes the call of this number, whose step has the same number. `Strange` where its receipt says another.
fn make<A: Allocator + Copy, L: Ledger + Named, P: Place<L, A>>(
    place: &mut P,
    alloc: A,
    actors: &mut [Actor<L, A>],
    number: usize,
) -> Result<(), Refusal> {
    let receipt = receipt_of(place, alloc, actors, number)?;
    let is_right = receipt.index as usize == number;
    drop(receipt);
    if is_right {
        Ok(())
    } else {
        Err(Refusal::Strange)
    }
}

/// Makes the calls of these numbers: whether each is answered.
fn are_made<A: Allocator + Copy, L: Ledger + Named, P: Place<L, A>>(
    place: &mut P,
    alloc: A,
    actors: &mut [Actor<L, A>],
    from: usize,
    to: usize,
) -> bool {
    for number in from..to {
        if make(place, alloc, actors, number).is_err() {
            return false;
        }
    }
    true
}

/// Makes all calls, where the one of this number meets the refusal and is made again: no step was made where it was refused.
fn turn_at<A: Allocator + Copy, L: Ledger + Named, P: Place<L, A>>(
    heap: &Heap,
    place: &mut P,
    alloc: A,
    actors: &mut [Actor<L, A>],
    number: usize,
    refused: Refused,
) -> Turn {
    if !are_made(place, alloc, actors, 0, number) {
        return Turn::Wrong;
    }
    refused.begin(heap);
    let answer = make(place, alloc, actors, number);
    let has_refused = heap.has_refused();
    heap.refuse_none();
    let turn = match answer {
        Ok(()) if !has_refused => Turn::Answered,
        Err(Refusal::NoMemory) if has_refused => match make(place, alloc, actors, number) {
            Ok(()) => Turn::Refused,
            Err(_) => return Turn::Wrong,
        },
        _ => return Turn::Wrong,
    };
    if are_made(place, alloc, actors, number.saturating_add(1), CALL_COUNT) {
        turn
    } else {
        Turn::Wrong
    }
}

/// How the calls went, where they left their history; wrong, where not. That each receipt is of a step of its actor's own
/// is proved.
fn checked_turn<A: Allocator + Copy, C: Historian<A>, L: Ledger + Named>(
    alloc: A,
    hub: &Hub<C, L, A>,
    turn: Turn,
) -> Result<Turn, Fail> {
    let wanted = read_history(alloc, HISTORY.as_bytes())?;
    let is_left = are_same(hub.router().history(), wanted.1.as_slice());
    drop(wanted);
    Ok(if is_left && hub.book() == 5 {
        turn
    } else {
        Turn::Wrong
    })
}

/// The roles of both links.
const ROLES: [Role; 2] = [Role::Plain, Role::Plain];

/// Makes all calls at the lock.
fn turn_locked<'r, 's, A: Allocator + Copy, C: Historian<A> + Drop, L: Ledger + Named, R: Wait>(
    rt: &'r R,
    heap: &Heap,
    service: &'s Service<C, L, A>,
    alloc: A,
    actors: &mut [Actor<L, A>],
    number: usize,
    refused: Refused,
) -> Turn {
    let mut place = Locked { rt, service };
    turn_at(heap, &mut place, alloc, actors, number, refused)
}

/// Makes all calls on what lies under the lock.
fn turn_under<A: Allocator + Copy, C: Historian<A> + Drop, L: Ledger + Named>(
    heap: &Heap,
    alloc: A,
    mut hub: Hub<C, L, A>,
    actors: &mut [Actor<L, A>],
    number: usize,
    refused: Refused,
) -> Result<Turn, Fail> {
    let turn = turn_at(heap, &mut hub, alloc, actors, number, refused);
    checked_turn(alloc, &hub, turn)
}

/// Makes all calls at the lock, or on what lies under it.
fn turn_of<A: Allocator + Copy, C: Historian<A> + Drop, L: Ledger + Named, R: Wait>(
    rt: &R,
    heap: &Heap,
    alloc: A,
    unopened: Unopened<A>,
    call: (usize, bool),
    refused: Refused,
) -> Result<Turn, Fail>
    requires name { (unopened.blank.name ≡ L.name) × (unopened.steps.name ≡ L.growing) }
    requires parts { (unopened.blank.parts ≡ L.parts) × (unopened.blank.parts ≡ 6) }
{
    heap.refuse_none();
    let (service, mut actors) = service_of::<A, C, L>(alloc, unopened, 100, &ROLES)?;
    let all = actors.as_mut_slice();
    let (number, is_locked) = call;
    if is_locked {
        let turn = turn_locked(rt, heap, &service, alloc, all, number, refused);
        checked_turn(alloc, &service.into_hub(), turn)
    } else {
        turn_under(heap, alloc, service.into_hub(), all, number, refused)
    }
}

/// The call of this number, at the lock or on what lies under it.
#[derive(Drop)]
struct Calls<'a, R, C> {
    rt: &'a R,
    number: usize,
    is_locked: bool,
    core: PhantomData<C>,
}

impl<'a, A: Allocator + Copy, C: Historian<A> + Drop, R: Wait> Turns<A> for Calls<'a, R, C> {
    fn turn(&self, heap: &Heap, alloc: A, refused: Refused) -> Result<Turn, Fail> {
        let call = (self.number, self.is_locked);
        turn_of::<A, C, Brand, R>(self.rt, heap, alloc, Unopened::new(6), call, refused)
    }
}

/// Makes a service: how many actors it has.
fn actors_of<A: Allocator + Copy, C: Historian<A> + Drop, L: Ledger + Named>(
    alloc: A,
    unopened: Unopened<A>,
) -> Result<usize, ServiceFault>
    requires name { (unopened.blank.name ≡ L.name) × (unopened.steps.name ≡ L.growing) }
    requires parts { (unopened.blank.parts ≡ L.parts) × (unopened.blank.parts ≡ 6) }
{
    let made = service_of::<A, C, L>(alloc, unopened, 100, &ROLES)?;
    let count = made.1.len();
    drop(made);
    Ok(count)
}

/// How many actors a service has that is made.
fn opened<A: Allocator + Copy, C: Historian<A> + Drop>(alloc: A) -> Result<usize, ServiceFault> {
    actors_of::<A, C, Brand>(alloc, Unopened::new(6))
}

/// Makes a service.
#[derive(Drop)]
struct Opens<C> {
    core: PhantomData<C>,
}

impl<A: Allocator + Copy, C: Historian<A> + Drop> Turns<A> for Opens<C> {
    fn turn(&self, heap: &Heap, alloc: A, refused: Refused) -> Result<Turn, Fail> {
        refused.begin(heap);
        let made = opened::<A, C>(alloc);
        let has_refused = heap.has_refused();
        heap.refuse_none();
        Ok(match made {
            Ok(6) if !has_refused => Turn::Answered,
            Err(ServiceFault::NoMemory) if has_refused && opened::<A, C>(alloc) == Ok(6) =>
                Turn::Refused,
            _ => Turn::Wrong,
        })
    }
}

/// How many growths the calls meet: making a service, and each call, on what lies under the lock and at the lock.
fn all_growths<A: Allocator + Copy, C: Historian<A> + Drop, R: Wait>(
    rt: &R,
    out: Global,
    heap: &Heap,
    alloc: A,
) -> Result<Vec<u64>, Fail> {
    let mut all = Vec::new(out);
    let making: Opens<C> = Opens { core: PhantomData };
    all.push(growths(heap, alloc, &making)?)?;
    for turn in 0..2 * CALL_COUNT {
        let call: Calls<R, C> = Calls {
            rt,
            number: turn % CALL_COUNT,
            is_locked: turn >= CALL_COUNT,
            core: PhantomData,
        };
        all.push(growths(heap, alloc, &call)?)?;
    }
    Ok(all)
}

/// At the router with tables. No call keeps its receipt, but for a Take, which puts it to its caller's.
const TABLE: [u64; 11] = [7, 2, 1, 8, 9, 2, 2, 1, 8, 9, 2];

/// At the router that searches its history.
const PLAIN: [u64; 11] = [3, 2, 0, 0, 4, 2, 2, 0, 0, 4, 2];

/// Whether the calls meet these growths.
fn meets_all<A: Allocator + Copy, C: Historian<A> + Drop, R: Wait>(
    rt: &R,
    out: Global,
    heap: &Heap,
    alloc: A,
    wanted: &[u64],
) -> Result<(), Fail> {
    let met = all_growths::<A, C, R>(rt, out, heap, alloc)?;
    if met.as_slice() == wanted {
        Ok(())
    } else {
        Err(Fail::new(format_args!("{met:?}")))
    }
}

/// Whether they meet theirs at both routers, which are named for any allocator: one over the heap is dear to prove.
fn both_meet_all<A: Allocator + Copy, R: Wait>(
    rt: &R,
    out: Global,
    heap: &Heap,
    alloc: A,
) -> Result<(), Fail> {
    meets_all::<A, TableRouter<A>, R>(rt, out, heap, alloc, &TABLE)?;
    meets_all::<A, PlainRouter<A>, R>(rt, out, heap, alloc, &PLAIN)
}

#[test]
fn calls_under_the_lock(rt: HostRuntime) -> Result<(), Fail> {
    let heap = Heap::new(rt.alloc());
    both_meet_all(&rt, rt.alloc(), &heap, &heap)
}
