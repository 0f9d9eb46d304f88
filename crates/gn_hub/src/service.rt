//! The lock that the threads of a run take.

ghost use Rattle.std.specs.Prelude.{◌≡◌, ◌≢◌, ◌<◌, ◌+◌, [], true, false, length, map, IfOk, IfErr, MatchResult};
ghost use mathlib.Core.List.{IsPrefix};
ghost use Rattle.gn_rules.specs.declared.event.Event.TheVariants.{Connect, Route};
ghost use Rattle.gn_rules.specs.Fits.{refuses};
ghost use Rattle.gn_actors.specs.Registry.{IsOut, with_home};
ghost use Rattle.gn_hub.specs.declared.next.Outgoing.TheVariants.{Packet, Drained, Closed};
ghost use Rattle.gn_hub.specs.Receipts.{HasClosed, HasDrained, HasProgressed, HasReceipt, HasTakenSome, HasThis, IsDrainedAt, is_stop, with_receipts};
ghost use Rattle.gn_hub.specs.Retired.{IsRetired};

use crate::answered::Answered;
use crate::asleep::Asleep;
use crate::batch::Batch;
use crate::found::FoundClosed;
use crate::held::Held;
use crate::hub::Hub;
use crate::idle::Idle;
use crate::mark::Door;
use crate::next::Outgoing;
use crate::progress::Progress;
use crate::retiring::{Retired, Retiring};
use crate::waiters::Waiters;
use crate::wakes::Wakes;
use crossbeam_utils::CachePadded;
use gn_actors::{Actor, Named, Registry};
use gn_payload::Checked;
use gn_room::Room;
use gn_rules::{ConnId, Event, Receipt, Refusal, RouterCore, Sending, Ticket};
use gn_shake::Role;
use std::alloc::{AllocError, Allocator, Global};
use std::hint::spin_loop;
use std::sync::ledger::Ledger;
use std::sync::{Mutex, MutexGuard, Wait};
use std::thread::yield_now;

/// How often a thread tries to take the lock before it sleeps.
const TRIES: u32 = 32;

/// How many looks are a try.
const LOOKS: u32 = 8;

/// The hub under one lock, and where threads sleep until a change may have brought what they wait for: a door, a packet, the end of a
/// connection, the closing of the run, or its failure. Before it takes the lock for a step, a thread waits for room for that.
///
/// Threads that try the lock write its word. The hub stands on cache lines of its own, so that they don't take one away from
/// who has the lock.
pub struct Service<C: RouterCore<A> + Drop, L: Ledger + Named, A: Allocator + Copy = Global> {
    held: Mutex<CachePadded<Held<C, L, A>>>,
    waiters: Waiters,
    room: Room,
}

impl<C: RouterCore<A> + Drop, L: Ledger + Named, A: Allocator + Copy> Drop for Service<C, L, A> {
    fn drop(self) {
        let Service {
            held: _,
            waiters: _,
            room: _,
        } = self;
    }
}

impl<C: RouterCore<A> + Drop, L: Ledger + Named, A: Allocator + Copy> Service<C, L, A> {
    /// A hub under a lock of its own, and the room for its steps.
    pub(crate) fn over(hub: Hub<C, L, A>, room: Room) -> Self {
        Service {
            held: Mutex::new(CachePadded::new(Held {
                hub,
                asleep: Asleep::nobody(),
            })),
            waiters: Waiters::new(),
            room,
        }
    }

    /// The room for its steps, for who takes them.
    pub fn room(&self) -> &Room {
        &self.room
    }

    /// The hub, where it is found free within so many looks.
    fn spin(&self) -> Option<MutexGuard<'_, CachePadded<Held<C, L, A>>>> {
        for _ in 0..LOOKS {
            if let Some(held) = self.held.try_lock() {
                return Some(held);
            }
            spin_loop();
        }
        None
    }

    /// The hub. A thread that finds it taken looks some times more, then lets others run and tries again, so many times, before
    /// it sleeps.
    fn lock<R: Wait>(&self, rt: &R) -> MutexGuard<'_, CachePadded<Held<C, L, A>>> {
        for _ in 0..TRIES {
            if let Some(held) = self.spin() {
                return held;
            }
            yield_now();
        }
        self.held.lock(rt)
    }

    /// Waits for room for one more step. An `Err`: nobody takes steps any more.
    fn wait_for_room<R: Wait>(&self, rt: &R) -> Result<(), AllocError> {
        if self.room.wait(rt) {
            Ok(())
        } else {
            Err(AllocError)
        }
    }

    /// Waits for room for one more step, and makes some for its receipt and those of further ones, so many in all, in place of
    /// those that are lent. An `Err` is out of memory, or nobody takes steps any more.
    fn make_room<R: Wait>(
        &self,
        rt: &R,
        kept: &mut Vec<Receipt<A>, A>,
        most: usize,
    ) -> Result<(), AllocError>
        ensures { kept.new.items ≡ [] }
    {
        kept.clear();
        kept.reserve(most)?;
        self.wait_for_room(rt)
    }

    /// Lets the hub go after a call on it, and wakes those who have to look again.
    fn release<R: Wait>(
        &self,
        rt: &R,
        held: MutexGuard<'_, CachePadded<Held<C, L, A>>>,
        woken: Asleep,
    ) {
        self.room.made(held.hub.book());
        drop(held);
        self.waiters.wake(&woken);
        self.room.wake(rt);
    }

    /// Lets the hub go after a change on it, and wakes everybody.
    fn release_all(&self, held: MutexGuard<'_, CachePadded<Held<C, L, A>>>) {
        let mut held = held;
        let woken = held.asleep.take_all();
        drop(held);
        self.waiters.wake(&woken);
    }

    /// An actor's event, and the receipt of its step.
    pub fn call<R: Wait>(
        &self,
        rt: &R,
        me: &mut Actor<L, A>,
        event: &Event<A>,
    ) -> Result<Receipt<A>, Refusal>
        ensures answer { MatchResult result
            (λ _. HasReceipt event.now me.old me.new)
            (λ refusal. (refuses event.now refusal ≡ true) × (me.new ≡ me.old)) }
        ensures receipt { IfOk result (λ r. HasThis event.now r me.old me.new) }
    {
        self.wait_for_room(rt)?;
        let mut held = self.lock(rt);
        let Answered { answer, wakes } = held.hub.call_answered(me, event);
        let woken = held.asleep.take(wakes, sends_of(&answer));
        self.release(rt, held, woken);
        answer
    }

    /// An actor's Route, with the descriptor's payload checked beforehand.
    pub fn route<R: Wait>(
        &self,
        rt: &R,
        me: &mut Actor<L, A>,
        ticket: Ticket,
        checked: &Checked<A>,
    ) -> Result<Receipt<A>, Refusal>
        ensures answer { MatchResult result
            (λ _. HasReceipt (Route ticket) me.old me.new)
            (λ refusal. (refuses {A = A} (Route ticket) refusal ≡ true) × (me.new ≡ me.old)) }
        ensures receipt { IfOk result (λ r. HasThis (Route ticket) r me.old me.new) }
    {
        self.wait_for_room(rt)?;
        let mut held = self.lock(rt);
        let Answered { answer, wakes } = held.hub.route_answered(me, ticket, checked);
        let woken = held.asleep.take(wakes, sends_of(&answer));
        self.release(rt, held, woken);
        answer
    }

    /// An actor's events in order, in one hold of the lock, until one is refused. Each further one only where there is room for its step
    /// without waiting. The receipts of this call are put in place of those that are lent.
    pub fn call_all<R: Wait>(
        &self,
        rt: &R,
        me: &mut Actor<L, A>,
        events: &[Event<A>],
        kept: &mut Vec<Receipt<A>, A>,
    ) -> Progress
        requires some { 0 < length events.now }
        ensures made { HasProgressed events.now result me.old me.new }
        ensures kept { me.new ≡ with_receipts me.old kept.new.items }
    {
        if self.make_room(rt, kept, events.len()).is_err() {
            return Progress::no_memory();
        }
        let mut held = self.lock(rt);
        let mut woken = Asleep::nobody();
        let progress = held.call_all(me, events, &self.room, &mut woken, kept);
        self.release(rt, held, woken);
        progress
    }

    /// As `call_all`, of Routes, with their descriptors' payloads checked beforehand. Nobody gets their receipts.
    pub fn route_all<R: Wait>(
        &self,
        rt: &R,
        me: &mut Actor<L, A>,
        jobs: &[(Ticket, Checked<A>)],
    ) -> Progress
        requires some { 0 < length jobs.now }
        ensures made { HasProgressed (map (λ job. Route job.0) jobs.now) result me.old me.new }
    {
        if self.wait_for_room(rt).is_err() {
            return Progress::no_memory();
        }
        let mut held = self.lock(rt);
        let mut woken = Asleep::nobody();
        let progress = held.route_all(me, jobs, &self.room, &mut woken);
        self.release(rt, held, woken);
        progress
    }

    /// The Connect of the reader of a link, which opens or shuts its door.
    pub fn connect<R: Wait>(
        &self,
        rt: &R,
        me: &mut Actor<L, A>,
        link: u32,
    ) -> Result<Receipt<A>, Refusal>
        ensures answer { MatchResult result
            (λ _. HasReceipt Connect me.old me.new)
            (λ refusal. (refuses {A = A} Connect refusal ≡ true) × (me.new ≡ me.old)) }
        ensures receipt { IfOk result (λ r. HasThis Connect r me.old me.new) }
    {
        self.wait_for_room(rt)?;
        let mut held = self.lock(rt);
        let Answered { answer, wakes } = held.hub.connect_answered(me, link);
        let woken = held.asleep.take_unqueued(wakes);
        self.release(rt, held, woken);
        answer
    }

    /// An actor's Close of a connection. Where that isn't live any more, what says so comes back, and no step is made.
    pub fn close<R: Wait>(
        &self,
        rt: &R,
        me: &mut Actor<L, A>,
        c: ConnId,
    ) -> Result<Option<FoundClosed>, Refusal>
        ensures { MatchResult result
            (λ found. HasClosed c found me.old me.new)
            (λ refusal. (is_stop refusal ≡ true) × (me.new ≡ me.old)) }
    {
        self.wait_for_room(rt)?;
        let mut held = self.lock(rt);
        let Answered { answer, wakes } = held.hub.close_answered(me, c);
        let woken = held.asleep.take_unqueued(wakes);
        self.release(rt, held, woken);
        answer
    }

    /// Waits until the connection has packets for its writer, or is over, also where this call closed it. At most `batch` packets are
    /// taken at once; the receipts of this call are put in place of those that are lent. A further packet is left where its step is
    /// refused, or would have to wait for room. Where this call closes the connection, what says that nothing was in flight before its
    /// step is put to `idle`.
    #[tactic(auto, using(crate::proofs::KeptLemmas::none_got))]
    pub fn next_batch<R: Wait>(
        &self,
        rt: &R,
        me: &mut Actor<L, A>,
        c: ConnId,
        batch: Batch,
        kept: &mut Vec<Receipt<A>, A>,
        idle: &mut Option<Idle<L, A>>,
    ) -> Result<Outgoing, Refusal>
        ensures packet { IfOk result (λ next. next ≡ Packet → HasTakenSome batch c me.old me.new) }
        ensures drained { IfOk result (λ next. next ≡ Drained → HasDrained c me.old me.new) }
        ensures closed { IfOk result (λ next. next ≡ Closed → me.new ≡ me.old) }
        ensures refused { IfErr result (λ refusal. (is_stop refusal ≡ true) × (me.new ≡ me.old)) }
        ensures kept { me.new ≡ with_receipts me.old kept.new.items }
        ensures idle { IfOk result (λ next. next ≡ Drained → IsDrainedAt c idle.new me.old me.new) }
    {
        self.make_room(rt, kept, batch.most() as usize)?;
        let mut held = self.lock(rt);
        for _ in rt.forever() {
            let Answered { answer, wakes } = held
                .hub
                .batch_answered(me, c, batch, &self.room, kept, idle);
            if let Some(next) = answer? {
                let woken = held.asleep.take_unqueued(wakes);
                self.release(rt, held, woken);
                return Ok(next);
            }
            held.asleep.add_writer(c);
            held = self.waiters.sleep_for(rt, held, c);
        }
        unreachable!()
    }

    /// Waits until the door of the link is open or shut, or the run has failed. The connection, where it is open.
    pub fn meet<R: Wait>(&self, rt: &R, link: u32) -> Option<ConnId> {
        let mut held = self.lock(rt);
        for _ in rt.forever() {
            match held.hub.door(link) {
                Door::Met(c) => return Some(c),
                Door::Shut => return None,
                Door::Unmet => {}
            }
            if held.hub.failed() {
                return None;
            }
            held.asleep.add_door();
            held = self.waiters.sleep_at_door(rt, held);
        }
        unreachable!()
    }

    /// The link won't connect.
    pub fn shut<R: Wait>(&self, rt: &R, link: u32) {
        let mut held = self.lock(rt);
        held.hub.shut(link);
        self.release_all(held);
    }

    /// The reader of the link is done.
    pub fn reader_done<R: Wait>(&self, rt: &R, link: u32) {
        let mut held = self.lock(rt);
        held.hub.reader_done(link);
        self.release_all(held);
    }

    /// A link of this role comes, and takes the slot. Whether it did: more links may come, and the slot is free.
    pub fn take_slot<R: Wait>(&self, rt: &R, slot: u32, role: Role) -> bool {
        let mut held = self.lock(rt);
        held.hub.slot_answered(slot, role)
    }

    /// No more links come.
    pub fn no_more<R: Wait>(&self, rt: &R) {
        let mut held = self.lock(rt);
        held.hub.no_more();
        self.release_all(held);
    }

    /// Whether the run has failed by now.
    pub fn failed<R: Wait>(&self, rt: &R) -> bool {
        self.lock(rt).hub.failed()
    }

    /// The run has failed.
    pub fn fail<R: Wait>(&self, rt: &R) {
        let mut held = self.lock(rt);
        held.hub.fail();
        self.release_all(held);
    }

    /// A link that has ended goes: both its actors come home, with one hold of the lock.
    pub fn retire<R: Wait>(
        &self,
        rt: &R,
        registry: &mut Registry<L, A>,
        link: Retiring<L, A>,
    ) -> Retired<A>
        requires reader { IsOut registry.old link.reader.number }
        requires writer { IsOut registry.old link.writer.number }
        requires apart { link.reader.number ≢ link.writer.number }
        ensures registry { registry.new
            ≡ with_home (with_home registry.old link.reader registry.new.seen) link.writer registry.new.seen }
        ensures out { registry.new.out + 2 ≡ registry.old.out }
        ensures began { IsPrefix registry.old.seen registry.new.seen }
        ensures retired { IsRetired registry.new.seen link.reader link.writer link.conn link.idle result }
    {
        let mut held = self.lock(rt);
        held.hub.retire(registry, link)
    }

    /// The hub, without its lock.
    pub fn into_hub(self) -> Hub<C, L, A> {
        let Service {
            held,
            waiters: _,
            room: _,
        } = self;
        let Held { hub, .. } = held.into_inner().into_inner();
        hub
    }
}

/// What the reply of a step sends. Nothing where none was made.
fn sends_of<A: Allocator>(answer: &Result<Receipt<A>, Refusal>) -> &[Sending<A>] {
    match answer {
        Ok(receipt) => receipt.reply.sends(),
        Err(_) => &[],
    }
}
