//! The calls that make steps: on what lies under the lock, and at the lock.

use gn_actors::Named;
use gn_fixtures::ping;
use gn_hub::{Actor, Batch, Hub, Outgoing, Service};
use gn_payload::Checked;
use gn_rules::{ConnId, Event, Historian, Receipt, Refusal, RouterCore, Ticket};
use std::alloc::Allocator;
use std::sync::Wait;
use std::sync::ledger::Ledger;

/// A call that makes a step.
#[derive(Clone, Copy)]
pub(crate) enum Made {
    /// The link of this number connects.
    Connects(u32),
    /// The first connection delivers a Ping.
    Admits,
    /// The Ping of this ticket is routed.
    Routes(Ticket),
}

/// What such a call may pass on: an Admit of a Ping, and that Ping, whose payload was checked.
#[derive(Drop)]
pub(crate) struct Passed<A: Allocator> {
    admit: Event<A>,
    checked: Checked<A>,
}

/// What a call passes on of the Ping whose ID repeats this byte.
pub(crate) fn passed_on<A: Allocator>(byte: u8) -> Option<Passed<A>> {
    let pings = ping(byte, 7, 0).ok().zip(ping(byte, 7, 0).ok());
    let (admitted, routed) = pings?;
    Some(Passed {
        admit: Event::Admit(1, admitted),
        checked: Checked::new(routed),
    })
}

/// Where the calls are made: on what lies under the lock, or on the lock.
pub(crate) trait Place<L: Ledger + Named, A: Allocator + Copy> {
    /// Makes a call.
    fn make(
        &mut self,
        me: &mut Actor<L, A>,
        made: Made,
        passed: &Passed<A>,
    ) -> Result<Receipt<A>, Refusal>;

    /// Takes a packet of the second connection: the refusal, where there is one. Nothing is put to those that are kept
    /// where there is no packet.
    fn take(&mut self, me: &mut Actor<L, A>, kept: &mut Vec<Receipt<A>, A>) -> Option<Refusal>;
}

impl<A: Allocator + Copy, C: RouterCore<A>, L: Ledger + Named> Place<L, A> for Hub<C, L, A> {
    fn make(
        &mut self,
        me: &mut Actor<L, A>,
        made: Made,
        passed: &Passed<A>,
    ) -> Result<Receipt<A>, Refusal> {
        match made {
            Made::Connects(link) => self.connect(me, link),
            Made::Admits => self.call(me, &passed.admit),
            Made::Routes(ticket) => self.route(me, ticket, &passed.checked),
        }
    }

    fn take(&mut self, me: &mut Actor<L, A>, kept: &mut Vec<Receipt<A>, A>) -> Option<Refusal> {
        self.next_out(me, 2, kept).err()
    }
}

/// The next that a writer takes at the lock, one packet at most, whose receipts are put to these.
pub(crate) fn next<A: Allocator + Copy, C: Historian<A> + Drop, L: Ledger + Named, R: Wait>(
    rt: &R,
    service: &Service<C, L, A>,
    me: &mut Actor<L, A>,
    c: ConnId,
    kept: &mut Vec<Receipt<A>, A>,
) -> Result<Outgoing, Refusal> {
    service.next_batch(rt, me, c, Batch::one(), kept, &mut None)
}

/// The lock, and the runtime by which it is waited for.
#[derive(Drop)]
pub(crate) struct Locked<
    'r,
    's,
    R,
    C: Historian<A> + Drop,
    L: Ledger + Named,
    A: Allocator + Copy,
> {
    pub(crate) rt: &'r R,
    pub(crate) service: &'s Service<C, L, A>,
}

impl<'r, 's, A: Allocator + Copy, C: Historian<A> + Drop, L: Ledger + Named, R: Wait> Place<L, A>
    for Locked<'r, 's, R, C, L, A> {
    fn make(
        &mut self,
        me: &mut Actor<L, A>,
        made: Made,
        passed: &Passed<A>,
    ) -> Result<Receipt<A>, Refusal> {
        match made {
            Made::Connects(link) => self.service.connect(self.rt, me, link),
            Made::Admits => self.service.call(self.rt, me, &passed.admit),
            Made::Routes(ticket) => self.service.route(self.rt, me, ticket, &passed.checked),
        }
    }

    fn take(&mut self, me: &mut Actor<L, A>, kept: &mut Vec<Receipt<A>, A>) -> Option<Refusal> {
        next(self.rt, self.service, me, 2, kept).err()
    }
}
