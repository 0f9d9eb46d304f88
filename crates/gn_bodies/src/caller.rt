//! An actor with all that its calls need, by what they do to it.

ghost use Rattle.std.specs.Prelude.{◌≡◌, ◌<◌, [], ℕ, Some, length, map, IfOk, MatchResult, OnErr};
ghost use Rattle.gn_rules.specs.declared.event.Event.TheVariants.{Admit, Route};
ghost use Rattle.gn_wire.specs.Packet.{Packet};
ghost use Rattle.gn_hub.specs.Receipts.{HasClosed, HasProgressed, HasReceipt, with_receipts};
ghost use Rattle.gn_bodies.specs.Admitting.{HasAdmitted, HasHalted, HasOnlyConnected, halt_of};
ghost use Rattle.gn_bodies.specs.Writing.{HasNext};

use crate::ends::BodyFault;
use crate::piece::Halt;
use gn_actors::Named;
use gn_hub::{Actor, Batch, FoundClosed, Idle, Outgoing, Progress, Service};
use gn_links::{Gate, Half, Made, Place};
use gn_payload::Checked;
use gn_rules::{ConnId, Event, Receipt, Refusal, Reply, RouterCore, Ticket};
use gn_stage::Job;
use gn_wire::Descriptor;
use std::alloc::{Allocator, Global};
use std::marker::Model;
use std::sync::Wait;
use std::sync::ledger::Ledger;

/// An actor with all that its calls need. Its value is the actor's.
#[derive(Drop)]
pub struct Caller<
    's,
    G,
    B: Ledger + Named,
    C: RouterCore<A> + Drop,
    R,
    A: Allocator + Copy = Global,
> {
    pub rt: &'s R,
    pub alloc: A,
    pub service: &'s Service<C, B, A>,
    pub gate: &'s G,
    /// The place of its link; of a worker, that of its number.
    pub place: Place,
    pub actor: Actor<B, A>,
}

impl<'s, G, B: Ledger + Named, C: RouterCore<A> + Drop, R, A: Allocator + Copy> Model
    for Caller<'s, G, B, C, R, A> {
    ghost use Rattle.gn_hub.specs.ActorState.{ActorState};

    ghost Value = { ActorState A };

    ghost view = { λ c. c.actor };
}

impl<'s, G: Gate, B: Ledger + Named, C: RouterCore<A> + Drop, R: Wait, A: Allocator + Copy> Caller<
    's,
    G,
    B,
    C,
    R,
    A,
> {
    /// Admits a descriptor, which comes back as a job with its ticket. None at a threshold, that of all connections or its
    /// own: the descriptor is gone.
    pub(crate) fn admit(
        &mut self,
        c: ConnId,
        descriptor: Descriptor<A>,
    ) -> Result<Option<Job<A>>, Halt>
        ensures { MatchResult result
            (λ job. HasAdmitted c descriptor job self.old self.new)
            (λ why. HasHalted c descriptor why self.old self.new) }
    {
        let event = Event::Admit(c, descriptor);
        let receipt = match self.service.call(self.rt, &mut self.actor, &event) {
            Ok(receipt) => receipt,
            Err(refusal) => {
                drop(event);
                return Err(halt_of(refusal));
            }
        };
        let Some(ticket) = receipt.reply.admitted() else {
            drop(event);
            self.tell(refused_by(&receipt.reply));
            return Ok(None);
        };
        self.tell(Made::Admitted(ticket));
        Ok(job_of(ticket, event))
    }

    /// Makes these events in order, in one hold of the lock, until one is refused. The receipts are put in place of those that are lent.
    pub(crate) fn call_all(
        &mut self,
        events: &[Event<A>],
        kept: &mut Vec<Receipt<A>, A>,
    ) -> Progress
        requires some { 0 < length events.now }
        ensures made { HasProgressed events.now result self.old self.new }
        ensures kept { self.new ≡ with_receipts self.old kept.new.items }
    {
        self.service
            .call_all(self.rt, &mut self.actor, events, kept)
    }

    /// Routes a job that was checked. Refused where its ticket isn't in flight, or was another descriptor's.
    pub(crate) fn route(&mut self, ticket: Ticket, checked: Checked<A>) -> Result<(), BodyFault>
        ensures { MatchResult result (λ _. HasReceipt (Route ticket) self.old self.new) (λ _. self.new ≡ self.old) }
    {
        let answer = self
            .service
            .route(self.rt, &mut self.actor, ticket, &checked);
        drop(checked);
        match answer {
            Ok(_) => Ok(()),
            Err(refusal) => Err(BodyFault::from(refusal)),
        }
    }

    /// As `call_all`, of the routes of jobs that were checked, whose receipts nobody needs.
    pub(crate) fn route_all(&mut self, jobs: &[(Ticket, Checked<A>)]) -> Progress
        requires some { 0 < length jobs.now }
        ensures made { HasProgressed (map (λ job. Route job.0) jobs.now) result self.old self.new }
    {
        self.service.route_all(self.rt, &mut self.actor, jobs)
    }

    /// Connects the link of a reader that has no receipts yet. The connection, or none where too many are live.
    pub(crate) fn connect(&mut self) -> Result<Option<ConnId>, BodyFault>
        requires none { self.old.receipts ≡ [] }
        ensures number { self.new.number ≡ self.old.number }
        ensures connected { IfOk result (λ made. HasOnlyConnected made self.new) }
        ensures err { OnErr result (self.new ≡ self.old) }
    {
        let slot = self.place.slot;
        match self.service.connect(self.rt, &mut self.actor, slot) {
            Ok(receipt) => {
                let connection = receipt.reply.connected();
                self.tell(made_by(connection));
                Ok(connection)
            }
            Err(refusal) => Err(BodyFault::from(refusal)),
        }
    }

    /// Closes a connection. Where it isn't live any more, what says so comes back.
    pub(crate) fn close(&mut self, c: ConnId) -> Result<Option<FoundClosed>, BodyFault>
        ensures { MatchResult result (λ found. HasClosed c found self.old self.new) (λ _. self.new ≡ self.old) }
    {
        match self.service.close(self.rt, &mut self.actor, c) {
            Ok(found) => {
                if found.is_none() {
                    self.tell(Made::Closed);
                }
                Ok(found)
            }
            Err(refusal) => Err(BodyFault::from(refusal)),
        }
    }

    /// Waits for the next packets of a connection, and takes at most a batch of them. The receipts are put in place of those that are lent.
    /// Where the connection is drained it is closed, and what says that nothing was in flight is put to `idle`.
    pub(crate) fn next_out(
        &mut self,
        c: ConnId,
        batch: Batch,
        taken: &mut Vec<Receipt<A>, A>,
        idle: &mut Option<Idle<B, A>>,
    ) -> Result<Outgoing, BodyFault>
        ensures next { IfOk result (λ next. HasNext batch c next idle.new self.old self.new) }
        ensures refused { OnErr result (self.new ≡ self.old) }
        ensures taken { self.new ≡ with_receipts self.old taken.new.items }
    {
        let next = self
            .service
            .next_batch(self.rt, &mut self.actor, c, batch, taken, idle)?;
        self.tell_out(next, taken.as_slice());
        Ok(next)
    }

    /// Passes the gate with the job of this ticket.
    pub(crate) fn enter(&self, ticket: Ticket) {
        self.gate.enter(self.rt, self.place.slot, ticket);
    }

    /// The link that it stands at won't connect.
    pub(crate) fn shut(&self) {
        self.service.shut(self.rt, self.place.slot);
    }

    /// The reader of the link that it stands at is done.
    pub(crate) fn reader_done(&self) {
        self.service.reader_done(self.rt, self.place.slot);
    }

    /// Waits until the link that it stands at has connected, or won't.
    pub(crate) fn meet(&self) -> Option<ConnId> {
        self.service.meet(self.rt, self.place.slot)
    }

    /// Where a body stopped, the run has failed, and the gate learns of it.
    pub(crate) fn fail_at_stop<T>(&self, end: &Result<T, BodyFault>) {
        if let Err(fault) = end
            && fault.is_stop()
        {
            self.service.fail(self.rt);
            self.gate.failed();
        }
    }
}

impl<'s, G: Gate, B: Ledger + Named, C: RouterCore<A> + Drop, R, A: Allocator + Copy> Caller<
    's,
    G,
    B,
    C,
    R,
    A,
> {
    /// Tells the gate of what was taken from a connection, or that it was closed.
    fn tell_out(&self, next: Outgoing, taken: &[Receipt<A>]) {
        match next {
            Outgoing::Packet => {
                for _ in taken {
                    self.tell(Made::Taken);
                }
            }
            Outgoing::Drained => self.tell(Made::Closed),
            Outgoing::Closed => {}
        }
    }

    /// Tells the gate of these admissions.
    pub(crate) fn tell_admitted(&self, receipts: &[Receipt<A>]) {
        for receipt in receipts {
            match receipt.reply.admitted() {
                Some(ticket) => self.tell(Made::Admitted(ticket)),
                None => self.tell(refused_by(&receipt.reply)),
            }
        }
    }

    /// What it waits by.
    pub(crate) fn rt(&self) -> &'s R {
        self.rt
    }

    /// Tells the gate of a step.
    pub(crate) fn tell(&self, made: Made) {
        self.gate.made(self.place, made);
    }

    /// Tells the gate that its half of a link has ended.
    pub(crate) fn tell_ended(&self, half: Half) {
        self.gate.ended(self.place, half);
    }

    /// Its actor, once it makes no more calls.
    pub(crate) fn into_actor(self) -> Actor<B, A>
        ensures { result ≡ self.entry }
    {
        let Caller { actor, .. } = self;
        actor
    }
}

/// Why no more descriptors are admitted where one was refused so.
pub(crate) fn halt_of(refusal: Refusal) -> Halt
    ensures { result ≡ halt_of refusal }
{
    match refusal {
        Refusal::NotLive => Halt::NotLive,
        _ => Halt::Stop(BodyFault::from(refusal)),
    }
}

/// The job of an event that was admitted.
fn job_of<A: Allocator>(ticket: Ticket, event: Event<A>) -> Option<Job<A>>
    ensures { (c : ℕ) (d : Packet) → event ≡ Admit c d → result ≡ Some (record { ticket = ticket; descriptor = d }) }
{
    match event {
        Event::Admit(_c, descriptor) => Some(Job { ticket, descriptor }),
        _other => None,
    }
}

/// What an admission made that was refused with this reply.
fn refused_by<A: Allocator>(reply: &Reply<A>) -> Made {
    Made::Refused {
        own: matches!(reply, Reply::Crowded),
    }
}

/// What a Connect made, by the connection that it gave.
fn made_by(connection: Option<ConnId>) -> Made {
    match connection {
        Some(_) => Made::Connected,
        None => Made::TooMany,
    }
}
