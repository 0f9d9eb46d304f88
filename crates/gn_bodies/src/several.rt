//! How a reader admits several descriptors in one hold of the lock.

ghost use Rattle.std.specs.Prelude.{◌≡◌, ◌<◌, ◌≤◌, ◌++◌, ℕ, List, length, map, take, IfErr, IfOk, OnOk};
ghost use Rattle.gn_stage.specs.Jobs.{Queued};
ghost use Rattle.gn_bodies.specs.declared.piece.Halt.TheVariants as halt;
ghost use Rattle.gn_bodies.specs.Events.{link_events};
ghost use Rattle.gn_wire.specs.Packet.{Packet};
ghost use Rattle.gn_rules.specs.declared.event.Event.TheVariants.{Admit};
ghost use Rattle.gn_bodies.specs.Admitting.{GoesOn, IsOwing, IsSettled, KeepsLink, jobs_by};
ghost use Rattle.gn_bodies.specs.Jobs.{job_by};

use crate::caller::halt_of;
use crate::ends::BodyFault;
use crate::handler::ReaderHandler;
use crate::piece::Halt;
use gn_actors::Named;
use gn_hub::{Batch, Progress};
use gn_links::Gate;
use gn_rules::{ConnId, Event, Receipt, RouterCore};
use gn_stage::{Job, Site};
use gn_wire::Descriptor;
use std::alloc::{AllocError, Allocator};
use std::sync::Wait;
use std::sync::ledger::Ledger;

/// Puts the job of an admission behind these, where it gave one. An `Err` is out of memory.
fn add_job_of<A: Allocator>(
    receipt: &Receipt<A>,
    jobs: &mut Vec<Job<A>, A>,
) -> Result<(), AllocError>
    ensures { (c : ℕ) (d : Packet) → receipt.now.event ≡ Admit c d
        → OnOk result (jobs.new.items ≡ jobs.old.items ++ job_by receipt.now.event receipt.now.reply) }
{
    let Some(ticket) = receipt.reply.admitted() else {
        return Ok(());
    };
    let Event::Admit(_c, descriptor) = &receipt.event else {
        return Ok(());
    };
    let descriptor = descriptor.copy()?;
    jobs.push(Job { ticket, descriptor })?;
    Ok(())
}

/// The jobs of these admissions, in order. An `Err` is out of memory.
pub(crate) fn jobs_of<A: Allocator>(
    alloc: A,
    receipts: &[Receipt<A>],
) -> Result<Vec<Job<A>, A>, AllocError>
    ensures { IfOk result (λ jobs. (c : ℕ) (ds : List Packet) → map (λ r. r.event) receipts.now ≡ map (Admit c) ds
        → jobs.items ≡ jobs_by receipts.now) }
{
    let mut jobs = Vec::new(alloc);
    for receipt in receipts {
        add_job_of(receipt, &mut jobs)?;
    }
    Ok(jobs)
}

/// The Admits of these descriptors, in order. An `Err` is out of memory.
fn admits_of<A: Allocator>(
    alloc: A,
    c: ConnId,
    descriptors: Vec<Descriptor<A>, A>,
) -> Result<Vec<Event<A>, A>, AllocError>
    ensures { IfOk result (λ events. events.items ≡ map (Admit c) descriptors.items) }
{
    let mut events = Vec::new(alloc);
    for descriptor in descriptors {
        events.push(Event::Admit(c, descriptor))?;
    }
    Ok(events)
}

/// Where the next batch ends of so many descriptors, of which those before a place are admitted.
fn end_of_batch(at: usize, count: usize, batch: Batch) -> usize
    requires { at < count }
    ensures { (at < result) × (result ≤ count) }
{
    count.min(at.saturating_add(batch.most() as usize))
}

impl<
    's,
    G: Gate,
    B: Site + Ledger + Named,
    C: RouterCore<A> + Drop,
    R: Wait,
    A: Allocator + Copy,
> ReaderHandler<'s, G, B, C, R, A> {
    /// Puts the jobs of these admissions, which were made together. Where memory for them is refused, their routes are marked as refused.
    fn put_admitted(&mut self, receipts: &[Receipt<A>]) -> Result<(), Halt>
        ensures link { KeepsLink self.old self.new }
        ensures settled { (before : List Queued) (c : ℕ) (ds : List Packet)
            → map (λ r. r.event) receipts.now ≡ map (Admit c) ds
            → IsOwing before (jobs_by receipts.now) self.old → IsSettled before self.new }
        ensures stops { IfErr result (λ why. why ≡ halt.NotLive → ⊥) }
    {
        self.caller.tell_admitted(receipts);
        let Ok(jobs) = jobs_of(self.caller.alloc, receipts) else {
            self.is_refused = true;
            return Err(Halt::Stop(BodyFault::NoMemory));
        };
        self.put_all(jobs)
    }

    /// Admits the first of these descriptors in one hold of the lock, and puts their jobs. How many. The receipts are put in place of
    /// those that are lent.
    fn admit_some(
        &mut self,
        events: &[Event<A>],
        kept: &mut Vec<Receipt<A>, A>,
    ) -> Result<usize, Halt>
        requires some { 0 < length events.now }
        requires admits { (c : ℕ) × (ds : List Packet) × (events.now ≡ map (Admit c) ds) }
        ensures goes_on { GoesOn self.old self.new }
        ensures ok { IfOk result (λ n. (0 < n) × (n ≤ length events.now)
            × (link_events self.new.actor ≡ link_events self.old.actor ++ take n events.now)) }
        ensures not_live { IfErr result (λ why. why ≡ halt.NotLive → (n : ℕ) × (n < length events.now)
            × (link_events self.new.actor ≡ link_events self.old.actor ++ take n events.now)) }
    {
        let Progress { done, refusal } = self.caller.call_all(events, kept);
        self.put_admitted(kept.as_slice())?;
        match refusal {
            None => Ok(done),
            Some(refusal) => Err(halt_of(refusal)),
        }
    }

    /// Admits these descriptors in order, at most a batch in one hold of the lock.
    fn admit_events(
        &mut self,
        events: &[Event<A>],
        kept: &mut Vec<Receipt<A>, A>,
    ) -> Result<(), Halt>
        requires admits { (c : ℕ) × (ds : List Packet) × (events.now ≡ map (Admit c) ds) }
        ensures goes_on { GoesOn self.old self.new }
        ensures ok { OnOk result (link_events self.new.actor ≡ link_events self.old.actor ++ events.now) }
        ensures not_live { IfErr result (λ why. why ≡ halt.NotLive → (n : ℕ) × (n < length events.now)
            × (link_events self.new.actor ≡ link_events self.old.actor ++ take n events.now)) }
    {
        let mut at: usize = 0;
        while at < events.len() {
            let end = end_of_batch(at, events.len(), self.batch);
            at += self.admit_some(&events[at..end], kept)?;
        }
        Ok(())
    }

    /// Admits these descriptors in order, at most a batch in one hold of the lock, and puts their jobs after each.
    pub(crate) fn admit_batches(
        &mut self,
        c: ConnId,
        descriptors: Vec<Descriptor<A>, A>,
    ) -> Result<(), Halt>
        ensures goes_on { GoesOn self.old self.new }
        ensures ok { OnOk result (link_events self.new.actor
            ≡ link_events self.old.actor ++ map (Admit c) descriptors.items) }
        ensures not_live { IfErr result (λ why. why ≡ halt.NotLive → (n : ℕ) × (n < length descriptors.items)
            × (link_events self.new.actor ≡ link_events self.old.actor ++ map (Admit c) (take n descriptors.items))) }
    {
        let Ok(events) = admits_of(self.caller.alloc, c, descriptors) else {
            return Err(Halt::Stop(BodyFault::NoMemory));
        };
        let mut kept = Vec::new(self.caller.alloc);
        let answer = self.admit_events(events.as_slice(), &mut kept);
        drop(events);
        answer
    }
}
