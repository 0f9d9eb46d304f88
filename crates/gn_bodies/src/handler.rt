//! A reader at work: how it admits descriptors, and puts their jobs.

ghost use Rattle.std.specs.Prelude.{◌≡◌, ◌∷◌, ◌++◌, ◌<◌, [], ℕ, List, length, map, take, true, IfErr, OnErr, OnOk};
ghost use Rattle.gn_rules.specs.declared.event.Event.TheVariants.{Admit};
ghost use Rattle.gn_stage.specs.Jobs.{Queued};
ghost use Rattle.gn_bodies.specs.declared.piece.Halt.TheVariants as halt;
ghost use Rattle.gn_bodies.specs.Admitting.{GoesOn, IsOwed, IsOwing, IsSettled, KeepsLink};
ghost use Rattle.gn_bodies.specs.Events.{link_events};

use crate::caller::Caller;
use crate::piece::Halt;
use gn_actors::Named;
use gn_hub::Batch;
use gn_links::{Gate, Made};
use gn_payload::Checked;
use gn_rules::{ConnId, RouterCore};
use gn_stage::{Intake, Job, Site};
use gn_wire::Descriptor;
use std::alloc::{Allocator, Global};
use std::marker::Model;
use std::sync::Wait;
use std::sync::ledger::Ledger;

/// A reader at work: its actor's calls and its intake, and whether a job that was handed back was refused its route.
#[derive(Drop)]
pub(crate) struct ReaderHandler<
    's,
    G,
    B: Site + Ledger + Named,
    C: RouterCore<A> + Drop,
    R,
    A: Allocator + Copy = Global,
> {
    pub(crate) caller: Caller<'s, G, B, C, R, A>,
    pub(crate) intake: Intake<B, A>,
    pub(crate) batch: Batch,
    pub(crate) is_refused: bool,
}

impl<'s, G, B: Site + Ledger + Named, C: RouterCore<A> + Drop, R, A: Allocator + Copy> Model
    for ReaderHandler<'s, G, B, C, R, A> {
    ghost use Rattle.gn_bodies.specs.Admitting.{Admitting};

    ghost Value = { Admitting A };

    ghost view = { λ h. record { actor = h.caller; intake = h.intake; is_refused = h.is_refused } };
}

impl<
    's,
    G: Gate,
    B: Site + Ledger + Named,
    C: RouterCore<A> + Drop,
    R: Wait,
    A: Allocator + Copy,
> ReaderHandler<'s, G, B, C, R, A> {
    /// Admits a descriptor, and puts its job, or routes it where it is handed back.
    fn admit(&mut self, c: ConnId, descriptor: Descriptor<A>) -> Result<(), Halt>
        ensures goes_on { GoesOn self.old self.new }
        ensures ok { OnOk result (link_events self.new.actor ≡ link_events self.old.actor ++ Admit c descriptor ∷ []) }
        ensures not_live { IfErr result (λ why. why ≡ halt.NotLive
            → link_events self.new.actor ≡ link_events self.old.actor) }
    {
        match self.caller.admit(c, descriptor) {
            Ok(Some(job)) => self.put(job),
            Ok(None) => Ok(()),
            Err(why) => Err(why),
        }
    }

    /// Puts the job that was admitted last, or routes it where it is handed back. A route that is refused is marked.
    fn put(&mut self, job: Job<A>) -> Result<(), Halt>
        ensures link { KeepsLink self.old self.new }
        ensures settled { (before : List Queued) → IsOwed before job self.old → IsSettled before self.new }
        ensures stops { IfErr result (λ why. why ≡ halt.NotLive → ⊥) }
    {
        let Err(back) = self.intake.put(self.caller.rt(), job) else {
            return Ok(());
        };
        let Job { ticket, descriptor } = back;
        let checked = Checked::new(descriptor);
        match self.caller.route(ticket, checked) {
            Ok(()) => {
                self.caller.tell(Made::Routed);
                Ok(())
            }
            Err(fault) => {
                self.is_refused = true;
                Halt::at_stop(fault)
            }
        }
    }

    /// Puts a job that was admitted together with others, which are put before and after it. Where it is handed back, its admission isn't
    /// the last receipt any more, so that its route is marked as one that is refused. It is handed back only in a run that has failed.
    fn put_one_of(&mut self, job: Job<A>) -> Result<(), Halt>
        ensures link { KeepsLink self.old self.new }
        ensures owing { (before left : List Queued) → IsOwing before (job ∷ left) self.old
            → IsOwing before left self.new }
        ensures marked { OnErr result (self.new.is_refused ≡ true) }
        ensures stops { IfErr result (λ why. why ≡ halt.NotLive → ⊥) }
    {
        let Err(back) = self.intake.put(self.caller.rt(), job) else {
            return Ok(());
        };
        self.is_refused = true;
        let Job { ticket, descriptor } = back;
        let checked = Checked::new(descriptor);
        match self.caller.route(ticket, checked) {
            Ok(()) => {
                self.caller.tell(Made::Routed);
                Ok(())
            }
            Err(fault) => Halt::at_stop(fault),
        }
    }

    /// Puts these jobs in order, which were admitted together.
    pub(crate) fn put_all(&mut self, jobs: Vec<Job<A>, A>) -> Result<(), Halt>
        ensures link { KeepsLink self.old self.new }
        ensures settled { (before : List Queued) → IsOwing before jobs.items self.old → IsSettled before self.new }
        ensures stops { IfErr result (λ why. why ≡ halt.NotLive → ⊥) }
    {
        for job in jobs {
            if let Err(why) = self.put_one_of(job) {
                return Err(why);
            }
        }
        Ok(())
    }

    /// Admits these descriptors in order.
    pub(crate) fn admit_all(
        &mut self,
        c: ConnId,
        descriptors: Vec<Descriptor<A>, A>,
    ) -> Result<(), Halt>
        ensures goes_on { GoesOn self.old self.new }
        ensures ok { OnOk result (link_events self.new.actor
            ≡ link_events self.old.actor ++ map (Admit c) descriptors.items) }
        ensures not_live { IfErr result (λ why. why ≡ halt.NotLive → (n : ℕ) × (n < length descriptors.items)
            × (link_events self.new.actor ≡ link_events self.old.actor ++ map (Admit c) (take n descriptors.items))) }
    {
        if self.batch.most() == 1 || descriptors.len() == 1 {
            return self.admit_each(c, descriptors);
        }
        self.admit_batches(c, descriptors)
    }

    /// Admits these descriptors in order, each in a hold of the lock of its own.
    fn admit_each(&mut self, c: ConnId, descriptors: Vec<Descriptor<A>, A>) -> Result<(), Halt>
        ensures goes_on { GoesOn self.old self.new }
        ensures ok { OnOk result (link_events self.new.actor
            ≡ link_events self.old.actor ++ map (Admit c) descriptors.items) }
        ensures not_live { IfErr result (λ why. why ≡ halt.NotLive → (n : ℕ) × (n < length descriptors.items)
            × (link_events self.new.actor ≡ link_events self.old.actor ++ map (Admit c) (take n descriptors.items))) }
    {
        for descriptor in descriptors {
            if let Err(why) = self.admit(c, descriptor) {
                return Err(why);
            }
        }
        Ok(())
    }
}
