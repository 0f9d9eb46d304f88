//! What lies under the lock of a service, and the calls that make several steps in one hold of it.

ghost use Rattle.std.specs.Prelude.{◌≡◌, ◌<◌, ◌∷◌, ◌++◌, [], true, length, map, vec_capacity, vec_len, MatchResult};
ghost use Rattle.gn_rules.specs.declared.event.Event.TheVariants.{Route};
ghost use Rattle.gn_rules.specs.Fits.{refuses};
ghost use Rattle.gn_hub.specs.Receipts.{AreKept, HasProgressed, HasReceipt};

use crate::answered::Answered;
use crate::asleep::{Asleep, Queued};
use crate::hub::Hub;
use crate::progress::Progress;
use crate::wakes::Wakes;
use gn_actors::{Actor, Named};
use gn_payload::Checked;
use gn_room::Room;
use gn_rules::{Event, Receipt, Refusal, RouterCore, Ticket};
use std::alloc::{Allocator, Global};
use std::sync::ledger::Ledger;

/// What lies under the lock: the hub, and who sleeps.
#[derive(Drop)]
pub(crate) struct Held<C: RouterCore<A> + Drop, L: Ledger + Named, A: Allocator + Copy = Global> {
    pub hub: Hub<C, L, A>,
    pub asleep: Asleep,
}

/// Whether there is room for one more step without waiting, where there was room for so many when a call began, which has made so many.
/// It has waited for room for the first.
fn has_room(done: usize, free: u64) -> bool
    ensures { done ≡ 0 → result ≡ true }
{
    done == 0 || (done as u64) < free
}

impl<C: RouterCore<A> + Drop, L: Ledger + Named, A: Allocator + Copy> Held<C, L, A> {
    /// Puts the receipt of a step to those that are kept, and those who sleep and whom the step concerns to the woken.
    #[inline(always)]
    fn keep(
        &mut self,
        receipt: Receipt<A>,
        wakes: Wakes,
        woken: &mut Asleep,
        kept: &mut Vec<Receipt<A>, A>,
    )
        requires room { vec_len kept.old < vec_capacity kept.old }
        ensures { kept.new.items ≡ kept.old.items ++ receipt ∷ [] }
    {
        woken.add(self.asleep.take(wakes, receipt.reply.sends()));
        kept.push_reserved(receipt);
    }

    /// Takes an actor's event. Its receipt is put to those that are kept; those who sleep and whom the step concerns, to the woken.
    #[inline(always)]
    #[tactic(auto, using(crate::proofs::KeptLemmas::none_kept))]
    fn call_one(
        &mut self,
        me: &mut Actor<L, A>,
        event: &Event<A>,
        woken: &mut Asleep,
        kept: &mut Vec<Receipt<A>, A>,
    ) -> Result<(), Refusal>
        ensures answer { MatchResult result
            (λ _. HasReceipt event.now me.old me.new)
            (λ refusal. (refuses event.now refusal ≡ true) × (me.new ≡ me.old)) }
        ensures kept { AreKept kept.old.items kept.new.items me.old me.new }
    {
        kept.reserve(1)?;
        let Answered { answer, wakes } = self.hub.call_answered(me, event);
        let receipt = answer?;
        self.keep(receipt, wakes, woken, kept);
        Ok(())
    }

    /// Routes a ticket for an actor, with the descriptor's payload checked beforehand. Those who sleep and whom the step concerns are put
    /// to the woken.
    #[inline(always)]
    fn route_one(
        &mut self,
        me: &mut Actor<L, A>,
        ticket: Ticket,
        checked: &Checked<A>,
        woken: &mut Asleep,
    ) -> Result<(), Refusal>
        ensures answer { MatchResult result
            (λ _. HasReceipt (Route ticket) me.old me.new)
            (λ refusal. (refuses {A = A} (Route ticket) refusal ≡ true) × (me.new ≡ me.old)) }
    {
        let Answered { answer, wakes } = self.hub.pass_answered(me, ticket, checked);
        let queued: Queued = answer?;
        woken.add(self.asleep.take_told(wakes, queued));
        Ok(())
    }

    /// Takes an actor's events in order, until one is refused, or a further one would have to wait for room.
    pub fn call_all(
        &mut self,
        me: &mut Actor<L, A>,
        events: &[Event<A>],
        room: &Room,
        woken: &mut Asleep,
        kept: &mut Vec<Receipt<A>, A>,
    ) -> Progress
        requires some { 0 < length events.now }
        ensures made { HasProgressed events.now result me.old me.new }
        ensures kept { AreKept kept.old.items kept.new.items me.old me.new }
    {
        let free = room.free(self.hub.book());
        let mut done = 0;
        for event in events {
            if !has_room(done, free) {
                break;
            }
            if let Err(refusal) = self.call_one(me, event, woken, kept) {
                return Progress {
                    done,
                    refusal: Some(refusal),
                };
            }
            done += 1;
        }
        Progress {
            done,
            refusal: None,
        }
    }

    /// As `call_all`, of Routes, with their descriptors' payloads checked beforehand, whose receipts nobody needs.
    pub fn route_all(
        &mut self,
        me: &mut Actor<L, A>,
        jobs: &[(Ticket, Checked<A>)],
        room: &Room,
        woken: &mut Asleep,
    ) -> Progress
        requires some { 0 < length jobs.now }
        ensures made { HasProgressed (map (λ job. Route job.0) jobs.now) result me.old me.new }
    {
        let free = room.free(self.hub.book());
        let mut done = 0;
        for job in jobs {
            if !has_room(done, free) {
                break;
            }
            if let Err(refusal) = self.route_one(me, job.0, &job.1, woken) {
                return Progress {
                    done,
                    refusal: Some(refusal),
                };
            }
            done += 1;
        }
        Progress {
            done,
            refusal: None,
        }
    }
}
