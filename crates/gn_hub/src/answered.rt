//! The calls on the hub by what they do to the actor, and whom they may have brought what they wait for.

ghost use Rattle.std.specs.Prelude.{◌≡◌, [], ℕ, true, false, if◌then◌else◌, Some, None, Ok, Err, IfErr, IfOk, MatchResult};
ghost use Rattle.gn_rules.specs.declared.event.Event.TheVariants.{Connect, Route};
ghost use Rattle.gn_rules.specs.declared.reply.Reply.{Reply};
ghost use Rattle.gn_rules.specs.Fits.{refuses};
ghost use Rattle.gn_rules.specs.History.{live};
ghost use Rattle.gn_hub.specs.HubState.{is_closing, may_take, past_of, with_slot};
ghost use Rattle.gn_hub.specs.ActorState.{receipt, with_receipt};
ghost use Rattle.gn_hub.specs.Receipts.{AreKept, HasClosed, HasDrained, HasReceipt, HasTaken, HasTakenMore, HasTakenSome, HasThis, IsDrainedAt, is_stop};
ghost use Rattle.gn_hub.specs.Waking.{LeavesOthers, LeavesWaiting, wakes_of};
ghost use Rattle.gn_hub.specs.declared.wakes.Wakes.TheVariants.{Nobody, Everybody};
ghost use Rattle.gn_hub.specs.declared.next.Outgoing.TheVariants.{Packet, Drained, Closed};

use crate::batch::Batch;
use crate::found::FoundClosed;
use crate::hub::Hub;
use crate::idle::Idle;
use crate::next::Outgoing;
use crate::wakes::Wakes;
use gn_actors::{Actor, Named};
use gn_payload::Checked;
use gn_room::Room;
use gn_rules::{
    ConnId, Event, Excerpt, Receipt, Refusal, RouterCore, Ticket, answers_fit, checked_answers_fit,
};
use gn_shake::Role;
use std::alloc::Allocator;
use std::sync::ledger::Ledger;

/// What a call answered, and who has to look again.
pub(crate) struct Answered<T> {
    pub answer: Result<T, Refusal>,
    pub wakes: Wakes,
}

impl<T> Answered<T> {
    /// A refusal changes nothing.
    fn refused(refusal: Refusal) -> Answered<T>
        ensures answer { result.answer ≡ Err refusal }
        ensures wakes { result.wakes ≡ Nobody }
    {
        Answered {
            answer: Err(refusal),
            wakes: Wakes::Nobody,
        }
    }
}

impl<C: RouterCore<A>, L: Ledger + Named, A: Allocator + Copy> Hub<C, L, A> {
    /// `call`, for the lock.
    #[inline(always)]
    pub(crate) fn call_answered(
        &mut self,
        me: &mut Actor<L, A>,
        event: &Event<A>,
    ) -> Answered<Receipt<A>>
        ensures answer { MatchResult result.answer
            (λ _. HasReceipt event.now me.old me.new)
            (λ refusal. (refuses event.now refusal ≡ true) × (me.new ≡ me.old)) }
        ensures receipt { IfOk result.answer (λ r. HasThis event.now r me.old me.new) }
        ensures got { IfOk result.answer (λ r. me.new ≡ with_receipt me.old r) }
        ensures quiet { MatchResult result.answer
            (λ _. LeavesOthers result.wakes me.new self.old self.new)
            (λ _. self.new ≡ self.old) }
    {
        answers_fit::<A>();
        match self.call(me, event) {
            Ok(receipt) => Answered {
                answer: Ok(receipt),
                wakes: self.wakes_of(event),
            },
            Err(refusal) => Answered::refused(refusal),
        }
    }

    /// `route`, for the lock.
    #[inline(always)]
    pub(crate) fn route_answered(
        &mut self,
        me: &mut Actor<L, A>,
        ticket: Ticket,
        checked: &Checked<A>,
    ) -> Answered<Receipt<A>>
        ensures answer { MatchResult result.answer
            (λ _. HasReceipt (Route ticket) me.old me.new)
            (λ refusal. (refuses {A = A} (Route ticket) refusal ≡ true) × (me.new ≡ me.old)) }
        ensures receipt { IfOk result.answer (λ r. HasThis (Route ticket) r me.old me.new) }
        ensures got { IfOk result.answer (λ r. me.new ≡ with_receipt me.old r) }
        ensures quiet { MatchResult result.answer
            (λ _. LeavesOthers result.wakes me.new self.old self.new)
            (λ _. self.new ≡ self.old) }
    {
        checked_answers_fit::<A>();
        match self.route(me, ticket, checked) {
            Ok(receipt) => Answered {
                answer: Ok(receipt),
                wakes: self.wakes_at_least(Wakes::Queued),
            },
            Err(refusal) => Answered::refused(refusal),
        }
    }

    /// `pass`, for the lock.
    #[inline(always)]
    pub(crate) fn pass_answered<E: Excerpt<A>>(
        &mut self,
        me: &mut Actor<L, A>,
        ticket: Ticket,
        checked: &Checked<A>,
    ) -> Answered<E>
        ensures answer { MatchResult result.answer
            (λ _. HasReceipt (Route ticket) me.old me.new)
            (λ refusal. (refuses {A = A} (Route ticket) refusal ≡ true) × (me.new ≡ me.old)) }
        ensures told { IfOk result.answer (λ told. (index : ℕ) × (reply : Reply A)
            × (me.new ≡ with_receipt me.old (receipt index (Route ticket) reply)) × E.tells told reply) }
        ensures quiet { MatchResult result.answer
            (λ _. LeavesOthers result.wakes me.new self.old self.new)
            (λ _. self.new ≡ self.old) }
    {
        checked_answers_fit::<A>();
        match self.pass(me, ticket, checked) {
            Ok(told) => Answered {
                answer: Ok(told),
                wakes: self.wakes_at_least(Wakes::Queued),
            },
            Err(refusal) => Answered::refused(refusal),
        }
    }

    /// `connect`, for the lock. An open or shut door is what those wait for who meet a link.
    pub(crate) fn connect_answered(
        &mut self,
        me: &mut Actor<L, A>,
        link: u32,
    ) -> Answered<Receipt<A>>
        ensures answer { MatchResult result.answer
            (λ _. HasReceipt Connect me.old me.new)
            (λ refusal. (refuses {A = A} Connect refusal ≡ true) × (me.new ≡ me.old)) }
        ensures receipt { IfOk result.answer (λ r. HasThis Connect r me.old me.new) }
        ensures quiet { LeavesWaiting result.wakes [] self.old self.new }
    {
        answers_fit::<A>();
        match self.connect(me, link) {
            Ok(receipt) => Answered {
                answer: Ok(receipt),
                wakes: self.wakes_at_least(Wakes::Doors),
            },
            Err(refusal) => Answered::refused(refusal),
        }
    }

    /// `outgoing`, for the lock. Where the connection is over, this call may have closed it.
    pub(crate) fn outgoing_answered(
        &mut self,
        me: &mut Actor<L, A>,
        c: ConnId,
        kept: &mut Vec<Receipt<A>, A>,
        idle: &mut Option<Idle<L, A>>,
    ) -> Answered<Option<Outgoing>>
        ensures packet { IfOk result.answer (λ next. next ≡ Some Packet → HasTaken c me.old me.new) }
        ensures drained { IfOk result.answer (λ next. next ≡ Some Drained → HasDrained c me.old me.new) }
        ensures closed { IfOk result.answer (λ next. next ≡ Some Closed → me.new ≡ me.old) }
        ensures later { IfOk result.answer (λ next. next ≡ None → me.new ≡ me.old) }
        ensures refused { IfErr result.answer (λ refusal. (is_stop refusal ≡ true) × (me.new ≡ me.old)) }
        ensures kept { AreKept kept.old.items kept.new.items me.old me.new }
        ensures idle { IfOk result.answer (λ next. next ≡ Some Drained → IsDrainedAt c idle.new me.old me.new) }
        ensures quiet { LeavesWaiting result.wakes [] self.old self.new }
    {
        answers_fit::<A>();
        match self.outgoing(me, c, kept, idle) {
            Ok(Some(Outgoing::Packet)) => Answered {
                answer: Ok(Some(Outgoing::Packet)),
                wakes: self.wakes_at_least(Wakes::Nobody),
            },
            Ok(Some(over)) => Answered {
                answer: Ok(Some(over)),
                wakes: Wakes::Everybody,
            },
            Ok(None) => Answered {
                answer: Ok(None),
                wakes: Wakes::Nobody,
            },
            Err(refusal) => Answered::refused(refusal),
        }
    }

    /// As `outgoing_answered`, with further packets where the first was one: at most a batch in all.
    pub(crate) fn batch_answered(
        &mut self,
        me: &mut Actor<L, A>,
        c: ConnId,
        batch: Batch,
        room: &Room,
        kept: &mut Vec<Receipt<A>, A>,
        idle: &mut Option<Idle<L, A>>,
    ) -> Answered<Option<Outgoing>>
        ensures packet { IfOk result.answer (λ next. next ≡ Some Packet → HasTakenSome batch c me.old me.new) }
        ensures drained { IfOk result.answer (λ next. next ≡ Some Drained → HasDrained c me.old me.new) }
        ensures closed { IfOk result.answer (λ next. next ≡ Some Closed → me.new ≡ me.old) }
        ensures later { IfOk result.answer (λ next. next ≡ None → me.new ≡ me.old) }
        ensures refused { IfErr result.answer (λ refusal. (is_stop refusal ≡ true) × (me.new ≡ me.old)) }
        ensures kept { AreKept kept.old.items kept.new.items me.old me.new }
        ensures idle { IfOk result.answer (λ next. next ≡ Some Drained → IsDrainedAt c idle.new me.old me.new) }
        ensures quiet { LeavesWaiting result.wakes [] self.old self.new }
    {
        let Answered { answer, wakes } = self.outgoing_answered(me, c, kept, idle);
        if !matches!(answer, Ok(Some(Outgoing::Packet))) {
            return Answered { answer, wakes };
        }
        let closes = self.take_more(me, c, batch.most() - 1, room, kept);
        let wakes = if closes { Wakes::Everybody } else { wakes };
        Answered { answer, wakes }
    }

    /// Takes further packets of a connection, at most so many, until none waits, a step is refused, or one would have to wait for room.
    /// Whether the run closes.
    fn take_more(
        &mut self,
        me: &mut Actor<L, A>,
        c: ConnId,
        most: u32,
        room: &Room,
        kept: &mut Vec<Receipt<A>, A>,
    ) -> bool
        ensures taken { HasTakenMore most c me.old me.new }
        ensures kept { AreKept kept.old.items kept.new.items me.old me.new }
        ensures quiet { result ≡ false → LeavesWaiting Nobody [] self.old self.new }
    {
        let mut closes = false;
        let mut free = room.free(self.book());
        for _ in 0..most {
            match self.take_another(me, c, free, kept) {
                Ok(closing) => closes = closes || closing,
                Err(_) => break,
            }
            free = free.saturating_sub(1);
        }
        closes
    }

    /// Takes one more packet of a connection, where there is room for so many more steps. Whether the run closes. `NothingWaiting` also
    /// where its step would have to wait for room.
    fn take_another(
        &mut self,
        me: &mut Actor<L, A>,
        c: ConnId,
        free: u64,
        kept: &mut Vec<Receipt<A>, A>,
    ) -> Result<bool, Refusal>
        ensures taken { IfOk result (λ _. HasTaken c me.old me.new) }
        ensures kept { AreKept kept.old.items kept.new.items me.old me.new }
        ensures quiet { IfOk result (λ closes. closes ≡ false → LeavesWaiting Nobody [] self.old self.new) }
        ensures refused { IfErr result (λ _. (self.new ≡ self.old) × (me.new ≡ me.old)) }
    {
        answers_fit::<A>();
        if free == 0 || self.router().waiting(c) == 0 {
            return Err(Refusal::NothingWaiting);
        }
        self.call_kept(me, Event::Take(c), kept)?;
        Ok(self.closing())
    }

    /// `close`, for the lock. The end of a connection is what somebody waits for.
    pub(crate) fn close_answered(
        &mut self,
        me: &mut Actor<L, A>,
        c: ConnId,
    ) -> Answered<Option<FoundClosed>>
        ensures answer { MatchResult result.answer
            (λ found. HasClosed c found me.old me.new)
            (λ refusal. (is_stop refusal ≡ true) × (me.new ≡ me.old)) }
        ensures found { IfOk result.answer (λ found. found ≡ Some c → live (past_of self.old) c ≡ false) }
        ensures quiet { LeavesWaiting result.wakes [] self.old self.new }
    {
        answers_fit::<A>();
        match self.step_with(me, Event::Close(c)) {
            Ok(()) => Answered {
                answer: Ok(None),
                wakes: self.wakes_at_least(Wakes::Writer(c)),
            },
            Err(Refusal::NotLive) => Answered {
                answer: Ok(Some(FoundClosed::of(c))),
                wakes: Wakes::Nobody,
            },
            Err(refusal) => Answered::refused(refusal),
        }
    }

    /// `take_slot`, for the lock, where a link may take that slot. Whether it did. Nobody waits for this.
    #[tactic(auto, using(crate::proofs::WakingLemmas::coming_leaves, crate::proofs::WakingLemmas::unchanged))]
    pub(crate) fn slot_answered(&mut self, slot: u32, role: Role) -> bool
        ensures may { result ≡ may_take self.old slot }
        ensures taken { self.new ≡ (if may_take self.old slot then with_slot self.old slot role else self.old) }
        ensures quiet { LeavesWaiting Nobody [] self.old self.new }
    {
        if !self.may_take(slot) {
            return false;
        }
        self.take_slot(slot, role);
        true
    }

    /// Whom an event's step, the last one, may have brought what they wait for.
    fn wakes_of(&self, event: &Event<A>) -> Wakes
        ensures { result ≡ wakes_of event.now self.now }
    {
        match event {
            Event::Close(c) => self.wakes_at_least(Wakes::Writer(*c)),
            _ => self.wakes_at_least(Wakes::Queued),
        }
    }

    /// Everybody where the run closes, else these.
    fn wakes_at_least(&self, wakes: Wakes) -> Wakes
        ensures { result ≡ (if is_closing self.now then Everybody else wakes) }
    {
        if self.closing() {
            Wakes::Everybody
        } else {
            wakes
        }
    }
}
