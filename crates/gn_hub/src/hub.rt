//! What lies under the lock: the router, the annals of its steps, and what is known of the links.

ghost use Rattle.std.specs.Prelude.{◌≡◌, ◌≢◌, ◌≤◌, ◌<◌, ◌+◌, ◌^◌, ◌==◌, ◌∷◌, ◌++◌, [], ℕ, true, false, length, reverse, take, Some, Ok, IfOk, MatchResult};
ghost use mathlib.Core.List.{IsPrefix};
ghost use Rattle.std.specs.List.{slice_get};
ghost use Rattle.gn_rules.specs.Answer.{checked_answer};
ghost use Rattle.gn_rules.specs.Flight.{flying};
ghost use Rattle.gn_rules.specs.History.{live};
ghost use Rattle.gn_rules.specs.declared.event.Event.TheVariants.{Connect, Route};
ghost use Rattle.gn_rules.specs.declared.reply.Reply.{Reply};
ghost use Rattle.gn_hub.specs.declared.mark.Door.TheVariants.{Shut};
ghost use Rattle.gn_hub.specs.declared.next.Outgoing.TheVariants.{Drained};
ghost use Rattle.gn_hub.specs.HubState.{are_read, door_by, door_of, is_closing, may_take, past_of, with_door, with_reader_done, with_slot};
ghost use Rattle.gn_actors.specs.Annals.{Fits};
ghost use Rattle.gn_actors.specs.Registry.{AreWhole, IsOut, with_home};
ghost use Rattle.gn_hub.specs.Calls.{HasConnected, HasGot, HasStepped, IsNext, IsOutgoing, IsRefusal, IsStop, answer_now, due, is_step};
ghost use Rattle.gn_hub.specs.Receipts.{AreKept, IsDrainedAt};
ghost use Rattle.gn_hub.specs.Retired.{IsRetired};

use crate::idle::Idle;
use crate::mark::{Door, Mark};
use crate::next::{Next, Outgoing, next_of};
use crate::retiring::{Retired, Retiring};
use crate::slots::Slots;
use gn_actors::{Actor, Annals, Named, Registry};
use gn_payload::Checked;
use gn_rules::{
    ConnId, Event, Excerpt, Receipt, Refusal, Reply, RouterCore, Ticket, checked_answers_fit,
};
use gn_shake::Role;
use gn_trail::Trail;
use std::alloc::{Allocator, Global};
use std::collections::LinkedList;
use std::marker::Model;
use std::sync::ledger::Ledger;

/// The router that the threads of a run share, the annals of its steps, what is known of the links, each at its slot, whether more
/// links may come, whether all that came call, and whether the run has failed. The annals are the router's history.
pub struct Hub<C: RouterCore<A>, L: Ledger + Named, A: Allocator + Copy = Global> {
    core: C,
    annals: Annals<L, A>,
    slots: Slots<A>,
    is_open: bool,
    all_call: bool,
    failed: bool,
}

impl<C: RouterCore<A> + Drop, L: Ledger + Named, A: Allocator + Copy> Drop for Hub<C, L, A> {
    fn drop(self) {
        let Hub {
            core: _,
            annals: _,
            slots: _,
            is_open: _,
            all_call: _,
            failed: _,
        } = self;
    }
}

impl<C: RouterCore<A>, L: Ledger + Named, A: Allocator + Copy> Model for Hub<C, L, A> {
    ghost use Rattle.std.specs.Prelude.{◌≡◌, length};
    ghost use Rattle.gn_hub.specs.HubState.{HubState};

    ghost Value = { HubState A };

    ghost view = { λ h. record {
      settings = C.settings h.core;
      steps = C.steps h.core;
      links = h.slots;
      is_open = h.is_open;
      all_call = h.all_call;
      failed = h.failed;
    } };

    ghost invariant = { λ h. h.annals ≡ C.steps h.core };
}

impl<C: RouterCore<A>, L: Ledger + Named, A: Allocator + Copy> Hub<C, L, A> {
    /// A hub with no steps, of a run that hasn't failed, whose links are all there.
    pub(crate) fn new(core: C, annals: Annals<L, A>, slots: Slots<A>, all_call: bool) -> Self
        requires { (annals ≡ []) × (C.steps core ≡ []) }
        ensures { result ≡ record {
          settings = C.settings core;
          steps = [];
          links = slots;
          is_open = false;
          all_call = all_call;
          failed = false;
        } }
    {
        Hub {
            core,
            annals,
            slots,
            is_open: false,
            all_call,
            failed: false,
        }
    }

    /// The same of a run whose links are still to come.
    pub(crate) fn open(core: C, annals: Annals<L, A>, slots: Slots<A>) -> Self
        requires { (annals ≡ []) × (C.steps core ≡ []) }
        ensures { result ≡ record {
          settings = C.settings core;
          steps = [];
          links = slots;
          is_open = true;
          all_call = true;
          failed = false;
        } }
    {
        Hub {
            core,
            annals,
            slots,
            is_open: true,
            all_call: true,
            failed: false,
        }
    }

    /// An actor's event, and the receipt of its step. A refusal changes nothing.
    #[inline(always)]
    pub fn call(&mut self, me: &mut Actor<L, A>, event: &Event<A>) -> Result<Receipt<A>, Refusal>
        ensures made { MatchResult result
            (λ _. HasStepped (answer_now self.old event.now) event.now self.old me.old self.new me.new)
            (λ refusal. IsRefusal refusal (answer_now self.old event.now) × (self.new ≡ self.old) × (me.new ≡ me.old)) }
        ensures receipt { IfOk result (λ r. HasGot (answer_now self.old event.now) event.now r me.old me.new) }
    {
        let Hub { core, annals, .. } = self;
        let receipt = core.apply(me.number(), event)?;
        annals.record(me, core, &receipt);
        Ok(receipt)
    }

    /// As `call`, of an event that nobody needs any more.
    #[inline(always)]
    pub(crate) fn call_with(
        &mut self,
        me: &mut Actor<L, A>,
        event: Event<A>,
    ) -> Result<Receipt<A>, Refusal>
        ensures made { MatchResult result
            (λ _. HasStepped (answer_now self.old event) event self.old me.old self.new me.new)
            (λ refusal. IsRefusal refusal (answer_now self.old event) × (self.new ≡ self.old) × (me.new ≡ me.old)) }
        ensures receipt { IfOk result (λ r. HasGot (answer_now self.old event) event r me.old me.new) }
    {
        let answer = self.call(me, &event);
        drop(event);
        answer
    }

    /// As `call_with`, where nobody needs the receipt.
    pub(crate) fn step_with(&mut self, me: &mut Actor<L, A>, event: Event<A>) -> Result<(), Refusal>
        ensures { MatchResult result
            (λ _. HasStepped (answer_now self.old event) event self.old me.old self.new me.new)
            (λ refusal. IsRefusal refusal (answer_now self.old event) × (self.new ≡ self.old) × (me.new ≡ me.old)) }
    {
        let receipt = self.call_with(me, event)?;
        drop(receipt);
        Ok(())
    }

    /// As `call_with`, and the receipt is put to those that are kept. `NoMemory` also where there is no room for it.
    #[tactic(auto, using(crate::proofs::KeptLemmas::none_kept, crate::proofs::KeptLemmas::one_kept))]
    #[inline(always)]
    pub(crate) fn call_kept(
        &mut self,
        me: &mut Actor<L, A>,
        event: Event<A>,
        kept: &mut Vec<Receipt<A>, A>,
    ) -> Result<(), Refusal>
        ensures made { MatchResult result
            (λ _. HasStepped (answer_now self.old event) event self.old me.old self.new me.new)
            (λ refusal. IsRefusal refusal (answer_now self.old event) × (self.new ≡ self.old) × (me.new ≡ me.old)) }
        ensures kept { AreKept kept.old.items kept.new.items me.old me.new }
    {
        kept.reserve(1)?;
        let receipt = self.call_with(me, event)?;
        kept.push_reserved(receipt);
        Ok(())
    }

    /// As `call` of a Route, with the descriptor's payload checked beforehand. A descriptor that isn't the admitted one is
    /// refused as strange. A refusal changes nothing.
    #[inline(always)]
    pub fn route(
        &mut self,
        me: &mut Actor<L, A>,
        ticket: Ticket,
        checked: &Checked<A>,
    ) -> Result<Receipt<A>, Refusal>
        ensures made { MatchResult result
            (λ _. HasStepped (checked_answer self.old.settings (past_of self.old) ticket checked.now) (Route ticket)
            self.old me.old self.new me.new)
            (λ refusal. IsRefusal refusal (checked_answer self.old.settings (past_of self.old) ticket checked.now)
            × (self.new ≡ self.old) × (me.new ≡ me.old)) }
        ensures receipt { IfOk result
            (λ r. HasGot (checked_answer self.old.settings (past_of self.old) ticket checked.now) (Route ticket)
            r me.old me.new) }
    {
        let Hub { core, annals, .. } = self;
        let receipt = core.route(me.number(), ticket, checked)?;
        annals.record(me, core, &receipt);
        Ok(receipt)
    }

    /// As `route`, where nobody needs the receipt: an excerpt of the reply.
    #[inline(always)]
    pub(crate) fn pass<E: Excerpt<A>>(
        &mut self,
        me: &mut Actor<L, A>,
        ticket: Ticket,
        checked: &Checked<A>,
    ) -> Result<E, Refusal>
        ensures made { MatchResult result
            (λ _. HasStepped (checked_answer self.old.settings (past_of self.old) ticket checked.now) (Route ticket)
            self.old me.old self.new me.new)
            (λ refusal. IsRefusal refusal (checked_answer self.old.settings (past_of self.old) ticket checked.now)
            × (self.new ≡ self.old) × (me.new ≡ me.old)) }
        ensures told { IfOk result (λ told. (reply : Reply A)
            → checked_answer self.old.settings (past_of self.old) ticket checked.now ≡ Ok reply → E.tells told reply) }
    {
        checked_answers_fit::<A>();
        let Hub { core, annals, .. } = self;
        let told = core.pass(me.number(), ticket, checked)?;
        annals.record_route(me, core);
        Ok(told)
    }

    /// The Connect of the reader of a link. Its reply opens the link's door, or shuts it. A refusal changes nothing.
    pub fn connect(&mut self, me: &mut Actor<L, A>, link: u32) -> Result<Receipt<A>, Refusal>
        ensures made { MatchResult result
            (λ _. HasConnected link self.old me.old self.new me.new)
            (λ refusal. IsRefusal refusal (answer_now self.old Connect) × (self.new ≡ self.old) × (me.new ≡ me.old)) }
        ensures receipt { IfOk result (λ r. HasGot (answer_now self.old Connect) Connect r me.old me.new) }
    {
        let receipt = self.call_with(me, Event::Connect)?;
        let door = door_after(&receipt.reply);
        self.set_door(link, door);
        Ok(receipt)
    }

    /// What is next for the writer of a connection: a Take where a packet waits, a Close where the run closes. A refusal
    /// comes only where a step was to be made, and changes nothing. The receipt is put to those that are kept.
    pub fn next_out(
        &mut self,
        me: &mut Actor<L, A>,
        c: ConnId,
        kept: &mut Vec<Receipt<A>, A>,
    ) -> Result<Next, Refusal>
        ensures made { MatchResult result
            (λ next. IsNext (due self.old c) next c self.old me.old self.new me.new)
            (λ refusal. (is_step (due self.old c) ≡ true) × IsStop refusal self.old
            × (self.new ≡ self.old) × (me.new ≡ me.old)) }
        ensures kept { AreKept kept.old.items kept.new.items me.old me.new }
    {
        let answer = self.outgoing(me, c, kept, &mut None)?;
        Ok(next_of(answer))
    }

    /// `next_out`, by what a writer is answered that waits while it is none. Where this call closes the connection, what says
    /// that nothing was in flight is put to `idle`.
    #[tactic(auto, using(crate::proofs::KeptLemmas::none_kept))]
    pub(crate) fn outgoing(
        &mut self,
        me: &mut Actor<L, A>,
        c: ConnId,
        kept: &mut Vec<Receipt<A>, A>,
        idle: &mut Option<Idle<L, A>>,
    ) -> Result<Option<Outgoing>, Refusal>
        ensures made { MatchResult result
            (λ answer. IsOutgoing (due self.old c) answer c self.old me.old self.new me.new)
            (λ refusal. (is_step (due self.old c) ≡ true) × IsStop refusal self.old
            × (self.new ≡ self.old) × (me.new ≡ me.old)) }
        ensures kept { AreKept kept.old.items kept.new.items me.old me.new }
        ensures idle { IfOk result (λ answer. answer ≡ Some Drained → IsDrainedAt c idle.new me.old me.new) }
    {
        if self.failed {
            return Ok(Some(Outgoing::Closed));
        }
        // Nothing waits for a connection that isn't live.
        if self.core.waiting(c) != 0 {
            self.call_kept(me, Event::Take(c), kept)?;
            return Ok(Some(Outgoing::Packet));
        }
        if !self.core.is_live(c) {
            return Ok(Some(Outgoing::Closed));
        }
        if self.closing() {
            let now = self.idle_now();
            self.call_kept(me, Event::Close(c), kept)?;
            *idle = Some(now);
            return Ok(Some(Outgoing::Drained));
        }
        Ok(None)
    }

    /// The link won't connect: its door is shut. Changes nothing where the run has no such link.
    pub fn shut(&mut self, link: u32)
        ensures { self.new ≡ with_door self.old link Shut }
    {
        self.set_door(link, Door::Shut);
    }

    /// The reader of the link is done. Changes nothing where the run has no such link.
    pub fn reader_done(&mut self, link: u32)
        ensures { self.new ≡ with_reader_done self.old link }
    {
        let mut mark = self.slots.mark(link);
        mark.is_done = true;
        self.slots.put(link, mark);
    }

    /// Sets the door of a link of the run.
    fn set_door(&mut self, link: u32, door: Door)
        ensures { self.new ≡ with_door self.old link door }
    {
        let mut mark = self.slots.mark(link);
        mark.door = door;
        self.slots.put(link, mark);
    }

    /// Whether a link that comes may take this slot: more links may come, and the slot is free.
    pub fn may_take(&self, slot: u32) -> bool
        ensures { result ≡ may_take self.now slot }
    {
        self.is_open && self.slots.mark(slot).is_done
    }

    /// A link of this role comes, and takes the slot.
    pub fn take_slot(&mut self, slot: u32, role: Role)
        requires { may_take self.old slot ≡ true }
        ensures { self.new ≡ with_slot self.old slot role }
    {
        self.slots.put(slot, Mark::new(role));
        self.all_call = self.all_call && role.is_calling();
    }

    /// No more links come.
    pub fn no_more(&mut self)
        ensures { self.new ≡ record self.old { is_open = false } }
    {
        self.is_open = false;
    }

    /// Whether the run is closing: no more links may come, nothing is in flight, and the reader of each link that doesn't call is done,
    /// or of each link, where all that came call.
    pub fn closing(&self) -> bool
        ensures { result ≡ is_closing self.now }
    {
        !self.is_open && self.is_idle() && self.is_read()
    }

    /// Whether nothing is in flight.
    fn is_idle(&self) -> bool
        ensures { result ≡ (length (flying (past_of self.now)) == 0) }
    {
        self.core.flights() == 0
    }

    /// What says that nothing is in flight now.
    fn idle_now(&mut self) -> Idle<L, A>
        requires { (length (flying (past_of self.old)) == 0) ≡ true }
        ensures same { self.new ≡ self.old }
        ensures at { result ≡ length self.old.steps }
    {
        let at = self.book();
        let Hub { core, annals, .. } = self;
        Idle::after(at, annals.so_far(core))
    }

    /// Whether the run waits for no reader any more.
    fn is_read(&self) -> bool
        ensures { result ≡ are_read self.now.all_call self.now.links }
    {
        self.slots.are_read(self.all_call)
    }

    /// Whether the run has failed.
    pub fn failed(&self) -> bool
        ensures { result ≡ self.now.failed }
    {
        self.failed
    }

    /// The run has failed.
    pub fn fail(&mut self)
        ensures { self.new ≡ record self.old { failed = true } }
    {
        self.failed = true;
    }

    /// The door of a link; shut where the run has no such link.
    pub fn door(&self, link: u32) -> Door
        ensures { result ≡ door_of (slice_get self.now.links link) }
    {
        match self.slots.get(link) {
            Some(mark) => mark.door,
            None => Door::Shut,
        }
    }

    /// The book: how many steps were made.
    pub fn book(&self) -> u64
        ensures { result ≡ length self.now.steps }
    {
        u64::from(self.core.step_count())
    }

    /// The router.
    pub fn router(&self) -> &C
        ensures settings { C.settings result.now ≡ self.now.settings }
        ensures steps { C.steps result.now ≡ self.now.steps }
    {
        &self.core
    }

    /// The router, for keeps.
    pub fn into_router(self) -> C
        ensures settings { C.settings result ≡ self.settings }
        ensures steps { C.steps result ≡ self.steps }
    {
        let Hub {
            core,
            annals: _,
            slots: _,
            is_open: _,
            all_call: _,
            failed: _,
        } = self;
        core
    }

    /// What was told to be idle was so: after that many of the steps nothing was in flight.
    pub fn recall_idle(&mut self, idle: Idle<L, A>)
        ensures same { self.new ≡ self.old }
        ensures idle { (idle ≤ length self.new.steps)
            × ((length (flying (reverse (take idle self.new.steps))) == 0) ≡ true) }
    {
        let Hub { core, annals, .. } = self;
        annals.recall(idle.into_seen(), core);
    }

    /// The same, where it was told. After how many of the steps.
    fn recall_told(&mut self, idle: Option<Idle<L, A>>) -> Option<u64>
        ensures same { self.new ≡ self.old }
        ensures at { result ≡ idle }
        ensures idle { (at : ℕ) → idle ≡ Some at → (at ≤ length self.new.steps)
            × ((length (flying (reverse (take at self.new.steps))) == 0) ≡ true) }
    {
        let idle = idle?;
        let at = idle.at();
        self.recall_idle(idle);
        Some(at)
    }

    /// Whether a connection, where there is one, isn't live.
    fn is_gone(&self, conn: Option<ConnId>) -> bool
        ensures { result ≡ true → (c : ℕ) → conn ≡ Some c → live (past_of self.now) c ≡ false }
    {
        match conn {
            Some(c) => !self.core.is_live(c),
            None => true,
        }
    }

    /// An actor comes home. Its receipts.
    pub fn take_home(&mut self, registry: &mut Registry<L, A>, me: Actor<L, A>) -> Trail<Receipt<A>>
        requires { IsOut registry.old me.number }
        ensures same { self.new ≡ self.old }
        ensures registry { registry.new ≡ with_home registry.old me self.new.steps }
        ensures out { registry.new.out + 1 ≡ registry.old.out }
        ensures began { IsPrefix registry.old.seen self.new.steps }
        ensures receipts { result.items ≡ me.receipts }
        ensures fits { Fits self.new.steps me }
        ensures few { length me.receipts < 2 ^ 32 }
    {
        let Hub { core, annals, .. } = self;
        annals.welcome(registry, me, core)
    }

    /// A link that has ended goes: both its actors come home.
    pub fn retire(&mut self, registry: &mut Registry<L, A>, link: Retiring<L, A>) -> Retired<A>
        requires reader { IsOut registry.old link.reader.number }
        requires writer { IsOut registry.old link.writer.number }
        requires apart { link.reader.number ≢ link.writer.number }
        ensures same { self.new ≡ self.old }
        ensures registry { registry.new
            ≡ with_home (with_home registry.old link.reader self.new.steps) link.writer self.new.steps }
        ensures out { registry.new.out + 2 ≡ registry.old.out }
        ensures began { IsPrefix registry.old.seen self.new.steps }
        ensures retired { IsRetired self.new.steps link.reader link.writer link.conn link.idle result }
    {
        let Retiring {
            reader,
            writer,
            conn,
            idle,
        } = link;
        let read = self.take_home(registry, reader);
        let written = self.take_home(registry, writer);
        Retired {
            read,
            written,
            is_gone: self.is_gone(conn),
            idle: self.recall_told(idle),
        }
    }

    /// All actors of the run are home: the receipts of each, by number, are its own steps, and no step is of anybody else.
    pub fn close(&mut self, registry: Registry<L, A>) -> Trail<LinkedList<Receipt<A>>>
        requires { registry.out ≡ 0 }
        ensures same { self.new ≡ self.old }
        ensures began { IsPrefix registry.seen self.new.steps }
        ensures whole { AreWhole self.new.steps registry.lists }
        ensures lists { result.items ≡ registry.lists }
    {
        let Hub { core, annals, .. } = self;
        annals.close(registry, core)
    }
}

/// The door that the reply to a Connect opens or shuts.
fn door_after<A: Allocator>(reply: &Reply<A>) -> Door
    ensures { result ≡ door_by reply.now }
{
    match reply {
        Reply::Connected(c) => Door::Met(*c),
        _ => Door::Shut,
    }
}
