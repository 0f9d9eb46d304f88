//! The router, once for all stores.

ghost use Rattle.std.specs.Prelude.{◌≡◌, ◌∷◌, ◌++◌, [], Ok, length, reverse, IfErr, IfOk, OnErr, OnOk};
ghost use Rattle.gn_rules.specs.Answer as rules;
ghost use Rattle.gn_rules.specs.declared.event.Event.TheVariants.{Route, Take};
ghost use Rattle.gn_rules.specs.declared.refusal.Refusal.TheVariants.{NoMemory};
ghost use Rattle.gn_rules.specs.declared.reply.Reply.TheVariants.{Taken};

use crate::answering::{find, reply_of, sends_of};
use crate::comparing;
use crate::store::{FreshStore, StepStore, Store};
use gn_decide::{Found, Places, Plan, plan_checked, plan_of};
use gn_payload::Checked;
use gn_rules::{
    Config, ConnId, Event, Excerpt, FreshRouter, Historian, Receipt, Refusal, Reply, RouterCore,
    Stats, Step, Ticket,
};
use gn_wire::Descriptor;
use std::alloc::{AllocError, Allocator, Global};

/// A router over a store: it finds each answer by what the store looks up, and makes its step the store's last. Receipts and
/// packets take their memory from `alloc`.
#[derive(Drop)]
pub struct Router<S, A: Allocator + Copy = Global> {
    pub alloc: A,
    pub store: S,
}

impl<S: Store<A>, A: Allocator + Copy> Router<S, A> {
    /// The receipt of the next step, with copies of its event and its reply. An `Err` is out of memory.
    #[inline(always)]
    fn receipt_of(&self, event: &Event<A>, reply: &Reply<A>) -> Result<Receipt<A>, AllocError>
        ensures { IfOk result (λ receipt. receipt
            ≡ record { index = length (S.steps self.now.store); event = event.now; reply = reply.now }) }
    {
        Ok(Receipt {
            index: RouterCore::step_count(self),
            event: event.copy()?,
            reply: reply.copy(self.alloc)?,
        })
    }

    /// Makes the step of an event and the rules' reply the last, and gives its receipt. An `Err` is out of memory, and
    /// changes nothing. It is inlined, so that of an event and a reply whose kinds are known only what these have is moved.
    #[inline(always)]
    fn record(
        &mut self,
        actor: u32,
        places: Places,
        event: Event<A>,
        reply: Reply<A>,
    ) -> Result<Receipt<A>, Refusal>
        requires { rules.answer (S.settings self.old.store) (reverse (S.steps self.old.store)) event ≡ Ok reply }
        ensures answer { rules.Finds (rules.reply_of result) (Ok reply) }
        ensures step { IfOk result (λ receipt. S.steps self.new.store
            ≡ S.steps self.old.store ++ record { actor = actor; event = event; reply = receipt.reply } ∷ []) }
        ensures index { IfOk result (λ receipt. receipt.index ≡ length (S.steps self.old.store)) }
        ensures event { IfOk result (λ receipt. receipt.event ≡ event) }
        ensures err { OnErr result (S.steps self.new.store ≡ S.steps self.old.store) }
        ensures settings { S.settings self.new.store ≡ S.settings self.old.store }
    {
        let (mut event, mut reply) = (event, reply);
        let receipt = self.receipt_of(&event, &reply)?;
        self.store
            .follow(self.alloc, actor, places, &mut event, &mut reply)?;
        Ok(receipt)
    }

    /// Makes the step of a Route and the rules' reply the last, and gives an excerpt of the reply. An `Err` is out of memory, and
    /// changes nothing.
    #[inline(always)]
    fn record_route<E: Excerpt<A>>(
        &mut self,
        actor: u32,
        places: Places,
        ticket: Ticket,
        reply: Reply<A>,
    ) -> Result<E, Refusal>
        requires { rules.answer (S.settings self.old.store) (reverse (S.steps self.old.store)) (Route ticket)
            ≡ Ok reply }
        ensures told { IfOk result (λ told. E.tells told reply) }
        ensures step { OnOk result (S.steps self.new.store
            ≡ S.steps self.old.store ++ record { actor = actor; event = Route ticket; reply = reply } ∷ []) }
        ensures refusal { IfErr result (λ refusal. refusal ≡ NoMemory) }
        ensures err { OnErr result (S.steps self.new.store ≡ S.steps self.old.store) }
        ensures settings { S.settings self.new.store ≡ S.settings self.old.store }
    {
        let (mut event, mut reply) = (Event::Route(ticket), reply);
        let told = E::of(&reply);
        self.store
            .follow(self.alloc, actor, places, &mut event, &mut reply)?;
        Ok(told)
    }

    /// Makes the step of a Take the last, of whose packet this is a copy, and gives its receipt. An `Err` is out of memory, and
    /// changes nothing.
    #[inline(always)]
    fn record_take(
        &mut self,
        actor: u32,
        places: Places,
        c: ConnId,
        packet: Descriptor<A>,
    ) -> Result<Receipt<A>, Refusal>
        requires { rules.answer (S.settings self.old.store) (reverse (S.steps self.old.store)) (Take c)
            ≡ Ok (Taken packet) }
        ensures receipt { IfOk result (λ receipt. receipt
            ≡ record { index = length (S.steps self.old.store); event = Take c; reply = Taken packet }) }
        ensures step { OnOk result (S.steps self.new.store
            ≡ S.steps self.old.store ++ record { actor = actor; event = Take c; reply = Taken packet } ∷ []) }
        ensures refusal { IfErr result (λ refusal. refusal ≡ NoMemory) }
        ensures err { OnErr result (S.steps self.new.store ≡ S.steps self.old.store) }
        ensures settings { S.settings self.new.store ≡ S.settings self.old.store }
    {
        let index = RouterCore::step_count(self);
        self.store
            .follow_take(self.alloc, actor, places, c, &packet)?;
        Ok(Receipt {
            index,
            event: Event::Take(c),
            reply: Reply::Taken(packet),
        })
    }

    /// As `apply`, whatever the event is.
    fn answer(&mut self, actor: u32, event: &Event<A>) -> Result<Receipt<A>, Refusal>
        ensures answer { rules.Finds (rules.reply_of result)
            (rules.answer (S.settings self.old.store) (reverse (S.steps self.old.store)) event.now) }
        ensures step { IfOk result (λ receipt. S.steps self.new.store
            ≡ S.steps self.old.store ++ record { actor = actor; event = event.now; reply = receipt.reply } ∷ []) }
        ensures index { IfOk result (λ receipt. receipt.index ≡ length (S.steps self.old.store)) }
        ensures event { IfOk result (λ receipt. receipt.event ≡ event.now) }
        ensures err { OnErr result (S.steps self.new.store ≡ S.steps self.old.store) }
        ensures settings { S.settings self.new.store ≡ S.settings self.old.store }
    {
        let Found { plan, places } = plan_of(&self.store, event)?;
        let reply = reply_of(self.alloc, &self.store, plan)?;
        self.record(actor, places, event.copy()?, reply)
    }
}

impl<S: Store<A>, A: Allocator + Copy> RouterCore<A> for Router<S, A> {
    ghost settings = { λ r. S.settings r.store };

    ghost steps = { λ r. S.steps r.store };

    fn answer_to(&self, event: &Event<A>) -> Result<Reply<A>, Refusal> {
        find(self.alloc, &self.store, event)
    }

    // Most events are Takes. Inlined for these, it moves little besides the packet.
    #[inline(always)]
    fn apply(&mut self, actor: u32, event: &Event<A>) -> Result<Receipt<A>, Refusal> {
        let Event::Take(c) = event else {
            return self.answer(actor, event);
        };
        let event = Event::Take(*c);
        let Found { plan, places } = plan_of(&self.store, &event)?;
        match plan {
            Plan::Taken(packet) => {
                let packet = packet.copy()?;
                self.record_take(actor, places, *c, packet)
            }
            plan => {
                let reply = reply_of(self.alloc, &self.store, plan)?;
                self.record(actor, places, event, reply)
            }
        }
    }

    fn enter(&mut self, actor: u32, event: &mut Event<A>) -> Result<(), Refusal> {
        let Found { plan, places } = plan_of(&self.store, event)?;
        let mut reply = reply_of(self.alloc, &self.store, plan)?;
        self.store
            .follow(self.alloc, actor, places, event, &mut reply)?;
        Ok(())
    }

    fn is_answered(&self, step: &Step<A>) -> bool {
        comparing::is_answered(&self.store, step)
    }

    fn add(&mut self, step: &mut Step<A>) -> Result<(), AllocError> {
        self.store.follow(
            self.alloc,
            step.actor,
            Places::FIRST,
            &mut step.event,
            &mut step.reply,
        )
    }

    fn route(
        &mut self,
        actor: u32,
        ticket: Ticket,
        checked: &Checked<A>,
    ) -> Result<Receipt<A>, Refusal> {
        let Found { plan, places } = plan_checked(&self.store, ticket, checked)?;
        let event = Event::Route(ticket);
        match plan {
            Plan::Routed(outgoing, local) => {
                let sends = sends_of(self.alloc, &self.store, &outgoing)?;
                self.record(actor, places, event, Reply::Routed { sends, local })
            }
            plan => {
                let reply = reply_of(self.alloc, &self.store, plan)?;
                self.record(actor, places, event, reply)
            }
        }
    }

    #[inline(always)]
    fn pass<E: Excerpt<A>>(
        &mut self,
        actor: u32,
        ticket: Ticket,
        checked: &Checked<A>,
    ) -> Result<E, Refusal> {
        let Found { plan, places } = plan_checked(&self.store, ticket, checked)?;
        match plan {
            Plan::Routed(outgoing, local) => {
                let sends = sends_of(self.alloc, &self.store, &outgoing)?;
                self.record_route(actor, places, ticket, Reply::Routed { sends, local })
            }
            plan => {
                let reply = reply_of(self.alloc, &self.store, plan)?;
                self.record_route(actor, places, ticket, reply)
            }
        }
    }

    fn config(&self) -> &Config {
        self.store.config()
    }

    #[tactic(auto, using(gn_rules::proofs::PastLemmas::past_length))]
    fn step_count(&self) -> u32 {
        self.store.step_count()
    }

    fn is_legal(&self) {
        self.store.is_legal();
    }

    fn stats(&self) -> Stats {
        self.store.stats()
    }

    fn flights(&self) -> u32 {
        self.store.flights()
    }

    fn flights_of(&self, c: ConnId) -> u32 {
        self.store.flights_of(c)
    }

    fn is_live(&self, c: ConnId) -> bool {
        self.store.is_live(c)
    }

    fn waiting(&self, c: ConnId) -> u32 {
        match self.store.output(c) {
            Some((_, waiting)) => waiting,
            None => 0,
        }
    }
}

impl<S: FreshStore<A>, A: Allocator + Copy> FreshRouter<A> for Router<S, A> {
    fn make(alloc: A, config: &Config) -> Result<Self, AllocError> {
        Ok(Router {
            alloc,
            store: S::empty(alloc, config)?,
        })
    }
}

impl<S: StepStore<A>, A: Allocator + Copy> Historian<A> for Router<S, A> {
    fn history(&self) -> &[Step<A>] {
        self.store.as_slice()
    }

    fn into_history(self) -> Vec<Step<A>, A> {
        self.store.into_steps()
    }
}
