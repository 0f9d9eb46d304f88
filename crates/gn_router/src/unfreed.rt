//! A router whose memory is left to the end of the process.

ghost use Rattle.std.specs.Mem.{manually_drop_value};

use gn_payload::Checked;
use gn_rules::{
    Config, ConnId, Event, Excerpt, FreshRouter, Historian, Receipt, Refusal, Reply, RouterCore,
    Stats, Step, Ticket,
};
use std::alloc::{AllocError, Allocator};
use std::mem::ManuallyDrop;

/// A router that isn't taken apart when it is done with. The process ends then, and the system takes all its memory back at
/// once; freeing a history step by step takes a good part of the time of making it.
#[derive(Drop)]
pub struct Unfreed<C> {
    router: ManuallyDrop<C>,
}

impl<A: Allocator + Copy, C: RouterCore<A> + Drop> RouterCore<A> for Unfreed<C> {
    ghost settings = { λ u. C.settings (manually_drop_value u.router) };

    ghost steps = { λ u. C.steps (manually_drop_value u.router) };

    fn answer_to(&self, event: &Event<A>) -> Result<Reply<A>, Refusal> {
        self.router.answer_to(event)
    }

    fn apply(&mut self, actor: u32, event: &Event<A>) -> Result<Receipt<A>, Refusal> {
        self.router.apply(actor, event)
    }

    fn enter(&mut self, actor: u32, event: &mut Event<A>) -> Result<(), Refusal> {
        self.router.enter(actor, event)
    }

    fn is_answered(&self, step: &Step<A>) -> bool {
        self.router.is_answered(step)
    }

    fn add(&mut self, step: &mut Step<A>) -> Result<(), AllocError> {
        self.router.add(step)
    }

    fn route(
        &mut self,
        actor: u32,
        ticket: Ticket,
        checked: &Checked<A>,
    ) -> Result<Receipt<A>, Refusal> {
        self.router.route(actor, ticket, checked)
    }

    fn pass<E: Excerpt<A>>(
        &mut self,
        actor: u32,
        ticket: Ticket,
        checked: &Checked<A>,
    ) -> Result<E, Refusal> {
        self.router.pass(actor, ticket, checked)
    }

    fn config(&self) -> &Config {
        self.router.config()
    }

    fn step_count(&self) -> u32 {
        self.router.step_count()
    }

    fn is_legal(&self) {
        self.router.is_legal();
    }

    fn stats(&self) -> Stats {
        self.router.stats()
    }

    fn flights(&self) -> u32 {
        self.router.flights()
    }

    fn flights_of(&self, c: ConnId) -> u32 {
        self.router.flights_of(c)
    }

    fn is_live(&self, c: ConnId) -> bool {
        self.router.is_live(c)
    }

    fn waiting(&self, c: ConnId) -> u32 {
        self.router.waiting(c)
    }
}

impl<A: Allocator + Copy, C: FreshRouter<A> + Drop> FreshRouter<A> for Unfreed<C> {
    fn make(alloc: A, config: &Config) -> Result<Self, AllocError> {
        Ok(Unfreed {
            router: ManuallyDrop::new(C::make(alloc, config)?),
        })
    }
}

impl<A: Allocator + Copy, C: Historian<A> + Drop> Historian<A> for Unfreed<C> {
    fn history(&self) -> &[Step<A>] {
        self.router.history()
    }

    fn into_history(self) -> Vec<Step<A>, A> {
        ManuallyDrop::into_inner(self.router).into_history()
    }
}
