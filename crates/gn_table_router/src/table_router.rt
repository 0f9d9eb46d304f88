//! The router that answers out of tables.

ghost use Rattle.std.specs.Option.{ForSome};
ghost use Rattle.std.specs.Prelude.{◌≡◌};

use crate::configuring::Configuring;
use crate::store::TableStore;
use gn_payload::Checked;
use gn_router::Router;
use gn_rules::{
    Config, ConnId, Event, Excerpt, FreshRouter, Historian, Receipt, Refusal, Reply, RouterCore,
    Stats, Step, Ticket,
};
use gn_tables::{Forgetful, Keeper, Whole};
use std::alloc::{AllocError, Allocator, Global};
use std::marker::PhantomData;

/// A router that answers out of its tables. It gives its steps to `K`, and never asks for them for an answer. Where `N` names a
/// configuration, it is this router's: of what stands under a lock only its type is known.
///
/// A struct, and no other name of the router over that store: what it promises is then known by its name wherever a router is asked
/// for, and isn't written out there.
#[derive(Drop)]
pub struct TableRouter<A: Allocator + Copy = Global, K: Keeper<A> = Whole<A>, N: Configuring = ()> {
    pub(crate) router: Router<TableStore<A, K>, A>,
    pub(crate) of: PhantomData<N>,
    pub ghost configured: { ForSome N.config (λ s. s ≡ router.store.settings) },
}

impl<A: Allocator + Copy, K: Keeper<A>, N: Configuring> RouterCore<A> for TableRouter<A, K, N> {
    ghost settings = { λ r. r.router.store.settings };

    ghost steps = { λ r. r.router.store.steps };

    fn answer_to(&self, event: &Event<A>) -> Result<Reply<A>, Refusal> {
        self.router.answer_to(event)
    }

    #[inline(always)]
    fn apply(&mut self, actor: u32, event: &Event<A>) -> Result<Receipt<A>, Refusal> {
        self.router.apply(actor, event)
    }

    fn enter(&mut self, actor: u32, event: &mut Event<A>) -> Result<(), Refusal> {
        self.router.enter(actor, event)
    }

    fn is_answered(&self, step: &Step<A>) -> bool {
        self.router.is_answered(step)
    }

    fn add(&mut self, step: &mut Step<A>) -> Result<(), AllocError> {
        self.router.add(step)
    }

    #[inline(always)]
    fn route(
        &mut self,
        actor: u32,
        ticket: Ticket,
        checked: &Checked<A>,
    ) -> Result<Receipt<A>, Refusal> {
        self.router.route(actor, ticket, checked)
    }

    #[inline(always)]
    fn pass<E: Excerpt<A>>(
        &mut self,
        actor: u32,
        ticket: Ticket,
        checked: &Checked<A>,
    ) -> Result<E, Refusal> {
        self.router.pass(actor, ticket, checked)
    }

    fn config(&self) -> &Config {
        self.router.config()
    }

    fn step_count(&self) -> u32 {
        self.router.step_count()
    }

    fn is_legal(&self) {
        self.router.is_legal();
    }

    fn stats(&self) -> Stats {
        self.router.stats()
    }

    fn flights(&self) -> u32 {
        self.router.flights()
    }

    fn flights_of(&self, c: ConnId) -> u32 {
        self.router.flights_of(c)
    }

    fn is_live(&self, c: ConnId) -> bool {
        self.router.is_live(c)
    }

    fn waiting(&self, c: ConnId) -> u32 {
        self.router.waiting(c)
    }
}

impl<A: Allocator + Copy> FreshRouter<A> for TableRouter<A, Whole<A>> {
    fn make(alloc: A, config: &Config) -> Result<Self, AllocError> {
        TableRouter::over(alloc, config, Whole::new(alloc))
    }
}

impl<A: Allocator + Copy> FreshRouter<A> for TableRouter<A, Forgetful<A>> {
    fn make(alloc: A, config: &Config) -> Result<Self, AllocError> {
        TableRouter::over(alloc, config, Forgetful::new())
    }
}

impl<A: Allocator + Copy> Historian<A> for TableRouter<A, Whole<A>> {
    fn history(&self) -> &[Step<A>] {
        self.router.history()
    }

    fn into_history(self) -> Vec<Step<A>, A> {
        self.router.into_history()
    }
}
