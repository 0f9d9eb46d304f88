//! The router that searches its history.

use crate::search::Search;
use gn_payload::Checked;
use gn_router::Router;
use gn_rules::{
    Config, ConnId, Event, FreshRouter, Historian, Receipt, Refusal, Reply, RouterCore, Stats,
    Step, Ticket,
};
use std::alloc::{AllocError, Allocator, Global};

/// A router that keeps its history and searches it for every answer.
#[derive(Drop)]
pub struct PlainRouter<A: Allocator + Copy = Global> {
    router: Router<Search<Vec<Step<A>, A>, A>, A>,
}

impl<A: Allocator + Copy> RouterCore<A> for PlainRouter<A> {
    ghost settings = { λ r. r.router.store.settings };

    ghost steps = { λ r. r.router.store.steps };

    fn answer_to(&self, event: &Event<A>) -> Result<Reply<A>, Refusal> {
        self.router.answer_to(event)
    }

    fn apply(&mut self, actor: u32, event: &Event<A>) -> Result<Receipt<A>, Refusal> {
        self.router.apply(actor, event)
    }

    fn enter(&mut self, actor: u32, event: &mut Event<A>) -> Result<(), Refusal> {
        self.router.enter(actor, event)
    }

    fn is_answered(&self, step: &Step<A>) -> bool {
        self.router.is_answered(step)
    }

    fn add(&mut self, step: &mut Step<A>) -> Result<(), AllocError> {
        self.router.add(step)
    }

    fn route(
        &mut self,
        actor: u32,
        ticket: Ticket,
        checked: &Checked<A>,
    ) -> Result<Receipt<A>, Refusal> {
        self.router.route(actor, ticket, checked)
    }

    fn config(&self) -> &Config {
        self.router.config()
    }

    fn step_count(&self) -> u32 {
        self.router.step_count()
    }

    fn is_legal(&self) {
        self.router.is_legal();
    }

    fn stats(&self) -> Stats {
        self.router.stats()
    }

    fn flights(&self) -> u32 {
        self.router.flights()
    }

    fn flights_of(&self, c: ConnId) -> u32 {
        self.router.flights_of(c)
    }

    fn is_live(&self, c: ConnId) -> bool {
        self.router.is_live(c)
    }

    fn waiting(&self, c: ConnId) -> u32 {
        self.router.waiting(c)
    }
}

impl<A: Allocator + Copy> FreshRouter<A> for PlainRouter<A> {
    fn make(alloc: A, config: &Config) -> Result<Self, AllocError> {
        Ok(PlainRouter {
            router: Router::make(alloc, config)?,
        })
    }
}

impl<A: Allocator + Copy> Historian<A> for PlainRouter<A> {
    fn history(&self) -> &[Step<A>] {
        self.router.history()
    }

    fn into_history(self) -> Vec<Step<A>, A> {
        self.router.into_history()
    }
}
