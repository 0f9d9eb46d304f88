//! A store of the steps themselves, which are searched for what they left.

ghost use Rattle.std.specs.Prelude.{◌≡◌, ◌<◌, IfSome, OnOk, OnErr, length, reverse};
ghost use Rattle.gn_rules.specs.Flight.{flying, flying_after};
ghost use Rattle.gn_rules.specs.Answer.{IsLegal};

use crate::counting::stats_in;
use crate::flight::{flight_count, flight_count_of, flight_in, ticket_count};
use crate::flying::follow_if_listed;
use crate::live;
use crate::output::{first_out, out_count};
use crate::seen_entries::source_of;
use crate::servents::servent_route;
use crate::steps::Steps;
use gn_decide::{Lookup, Places};
use gn_router::{FreshStore, StepStore, Store, step_of};
use gn_rules::{Config, ConnId, Event, Reply, Stats, Step, Ticket};
use gn_wire::{Descriptor, Guid, Key};
use std::alloc::{AllocError, Allocator, Global};
use std::marker::Model;

/// A legal history, which is searched for what it left.
#[derive(Drop)]
pub struct Search<H: Steps<A>, A: Allocator = Global> {
    config: Config,
    steps: H,
    /// The tickets in flight, where they are listed.
    flying: Option<Vec<Ticket, A>>,
}

impl<H: Steps<A>, A: Allocator> Model for Search<H, A> {
    ghost use Rattle.std.specs.Prelude.{reverse};
    ghost use Rattle.gn_search.specs.Invariant.{IsKept};
    ghost use Rattle.gn_rules.specs.Kept.{Kept};

    ghost Value = { Kept A };

    ghost view = { λ s. record { settings = s.config; steps = H.items s.steps } };

    ghost invariant = { λ s. IsKept s.config (H.items s.steps) s.flying };
}

impl<H: Steps<A>, A: Allocator> Search<H, A> {
    /// A legal history.
    pub fn new(config: &Config, steps: H) -> Self
        requires { IsLegal config.now (reverse (H.items steps)) }
        ensures settings { result.settings ≡ config.now }
        ensures steps { result.steps ≡ H.items steps }
    {
        Search {
            config: *config,
            steps,
            flying: None,
        }
    }
}

impl<H: Steps<A>, A: Allocator> Lookup<A> for Search<H, A> {
    ghost use Rattle.gn_search.specs.Places as places;

    ghost settings = { λ s. s.settings };

    ghost steps = { λ s. s.steps };

    ghost live_from = { λ s place. places.live_from s.steps place };

    fn config(&self) -> &Config {
        &self.config
    }

    #[tactic(auto, using(gn_rules::proofs::PastLemmas::past_length, gn_rules::proofs::LegalLemmas::legal_within))]
    fn step_count(&self) -> u32 {
        self.steps.as_slice().len() as u32
    }

    fn is_live(&self, c: ConnId) -> bool {
        live::is_live(self.steps.as_slice(), c)
    }

    #[tactic(auto, using(gn_rules::proofs::PastLemmas::past_length, gn_rules::proofs::LegalLemmas::legal_within))]
    fn live_count(&self) -> u32 {
        live::live_count(self.steps.as_slice()) as u32
    }

    #[tactic(auto, using(gn_rules::proofs::PastLemmas::past_length, gn_rules::proofs::LegalLemmas::legal_within))]
    fn places(&self) -> u32 {
        self.steps.as_slice().len() as u32
    }

    fn live_at(&self, place: u32) -> Option<(ConnId, u32)> {
        let steps = self.steps.as_slice();
        let c = live::live_at(steps, place)?;
        Some((c, out_count(&self.config, steps, c) as u32))
    }

    #[tactic(auto, using(gn_rules::proofs::LiveLemmas::next_fits))]
    fn next_connection(&self) -> ConnId {
        1 + live::connection_count(self.steps.as_slice()) as u32
    }

    #[tactic(auto, using(gn_rules::proofs::PastLemmas::past_length, gn_rules::proofs::LegalLemmas::legal_within, crate::proofs::FlightLemmas::flying_within))]
    fn flights(&self) -> u32 {
        let flights = match &self.flying {
            Some(flying) => flying.len(),
            None => flight_count(self.steps.as_slice()),
        };
        flights as u32
    }

    #[tactic(auto, using(gn_rules::proofs::PastLemmas::past_length, gn_rules::proofs::LegalLemmas::legal_within, crate::proofs::FlightLemmas::from_within))]
    fn flights_of(&self, c: ConnId) -> u32 {
        flight_count_of(self.steps.as_slice(), c) as u32
    }

    #[tactic(auto, using(gn_rules::proofs::PastLemmas::past_length, gn_rules::proofs::LegalLemmas::legal_within))]
    fn next_ticket(&self) -> Ticket {
        ticket_count(self.steps.as_slice()) as u32
    }

    fn flight(&self, ticket: Ticket) -> Option<(usize, ConnId, &Descriptor<A>)> {
        let (origin, packet) = flight_in(self.steps.as_slice(), ticket)?;
        Some((0, origin, packet))
    }

    fn source(&self, key: &Key) -> Option<ConnId> {
        source_of(&self.config, self.steps.as_slice(), key)
    }

    fn servent_route(&self, servent: &Guid) -> Option<ConnId> {
        servent_route(&self.config, self.steps.as_slice(), servent)
    }

    fn output(&self, c: ConnId) -> Option<(usize, u32)> {
        let steps = self.steps.as_slice();
        if live::is_live(steps, c) {
            Some((0, out_count(&self.config, steps, c) as u32))
        } else {
            None
        }
    }

    fn front(&self, c: ConnId) -> Option<(usize, Option<&Descriptor<A>>)> {
        let steps = self.steps.as_slice();
        if live::is_live(steps, c) {
            Some((0, first_out(&self.config, steps, c)))
        } else {
            None
        }
    }
}

impl<A: Allocator + Copy> Store<A> for Search<Vec<Step<A>, A>, A> {
    #[tactic(auto, using(gn_rules::proofs::PastLemmas::past_length, gn_rules::proofs::PastLemmas::past_push, gn_rules::proofs::LegalLemmas::legal_within))]
    fn follow(
        &mut self,
        _alloc: A,
        actor: u32,
        _places: Places,
        event: &mut Event<A>,
        reply: &mut Reply<A>,
    ) -> Result<(), AllocError> {
        self.steps.reserve(1)?;
        follow_if_listed(&mut self.flying, event, reply)?;
        self.steps.push_reserved(step_of(actor, event, reply));
        Ok(())
    }

    #[tactic(auto, using(gn_rules::proofs::PastLemmas::past_length, gn_rules::proofs::LegalLemmas::legal_within))]
    fn stats(&self) -> Stats {
        stats_in(&self.steps)
    }

    fn is_legal(&self) {
        let _ = &self.steps;
    }
}

impl<A: Allocator + Copy> FreshStore<A> for Search<Vec<Step<A>, A>, A> {
    fn empty(alloc: A, config: &Config) -> Result<Self, AllocError> {
        Ok(Search {
            config: *config,
            steps: Vec::new(alloc),
            flying: Some(Vec::new(alloc)),
        })
    }
}

impl<A: Allocator + Copy> StepStore<A> for Search<Vec<Step<A>, A>, A> {
    fn as_slice(&self) -> &[Step<A>] {
        &self.steps
    }

    fn into_steps(self) -> Vec<Step<A>, A> {
        self.steps
    }
}
