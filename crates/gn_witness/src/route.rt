//! What the laws of one router say of a step that routes.

ghost use Rattle.std.specs.Prelude.{◌≡◌, IfSome, reverse};
ghost use Rattle.std.specs.Option.{option_map};
ghost use Rattle.gn_rules.specs.Answer.{IsLegal};
ghost use Rattle.gn_rules.specs.Flight.{in_flight};
ghost use Rattle.gn_witness.specs.Route.{Routes};

use crate::legality::is_next;
use gn_decide::Lookup;
use gn_paths::{answers_go_back, life_falls, pushes_go_back, requests_spread};
use gn_rules::{Config, Event, Step, Ticket};
use gn_search::Search;
use gn_wire::Kind;
use std::alloc::Allocator;

/// The kind of what is in flight under a ticket after the steps of a legal history.
fn flying_kind<A: Allocator>(config: &Config, past: &[Step<A>], ticket: Ticket) -> Option<Kind>
    requires { IsLegal config.now (reverse past.now) }
    ensures { result ≡ option_map (λ a. a.packet.kind) (in_flight (reverse past.now) ticket) }
{
    let search = Search::new(config, past);
    match search.flight(ticket) {
        Some((_, _, packet)) => Some(packet.kind()),
        None => None,
    }
}

/// The kind of the descriptor that a step routes after these steps, where all are legal and it sends something. Takes no memory.
pub fn routed_kind<A: Allocator>(config: &Config, past: &[Step<A>], step: &Step<A>) -> Option<Kind>
    ensures { IfSome result (λ kind. Routes config.now (reverse past.now) step.now kind) }
{
    answers_go_back::<A>();
    pushes_go_back::<A>();
    requests_spread::<A>();
    life_falls::<A>();
    if !is_next(config, past, step) || step.reply.sends().is_empty() {
        return None;
    }
    match &step.event {
        Event::Route(ticket) => flying_kind(config, past, *ticket),
        _ => None,
    }
}
