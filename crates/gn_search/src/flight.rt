//! Searches of a history for what was admitted.

ghost use Rattle.std.specs.Prelude.{◌≡◌, ◌≤◌, ◌==◌, false, filter, length, not, reverse};
ghost use Rattle.std.specs.Option.{option_map_or, option_to_list};
ghost use Rattle.gn_rules.specs.History.{admitted_of};
ghost use Rattle.gn_rules.specs.Flight.{flying, flying_from, in_flight, is_routed, tickets};
ghost use Rattle.gn_decide.specs.Seen.{admission_seen};

use crate::admitted::admission_in;
use gn_rules::{ConnId, Step, Ticket};
use gn_wire::Descriptor;
use std::alloc::Allocator;

/// Whether the ticket was routed.
#[tactic(auto, using(gn_rules::proofs::PastLemmas::past_more))]
pub(crate) fn is_routed_in<A: Allocator>(history: &[Step<A>], t: Ticket) -> bool
    ensures { result ≡ is_routed (reverse history.now) t }
{
    let mut routed = false;
    for step in history {
        routed = step.event.routes(t) || routed;
    }
    routed
}

/// Whether the ticket wasn't routed.
fn is_unrouted<A: Allocator>(history: &[Step<A>], t: Ticket) -> bool
    ensures { result ≡ not (is_routed (reverse history.now) t) }
{
    !is_routed_in(history, t)
}

/// What is in flight under the ticket, and the connection that admitted it.
pub(crate) fn flight_in<A: Allocator>(
    history: &[Step<A>],
    t: Ticket,
) -> Option<(ConnId, &Descriptor<A>)>
    ensures { admission_seen result ≡ in_flight (reverse history.now) t }
{
    if is_routed_in(history, t) {
        return None;
    }
    admission_in(history, t)
}

/// How many descriptors were admitted.
pub(crate) fn ticket_count<A: Allocator>(history: &[Step<A>]) -> usize
    ensures value { result ≡ length (tickets (reverse history.now)) }
    ensures bound { result ≤ length history.now }
{
    let mut count = 0usize;
    for step in history {
        count += usize::from(step.reply.admitted().is_some());
    }
    count
}

/// How many tickets in flight the step gave: one or none.
fn flights_given<A: Allocator>(history: &[Step<A>], step: &Step<A>) -> usize
    ensures value { result ≡ length (filter (λ t. not (is_routed (reverse history.now) t))
        (option_to_list (admitted_of step.now.reply))) }
    ensures bound { result ≤ 1 }
{
    match step.reply.admitted() {
        Some(t) => usize::from(is_unrouted(history, t)),
        None => 0,
    }
}

/// How many tickets are in flight.
pub(crate) fn flight_count<A: Allocator>(history: &[Step<A>]) -> usize
    ensures { result ≡ length (flying (reverse history.now)) }
{
    let mut count = 0usize;
    for step in history {
        count += flights_given(history, step);
    }
    count
}

/// Whether the ticket is in flight, and the connection admitted it.
fn is_flight_of<A: Allocator>(history: &[Step<A>], t: Ticket, c: ConnId) -> bool
    ensures { result ≡ option_map_or (λ a. a.origin == c) (in_flight (reverse history.now) t) false }
{
    match flight_in(history, t) {
        Some((origin, _)) => origin == c,
        None => false,
    }
}

/// How many tickets in flight, which the connection admitted, the step gave: one or none.
fn flights_given_to<A: Allocator>(history: &[Step<A>], step: &Step<A>, c: ConnId) -> usize
    ensures value { result ≡ length (filter
        (λ t. option_map_or (λ a. a.origin == c) (in_flight (reverse history.now) t) false)
        (option_to_list (admitted_of step.now.reply))) }
    ensures bound { result ≤ 1 }
{
    match step.reply.admitted() {
        Some(t) => usize::from(is_flight_of(history, t, c)),
        None => 0,
    }
}

/// How many tickets that the connection admitted are in flight.
pub(crate) fn flight_count_of<A: Allocator>(history: &[Step<A>], c: ConnId) -> usize
    ensures { result ≡ length (flying_from (reverse history.now) c) }
{
    let mut count = 0usize;
    for step in history {
        count += flights_given_to(history, step, c);
    }
    count
}
