//! The plan for each event: the rules' answer, before any packet is made. What makes a plan is inlined, so that it isn't moved.

ghost use Rattle.std.specs.Prelude.{◌≡◌, ◌==◌, ◌&&◌, Ok, IfOk, length, nat_le, not, reverse};
ghost use Rattle.gn_wire.specs.Packet.{Packet};
ghost use Rattle.gn_rules.specs.Answer as rules;
ghost use Rattle.gn_rules.specs.Flight.{flying, flying_from, in_flight};
ghost use Rattle.gn_rules.specs.declared.event.Event.TheVariants.{Connect, Close, Admit, Route, Take, Originate};
ghost use Rattle.gn_decide.specs.Planned.{plan_reply, planned};

use crate::deciding::{decide, is_remembered};
use crate::lookup::Lookup;
use crate::plan::{Found, Outgoing, Places, Plan};
use gn_payload::{Checked, Verdict, verdict_on};
use gn_rules::{ConnId, Event, Refusal, Reply, Ticket, may_originate};
use gn_wire::Descriptor;
use std::alloc::Allocator;

/// The plan for a Connect.
#[inline(always)]
fn plan_connect<A: Allocator, L: Lookup<A>>(past: &L) -> Plan<'_, A>
    ensures { rules.event_answer (L.settings past.now) (reverse (L.steps past.now)) Connect
        ≡ Ok (plan_reply (L.settings past.now) (reverse (L.steps past.now)) result) }
{
    if past.live_count() == past.config().numbers.neighbours {
        return Plan::Ready(Reply::TooMany);
    }
    Plan::Ready(Reply::Connected(past.next_connection()))
}

/// The plan for a Close.
#[inline(always)]
fn plan_close<A: Allocator, L: Lookup<A>>(past: &L, c: ConnId) -> Result<Found<'_, A>, Refusal>
    ensures { planned (L.settings past.now) (reverse (L.steps past.now)) result
        ≡ rules.event_answer (L.settings past.now) (reverse (L.steps past.now)) (Close c) }
{
    match past.output(c) {
        None => Err(Refusal::NotLive),
        Some((place, waiting)) => Ok(Found {
            plan: Plan::Ready(Reply::Closed(waiting)),
            places: Places::of_neighbour(place),
        }),
    }
}

/// Whether as many tickets of the connection are in flight as one may have, where there is a threshold for each.
fn is_crowded<A: Allocator, L: Lookup<A>>(past: &L, c: ConnId) -> bool
    ensures { let crowd = (L.settings past.now).numbers.crowd in
        result ≡ (not (crowd == 0) && nat_le crowd (length (flying_from (reverse (L.steps past.now)) c))) }
{
    let crowd = past.config().numbers.crowd;
    crowd != 0 && crowd <= past.flights_of(c)
}

/// Whether as many tickets are in flight as there may be.
fn is_busy<A: Allocator, L: Lookup<A>>(past: &L) -> bool
    ensures { result ≡ (length (flying (reverse (L.steps past.now))) == (L.settings past.now).numbers.stage) }
{
    past.flights() == past.config().numbers.stage
}

/// The plan for an Admit.
#[inline(always)]
fn plan_admit<A: Allocator, L: Lookup<A>>(past: &L, c: ConnId) -> Result<Found<'_, A>, Refusal>
    ensures { (packet : Packet) → planned (L.settings past.now) (reverse (L.steps past.now)) result
        ≡ rules.event_answer (L.settings past.now) (reverse (L.steps past.now)) (Admit c packet) }
{
    if !past.is_live(c) {
        return Err(Refusal::NotLive);
    }
    if is_busy(past) {
        return Ok(Found::anywhere(Plan::Ready(Reply::Busy)));
    }
    if is_crowded(past, c) {
        return Ok(Found::anywhere(Plan::Ready(Reply::Crowded)));
    }
    let plan = Plan::Ready(Reply::Admitted(past.next_ticket()));
    Ok(Found::anywhere(plan))
}

/// The plan for a Take.
#[inline(always)]
fn plan_take<A: Allocator, L: Lookup<A>>(past: &L, c: ConnId) -> Result<Found<'_, A>, Refusal>
    ensures { planned (L.settings past.now) (reverse (L.steps past.now)) result
        ≡ rules.event_answer (L.settings past.now) (reverse (L.steps past.now)) (Take c) }
{
    match past.front(c) {
        None => Err(Refusal::NotLive),
        Some((_, None)) => Err(Refusal::NothingWaiting),
        Some((place, Some(packet))) => Ok(Found {
            plan: Plan::Taken(packet),
            places: Places::of_neighbour(place),
        }),
    }
}

/// The plan for an Originate.
#[inline(always)]
fn plan_originate<'a, A: Allocator, L: Lookup<A>>(
    past: &L,
    packet: &'a Descriptor<A>,
) -> Result<Found<'a, A>, Refusal>
    ensures { planned (L.settings past.now) (reverse (L.steps past.now)) result
        ≡ rules.event_answer (L.settings past.now) (reverse (L.steps past.now)) (Originate packet.now) }
{
    if !may_originate(past.config().numbers.life, packet) {
        return Err(Refusal::BadOrigin);
    }
    if is_remembered(past, packet) {
        return Err(Refusal::Remembered);
    }
    Ok(Found::anywhere(Plan::Sent(Outgoing::Each(packet))))
}

/// The plan for a Route.
#[inline(always)]
fn plan_route<A: Allocator, L: Lookup<A>>(past: &L, ticket: Ticket) -> Result<Found<'_, A>, Refusal>
    ensures { planned (L.settings past.now) (reverse (L.steps past.now)) result
        ≡ rules.event_answer (L.settings past.now) (reverse (L.steps past.now)) (Route ticket) }
{
    match past.flight(ticket) {
        None => Err(Refusal::NoTicket),
        Some((place, origin, packet)) => {
            let plan = decide(past, origin, packet, verdict_on(packet));
            Ok(Found::in_flight(place, plan))
        }
    }
}

/// The plan for an event where there is room for a step.
#[inline(always)]
fn plan_event<'a, A: Allocator, L: Lookup<A>>(
    past: &'a L,
    event: &'a Event<A>,
) -> Result<Found<'a, A>, Refusal>
    ensures { planned (L.settings past.now) (reverse (L.steps past.now)) result
        ≡ rules.event_answer (L.settings past.now) (reverse (L.steps past.now)) event.now }
{
    match event {
        Event::Connect => Ok(Found::anywhere(plan_connect(past))),
        Event::Close(c) => plan_close(past, *c),
        Event::Admit(c, _) => plan_admit(past, *c),
        Event::Route(ticket) => plan_route(past, *ticket),
        Event::Take(c) => plan_take(past, *c),
        Event::Originate(packet) => plan_originate(past, packet),
    }
}

/// Whether there are as many steps as there may be.
fn is_full<A: Allocator, L: Lookup<A>>(past: &L) -> bool
    ensures { result ≡ (length (reverse (L.steps past.now)) == (L.settings past.now).numbers.steps) }
{
    past.step_count() == past.config().numbers.steps
}

/// The plan for an event, or the rules' refusal. Takes no memory.
#[inline(always)]
pub fn plan_of<'a, A: Allocator, L: Lookup<A>>(
    past: &'a L,
    event: &'a Event<A>,
) -> Result<Found<'a, A>, Refusal>
    ensures { planned (L.settings past.now) (reverse (L.steps past.now)) result
        ≡ rules.answer (L.settings past.now) (reverse (L.steps past.now)) event.now }
{
    if is_full(past) {
        return Err(Refusal::HistoryFull);
    }
    plan_event(past, event)
}

/// The plan for a Route with a descriptor that was checked beforehand, where there is room for a step.
fn plan_checked_flight<'a, A: Allocator, L: Lookup<A>>(
    past: &'a L,
    ticket: Ticket,
    checked: &Checked<A>,
) -> Result<Found<'a, A>, Refusal>
    ensures value { planned (L.settings past.now) (reverse (L.steps past.now)) result
        ≡ rules.unless_strange checked.now (in_flight (reverse (L.steps past.now)) ticket)
        (rules.event_answer (L.settings past.now) (reverse (L.steps past.now)) (Route ticket)) }
    ensures routed { IfOk result (λ found.
        rules.event_answer (L.settings past.now) (reverse (L.steps past.now)) (Route ticket)
        ≡ Ok (plan_reply (L.settings past.now) (reverse (L.steps past.now)) found.plan)) }
{
    match past.flight(ticket) {
        None => Err(Refusal::NoTicket),
        Some((_, _, packet)) if !checked.descriptor().is_same(packet) => Err(Refusal::Strange),
        Some((place, origin, packet)) => {
            let plan = decide(past, origin, packet, checked.verdict());
            Ok(Found::in_flight(place, plan))
        }
    }
}

/// The plan for a Route with a descriptor that was checked beforehand, or the rules' refusal. Takes no memory.
pub fn plan_checked<'a, A: Allocator, L: Lookup<A>>(
    past: &'a L,
    ticket: Ticket,
    checked: &Checked<A>,
) -> Result<Found<'a, A>, Refusal>
    ensures value { planned (L.settings past.now) (reverse (L.steps past.now)) result
        ≡ rules.checked_answer (L.settings past.now) (reverse (L.steps past.now)) ticket checked.now }
    ensures routed { IfOk result (λ found.
        rules.answer (L.settings past.now) (reverse (L.steps past.now)) (Route ticket)
        ≡ Ok (plan_reply (L.settings past.now) (reverse (L.steps past.now)) found.plan)) }
{
    if is_full(past) {
        return Err(Refusal::HistoryFull);
    }
    plan_checked_flight(past, ticket, checked)
}
