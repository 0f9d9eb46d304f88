//! What becomes of a descriptor that is routed. What makes a plan is inlined, so that it isn't moved.

ghost use Rattle.std.specs.Prelude.{◌≡◌, reverse};
ghost use Rattle.gn_wire.specs.Keys.{key_of};
ghost use Rattle.gn_wire.specs.declared.kind.Kind.TheVariants.{Push};
ghost use Rattle.gn_rules.specs.Decision as rules;
ghost use Rattle.gn_rules.specs.Routings.{routing_of};
ghost use Rattle.gn_rules.specs.SeenEntries as seen_entries;
ghost use Rattle.gn_rules.specs.declared.routing.Routing.TheVariants.{Floods, Pushed};
ghost use Rattle.gn_decide.specs.Planned.{Decides};

use crate::lookup::Lookup;
use crate::made::{Forwarded, Made};
use crate::plan::{Outgoing, Plan};
use gn_payload::{Verdict, servent_of_push};
use gn_rules::{ConnId, DropReason, Reply, Routing};
use gn_wire::{Descriptor, Key, Kind};
use std::alloc::Allocator;

/// The checks of a route to a connection: it is live, the descriptor didn't come from it, and isn't expired.
#[inline(always)]
fn checks<'a, A: Allocator, L: Lookup<A>>(
    past: &L,
    origin: ConnId,
    packet: &'a Descriptor<A>,
    r: ConnId,
) -> Plan<'a, A>
    ensures { Decides (L.settings past.now) (reverse (L.steps past.now)) origin packet.now
        (λ a. rules.checks (L.settings past.now) (reverse (L.steps past.now)) a r) result }
{
    let Some((place, waiting)) = past.output(r) else {
        return Plan::Ready(Reply::Dropped(DropReason::RouteGone));
    };
    if r == origin {
        return Plan::Ready(Reply::Dropped(DropReason::BackToSender));
    }
    match Forwarded::of(past.config().numbers.life, packet) {
        None => Plan::Ready(Reply::Dropped(DropReason::Expired)),
        Some(forward) => Plan::Routed(
            Outgoing::One {
                to: r,
                place,
                waiting,
                packet: Made::Forward(forward),
            },
            false,
        ),
    }
}

/// Whether a descriptor's key is remembered.
pub(crate) fn is_remembered<A: Allocator, L: Lookup<A>>(past: &L, packet: &Descriptor<A>) -> bool
    ensures { result
        ≡ seen_entries.is_remembered (L.settings past.now) (reverse (L.steps past.now)) (key_of packet.now) }
{
    past.source(&packet.key()).is_some()
}

/// What becomes of a request: a duplicate where its key is remembered, else it goes on.
#[inline(always)]
fn decide_request<'a, A: Allocator, L: Lookup<A>>(
    past: &L,
    origin: ConnId,
    packet: &'a Descriptor<A>,
) -> Plan<'a, A>
    ensures { Decides (L.settings past.now) (reverse (L.steps past.now)) origin packet.now
        (λ a. rules.decide_routed (L.settings past.now) (reverse (L.steps past.now)) a Floods) result }
{
    if is_remembered(past, packet) {
        return Plan::Ready(Reply::Dropped(DropReason::Duplicate));
    }
    Plan::Routed(Outgoing::Flood(origin, packet), true)
}

/// What becomes of a response to requests of this kind: it goes back to where its request came from.
#[inline(always)]
fn decide_reply<'a, A: Allocator, L: Lookup<A>>(
    past: &L,
    origin: ConnId,
    packet: &'a Descriptor<A>,
    request: Kind,
) -> Plan<'a, A>
    ensures { Decides (L.settings past.now) (reverse (L.steps past.now)) origin packet.now
        (λ a. rules.decide_reply (L.settings past.now) (reverse (L.steps past.now)) a
        (seen_entries.source (L.settings past.now) (reverse (L.steps past.now))
        (record { kind = request; id = packet.now.id }))) result }
{
    let key = Key {
        kind: request,
        id: packet.id(),
    };
    match past.source(&key) {
        None => Plan::Ready(Reply::Dropped(DropReason::NoRoute)),
        Some(0) => Plan::Routed(Outgoing::Nothing, true),
        Some(r) => checks(past, origin, packet, r),
    }
}

/// What becomes of a Push: a duplicate where its key is remembered, else it goes to the servent that it names.
#[inline(always)]
fn decide_push<'a, A: Allocator, L: Lookup<A>>(
    past: &L,
    origin: ConnId,
    packet: &'a Descriptor<A>,
) -> Plan<'a, A>
    requires { packet.now.kind ≡ Push }
    ensures { Decides (L.settings past.now) (reverse (L.steps past.now)) origin packet.now
        (λ a. rules.decide_routed (L.settings past.now) (reverse (L.steps past.now)) a Pushed) result }
{
    if is_remembered(past, packet) {
        return Plan::Ready(Reply::Dropped(DropReason::Duplicate));
    }
    let servent = servent_of_push(packet.payload().as_slice());
    if servent == past.config().own.servent {
        return Plan::Routed(Outgoing::Nothing, true);
    }
    match past.servent_route(&servent) {
        None => Plan::Ready(Reply::Dropped(DropReason::NoRoute)),
        Some(r) => checks(past, origin, packet, r),
    }
}

/// What becomes of a descriptor whose payload can be read, by the routing of its kind.
#[inline(always)]
fn decide_routed<'a, A: Allocator, L: Lookup<A>>(
    past: &L,
    origin: ConnId,
    packet: &'a Descriptor<A>,
    routing: Routing,
) -> Plan<'a, A>
    requires { routing ≡ routing_of packet.now.kind }
    ensures { Decides (L.settings past.now) (reverse (L.steps past.now)) origin packet.now
        (λ a. rules.decide_routed (L.settings past.now) (reverse (L.steps past.now)) a routing) result }
{
    match routing {
        Routing::Floods => decide_request(past, origin, packet),
        Routing::Back(request) => decide_reply(past, origin, packet, request),
        Routing::Pushed => decide_push(past, origin, packet),
        Routing::Unnamed => Plan::Ready(Reply::Dropped(DropReason::UnknownKind)),
    }
}

/// What becomes of a descriptor whose payload can be read.
#[inline(always)]
fn decide_sound<'a, A: Allocator, L: Lookup<A>>(
    past: &L,
    origin: ConnId,
    packet: &'a Descriptor<A>,
) -> Plan<'a, A>
    ensures { Decides (L.settings past.now) (reverse (L.steps past.now)) origin packet.now
        (λ a. rules.decide_sound (L.settings past.now) (reverse (L.steps past.now)) a packet.now.kind) result }
{
    decide_routed(past, origin, packet, Routing::of(packet.kind()))
}

/// What becomes of a descriptor of this connection that was checked with this verdict. Takes no memory.
#[inline(always)]
pub fn decide<'a, A: Allocator, L: Lookup<A>>(
    past: &L,
    origin: ConnId,
    packet: &'a Descriptor<A>,
    verdict: Verdict,
) -> Plan<'a, A>
    ensures { Decides (L.settings past.now) (reverse (L.steps past.now)) origin packet.now
        (λ a. rules.decide_checked (L.settings past.now) (reverse (L.steps past.now)) a verdict) result }
{
    match verdict {
        Verdict::UnknownKind => Plan::Ready(Reply::Dropped(DropReason::UnknownKind)),
        Verdict::Malformed => Plan::Ready(Reply::Dropped(DropReason::Malformed)),
        Verdict::Sound => decide_sound(past, origin, packet),
    }
}
