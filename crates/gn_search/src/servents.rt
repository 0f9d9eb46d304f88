//! Searches of a history for the servents whose Query Hits were routed.

ghost use Rattle.std.specs.Prelude.{◌≡◌, ◌+◌, ◌^◌, ◌<◌, ◌≤◌, reverse};
ghost use Rattle.std.specs.Map.{lookup};
ghost use Rattle.gn_wire.specs.Keys.{is_same_id};
ghost use Rattle.gn_rules.specs.Servents.{hit_of, servents};
ghost use Rattle.gn_rules.specs.Servents as rules;
ghost use Rattle.gn_search.specs.Place.{before_after, is_before, place, place_after, route_after};
ghost use Rattle.gn_search.specs.Views.{guid, hit_seen};

use crate::admitted::admission_in;
use gn_rules::{Config, ConnId, Reply, Step, is_query_hit};
use gn_wire::Guid;
use std::alloc::Allocator;

/// The bytes of the servent that a step names after this history, and the connection that leads to it.
fn hit_in<'a, A: Allocator>(history: &'a [Step<A>], step: &Step<A>) -> Option<(&'a [u8], ConnId)>
    ensures { hit_seen result ≡ hit_of (reverse history.now) step.now.event step.now.reply }
{
    let t = step.event.ticket()?;
    let Reply::Routed { .. } = &step.reply else {
        return None;
    };
    let (origin, packet) = admission_in(history, t)?;
    if !is_query_hit(packet.kind()) {
        return None;
    }
    let payload = packet.payload().as_slice();
    Some((&payload[payload.len().saturating_sub(16)..], origin))
}

/// Whether the last hit of the servent y comes after that of x, after one more hit.
fn later_after(hit: Option<(&[u8], ConnId)>, x: &[u8], y: &[u8], before: bool) -> bool
    ensures { result ≡ before_after (guid x.now) (guid y.now) (hit_seen hit.entry) before }
{
    match hit {
        Some((servent, _)) => y == servent || (x != servent && before),
        None => before,
    }
}

/// Whether the last hit of the servent y comes after that of x.
fn is_later<A: Allocator>(history: &[Step<A>], x: &[u8], y: &[u8]) -> bool
    ensures { result
        ≡ is_before (is_same_id (guid x.now)) (is_same_id (guid y.now)) (servents (reverse history.now)) }
{
    let mut later = false;
    for i in 0..history.len() {
        later = later_after(hit_in(&history[..i], &history[i]), x, y, later);
    }
    later
}

/// The connection that leads to the servent x, after one more hit.
fn route_with(hit: Option<(&[u8], ConnId)>, x: &[u8], route: Option<ConnId>) -> Option<ConnId>
    ensures { result ≡ route_after (guid x.now) (hit_seen hit.entry) route }
{
    match hit {
        Some((servent, origin)) if x == servent => Some(origin),
        _ => route,
    }
}

/// How many servents have a hit after the last one of x, after one more hit than this history has.
fn place_with<A: Allocator>(
    history: &[Step<A>],
    hit: Option<(&[u8], ConnId)>,
    x: &[u8],
    later: usize,
) -> usize
    requires place { later ≡ place (is_same_id (guid x.now)) (servents (reverse history.now)) }
    requires bound { later + 1 < 2 ^ 64 }
    ensures value { result ≡ place_after (guid x.now) (hit_seen hit.entry) (servents (reverse history.now)) }
    ensures bound { result ≤ later + 1 }
{
    match hit {
        None => later,
        Some((servent, _)) if x == servent => 0,
        Some((servent, _)) if is_later(history, x, servent) => later,
        Some(_) => later + 1,
    }
}

/// The connection of the servent's last hit, and how many servents have a hit after it.
fn last_hit<A: Allocator>(history: &[Step<A>], x: &[u8]) -> (Option<ConnId>, usize)
    ensures route { result.0 ≡ lookup (is_same_id (guid x.now)) (servents (reverse history.now)) }
    ensures later { result.1 ≡ place (is_same_id (guid x.now)) (servents (reverse history.now)) }
{
    let mut route = None;
    let mut later = 0usize;
    for i in 0..history.len() {
        let hit = hit_in(&history[..i], &history[i]);
        route = route_with(hit, x, route);
        later = place_with(&history[..i], hit, x, later);
    }
    (route, later)
}

/// The connection that leads to the servent, where it is remembered.
#[tactic(auto, using(crate::proofs::PlaceLemmas::found_among, crate::proofs::PlaceLemmas::missed_among))]
pub(crate) fn servent_route<A: Allocator>(
    config: &Config,
    history: &[Step<A>],
    x: &Guid,
) -> Option<ConnId>
    ensures { result ≡ rules.servent_route config.now (reverse history.now) x.now }
{
    let (route, later) = last_hit(history, &x.0);
    if later < config.numbers.servents as usize {
        route
    } else {
        None
    }
}
