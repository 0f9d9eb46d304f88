//! Searches of a history for its connections.

ghost use Rattle.std.specs.Prelude.{◌≡◌, ◌≤◌, ◌+◌, ◌++◌, ◌||◌, ◌&&◌, filter, length, not, reverse, true, IfSome};
ghost use Rattle.std.specs.Option.{option_to_list};
ghost use Rattle.gn_rules.specs.History.{connected_of, connections, is_at, is_close, live, live_connections};
ghost use Rattle.gn_search.specs.Places.{live_from};

use gn_rules::{ConnId, Step};
use std::alloc::Allocator;

/// Whether the connection is live after a step, where it was so before.
fn live_after<A: Allocator>(step: &Step<A>, c: ConnId, before: bool) -> bool
    ensures { result ≡ (is_at c (connected_of step.now.reply) || (not (is_close c step.now.event) && before)) }
{
    match step.reply.connected() {
        Some(d) if d == c => true,
        _ => before && !step.event.closes(c),
    }
}

/// Whether the connection is live.
pub(crate) fn is_live<A: Allocator>(history: &[Step<A>], c: ConnId) -> bool
    ensures { result ≡ live (reverse history.now) c }
{
    let mut live = false;
    for step in history {
        live = live_after(step, c, live);
    }
    live
}

/// How many connections were made.
pub(crate) fn connection_count<A: Allocator>(history: &[Step<A>]) -> usize
    ensures value { result ≡ length (connections (reverse history.now)) }
    ensures bound { result ≤ length history.now }
{
    let mut count = 0usize;
    for step in history {
        count += usize::from(step.reply.connected().is_some());
    }
    count
}

/// The connection that a step made, where it is live.
fn live_made<A: Allocator>(history: &[Step<A>], step: &Step<A>) -> Option<ConnId>
    ensures value { option_to_list result
        ≡ filter (live (reverse history.now)) (option_to_list (connected_of step.now.reply)) }
    ensures live { IfSome result (λ c. live (reverse history.now) c ≡ true) }
{
    let c = step.reply.connected()?;
    if is_live(history, c) { Some(c) } else { None }
}

/// How many connections are live.
pub(crate) fn live_count<A: Allocator>(history: &[Step<A>]) -> usize
    ensures value { result ≡ length (live_connections (reverse history.now)) }
    ensures bound { result ≤ length history.now }
{
    let mut count = 0usize;
    for step in history {
        count += usize::from(live_made(history, step).is_some());
    }
    count
}

/// The live connection that the step at this place made.
pub(crate) fn live_at<A: Allocator>(history: &[Step<A>], place: u32) -> Option<ConnId>
    ensures at { live_from history.now place ≡ option_to_list result ++ live_from history.now (place + 1) }
    ensures live { IfSome result (λ c. live (reverse history.now) c ≡ true) }
{
    let place = place as usize;
    if place >= history.len() {
        return None;
    }
    live_made(history, &history[place])
}
