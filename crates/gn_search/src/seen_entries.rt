//! Searches of a history for the descriptors that are remembered.

ghost use Rattle.std.specs.Prelude.{◌≡◌, ◌+◌, ◌^◌, ◌<◌, ◌≤◌, reverse};
ghost use Rattle.std.specs.Map.{lookup};
ghost use Rattle.gn_wire.specs.Keys.{is_same_key};
ghost use Rattle.gn_rules.specs.SeenEntries as rules;
ghost use Rattle.gn_search.specs.Place.{later_after, place, source_after};

use crate::admitted::admission_in;
use gn_rules::{Config, ConnId, Event, Reply, Step};
use gn_wire::Key;
use std::alloc::Allocator;

/// The key and the source that a step keeps after this history.
fn entry_in<A: Allocator>(history: &[Step<A>], step: &Step<A>) -> Option<(Key, ConnId)>
    ensures { result ≡ rules.entry_of (reverse history.now) step.now.event step.now.reply }
{
    match &step.event {
        Event::Route(t) => {
            let (origin, packet) = admission_in(history, *t)?;
            if step.reply.keeps(packet.kind()) {
                Some((packet.key(), origin))
            } else {
                None
            }
        }
        Event::Originate(packet) => match &step.reply {
            Reply::Sent(_) => Some((packet.key(), 0)),
            _ => None,
        },
        _ => None,
    }
}

/// The source of the key, after one more entry.
#[tactic(auto, using(gn_wire::proofs::KeyLemmas::same_key))]
fn source_with(entry: Option<(Key, ConnId)>, key: &Key, source: Option<ConnId>) -> Option<ConnId>
    ensures { result ≡ source_after key.now entry source }
{
    match entry {
        Some((other, origin)) if *key == other => Some(origin),
        _ => source,
    }
}

/// How many entries are kept after the last one of the key, after one more entry.
#[tactic(auto, using(gn_wire::proofs::KeyLemmas::same_key))]
fn later_with(entry: Option<(Key, ConnId)>, key: &Key, later: usize) -> usize
    requires { later + 1 < 2 ^ 64 }
    ensures value { result ≡ later_after key.now entry later }
    ensures bound { result ≤ later + 1 }
{
    match entry {
        None => later,
        Some((other, _)) if *key == other => 0,
        Some(_) => later + 1,
    }
}

/// The source of the key's last kept entry, and how many seen entries are kept after it.
fn last_entry<A: Allocator>(history: &[Step<A>], key: &Key) -> (Option<ConnId>, usize)
    ensures source { result.0 ≡ lookup (is_same_key key.now) (rules.seen_entries (reverse history.now)) }
    ensures later { result.1 ≡ place (is_same_key key.now) (rules.seen_entries (reverse history.now)) }
{
    let mut source = None;
    let mut later = 0usize;
    for i in 0..history.len() {
        let entry = entry_in(&history[..i], &history[i]);
        source = source_with(entry, key, source);
        later = later_with(entry, key, later);
    }
    (source, later)
}

/// The source of the key, where it is remembered.
#[tactic(auto, using(crate::proofs::PlaceLemmas::found_among, crate::proofs::PlaceLemmas::missed_among))]
pub(crate) fn source_of<A: Allocator>(
    config: &Config,
    history: &[Step<A>],
    key: &Key,
) -> Option<ConnId>
    ensures { result ≡ rules.source config.now (reverse history.now) key.now }
{
    let (source, later) = last_entry(history, key);
    if later < config.numbers.seen as usize {
        source
    } else {
        None
    }
}
