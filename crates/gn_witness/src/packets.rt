//! What the laws of one router say of a packet that waited for a connection, and of two packets of one key.

ghost use Rattle.std.specs.Prelude.{◌≡◌, ◌<◌, IsTrue, reverse};
ghost use Rattle.gn_wire.specs.Keys.{is_same_key, key_of};
ghost use Rattle.gn_rules.specs.History.{sends_of};
ghost use Rattle.gn_paths.specs.Sends.{is_kept_kind, sends_of_key};
ghost use Rattle.gn_witness.specs.Packets.{Queued, SentAgain, WasSent};

use crate::legality::{is_legal, is_next};
use crate::links::was_taken;
use gn_paths::{not_sent_again, nothing_from_nowhere};
use gn_rules::{Config, ConnId, Step};
use gn_wire::{Descriptor, Key, Kind};
use std::alloc::Allocator;

/// Whether a packet was taken from a connection in a legal history, so it had been queued to it. Takes no memory.
pub fn was_queued<A: Allocator>(
    config: &Config,
    steps: &[Step<A>],
    c: ConnId,
    packet: &Descriptor<A>,
) -> bool
    ensures { IsTrue result → Queued config.now (reverse steps.now) c packet.now }
{
    nothing_from_nowhere::<A>();
    if !is_legal(config, steps) {
        return false;
    }
    was_taken(steps, c, packet)
}

/// Whether a descriptor of this kind is remembered.
fn is_kept(kind: Kind) -> bool
    ensures { result ≡ is_kept_kind kind }
{
    matches!(kind, Kind::Ping | Kind::Query | Kind::Push)
}

/// Whether a packet has this key.
#[tactic(auto, using(gn_wire::proofs::KeyLemmas::same_key))]
fn has_key<A: Allocator>(packet: &Descriptor<A>, key: &Key) -> bool
    ensures { result ≡ is_same_key key.now (key_of packet.now) }
{
    *key == packet.key()
}

/// Whether a step sends a packet of this key.
fn sends_key<A: Allocator>(step: &Step<A>, key: &Key) -> bool
    ensures { IsTrue result → 0 < sends_of_key key.now (sends_of step.now.reply) }
{
    for sending in step.reply.sends() {
        if has_key(&sending.packet, key) {
            return true;
        }
    }
    false
}

/// Whether one of these steps sends a packet of this key.
fn was_sent<A: Allocator>(steps: &[Step<A>], key: &Key) -> bool
    ensures { IsTrue result → WasSent (reverse steps.now) key.now }
{
    for step in steps {
        if sends_key(step, key) {
            return true;
        }
    }
    false
}

/// Whether a step after these steps sends a packet of this key, as one of them did, where all are legal. Takes no memory.
pub fn sent_again<A: Allocator>(
    config: &Config,
    past: &[Step<A>],
    step: &Step<A>,
    key: &Key,
) -> bool
    ensures { IsTrue result → SentAgain config.now (reverse past.now) step.now key.now }
{
    not_sent_again::<A>();
    if !is_kept(key.kind) {
        return false;
    }
    if !was_sent(past, key) {
        return false;
    }
    if !sends_key(step, key) {
        return false;
    }
    is_next(config, past, step)
}
