//! Two routers that one link joins, and that remember all: a flood ends there.

ghost use Rattle.std.specs.Prelude.{◌≤◌, IsTrue, length, reverse};
ghost use Rattle.gn_rules.specs.SeenEntries.{seen_entries};
ghost use Rattle.gn_witness.specs.Pair.{Ends};

use crate::pair::are_joined;
use gn_paths::floods_end;
use gn_rules::{Config, ConnId, Step};
use std::alloc::Allocator;

/// Whether there are no more steps than entries are remembered.
#[tactic(auto, using(crate::proofs::RememberedLemmas::kept_within, gn_rules::proofs::PastLemmas::past_length))]
fn remembers_all<A: Allocator>(config: &Config, steps: &[Step<A>]) -> bool
    ensures { IsTrue result → length (seen_entries (reverse steps.now)) ≤ config.now.numbers.seen }
{
    steps.len() <= config.numbers.seen as usize
}

/// As `are_joined`, and whether neither router made more steps than it remembers entries. Takes no memory.
pub fn ends<A: Allocator>(
    config: &Config,
    first: &[Step<A>],
    c: ConnId,
    second: &[Step<A>],
    d: ConnId,
) -> bool
    ensures { IsTrue result → Ends config.now (reverse first.now) c (reverse second.now) d }
{
    floods_end::<A>();
    if !remembers_all(config, first) {
        return false;
    }
    if !remembers_all(config, second) {
        return false;
    }
    are_joined(config, first, c, second, d)
}
